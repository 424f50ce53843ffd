//! Bytes that are no header, and the printed text of each fault.

use super::*;
use std::test::Fail;

/// The first bytes of a connection, how many of them are left, and why they are no header.
struct Refused {
    bytes: &'static [u8],
    left: usize,
    fault: HeaderFault,
    text: &'static str,
}

const REFUSED: [Refused; 14] = [
    // A gate that connects without HAProxy: an issue of card 1.
    Refused {
        bytes: b"\x00\x0f\x04\x00\x07\x00\x00\x00\x01\x00\x00\x00\x01\x67\x7b\x8b\x28",
        left: 1,
        fault: HeaderFault::Signature,
        text: "no signature of the PROXY protocol, version 2",
    },
    // Version 1 of the protocol, in text.
    Refused {
        bytes: b"PROXY TCP4 127.0.0.1 127.0.0.1 34382 46489\r\n",
        left: 28,
        fault: HeaderFault::Signature,
        text: "no signature of the PROXY protocol, version 2",
    },
    Refused {
        bytes: b"\r\n\r\n\x00\r\nQUIT\n\x10\x00\x00\x00",
        left: 0,
        fault: HeaderFault::Version(1),
        text: "version 1, not 2",
    },
    Refused {
        bytes: b"\r\n\r\n\x00\r\nQUIT\n\x31\x11\x00\x0c",
        left: 0,
        fault: HeaderFault::Version(3),
        text: "version 3, not 2",
    },
    Refused {
        bytes: b"\r\n\r\n\x00\r\nQUIT\n\x22\x11\x00\x0c",
        left: 0,
        fault: HeaderFault::Command(2),
        text: "command 2, neither LOCAL nor PROXY",
    },
    // UDP over IPv4.
    Refused {
        bytes: b"\r\n\r\n\x00\r\nQUIT\n\x21\x12\x00\x0c",
        left: 0,
        fault: HeaderFault::Family(0x12),
        text: "unknown address family and transport 0x12",
    },
    Refused {
        bytes: b"\r\n\r\n\x00\r\nQUIT\n\x21\x01\x00\x00",
        left: 0,
        fault: HeaderFault::Family(0x01),
        text: "unknown address family and transport 0x01",
    },
    Refused {
        bytes: b"\r\n\r\n\x00\r\nQUIT\n\x21\x11\x00\x0b",
        left: 0,
        fault: HeaderFault::Length {
            found: 11,
            needed: 12,
        },
        text: "length 11, but the addresses of its family have 12 bytes",
    },
    Refused {
        bytes: b"\r\n\r\n\x00\r\nQUIT\n\x21\x21\x00\x23",
        left: 0,
        fault: HeaderFault::Length {
            found: 35,
            needed: 36,
        },
        text: "length 35, but the addresses of its family have 36 bytes",
    },
    Refused {
        bytes: b"\r\n\r\n\x00\r\nQUIT\n\x21\x31\x00\xd7",
        left: 0,
        fault: HeaderFault::Length {
            found: 215,
            needed: 216,
        },
        text: "length 215, but the addresses of its family have 216 bytes",
    },
    Refused {
        bytes: b"\r\n\r\n\x00\r\nQUIT\n\x21\x11\x02\x09",
        left: 0,
        fault: HeaderFault::TooLong(521),
        text: "length 521, over the limit of 520 bytes",
    },
    Refused {
        bytes: b"\r\n\r\n\x00\r\nQUIT\n\x20\x00\xff\xff",
        left: 0,
        fault: HeaderFault::TooLong(65_535),
        text: "length 65535, over the limit of 520 bytes",
    },
    Refused {
        bytes: b"\r\n\r\n\x00\r\nQUIT\n\x20\x00\x00\x01",
        left: 0,
        fault: HeaderFault::Cut,
        text: "the connection ended inside the header",
    },
    Refused {
        bytes: b"",
        left: 0,
        fault: HeaderFault::Cut,
        text: "the connection ended inside the header",
    },
];

#[test]
fn each_fault_is_returned_with_its_text(rt: HostRuntime) -> Result<(), Fail> {
    for row in &REFUSED {
        let (read, left) = read_from(row.bytes, 5, false);
        assert_same_at(&rt, fault_of(&read), Some(row.fault), row.bytes);
        assert_same_at(&rt, left, row.left, row.bytes);
        let text = format!(in rt.alloc(); "{}", row.fault)?;
        assert_same_at(&rt, text.as_str(), row.text, row.bytes);
    }
    Ok(())
}

/// TLVs behind the addresses that are refused.
const BAD_TLVS: [&[u8]; 11] = [
    // A type without a length, half a length, and a value of which a byte is missing.
    b"\x04",
    b"\x04\x00",
    b"\x04\x00\x02\x00",
    // The same behind a whole TLV.
    b"\x04\x00\x01\x00\x04\x00",
    // An SSL TLV of four bytes, and of none.
    b"\x20\x00\x04\x07\x00\x00\x00",
    b"\x20\x00\x00",
    // A second SSL TLV, which has no name.
    b"\x20\x00\x05\x00\x00\x00\x00\x00\x20\x00\x05\x00\x00\x00\x00\x00",
    // A second name, in a verified certificate and in none.
    b"\x20\x00\x0d\x07\x00\x00\x00\x00\x22\x00\x01a\x22\x00\x01a",
    b"\x20\x00\x0d\x00\x00\x00\x00\x00\x22\x00\x01a\x22\x00\x01b",
    // A name that goes over the end of the SSL TLV, into the TLV that follows.
    b"\x20\x00\x09\x07\x00\x00\x00\x00\x22\x00\x02a\x04\x00\x00",
    // A length of the SSL TLV over the end.
    b"\x20\x00\x0a\x07\x00\x00\x00\x00\x22\x00\x01a",
];

#[test]
fn bad_tlvs_are_refused(rt: HostRuntime) -> Result<(), Fail> {
    for tlvs in BAD_TLVS {
        let bytes = header(rt.alloc(), 0x21, 0x11, &[ADDRESSES, tlvs])?;
        let (read, left) = read_from(&bytes, 1_000, false);
        assert_same_at(&rt, fault_of(&read), Some(HeaderFault::Tlv), tlvs);
        assert_same_at(&rt, left, 0, tlvs);
    }
    Ok(())
}
