//! Headers that HAProxy 2.6.12 sent, with its options send-proxy-v2-ssl-cn and check-send-proxy.

use super::*;
use std::test::Fail;

/// A header as it was sent, and the name that it gives.
struct Captured {
    bytes: &'static [u8],
    name: Option<&'static str>,
}

const CAPTURED: [Captured; 7] = [
    // A client over IPv4 with a certificate.
    Captured {
        bytes: b"\x0d\x0a\x0d\x0a\x00\x0d\x0a\x51\x55\x49\x54\x0a\x21\x11\x00\x27\x7f\x00\x00\x01\
            \x7f\x00\x00\x01\x86\x4e\xb5\x99\x20\x00\x18\x07\x00\x00\x00\x00\x21\x00\x07\x54\
            \x4c\x53\x76\x31\x2e\x33\x22\x00\x06\x67\x61\x74\x65\x2d\x37",
        name: Some("gate-7"),
    },
    // A client over IPv4 with no certificate.
    Captured {
        bytes: b"\x0d\x0a\x0d\x0a\x00\x0d\x0a\x51\x55\x49\x54\x0a\x21\x11\x00\x1e\x7f\x00\x00\x01\
            \x7f\x00\x00\x01\x86\x5a\xb5\x99\x20\x00\x0f\x01\x00\x00\x00\x00\x21\x00\x07\x54\
            \x4c\x53\x76\x31\x2e\x33",
        name: None,
    },
    // A client over IPv6 with a certificate.
    Captured {
        bytes: b"\x0d\x0a\x0d\x0a\x00\x0d\x0a\x51\x55\x49\x54\x0a\x21\x21\x00\x3f\x00\x00\x00\x00\
            \x00\x00\x00\x00\x00\x00\x00\x00\x00\x00\x00\x01\x00\x00\x00\x00\x00\x00\x00\x00\
            \x00\x00\x00\x00\x00\x00\x00\x01\xb8\x5c\xd9\xf3\x20\x00\x18\x07\x00\x00\x00\x00\
            \x21\x00\x07\x54\x4c\x53\x76\x31\x2e\x33\x22\x00\x06\x67\x61\x74\x65\x2d\x37",
        name: Some("gate-7"),
    },
    // A client over IPv6 with no certificate.
    Captured {
        bytes: b"\x0d\x0a\x0d\x0a\x00\x0d\x0a\x51\x55\x49\x54\x0a\x21\x21\x00\x36\x00\x00\x00\x00\
            \x00\x00\x00\x00\x00\x00\x00\x00\x00\x00\x00\x01\x00\x00\x00\x00\x00\x00\x00\x00\
            \x00\x00\x00\x00\x00\x00\x00\x01\xb8\x5e\xd9\xf3\x20\x00\x0f\x01\x00\x00\x00\x00\
            \x21\x00\x07\x54\x4c\x53\x76\x31\x2e\x33",
        name: None,
    },
    // A client that resumed its TLS session, and presented its certificate before.
    Captured {
        bytes: b"\x0d\x0a\x0d\x0a\x00\x0d\x0a\x51\x55\x49\x54\x0a\x21\x11\x00\x27\x7f\x00\x00\x01\
            \x7f\x00\x00\x01\x86\x66\xb5\x99\x20\x00\x18\x05\x00\x00\x00\x00\x21\x00\x07\x54\
            \x4c\x53\x76\x31\x2e\x32\x22\x00\x06\x67\x61\x74\x65\x2d\x37",
        name: Some("gate-7"),
    },
    // A certificate of another authority, which HAProxy let through: the verification is 0x12.
    Captured {
        bytes: b"\x0d\x0a\x0d\x0a\x00\x0d\x0a\x51\x55\x49\x54\x0a\x21\x11\x00\x27\x7f\x00\x00\x01\
            \x7f\x00\x00\x01\xe5\x10\xc6\xcb\x20\x00\x18\x07\x00\x00\x00\x12\x21\x00\x07\x54\
            \x4c\x53\x76\x31\x2e\x33\x22\x00\x06\x67\x61\x74\x65\x2d\x37",
        name: None,
    },
    // A health check.
    Captured {
        bytes: b"\x0d\x0a\x0d\x0a\x00\x0d\x0a\x51\x55\x49\x54\x0a\x20\x00\x00\x08\x20\x00\x05\x00\
            \x00\x00\x00\x00",
        name: None,
    },
];

// A gate's first bytes follow. They are left, however few bytes a read gives.
#[test]
fn each_header_is_read_and_what_follows_is_left(rt: HostRuntime) -> Result<(), Fail> {
    let alloc = rt.alloc();
    for row in &CAPTURED {
        let mut bytes = Vec::from_slice(alloc, row.bytes)?;
        bytes.extend_from_slice(b"\x00\x05\x05")?;
        for size in [1, 2, 15, 16, 17, 1_000] {
            let (read, left) = read_from(&bytes, size, true);
            assert_same_at(&rt, is_named(&read, row.name), true, (row.bytes, size));
            assert_same_at(&rt, left, 3, (row.bytes, size));
        }
    }
    Ok(())
}

#[test]
fn a_header_that_is_cut_anywhere_is_refused(rt: HostRuntime) {
    for row in &CAPTURED {
        for end in 0..row.bytes.len() {
            let cut = row.bytes.get(..end).unwrap_or(b"");
            let (ended, _) = read_from(cut, 7, false);
            assert_same_at(
                &rt,
                fault_of(&ended),
                Some(HeaderFault::Cut),
                (row.bytes, end),
            );
            let (failed, _) = read_from(cut, 7, true);
            assert_same_at(
                &rt,
                fault_of(&failed),
                Some(HeaderFault::Read),
                (row.bytes, end),
            );
        }
    }
}
