//! Names that are taken, that count for nothing, and that are refused.

use super::*;
use std::test::Fail;

/// A header of a client with these bits and this verification, whose certificate has this name.
fn with_name(alloc: Global, client: u8, verify: &[u8], name: &[u8]) -> Result<Vec<u8>, AllocError> {
    let size = size_of(name).to_be_bytes();
    let whole = size_of(name).wrapping_add(8).to_be_bytes();
    let ssl: [&[u8]; 8] = [
        ADDRESSES,
        b"\x20",
        &whole,
        &[client],
        verify,
        b"\x22",
        &size,
        name,
    ];
    header(alloc, 0x21, 0x11, &ssl)
}

#[test]
fn a_name_of_1_to_64_bytes_is_taken(rt: HostRuntime) -> Result<(), Fail> {
    for name in [
        "7",
        "gate 7, Bank",
        // 64 bytes.
        "0123456789abcdef0123456789abcdef0123456789abcdef0123456789abcdef",
        // Two, three and four bytes a character; U+00A0 comes after the last control character.
        "Zo\u{eb}, \u{a0}\u{20ac} \u{1f689}",
    ] {
        let bytes = with_name(rt.alloc(), 0x07, b"\x00\x00\x00\x00", name.as_bytes())?;
        let (read, _) = read_from(&bytes, 1_000, false);
        assert_same_at(&rt, is_named(&read, Some(name)), true, name);
    }
    Ok(())
}

#[test]
fn a_bad_name_is_refused(rt: HostRuntime) -> Result<(), Fail> {
    let names: [&[u8]; 9] = [
        b"",
        // 65 bytes.
        b"0123456789abcdef0123456789abcdef0123456789abcdef0123456789abcdef0",
        // Not UTF-8: a byte alone, a character that is cut, and a surrogate.
        b"gate\xff",
        b"gate\xc3",
        b"\xed\xa0\x80",
        // Control characters: NUL, line feed, delete, and U+0085.
        b"gate\x007",
        b"gate-7\n",
        b"gate\x7f7",
        b"gate\xc2\x857",
    ];
    for name in names {
        let bytes = with_name(rt.alloc(), 0x07, b"\x00\x00\x00\x00", name)?;
        let (read, _) = read_from(&bytes, 1_000, false);
        assert_same_at(&rt, fault_of(&read), Some(HeaderFault::Name), name);
        // Where it counts for nothing, it isn't looked at.
        let bytes = with_name(rt.alloc(), 0x01, b"\x00\x00\x00\x00", name)?;
        let (read, _) = read_from(&bytes, 1_000, false);
        assert_same_at(&rt, is_named(&read, None), true, name);
    }
    Ok(())
}

#[test]
fn a_name_counts_with_a_certificate_that_is_verified(rt: HostRuntime) -> Result<(), Fail> {
    let verified: &[u8] = b"\x00\x00\x00\x00";
    let rows: [(u8, &[u8], bool); 12] = [
        (0x00, verified, false),
        (0x01, verified, false),
        (0x02, verified, true),
        (0x03, verified, true),
        (0x04, verified, true),
        (0x05, verified, true),
        (0x06, verified, true),
        (0xf9, verified, false),
        (0x07, b"\x00\x00\x00\x01", false),
        (0x07, b"\x00\x00\x01\x00", false),
        (0x07, b"\x00\x01\x00\x00", false),
        (0x07, b"\x01\x00\x00\x00", false),
    ];
    for (client, verify, counts) in rows {
        let bytes = with_name(rt.alloc(), client, verify, b"gate-7")?;
        let (read, _) = read_from(&bytes, 1_000, false);
        let name = if counts { Some("gate-7") } else { None };
        assert_same_at(&rt, is_named(&read, name), true, (client, verify));
    }
    Ok(())
}

/// An SSL TLV of a client with a verified certificate.
const SSL: &[u8] = b"\x20\x00\x0e\x07\x00\x00\x00\x00\x22\x00\x06gate-7";

#[test]
fn local_headers_have_no_name(rt: HostRuntime) -> Result<(), Fail> {
    let alloc = rt.alloc();
    // Whatever the family, and whatever follows.
    for (family, rest) in [
        (0x00, b"".as_slice()),
        (0x11, ADDRESSES),
        (0x12, b"\x20\x00"),
        (0x00, SSL),
    ] {
        let bytes = header(alloc, 0x20, family, &[rest])?;
        let (read, left) = read_from(&bytes, 1_000, false);
        assert_same_at(&rt, is_named(&read, None), true, (family, rest));
        assert_same_at(&rt, left, 0, (family, rest));
    }
    Ok(())
}

#[test]
fn each_family_has_its_addresses(rt: HostRuntime) -> Result<(), Fail> {
    let alloc = rt.alloc();
    let zeros = [0; 520];
    for (family, size) in [(0x00, 0), (0x11, 12), (0x21, 36), (0x31, 216)] {
        let addresses = zeros.get(..size).unwrap_or(b"");
        let bytes = header(alloc, 0x21, family, &[addresses, SSL])?;
        let (read, _) = read_from(&bytes, 1_000, false);
        assert_same_at(&rt, is_named(&read, Some("gate-7")), true, family);
    }
    // The most bytes: the last TLV has type 4 and 488 bytes.
    let filler: [&[u8]; 4] = [ADDRESSES, SSL, b"\x04\x01\xe8", &zeros[..488]];
    let bytes = header(alloc, 0x21, 0x11, &filler)?;
    assert_same_at(&rt, bytes.len(), 536, "whole");
    let (read, _) = read_from(&bytes, 1_000, false);
    assert_same_at(&rt, is_named(&read, Some("gate-7")), true, "whole");
    Ok(())
}
