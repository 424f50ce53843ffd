mod captured;
mod faults;
mod names;

use proxy_header::{Header, HeaderFault, read_header};
use std::alloc::{AllocError, Global};
use std::fmt::Debug;
use std::process::Abort;
use test_streams::Pieces;

/// What a header of version 2 begins with.
const SIGNATURE: &[u8] = b"\r\n\r\n\x00\r\nQUIT\n";

/// Twelve bytes of addresses: TCP over IPv4, with the family 0x11.
const ADDRESSES: &[u8] = b"\x7f\x00\x00\x01\x7f\x00\x00\x01\x86\x4e\xb5\x99";

/// These are equal, in this case.
fn assert_same_at<T: PartialEq + Debug + Copy, C: Debug + Copy>(
    rt: &impl Abort,
    found: T,
    want: T,
    at: C,
) {
    assert_eq!(rt; found, want, "{at:?}");
}

/// Reads a header from a reader that gives these bytes, so many a read, and then ends or fails.
/// Also how many of the bytes are left.
fn read_from(bytes: &[u8], size: usize, fails: bool) -> (Result<Header, HeaderFault>, usize) {
    let mut reader = Pieces {
        rest: bytes,
        size,
        fails,
    };
    let read = read_header(&mut reader);
    (read, reader.rest.len())
}

/// The fault for which no header was read, or none.
fn fault_of(read: &Result<Header, HeaderFault>) -> Option<HeaderFault> {
    match read {
        Ok(_) => None,
        Err(fault) => Some(*fault),
    }
}

/// Whether a header was read that gives this name, or none.
fn is_named(read: &Result<Header, HeaderFault>, name: Option<&str>) -> bool {
    match (read, name) {
        (Ok(Header { name: Some(found) }), Some(name)) => found.as_str() == name,
        (Ok(Header { name: None }), None) => true,
        _ => false,
    }
}

/// How many bytes these are. No header of a test has more than 65,535.
fn size_of(bytes: &[u8]) -> u16 {
    u16::try_from(bytes.len()).unwrap_or(u16::MAX)
}

/// A header with this version and command, this family and these bytes behind its first 16.
fn header(alloc: Global, start: u8, family: u8, rest: &[&[u8]]) -> Result<Vec<u8>, AllocError> {
    let mut body = Vec::new(alloc);
    for part in rest {
        body.extend_from_slice(part)?;
    }
    let mut bytes = Vec::from_slice(alloc, SIGNATURE)?;
    bytes.extend_from_slice(&[start, family])?;
    bytes.extend_from_slice(&size_of(&body).to_be_bytes())?;
    bytes.extend_from_slice(&body)?;
    Ok(bytes)
}
