//! A module for each library, of its public names alone.

mod of_journal_audit;
mod of_tap_journal;

use std::fmt::Debug;
use std::process::Abort;

/// A journal of two touches with capacity 5 for 10 cards: the header, the issue of card 1 and its
/// top-up by 2000 pence, and the closed mark of the third slot (JOURNAL.md, "An example").
const FILE: [u8; 193] = *b"\xa5OYSTERJ2\x00\x00\x00\x05\x00\x00\x00\x0a\
    0123456789abcdef0123456789abcdef\
    \x00\x00\x00\x00\x00\x00\x00\x00\x00\x00\x00\x00\x00\x00\x00\
    \xa5\x04\x00\x07\x00\x00\x00\x01\x00\x00\x00\x01\x67\x7b\x8b\x28\
    \x00\x00\x00\x00\x00\x00\x00\x00\x00\x00\x00\x00\x00\x00\x00\x00\
    \x00\x00\x00\x00\x00\x00\x00\x00\x00\x00\x00\x00\x00\x00\x00\x00\
    \x00\x00\x00\x00\x00\x00\x00\x00\x00\x00\x00\x00\x00\x00\x00\x00\
    \xa5\x03\x00\x07\x00\x00\x00\x02\x00\x00\x00\x01\x00\x00\x07\xd0\x67\x7b\x8c\x54\
    \x00\x00\x00\x00\x00\x00\x00\x00\x00\x00\x00\x00\
    \x00\x00\x00\x00\x00\x00\x00\x00\x00\x00\x00\x00\x00\x00\x00\x00\
    \x00\x00\x00\x00\x00\x00\x00\x00\x00\x00\x00\x00\x00\x00\x00\x00\
    \x00";

/// The file with these bytes changed.
fn with(file: [u8; 193], changes: &[(usize, u8)]) -> [u8; 193] {
    let mut bytes = file;
    for (at, byte) in changes {
        if let Some(place) = bytes.get_mut(*at) {
            *place = *byte;
        }
    }
    bytes
}

/// Asserts that both values are equal.
fn assert_same<T: PartialEq + Debug + Copy>(rt: &impl Abort, found: T, want: T) {
    assert_eq!(rt; found, want);
}

/// Asserts that both values are equal in the case `at`, which a failure prints.
fn assert_same_at<T: PartialEq + Debug + Copy, C: Debug + Copy>(
    rt: &impl Abort,
    found: T,
    want: T,
    at: C,
) {
    assert_eq!(rt; found, want, "{at:?}");
}
