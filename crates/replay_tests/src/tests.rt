//! A module for each library, of its public names alone.

mod of_gate_session;
mod of_line_replay;
mod of_reply_book;
mod of_text_io;

use std::fmt::Debug;
use std::process::Abort;

/// These are equal.
fn assert_same<T: PartialEq + Debug + Copy>(rt: &impl Abort, found: T, want: T) {
    assert_eq!(rt; found, want);
}

/// These are equal, in the case that is named.
fn assert_same_at<T: PartialEq + Debug + Copy, C: Debug + Copy>(
    rt: &impl Abort,
    found: T,
    want: T,
    at: C,
) {
    assert_eq!(rt; found, want, "{at:?}");
}
