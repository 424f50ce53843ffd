//! A module for each library, of its public names alone.

mod of_tap_desk;
mod of_tap_office;

use std::fmt::Debug;
use std::process::Abort;

/// These are equal.
fn assert_same<T: PartialEq + Debug + Copy>(rt: &impl Abort, found: T, want: T) {
    assert_eq!(rt; found, want);
}
