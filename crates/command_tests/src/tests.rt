//! A module for each library, of its public names alone.

mod of_command_line;
mod of_console;
mod of_line_replay;
mod of_program_options;
mod of_table_check;

use std::fmt::Debug;
use std::process::Abort;

/// Asserts that both values are equal.
fn assert_same<T: PartialEq + Debug + Copy>(rt: &impl Abort, found: T, want: T) {
    assert_eq!(rt; found, want);
}

/// Asserts that both values are equal in the case `at`, which a failure prints.
fn assert_same_at<T: PartialEq + Debug + Copy, C: Debug + Copy>(
    rt: &impl Abort,
    found: T,
    want: T,
    at: C,
) {
    assert_eq!(rt; found, want, "{at:?}");
}
