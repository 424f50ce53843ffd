//! A module for each library, of its public names alone.

ghost use Rattle.std.specs.Prelude.{IsTrue};

mod moments;
mod of_fare_schedule;
mod of_fare_table;
mod of_money_time;
mod of_oyster_account;
mod tables;

use std::fmt::Debug;
use std::process::Abort;

/// These are equal.
fn assert_same<T: PartialEq + Debug + Copy>(rt: &impl Abort, found: T, want: T) {
    assert_eq!(rt; found, want);
}

/// These are equal, in the case of `at`.
fn assert_same_at<T: PartialEq + Debug + Copy, C: Debug + Copy>(
    rt: &impl Abort,
    found: T,
    want: T,
    at: C,
) {
    assert_eq!(rt; found, want, "{at:?}");
}

/// This holds.
fn assert_that(rt: &impl Abort, holds: bool)
    ensures { IsTrue holds }
{
    assert!(rt; holds);
}
