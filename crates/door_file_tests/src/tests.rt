//! Doors with values worked out by hand, and the line of each fault.
mod doors;
mod faults;
mod keys;
mod names;
mod refused;
mod rules;

use door_file::{Door, DoorFault};
use std::alloc::Global;
use std::fmt::Debug;
use std::process::Abort;

/// These are equal.
fn assert_same<T: PartialEq + Debug + Copy>(rt: &impl Abort, found: T, want: T) {
    assert_eq!(rt; found, want);
}

/// These are equal, in the case of `at`.
fn assert_same_at<T: PartialEq + Debug + Copy, C: Debug + Copy>(
    rt: &impl Abort,
    found: T,
    want: T,
    at: C,
) {
    assert_eq!(rt; found, want, "{at:?}");
}

/// The door of a text, read again where memory was refused.
fn read_again(alloc: Global, text: &str) -> Result<Door, DoorFault> {
    match Door::read(alloc, text) {
        Err(DoorFault::Memory) => Door::read(alloc, text),
        read => read,
    }
}
