//! The three standard descriptors, where the program was started with one of them closed.

use std::fs::{File, OpenOptions};
use std::os::fd::AsRawFd;
use std::rt::Files;

/// The highest number of a standard descriptor: that of standard error.
const HIGHEST: i32 = 2;

/// Takes those of the descriptors 0 to 2 that are closed, for as long as the answer lives: each
/// then reads as empty, and what is written to it is lost.
///
/// A program that was started with standard error closed would else be given its number for a
/// connection, and a notice would go to a gate. Where /dev/null isn't there, they stay closed.
pub fn standard_files<R: Files<File = File>>(rt: &R) -> [Option<File>; 3] {
    [closed_one(rt), closed_one(rt), closed_one(rt)]
}

/// Takes the lowest closed descriptor, if it is a standard one.
fn closed_one<R: Files<File = File>>(rt: &R) -> Option<File> {
    let file = OpenOptions::new()
        .read(true)
        .write(true)
        .open(rt, "/dev/null")
        .ok()?;
    (file.as_raw_fd() <= HIGHEST).then_some(file)
}
