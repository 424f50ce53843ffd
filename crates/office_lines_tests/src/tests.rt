mod doors;
mod notices;
mod report;
mod scripts;
mod serve;
mod sessions;

use fare_schedule::Schedule;
use fare_table::{EXAMPLE_TABLE, Fares};
use reply_book::NameHashing;
use std::alloc::Global;
use std::fmt::Debug;
use std::process::Abort;
use tap_disk::{Choice, MemoryDisk};
use tap_journal::Journal;
use tap_office::Opening;

/// These are equal.
fn assert_same<T: PartialEq + Debug + Copy>(rt: &impl Abort, found: T, want: T) {
    assert_eq!(rt; found, want);
}

/// These are equal, in this case.
fn assert_same_at<T: PartialEq + Debug + Copy, C: Debug + Copy>(
    rt: &impl Abort,
    found: T,
    want: T,
    at: C,
) {
    assert_eq!(rt; found, want, "{at:?}");
}

/// A disk in memory with a new journal of a table, for so many touches of 10 cards.
fn new_disk(alloc: Global, digest: &[u8; 32], capacity: u32) -> Option<MemoryDisk> {
    let disk = MemoryDisk::new(alloc).ok()?;
    let journal = Journal::create(disk, capacity, 10, digest).ok()?;
    journal.close().crash(Choice::New).ok()
}

/// The opening of a new journal for so many touches, by the example table.
fn new_opening(alloc: Global, capacity: u32, seats: u16) -> Option<Opening<MemoryDisk>> {
    let fares = Fares::read(alloc, EXAMPLE_TABLE).ok()?;
    let disk = new_disk(alloc, &fares.digest(), capacity)?;
    let schedule = Schedule::new(alloc, fares).ok()?;
    Opening::read(alloc, NameHashing::fixed(), disk, schedule, 10, seats).ok()
}
