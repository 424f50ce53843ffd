//! Disks that can't be opened.
use super::steps::{outcome_of, work, worked};
use super::*;
use std::sync::Wait;
use tap_disk::Disk;
use tap_journal::{Journal, JournalFault};

/// Why a disk isn't opened, which is handed back.
fn refused(
    rt: &impl Abort,
    alloc: Global,
    disk: MemoryDisk,
    cards: u32,
    seats: u16,
) -> OpenFault<MemoryDisk> {
    read(rt, alloc, disk, cards, seats)
        .err()
        .expect(rt, "the disk was opened")
}

#[test]
fn a_number_out_of_its_limits_costs_no_disk_call(rt: HostRuntime) {
    let alloc = rt.alloc();
    for (cards, seats) in [(0, 1), (100_001, 1), (CARDS, 0), (CARDS, 65)] {
        let fault = refused(&rt, alloc, disk_of(&rt, alloc, 5, &[]), cards, seats);
        assert_same(&rt, fault.cause, JournalFault::BadLimit);
        assert_same(&rt, fault.disk.calls(), 0);
    }
    for seats in [1, 64] {
        let disk = disk_of(&rt, alloc, 5, &[]);
        assert_that(&rt, read(&rt, alloc, disk, CARDS, seats).is_ok());
    }
}

#[test]
fn a_touch_that_was_journalled_twice_is_damage(rt: HostRuntime) {
    let alloc = rt.alloc();
    for (touches, place) in [([ISSUE, ISSUE, TOP_UP], 1), ([ISSUE, TOP_UP, ISSUE], 2)] {
        let fault = refused(&rt, alloc, disk_of(&rt, alloc, 5, &touches), CARDS, 1);
        assert_same(&rt, fault.cause, JournalFault::Damaged(place));
        assert_same(&rt, fault.disk.failures(), 0);
    }
}

/// How many touches a journal on this disk has.
fn count_on(rt: &impl Abort, alloc: Global, disk: MemoryDisk) -> usize {
    let digest = table(alloc).expect(rt, "the table wasn't read").digest();
    let (_, touches) = Journal::open(alloc, disk, CARDS, &digest)
        .ok()
        .expect(rt, "the journal wasn't opened");
    touches.len()
}

/// The journal alone knows nothing of gates and numbers.
#[test]
fn a_touch_that_was_appended_twice_is_damage_and_the_disk_is_handed_back(rt: HostRuntime) {
    let alloc = rt.alloc();
    let disk = disk_of(&rt, alloc, 5, &[ISSUE, ISSUE]);
    assert_same(
        &rt,
        count_on(&rt, alloc, crashed(&rt, &disk, Choice::Old)),
        2,
    );
    let fault = refused(&rt, alloc, disk, CARDS, 1);
    assert_same(&rt, fault.cause, JournalFault::Damaged(1));
    assert_same(&rt, count_on(&rt, alloc, fault.disk), 2);
}

/// A disk that failed, handed back and mended, is opened with its two touches.
fn assert_opened_again<R: Wait + Abort>(rt: &R, alloc: Global, fault: OpenFault<MemoryDisk>) {
    assert_same(rt, fault.cause, JournalFault::Device);
    let mut disk = fault.disk;
    disk.fail_at(0);
    let steps = [from_first(TOP_UP, Answer::Again(1, REPLIES[1]))];
    let outcome = outcome_of(rt, alloc, disk, &steps);
    assert_same(rt, outcome, worked(2, 2000, 2));
}

/// The last call reads on behind the journal's end, to count open slots. Where that one alone
/// fails, the disk is opened and they are not counted.
#[test]
fn an_opening_that_failed_can_be_made_again(rt: HostRuntime) {
    let alloc = rt.alloc();
    let base = disk_of(&rt, alloc, 5, &[ISSUE, TOP_UP]);
    let calls = opening_calls(&rt, alloc, &base);
    assert_that(&rt, 1 < calls);
    for stop in 0..calls {
        let mut disk = crashed(&rt, &base, Choice::New);
        disk.stop_after(stop);
        match read(&rt, alloc, disk, CARDS, 2) {
            Err(fault) => assert_opened_again(&rt, alloc, fault),
            Ok(opening) => assert_same(&rt, (stop + 1, opening.behind()), (calls, None)),
        }
    }
}

/// How many disk calls an opening of such a disk makes.
pub fn opening_calls<R: Wait + Abort>(rt: &R, alloc: Global, base: &MemoryDisk) -> u64 {
    let mut disk = crashed(rt, base, Choice::New);
    disk.stop_after(1_000_000);
    work(rt, alloc, disk, &[]).1.calls()
}
