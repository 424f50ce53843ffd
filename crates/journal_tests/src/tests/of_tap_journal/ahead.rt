//! Touches recorded with the next one written ahead, and calls of the disk that stop or fail
//! meanwhile.
use super::appending::{OPENING, assert_goes_on, of_one};
use super::*;

/// How two appends in a row end.
type Ends = (Result<(), JournalFault>, Result<(), JournalFault>);

/// The disk fails at the first.
const NEITHER: Ends = (Err(JournalFault::Device), Err(JournalFault::Stopped));
/// The disk fails at the second.
const FIRST: Ends = (Ok(()), Err(JournalFault::Device));
/// Both are recorded.
const BOTH: Ends = (Ok(()), Ok(()));

/// Records the second and the third touch in a row, where this one is written ahead of the second
/// and the fourth touch ahead of the third.
fn take_two(journal: &mut Journal<MemoryDisk>, ahead: &Touch) -> Ends {
    let first = journal.append_ahead(&TOUCHES[1], || Some(*ahead));
    let second = journal.append_ahead(&TOUCHES[2], || Some(TOUCHES[3]));
    (first, second)
}

/// The disk of a journal of one touch after the next two, which end so by so many calls.
fn assert_two(
    rt: &impl Abort,
    alloc: Global,
    disk: MemoryDisk,
    ahead: &Touch,
    want: Ends,
    made: u32,
) -> MemoryDisk {
    let mut journal = open(rt, alloc, disk);
    assert_same(rt, take_two(&mut journal, ahead), want);
    let disk = journal.close();
    assert_calls(rt, &disk, OPENING + u64::from(made));
    disk
}

/// A disk with the journal of the first touch, on which so many calls pass behind the opening.
fn of_one_stopped(rt: &impl Abort, alloc: Global, calls: u32) -> MemoryDisk {
    let mut disk = of_one(rt, alloc);
    disk.stop_after(OPENING + u64::from(calls));
    disk
}

/// A disk with the journal of the first touch, on which this call behind the opening fails.
fn of_one_failing(rt: &impl Abort, alloc: Global, call: u32) -> MemoryDisk {
    let mut disk = of_one(rt, alloc);
    disk.fail_at(OPENING + u64::from(call));
    disk
}

#[test]
fn a_stop_with_a_touch_written_ahead_leaves_the_touch_or_not(rt: HostRuntime) {
    // After so many calls: how both end, how many calls were made, how many touches each choice
    // leaves, and how many the disk itself has. The third touch is there already: three calls.
    for (calls, ends, made, left, here) in [
        (0, NEITHER, 1, [Ok(1); 4], 1),
        (1, NEITHER, 2, [Ok(1); 4], 1),
        (2, NEITHER, 3, [Ok(1); 4], 1),
        (3, NEITHER, 4, [Ok(1), Ok(2), Ok(1), Ok(2)], 2),
        (4, NEITHER, 5, [Ok(1), Ok(2), Ok(1), Ok(2)], 2),
        (5, FIRST, 6, [Ok(2); 4], 2),
        (6, FIRST, 7, [Ok(2), Ok(3), Ok(2), Ok(3)], 3),
        (7, FIRST, 8, [Ok(2), Ok(3), Ok(2), Ok(3)], 3),
        (8, BOTH, 8, [Ok(3); 4], 3),
    ] {
        let disk = of_one_stopped(&rt, rt.alloc(), calls);
        let disk = assert_two(&rt, rt.alloc(), disk, &TOUCHES[2], ends, made);
        assert_goes_on(&rt, rt.alloc(), disk, &left, here, &calls);
    }
}

#[test]
fn a_failure_with_a_touch_written_ahead_leaves_the_touch_or_not(rt: HostRuntime) {
    // The call that fails: how both end, how many touches each choice leaves, and how many the disk
    // itself has.
    for (call, ends, left, here) in [
        (1, NEITHER, [Ok(1); 4], 1),
        (2, NEITHER, [Ok(1); 4], 1),
        (3, NEITHER, [Ok(1), Ok(2), Ok(1), Ok(2)], 1),
        (4, NEITHER, [Ok(1), Ok(2), Ok(1), Ok(2)], 2),
        (5, NEITHER, [Ok(1), Ok(2), Ok(1), Ok(2)], 2),
        (6, FIRST, [Ok(2), Ok(3), Ok(2), Ok(3)], 2),
        (7, FIRST, [Ok(2), Ok(3), Ok(2), Ok(3)], 3),
        (8, FIRST, [Ok(2), Ok(3), Ok(2), Ok(3)], 3),
    ] {
        let disk = of_one_failing(&rt, rt.alloc(), call);
        let disk = assert_two(&rt, rt.alloc(), disk, &TOUCHES[2], ends, call);
        assert_failures(&rt, &disk, 1);
        assert_goes_on(&rt, rt.alloc(), disk, &left, here, &call);
    }
}

#[test]
fn another_touch_than_the_one_written_ahead_is_written_over_it(rt: HostRuntime) {
    // The fourth touch was written ahead where the third comes: five calls more.
    for (calls, ends, made, left, here) in [
        (5, FIRST, 6, [Ok(2); 4], 2),
        (6, FIRST, 7, [Ok(2); 4], 2),
        (7, FIRST, 8, [Ok(2); 4], 2),
        (8, FIRST, 9, [Ok(2), Ok(3), Ok(2), Ok(3)], 3),
        (9, FIRST, 10, [Ok(2), Ok(3), Ok(2), Ok(3)], 3),
        (10, BOTH, 10, [Ok(3); 4], 3),
    ] {
        let disk = of_one_stopped(&rt, rt.alloc(), calls);
        let disk = assert_two(&rt, rt.alloc(), disk, &TOUCHES[3], ends, made);
        assert_goes_on(&rt, rt.alloc(), disk, &left, here, &calls);
    }
}

/// Records all four touches in a journal of capacity 4, each with the next one written ahead, and
/// with a revision where there is no room for it. How many of them are Ok.
fn take_four(journal: &mut Journal<MemoryDisk>) -> u32 {
    let mut taken: u32 = 0;
    for (place, touch) in TOUCHES.iter().enumerate() {
        let next = TOUCHES.get(place + 1).unwrap_or(&REVISION);
        if journal.append_ahead(touch, || Some(*next)).is_ok() {
            taken = taken.saturating_add(1);
        }
    }
    taken
}

#[test]
fn touches_written_ahead_take_three_calls_and_two_at_the_last_slot(rt: HostRuntime) {
    let mut journal = new_journal(&rt, rt.alloc(), 4);
    assert_same(&rt, take_four(&mut journal), 4);
    assert_append(&rt, &mut journal, &REVISION, Err(JournalFault::Full));
    let disk = journal.close();
    assert_calls(&rt, &disk, 7 + 5 + 3 + 3 + 2);
    let disk = assert_found(&rt, rt.alloc(), disk, Ok(4), &"full");
    drop(disk);
}

#[test]
fn a_touch_written_ahead_is_none(rt: HostRuntime) {
    let mut journal = new_journal(&rt, rt.alloc(), 4);
    let taken = journal.append_ahead(&TOUCHES[0], || Some(TOUCHES[1]));
    assert_same(&rt, taken, Ok(()));
    assert_count(&rt, &journal, 1);
    let disk = journal.close();
    assert_left(&rt, rt.alloc(), &disk, &[Ok(1); 4], &"closed");
    let journal = open(&rt, rt.alloc(), disk);
    assert_same(&rt, (journal.count(), journal.behind()), (1, Some(0)));
    drop(journal);
}

/// How often the journal asks for the next touch while it records this one.
fn asked(journal: &mut Journal<MemoryDisk>, touch: &Touch) -> u32 {
    let mut asked: u32 = 0;
    let _ = journal.append_ahead(touch, || {
        asked = asked.saturating_add(1);
        None
    });
    asked
}

#[test]
fn the_next_touch_is_asked_for_once_and_never_at_the_last_slot(rt: HostRuntime) {
    let mut journal = new_journal(&rt, rt.alloc(), 2);
    let first = asked(&mut journal, &TOUCHES[0]);
    let last = asked(&mut journal, &TOUCHES[1]);
    let full = asked(&mut journal, &TOUCHES[2]);
    assert_same(&rt, (first, last, full), (1, 0, 0));
    drop(journal);
}

#[test]
fn the_next_touch_is_asked_for_once_the_body_is_settled(rt: HostRuntime) {
    // The call of the append that fails, and how often the next touch was asked for.
    for (call, want) in [(1, 0), (2, 0), (3, 1), (4, 1)] {
        let mut journal = open(&rt, rt.alloc(), of_one_failing(&rt, rt.alloc(), call));
        let found = asked(&mut journal, &TOUCHES[1]);
        assert_same_at(&rt, found, want, &call);
        drop(journal);
    }
}
