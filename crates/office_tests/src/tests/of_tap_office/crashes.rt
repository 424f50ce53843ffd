//! Each stopped and each failed disk call of a commit, with each crash after it.
use super::openings::opening_calls;
use super::steps::{Outcome, outcome_of, work, worked};
use super::*;
use std::sync::Wait;

/// How many disk calls a commit of a new touch makes.
const COMMIT: u64 = 4;

/// What a touch is answered once the disk has failed.
const HALTED: Answer = Answer::Fault(SubmitFault::Halted);

/// How many calls an office makes on a disk with the issue of card 1, before its first commit.
fn calls_before<R: Wait + Abort>(rt: &R, alloc: Global) -> u64 {
    opening_calls(rt, alloc, &disk_of(rt, alloc, 5, &[ISSUE]))
}

/// An office on this disk, which holds the issue, answers the top-up, and then the touch in like
/// this. Gives the disk.
fn commit_two<R: Wait + Abort>(
    rt: &R,
    alloc: Global,
    disk: MemoryDisk,
    want: Answer,
) -> MemoryDisk {
    let steps = [
        from_first(TOP_UP, Answer::First(1, REPLIES[1])),
        from_first(ENTER, want),
    ];
    let (outcome, disk) = work(rt, alloc, disk, &steps);
    assert_same(rt, outcome.stray, None);
    assert_same(rt, outcome.end.halted, want == HALTED);
    assert_same(rt, outcome.end.cause, None);
    disk
}

/// Opens the disk and goes on. It has the issue and the top-up, in this order, and where there are
/// three touches the touch in: these get their first replies. The touch in is committed where it
/// isn't there, and so is the touch out.
fn go_on<R: Wait + Abort>(rt: &R, alloc: Global, disk: MemoryDisk, found: u32) {
    let enter = if found == 3 {
        Answer::Again(2, REPLIES[2])
    } else {
        Answer::First(2, REPLIES[2])
    };
    let steps = [
        from_first(ISSUE, Answer::Again(0, REPLIES[0])),
        from_first(TOP_UP, Answer::Again(1, REPLIES[1])),
        from_first(ENTER, enter),
        from_first(LEAVE, Answer::First(3, REPLIES[3])),
    ];
    let outcome = outcome_of(rt, alloc, disk, &steps);
    assert_same(rt, outcome, worked(found, 1650, 4));
}

/// Goes on from what each choice of a crash leaves, and from the disk as it is. They have so many
/// touches.
fn go_on_from<R: Wait + Abort>(rt: &R, alloc: Global, disk: MemoryDisk, left: [u32; 4], here: u32) {
    for (choice, found) in CHOICES.into_iter().zip(left) {
        go_on(rt, alloc, crashed(rt, &disk, choice), found);
    }
    let mut disk = disk;
    disk.fail_at(0);
    go_on(rt, alloc, disk, here);
}

#[test]
fn a_stop_at_each_disk_call_leaves_what_was_answered(rt: HostRuntime) {
    let alloc = rt.alloc();
    let before = calls_before(&rt, alloc).saturating_add(COMMIT);
    // How many calls of the second commit are made, its answer, how many touches each choice of a
    // crash leaves, and how many the disk has. The touch is written and synced, then its mark.
    let third = Answer::First(2, REPLIES[2]);
    for (calls, want, left, here) in [
        (0, HALTED, [2, 2, 2, 2], 2),
        (1, HALTED, [2, 2, 2, 2], 2),
        (2, HALTED, [2, 2, 2, 2], 2),
        (3, HALTED, [2, 3, 2, 3], 3),
        (4, third, [3, 3, 3, 3], 3),
    ] {
        let mut disk = disk_of(&rt, alloc, 5, &[ISSUE]);
        disk.stop_after(before.saturating_add(calls));
        let disk = commit_two(&rt, alloc, disk, want);
        go_on_from(&rt, alloc, disk, left, here);
    }
}

#[test]
fn a_failure_of_each_disk_call_leaves_what_was_answered(rt: HostRuntime) {
    let alloc = rt.alloc();
    let before = calls_before(&rt, alloc).saturating_add(COMMIT);
    // The call of the second commit that fails, its answer, how many touches each choice of a crash
    // leaves, and how many the disk has. The fifth call is never made.
    let third = Answer::First(2, REPLIES[2]);
    for (call, want, left, here) in [
        (1, HALTED, [2, 2, 2, 2], 2),
        (2, HALTED, [2, 2, 2, 2], 2),
        (3, HALTED, [2, 3, 2, 3], 2),
        (4, HALTED, [2, 3, 2, 3], 3),
        (5, third, [3, 3, 3, 3], 3),
    ] {
        let mut disk = disk_of(&rt, alloc, 5, &[ISSUE]);
        disk.fail_at(before.saturating_add(call));
        let disk = commit_two(&rt, alloc, disk, want);
        go_on_from(&rt, alloc, disk, left, here);
    }
}

/// An office on this disk is halted in its first commit: each further touch is, of either seat, and
/// a desk still answers of the issue. Opened again, the disk has so many touches.
fn assert_halts<R: Wait + Abort>(rt: &R, alloc: Global, disk: MemoryDisk, found: u32) {
    let steps = [
        from_first(TOP_UP, HALTED),
        from_first(ENTER, HALTED),
        from_first(ISSUE, HALTED),
        Step {
            seat: 1,
            touch: ISSUE,
            want: HALTED,
        },
    ];
    let (outcome, disk) = work(rt, alloc, disk, &steps);
    let end = End {
        cause: None,
        halted: true,
        entries: 1,
    };
    let want = Outcome {
        end,
        ..worked(1, 0, 1)
    };
    assert_same(rt, outcome, want);
    assert_same(rt, outcome_of(rt, alloc, disk, &[]).opened, found);
}

#[test]
fn a_failed_disk_call_halts_the_office(rt: HostRuntime) {
    let alloc = rt.alloc();
    let before = calls_before(&rt, alloc);
    for (call, found) in [(1, 1), (2, 1), (3, 1), (4, 2)] {
        let mut disk = disk_of(&rt, alloc, 5, &[ISSUE]);
        disk.fail_at(before.saturating_add(call));
        assert_halts(&rt, alloc, disk, found);
    }
}
