//! A keeper that one thread has, without the lock of an office.
ghost use Rattle.tap_office.specs.Name.{IsNameOf};
ghost use Rattle.tap_office.specs.Opening.{opened_of};

use super::openings::opening_calls;
use super::steps::learn;
use super::*;
use std::marker::Brand;
use std::sync::Wait;
use tap_office::Named;

/// Makes a keeper of two seats, commits touches from the first of them, and asks for card 1. A
/// desk learns each receipt.
fn kept<N: Named, R: Wait + Abort>(
    rt: &R,
    alloc: Global,
    opening: Opening<MemoryDisk>,
    steps: &[(Touch, Answer)],
) -> Option<Enquiry>
    requires { IsNameOf N.opened N.name N.parts N.commit_log N.table (opened_of opening) }
{
    let (mut keeper, mut seats, mut desks) = opening.keeper::<N, R>(rt, alloc).ok()?;
    assert_same(rt, (seats.len(), desks.len()), (2, 2));
    let seat = seats.first_mut()?;
    let desk = desks.first_mut()?;
    for (touch, want) in steps {
        let receipt = keeper.commit(rt, seat, *touch).ok()?;
        assert_same(rt, learn(rt, desk, receipt), *want);
    }
    desk.enquire(1)
}

/// The same by a name of its own.
fn try_kept<R: Wait + Abort>(
    rt: &R,
    alloc: Global,
    opening: Opening<MemoryDisk>,
    steps: &[(Touch, Answer)],
) -> Option<Enquiry> {
    kept::<Brand, R>(rt, alloc, opening, steps)
}

#[test]
fn a_keeper_goes_on_with_what_was_opened(rt: HostRuntime) {
    let alloc = rt.alloc();
    let disk = disk_of(&rt, alloc, 5, &[ISSUE]);
    let opening = read(&rt, alloc, disk, CARDS, 2)
        .ok()
        .expect(&rt, "the disk wasn't opened");
    let steps = [
        (ISSUE, Answer::Again(0, REPLIES[0])),
        (TOP_UP, Answer::First(1, REPLIES[1])),
    ];
    let asked = try_kept(&rt, alloc, opening, &steps);
    assert_same(&rt, asked, outside(2000, 2));
}

/// Makes a keeper of two seats, and commits touches from the first of them, each with the next one
/// written ahead. How many of them are answered.
fn answered_ahead<N: Named, R: Wait + Abort>(
    rt: &R,
    alloc: Global,
    opening: Opening<MemoryDisk>,
    touches: &[Touch],
) -> Option<u32>
    requires { IsNameOf N.opened N.name N.parts N.commit_log N.table (opened_of opening) }
{
    let (mut keeper, mut seats, _desks) = opening.keeper::<N, R>(rt, alloc).ok()?;
    let seat = seats.first_mut()?;
    let mut answered: u32 = 0;
    for (place, touch) in touches.iter().enumerate() {
        let next = touches.get(place.saturating_add(1)).copied();
        if keeper.commit_ahead(rt, seat, *touch, move || next).is_ok() {
            answered = answered.saturating_add(1);
        }
    }
    Some(answered)
}

/// The same by a name of its own.
fn try_ahead<R: Wait + Abort>(
    rt: &R,
    alloc: Global,
    opening: Opening<MemoryDisk>,
    touches: &[Touch],
) -> Option<u32> {
    answered_ahead::<Brand, R>(rt, alloc, opening, touches)
}

#[test]
fn touches_written_ahead_take_one_sync_each(rt: HostRuntime) {
    let alloc = rt.alloc();
    let disk = disk_of(&rt, alloc, 5, &[ISSUE]);
    let before = opening_calls(&rt, alloc, &disk);
    // Five calls, then three, and two for the last: with one less it isn't answered.
    for (calls, answered) in [(9, 2), (10, 3)] {
        let mut disk = disk_of(&rt, alloc, 5, &[ISSUE]);
        disk.stop_after(before.saturating_add(calls));
        let opening = read(&rt, alloc, disk, CARDS, 2)
            .ok()
            .expect(&rt, "the disk wasn't opened");
        let found = try_ahead(&rt, alloc, opening, &[TOP_UP, ENTER, LEAVE]);
        assert_same_at(&rt, found, Some(answered), calls);
    }
}
