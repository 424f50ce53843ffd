//! How many new touches an office's journal still takes.
ghost use Rattle.tap_office.specs.Name.{IsNameOf};
ghost use Rattle.tap_office.specs.Opening.{opened_of};

use super::openings::opening_calls;
use super::*;
use std::marker::Brand;
use std::sync::Wait;
use tap_office::{Named, Office, Seat};

/// What an office was asked: the room for the issue, for the top-up, for another top-up under the
/// number of that one, and for the touch in.
type Rooms = [Option<u32>; 4];

/// Asks it.
fn ask<N: Named, R: Wait + Abort>(rt: &R, office: &Office<N, MemoryDisk>) -> Rooms {
    [
        office.room_for(rt, &ISSUE),
        office.room_for(rt, &TOP_UP),
        office.room_for(rt, &top_up(7, 2, 3000)),
        office.room_for(rt, &ENTER),
    ]
}

/// Submits the touches. How many of them are answered.
fn submit_all<N: Named, R: Wait + Abort>(
    rt: &R,
    office: &Office<N, MemoryDisk>,
    seat: &mut Seat<N>,
    touches: &[Touch],
) -> u32 {
    let mut answered: u32 = 0;
    for touch in touches {
        if office.submit(rt, seat, *touch).is_ok() {
            answered = answered.saturating_add(1);
        }
    }
    answered
}

/// Makes an office of two seats, submits the touches from the first of them, and asks for the room.
/// How many touches were answered, and what it was told.
fn asked<N: Named, R: Wait + Abort>(
    rt: &R,
    alloc: Global,
    opening: Opening<MemoryDisk>,
    touches: &[Touch],
) -> Option<(u32, Rooms)>
    requires { IsNameOf N.opened N.name N.parts N.commit_log N.table (opened_of opening) }
{
    let (office, mut seats, _desks) = opening.office::<N, R>(rt, alloc).ok()?;
    let answered = submit_all(rt, &office, seats.first_mut()?, touches);
    Some((answered, ask(rt, &office)))
}

/// The same by a name of its own.
fn try_asked<R: Wait + Abort>(
    rt: &R,
    alloc: Global,
    opening: Opening<MemoryDisk>,
    touches: &[Touch],
) -> Option<(u32, Rooms)> {
    asked::<Brand, R>(rt, alloc, opening, touches)
}

/// An office on this disk answers so many of the touches, and then tells this room.
fn assert_asked<R: Wait + Abort>(
    rt: &R,
    alloc: Global,
    disk: MemoryDisk,
    touches: &[Touch],
    want: (u32, Rooms),
) {
    let opening = read(rt, alloc, disk, CARDS, 2)
        .ok()
        .expect(rt, "the disk wasn't opened");
    assert_same(rt, try_asked(rt, alloc, opening, touches), Some(want));
}

#[test]
fn each_new_touch_takes_room_and_a_repeat_none(rt: HostRuntime) {
    let alloc = rt.alloc();
    let disk = disk_of(&rt, alloc, 5, &[]);
    assert_asked(&rt, alloc, disk, &[], (0, [Some(5); 4]));
    let disk = disk_of(&rt, alloc, 5, &[]);
    let want = [None, Some(4), Some(4), Some(4)];
    assert_asked(&rt, alloc, disk, &[ISSUE, ISSUE], (2, want));
    let disk = disk_of(&rt, alloc, 5, &[ISSUE]);
    let want = [None, None, Some(3), Some(3)];
    assert_asked(&rt, alloc, disk, &[TOP_UP, top_up(7, 2, 3000)], (1, want));
}

#[test]
fn a_full_journal_has_no_room_for_a_new_touch(rt: HostRuntime) {
    let alloc = rt.alloc();
    let disk = disk_of(&rt, alloc, 2, &[ISSUE]);
    let want = [None, None, Some(0), Some(0)];
    assert_asked(&rt, alloc, disk, &[TOP_UP, ENTER], (1, want));
}

/// The top-up isn't in the history, whether the disk has it or not.
#[test]
fn a_halted_office_tells_the_room_of_its_history(rt: HostRuntime) {
    let alloc = rt.alloc();
    let before = opening_calls(&rt, alloc, &disk_of(&rt, alloc, 5, &[ISSUE]));
    for call in [1, 4] {
        let mut disk = disk_of(&rt, alloc, 5, &[ISSUE]);
        disk.fail_at(before.saturating_add(call));
        let want = [None, Some(4), Some(4), Some(4)];
        assert_asked(&rt, alloc, disk, &[TOP_UP, ISSUE], (0, want));
    }
}
