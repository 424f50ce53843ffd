//! What no clause says of serving lines: that each connection is served, each answer is sent before
//! the next request is waited for, and each session is counted by its end.

ghost use Rattle.tap_office.specs.Name.{IsNameOf};
ghost use Rattle.tap_office.specs.Opening.{opened_of};

use super::notices::Unwatched;
use super::scripts::{Frame, Heard, Script, ScriptLine, whole};
use super::*;
use office_lines::{
    GateLine, Post, Service, Tally, new_post, seats_and_desks, serve_all, tallies_of,
};
use station_door::StationDoor;
use std::alloc::AllocError;
use std::marker::Brand;
use std::sync::Wait;
use std::sync::atomic::{AtomicU64, Ordering};
use std::test::Fail;
use std::thread::Threads;
use std::time::Clock;
use tap_office::{Desk, Named, Office, Seat};

/// The posts of a server: a line for each seat.
fn posts_of<'a, N: Named, R: AllocGlobal>(
    clock: &'a R,
    scripts: &'a [Script],
    heard: &'a Heard,
    seats: Vec<Seat<N>>,
    desks: Vec<Desk<N>>,
) -> Result<Vec<Post<ScriptLine<'a, R>, N>>, AllocError> {
    let mut posts = Vec::new(clock.alloc());
    for (seat, desk) in seats.into_iter().zip(desks) {
        let line = ScriptLine {
            clock,
            line: posts.len(),
            scripts,
            next: 0,
            heard,
        };
        posts.push(new_post(line, seat, desk))?;
    }
    Ok(posts)
}

/// Closes an office against its posts' seats and desks, and tells how many entries the history has.
fn close_posts<L: Drop, N: Named, R: AllocGlobal + Wait>(
    rt: &R,
    office: Office<N, MemoryDisk>,
    posts: Vec<Post<L, N>>,
) -> Result<u32, Fail> {
    let seats = Vec::with_capacity(rt.alloc(), posts.len())?;
    let desks = Vec::with_capacity(rt.alloc(), posts.len())?;
    let (seats, desks) = seats_and_desks(posts, seats, desks);
    let closed = office
        .close(rt, seats, &desks)
        .ok()
        .ok_or("the office wasn't closed")?;
    Ok(closed.book.len())
}

/// Serves an office's posts, closes it, and tells each line's tally and how many entries the
/// history has.
fn serve_posts<
    L: GateLine + Drop + Send,
    N: Named + Send + Sync,
    R: AllocGlobal + Threads + Wait + Clock + Sync,
>(
    rt: &R,
    office: Office<N, MemoryDisk>,
    posts: Vec<Post<L, N>>,
    door: Option<&StationDoor>,
) -> Result<(Vec<Tally>, u32), Fail> {
    let alloc = rt.alloc();
    let mut posts = posts;
    let service = Service {
        office,
        watch: &Unwatched,
        connections: 10,
        door,
    };
    serve_all(rt, alloc, &service, posts.as_mut_slice());
    let tallies = Vec::with_capacity(alloc, posts.len())?;
    let tallies = tallies_of(posts.as_slice(), tallies);
    let entries = close_posts(rt, service.office, posts)?;
    Ok((tallies, entries))
}

/// Serves these connections from the office of an opening.
fn serve_lines<'a, N: Named + Send + Sync, R: AllocGlobal + Clock + Threads + Wait + Sync>(
    rt: &'a R,
    opening: Opening<MemoryDisk>,
    scripts: &'a [Script],
    heard: &'a Heard,
    door: Option<&StationDoor>,
) -> Result<(Vec<Tally>, u32), Fail>
    requires { IsNameOf N.opened N.name N.parts N.commit_log N.table (opened_of opening) }
{
    let (office, seats, desks) = opening
        .office::<N, R>(rt, rt.alloc())
        .ok()
        .ok_or("no office was made")?;
    let posts = posts_of(rt, scripts, heard, seats, desks)?;
    serve_posts(rt, office, posts, door)
}

/// Serves these connections over so many lines, from a new journal with room for so many touches.
fn served<R: AllocGlobal + Clock + Threads + Wait + Sync + Abort>(
    rt: &R,
    lines: u16,
    capacity: u32,
    scripts: &[Script],
) -> Result<(Vec<Tally>, u32), Fail> {
    served_at(rt, lines, capacity, scripts, None)
}

/// The same at a door.
pub(super) fn served_at<R: AllocGlobal + Clock + Threads + Wait + Sync + Abort>(
    rt: &R,
    lines: u16,
    capacity: u32,
    scripts: &[Script],
    door: Option<&StationDoor>,
) -> Result<(Vec<Tally>, u32), Fail> {
    let heard = Heard {
        bytes: AtomicU64::new(0),
        wrong: AtomicU64::new(0),
    };
    let opening = new_opening(rt.alloc(), capacity, lines).expect(rt, "the disk wasn't opened");
    let told = serve_lines::<Brand, R>(rt, opening, scripts, &heard, door)?;
    assert_same(rt, heard.wrong.load(Ordering::Relaxed), 0);
    Ok(told)
}

#[test]
fn each_connection_of_each_line_is_served_and_counted_by_its_end(
    rt: HostRuntime,
) -> Result<(), Fail> {
    let scripts = [
        // the touch whose answer was lost is sent again on the next connection
        Script {
            takes: 22,
            ..whole(0, &[Frame::Issue, Frame::TopUp], &[Frame::Issued])
        },
        whole(
            0,
            &[Frame::TopUp, Frame::Ask],
            &[Frame::ToppedUp, Frame::Holding],
        ),
        // a bad frame, a frame that is cut off, and a read that fails
        whole(1, &[Frame::Bad, Frame::Issue], &[Frame::BadFrame]),
        whole(1, &[Frame::Cut], &[]),
        Script {
            fails: true,
            ..whole(1, &[], &[])
        },
    ];
    let (tallies, entries) = served(&rt, 2, 2, &scripts)?;
    let first = Tally {
        connections: 2,
        requests: 4,
        answers: 3,
        ends: [1, 0, 0, 0, 1, 0, 0],
    };
    let second = Tally {
        connections: 3,
        requests: 0,
        answers: 1,
        ends: [0, 1, 1, 1, 0, 0, 0],
    };
    assert_same(&rt, tallies.as_slice(), [first, second].as_slice());
    assert_same(&rt, entries, 2);
    Ok(())
}

/// A connection with five requests gets an answer to each, from a new journal with room for so many
/// touches, which is full then.
fn assert_five_answered<R: AllocGlobal + Clock + Threads + Wait + Sync + Abort>(
    rt: &R,
    capacity: u32,
    script: Script,
) -> Result<(), Fail> {
    let (tallies, entries) = served(rt, 1, capacity, &[script])?;
    let tally = Tally {
        connections: 1,
        requests: 5,
        answers: 5,
        ends: [1, 0, 0, 0, 0, 0, 0],
    };
    assert_same(rt, tallies.as_slice(), [tally].as_slice());
    assert_same(rt, entries, capacity);
    Ok(())
}

#[test]
fn a_full_history_goes_on_to_answer(rt: HostRuntime) -> Result<(), Fail> {
    let full = whole(
        0,
        &[
            Frame::Issue,
            Frame::TopUp,
            Frame::Enter,
            Frame::TopUp,
            Frame::Ask,
        ],
        &[
            Frame::Issued,
            Frame::ToppedUp,
            Frame::Full,
            Frame::ToppedUp,
            Frame::Holding,
        ],
    );
    assert_five_answered(&rt, 2, full)
}

#[test]
fn a_revision_is_answered_and_one_to_an_unknown_table_is_no_entry(
    rt: HostRuntime,
) -> Result<(), Fail> {
    // under one number: what was no entry is judged anew
    let revised = whole(
        0,
        &[
            Frame::Issue,
            Frame::TopUp,
            Frame::ReviseUnknown,
            Frame::Revise,
            Frame::Revise,
        ],
        &[
            Frame::Issued,
            Frame::ToppedUp,
            Frame::UnknownTable,
            Frame::Revised,
            Frame::Revised,
        ],
    );
    assert_five_answered(&rt, 3, revised)
}

#[test]
fn two_lines_are_served_at_once(rt: HostRuntime) -> Result<(), Fail> {
    // each gate tops its card up behind the first answers of both
    let scripts = [
        Script {
            after: 44,
            ..whole(
                0,
                &[Frame::FirstIssue, Frame::FirstTopUp],
                &[Frame::FirstIssued, Frame::FirstToppedUp],
            )
        },
        Script {
            after: 44,
            ..whole(
                1,
                &[Frame::SecondIssue, Frame::SecondTopUp],
                &[Frame::SecondIssued, Frame::SecondToppedUp],
            )
        },
    ];
    let (tallies, entries) = served(&rt, 2, 4, &scripts)?;
    let tally = Tally {
        connections: 1,
        requests: 2,
        answers: 2,
        ends: [1, 0, 0, 0, 0, 0, 0],
    };
    assert_same(&rt, tallies.as_slice(), [tally, tally].as_slice());
    assert_same(&rt, entries, 4);
    Ok(())
}
