//! Sessions with an office whose readers and writers give and take little, end early, or fail.

ghost use Rattle.tap_office.specs.Name.{IsNameOf};
ghost use Rattle.tap_office.specs.Opening.{opened_of};

use super::notices::Counting;
use super::*;
use gate_session::{End, Served, serve};
use office_lines::{OfficeClerk, code_of};
use std::marker::Brand;
use std::sync::Wait;
use std::sync::atomic::{AtomicU64, Ordering};
use tap_office::{Desk, Named, Office, Seat, SubmitFault};
use test_streams::{Pieces, Taker};

/// The first example: card 1 is issued by gate 7 at 07:50 on Monday, 6 January 2025, topped up by
/// 20 pounds at 07:55, touched in at station 2 at 08:00, and out at station 1 at 08:25.
const MORNING: &[u8] = b"\x00\x0f\x04\x00\x07\x00\x00\x00\x01\x00\x00\x00\x01\x67\x7b\x8b\x28\
    \x00\x13\x03\x00\x07\x00\x00\x00\x02\x00\x00\x00\x01\x00\x00\x07\xd0\x67\x7b\x8c\x54\
    \x00\x11\x01\x00\x07\x00\x00\x00\x03\x00\x00\x00\x01\x00\x02\x67\x7b\x8d\x80\
    \x00\x11\x02\x00\x07\x00\x00\x00\x04\x00\x00\x00\x01\x00\x01\x67\x7b\x93\x5c";

/// Behind so many bytes each of its frames ends.
const FRAME_ENDS: [usize; 5] = [0, 17, 38, 57, 76];

/// Its answers, of 22 bytes each: issued; topped up to 2000 pence; in, with 900 taken; out, with
/// 550 given back.
const ANSWERS: &[u8] =
    b"\x00\x14\x81\x00\x07\x00\x00\x00\x01\x08\x00\x00\x00\x00\x00\x00\x00\x00\x00\x00\x00\x00\
    \x00\x14\x81\x00\x07\x00\x00\x00\x02\x07\x00\x00\x07\xd0\x00\x00\x00\x00\x00\x00\x07\xd0\
    \x00\x14\x81\x00\x07\x00\x00\x00\x03\x01\xff\xff\xfc\x7c\x00\x00\x00\x00\x00\x00\x04\x4c\
    \x00\x14\x81\x00\x07\x00\x00\x00\x04\x04\x00\x00\x02\x26\x00\x00\x00\x00\x00\x00\x06\x72";

/// The bytes of the morning from this frame on, up to that one.
fn frames(from: usize, to: usize) -> &'static [u8] {
    let ends = (FRAME_ENDS.get(from), FRAME_ENDS.get(to));
    let (Some(start), Some(end)) = ends else {
        return b"";
    };
    MORNING.get(*start..*end).unwrap_or(b"")
}

/// The answers to these frames.
fn answers(from: usize, to: usize) -> &'static [u8] {
    let start = from.saturating_mul(22);
    ANSWERS.get(start..to.saturating_mul(22)).unwrap_or(b"")
}

/// How a gate's connection behaves.
#[derive(Clone, Copy)]
struct Trial {
    bytes: &'static [u8],
    /// The most bytes of a read, and of a write.
    piece: usize,
    /// Whether the reader fails behind the last byte, and doesn't end.
    reader_fails: bool,
    /// How many bytes the writer takes in all.
    room: usize,
    /// Whether the writer fails behind them, and doesn't take 0 bytes.
    writer_fails: bool,
}

/// A connection that gives these bytes in one piece, and takes all.
fn all_of(bytes: &'static [u8]) -> Trial {
    Trial {
        bytes,
        piece: 512,
        reader_fails: false,
        room: 512,
        writer_fails: false,
    }
}

/// What came of a session: what was served, the bytes written, how many entries an enquiry sees
/// behind it, and how many touches a watch was shown as accepted.
#[derive(Drop)]
struct Outcome {
    served: Served,
    taken: Vec<u8>,
    entries: Option<u32>,
    accepted: u64,
}

/// What came of two sessions, and how many entries the history has at the end.
#[derive(Drop)]
struct Outcomes {
    first: Outcome,
    second: Outcome,
    entries: u32,
}

/// Serves a session.
fn session<N: Named, R: Wait>(
    rt: &R,
    alloc: Global,
    office: &Office<N, MemoryDisk>,
    seat: &mut Seat<N>,
    desk: &mut Desk<N>,
    trial: Trial,
) -> Outcome {
    let mut reader = Pieces {
        rest: trial.bytes,
        size: trial.piece,
        fails: trial.reader_fails,
    };
    let mut writer = Taker {
        taken: Vec::new(alloc),
        size: trial.piece,
        left: trial.room,
        fails: trial.writer_fails,
        holds: false,
    };
    let watch = Counting {
        accepted: AtomicU64::new(0),
    };
    let served = {
        let mut clerk = OfficeClerk {
            office,
            watch: &watch,
            seat,
            desk,
        };
        serve(rt, alloc, &mut reader, &mut writer, &mut clerk, 1_000)
    };
    Outcome {
        served,
        taken: writer.taken,
        entries: desk.enquire(1).map(|enquiry| enquiry.front),
        accepted: watch.accepted.load(Ordering::Relaxed),
    }
}

/// Serves two sessions of a gate, one after the other, from the first seat.
fn two_sessions<N: Named, R: Wait>(
    rt: &R,
    alloc: Global,
    office: &Office<N, MemoryDisk>,
    seats: &mut [Seat<N>],
    desks: &mut [Desk<N>],
    trials: (Trial, Trial),
) -> Option<(Outcome, Outcome)> {
    let (Some(seat), Some(desk)) = (seats.first_mut(), desks.first_mut()) else {
        return None;
    };
    let first = session(rt, alloc, office, seat, desk, trials.0);
    let second = session(rt, alloc, office, seat, desk, trials.1);
    Some((first, second))
}

/// Serves two sessions of a gate, one after the other, and closes the office.
fn sessions<N: Named, R: Wait>(
    rt: &R,
    alloc: Global,
    opening: Opening<MemoryDisk>,
    first: Trial,
    second: Trial,
) -> Option<Outcomes>
    requires { IsNameOf N.opened N.name N.parts N.commit_log N.table (opened_of opening) }
{
    let (office, seats, desks) = opening.office::<N, R>(rt, alloc).ok()?;
    let mut seats = seats;
    let mut desks = desks;
    let (first, second) = two_sessions(
        rt,
        alloc,
        &office,
        seats.as_mut_slice(),
        desks.as_mut_slice(),
        (first, second),
    )?;
    let closed = office.close(rt, seats, &desks).ok()?;
    Some(Outcomes {
        first,
        second,
        entries: closed.book.len(),
    })
}

/// Serves two sessions from a new journal.
fn tried<R: AllocGlobal + Wait + Abort>(rt: &R, first: Trial, second: Trial) -> Outcomes {
    let alloc = rt.alloc();
    let opening = new_opening(alloc, 10, 1).expect(rt, "the disk wasn't opened");
    sessions::<Brand, R>(rt, alloc, opening, first, second).expect(rt, "no office was made")
}

/// What came of a session is this.
fn assert_served<R: Abort>(
    rt: &R,
    outcome: &Outcome,
    served: (u64, u64, End),
    taken: &[u8],
    entries: u32,
) {
    let (requests, answers, end) = served;
    let served = Served {
        requests,
        answers,
        end,
    };
    assert_same(rt, outcome.served, served);
    assert_same(rt, outcome.taken.as_slice(), taken);
    assert_same(rt, outcome.entries, Some(entries));
}

#[test]
fn a_touch_whose_answer_was_lost_is_answered_the_same_again(rt: HostRuntime) {
    // the third answer can't be written
    let lost = Trial {
        room: 44,
        writer_fails: true,
        ..all_of(frames(0, 3))
    };
    let outcomes = tried(&rt, lost, all_of(frames(2, 3)));
    let written = answers(0, 2);
    assert_served(&rt, &outcomes.first, (3, 2, End::WriteFault), written, 3);
    // in: 900 pence are taken, and 1100 are left
    let again = answers(2, 3);
    assert_served(&rt, &outcomes.second, (1, 1, End::Closed), again, 3);
    assert_same(&rt, outcomes.entries, 3);
}

#[test]
fn a_touch_whose_answer_was_written_in_part_is_recorded(rt: HostRuntime) {
    for (room, writer_fails) in [(7, true), (0, false)] {
        let broken = Trial {
            room,
            writer_fails,
            ..all_of(frames(0, 2))
        };
        let outcomes = tried(&rt, broken, all_of(b""));
        let part = ANSWERS.get(..room).unwrap_or(b"");
        assert_served(&rt, &outcomes.first, (1, 0, End::WriteFault), part, 1);
        assert_same(&rt, outcomes.entries, 1);
    }
}

#[test]
fn answers_may_be_taken_byte_by_byte(rt: HostRuntime) {
    let slow = Trial {
        piece: 1,
        ..all_of(frames(0, 2))
    };
    let outcomes = tried(&rt, slow, all_of(b""));
    let both = answers(0, 2);
    assert_served(&rt, &outcomes.first, (2, 2, End::Closed), both, 2);
    assert_same(&rt, outcomes.entries, 2);
}

#[test]
fn a_frame_that_is_cut_short_is_not_answered(rt: HostRuntime) {
    let outcomes = tried(&rt, all_of(b"\x00\x11"), all_of(b""));
    assert_served(&rt, &outcomes.first, (0, 0, End::CutFrame), b"", 0);
    assert_same(&rt, outcomes.entries, 0);
}

/// The frames from this one on are answered in the second session, and then all are recorded.
fn assert_rest<R: Abort>(rt: &R, outcomes: &Outcomes, from: usize) {
    let served = 4_u64.saturating_sub(from as u64);
    let rest = answers(from, 4);
    assert_served(rt, &outcomes.second, (served, served, End::Closed), rest, 4);
    assert_same(rt, outcomes.entries, 4);
}

/// A read fails behind so many bytes, which have so many whole frames.
fn fail_read<R: AllocGlobal + Wait + Abort>(rt: &R, bytes: usize, whole: u32) {
    let broken = Trial {
        piece: 1,
        reader_fails: true,
        ..all_of(MORNING.get(..bytes).unwrap_or(b""))
    };
    let outcomes = tried(rt, broken, all_of(frames(whole as usize, 4)));
    let served = u64::from(whole);
    let written = answers(0, whole as usize);
    let want = (served, served, End::ReadFault);
    assert_served(rt, &outcomes.first, want, written, whole);
    assert_rest(rt, &outcomes, whole as usize);
}

#[test]
fn each_read_that_fails_leaves_what_was_handed_over(rt: HostRuntime) {
    for (first, last, whole) in [
        (0, 17, 0),
        (17, 38, 1),
        (38, 57, 2),
        (57, 76, 3),
        (76, 77, 4),
    ] {
        for bytes in first..last {
            fail_read(&rt, bytes, whole);
        }
    }
}

/// A write fails behind so many bytes, which have so many whole answers.
fn fail_write<R: AllocGlobal + Wait + Abort>(rt: &R, bytes: usize, whole: u32) {
    let broken = Trial {
        piece: 1,
        room: bytes,
        writer_fails: true,
        ..all_of(MORNING)
    };
    let outcomes = tried(rt, broken, all_of(frames(whole as usize, 4)));
    let handed = whole.saturating_add(1);
    let written = ANSWERS.get(..bytes).unwrap_or(b"");
    let want = (u64::from(handed), u64::from(whole), End::WriteFault);
    assert_served(rt, &outcomes.first, want, written, handed);
    assert_rest(rt, &outcomes, whole as usize);
}

#[test]
fn each_write_that_fails_leaves_what_was_handed_over(rt: HostRuntime) {
    for (first, last, whole) in [(0, 22, 0), (22, 44, 1), (44, 66, 2), (66, 88, 3)] {
        for bytes in first..last {
            fail_write(&rt, bytes, whole);
        }
    }
}

/// Card 2, which was never issued, is touched in.
const REFUSED: &[u8] =
    b"\x00\x11\x01\x00\x07\x00\x00\x00\x05\x00\x00\x00\x02\x00\x02\x67\x7b\x8d\x80";

#[test]
fn a_watch_is_shown_each_touch_that_was_accepted_once(rt: HostRuntime) {
    // neither a repeat nor a refused touch is one more
    for later in [MORNING, REFUSED] {
        let outcomes = tried(&rt, all_of(MORNING), all_of(later));
        assert_same(&rt, outcomes.first.accepted, 4);
        assert_same(&rt, outcomes.second.accepted, 0);
    }
}

#[test]
fn each_fault_of_the_office_has_its_number(rt: HostRuntime) {
    let rows = [
        (SubmitFault::Conflict, 2),
        (SubmitFault::Halted, 3),
        (SubmitFault::Memory, 4),
        (SubmitFault::Full, 5),
        (SubmitFault::UnknownTable, 6),
    ];
    for (fault, number) in rows {
        assert_same_at(&rt, code_of(fault).code(), number, fault);
    }
}
