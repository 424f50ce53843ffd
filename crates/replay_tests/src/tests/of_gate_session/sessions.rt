//! Sessions whose readers and writers give and take little, end early, or fail.

use super::fakes::{Meter, Morning, Patient};
use super::vectors::{ANSWERS, BAD_FRAME, FRAMES, MORNING};
use super::{assert_same, assert_same_at, joined};
use gate_session::{End, Served, serve};
use std::cell::Cell;
use std::fmt::Debug;
use std::process::Abort;
use std::sync::Wait;
use std::test::Fail;
use test_streams::{Pieces, Taker};

/// A session under test: how its reader and its writer behave.
#[derive(Clone, Copy)]
struct Trial<'a> {
    bytes: &'a [u8],
    /// The most bytes of a read.
    piece: usize,
    /// Whether the reader fails behind the last byte, and doesn't end.
    reader_fails: bool,
    /// The most bytes of a write.
    write: usize,
    /// How many bytes the writer takes in all.
    room: usize,
    /// Whether the writer fails behind them, and doesn't take 0 bytes.
    writer_fails: bool,
    turns: u32,
}

/// What comes of it: what was served, the bytes written, and how many touches and enquiries were
/// handed over.
type Outcome<'a> = (Served, &'a [u8], usize, usize);

/// All bytes in one piece to a writer that takes all.
fn all_of(bytes: &[u8]) -> Trial<'_> {
    Trial {
        bytes,
        piece: 512,
        reader_fails: false,
        write: 512,
        room: 512,
        writer_fails: false,
        turns: 1_000,
    }
}

/// This comes of the session, in the case that is named.
fn assert_served<R: Wait + Abort + AllocGlobal, C: Debug + Copy>(
    rt: &R,
    trial: Trial,
    want: Outcome,
    at: C,
) {
    let mut reader = Pieces {
        rest: trial.bytes,
        size: trial.piece,
        fails: trial.reader_fails,
    };
    let mut writer = Taker {
        taken: Vec::new(rt.alloc()),
        size: trial.write,
        left: trial.room,
        fails: trial.writer_fails,
        holds: false,
    };
    let mut clerk = Morning::new();
    let turns = trial.turns;
    let served = serve(rt, rt.alloc(), &mut reader, &mut writer, &mut clerk, turns);
    let taken = writer.taken.as_slice();
    let found = (served, taken, clerk.touches, clerk.enquiries);
    assert_same_at(rt, found, want, at);
}

/// What was served.
fn served(requests: u64, answers: u64, end: End) -> Served {
    Served {
        requests,
        answers,
        end,
    }
}

#[test]
fn each_request_is_answered_however_its_bytes_come(rt: HostRuntime) -> Result<(), Fail> {
    let stream = joined(rt.alloc(), &FRAMES[..MORNING])?;
    let answers = joined(rt.alloc(), &ANSWERS)?;
    for piece in [1, 2, 7, 18, 100, 512] {
        for write in [1, 21, 22, 512] {
            let mut trial = all_of(&stream);
            trial.piece = piece;
            trial.write = write;
            let want = (served(5, 5, End::Closed), answers.as_slice(), 4, 1);
            assert_served(&rt, trial, want, (piece, write));
        }
    }
    Ok(())
}

// It is closed between frames. Inside a frame it is cut, and gets no answer for the beginning.
#[test]
fn an_input_may_end_between_frames(rt: HostRuntime) {
    for size in 0..=17usize {
        let trial = all_of(FRAMES[0].get(..size).unwrap_or(b""));
        let want = match size {
            0 => (served(0, 0, End::Closed), b"".as_slice(), 0, 0),
            17 => (served(1, 1, End::Closed), ANSWERS[0], 1, 0),
            _ => (served(0, 0, End::CutFrame), b"".as_slice(), 0, 0),
        };
        assert_served(&rt, trial, want, size);
    }
}

#[test]
fn bytes_that_begin_no_request_are_the_last_that_are_answered(rt: HostRuntime) -> Result<(), Fail> {
    let cases: [&[u8]; 3] = [b"\x00\x11\x06", b"\x01", ANSWERS[0]];
    for bytes in cases {
        let want = (served(0, 1, End::BadFrame), BAD_FRAME, 0, 0);
        assert_served(&rt, all_of(bytes), want, bytes);
    }
    let stream = joined(rt.alloc(), &[FRAMES[0], b"\x00\x11\x06", FRAMES[1]])?;
    let answers = joined(rt.alloc(), &[ANSWERS[0], BAD_FRAME])?;
    let want = (served(1, 2, End::BadFrame), answers.as_slice(), 1, 0);
    assert_served(&rt, all_of(&stream), want, "behind a frame");
    Ok(())
}

#[test]
fn a_session_makes_no_more_reads_than_it_is_given(rt: HostRuntime) {
    for (turns, count, end) in [
        (0, 0, End::Turns),
        (1, 0, End::Turns),
        (17, 1, End::Turns),
        (18, 1, End::Closed),
    ] {
        let mut trial = all_of(FRAMES[0]);
        trial.piece = 1;
        trial.turns = turns;
        let answered = match count {
            0 => b"".as_slice(),
            _ => ANSWERS[0],
        };
        let want = (served(count, count, end), answered, count as usize, 0);
        assert_served(&rt, trial, want, turns);
    }
}

#[test]
fn each_write_of_a_morning_fails_in_turn(rt: HostRuntime) -> Result<(), Fail> {
    let stream = joined(rt.alloc(), &FRAMES[..4])?;
    let answers = joined(rt.alloc(), &ANSWERS[..4])?;
    for room in 0..88usize {
        for writer_fails in [false, true] {
            let mut trial = all_of(&stream);
            trial.room = room;
            trial.writer_fails = writer_fails;
            let whole = room / 22;
            let ended = served(whole as u64 + 1, whole as u64, End::WriteFault);
            let beginning = answers.get(..room).unwrap_or(b"too few");
            let want = (ended, beginning, whole + 1, 0);
            assert_served(&rt, trial, want, (room, writer_fails));
        }
    }
    Ok(())
}

#[test]
fn each_read_of_a_morning_fails_in_turn(rt: HostRuntime) -> Result<(), Fail> {
    let stream = joined(rt.alloc(), &FRAMES[..4])?;
    let answers = joined(rt.alloc(), &ANSWERS[..4])?;
    for cut in 0..=76usize {
        let mut trial = all_of(stream.get(..cut).unwrap_or(b""));
        trial.reader_fails = true;
        // The frames end at these bytes.
        let whole: usize = match cut {
            0..17 => 0,
            17..38 => 1,
            38..57 => 2,
            57..76 => 3,
            _ => 4,
        };
        let taken = answers.get(..22 * whole).unwrap_or(b"too few");
        let ended = served(whole as u64, whole as u64, End::ReadFault);
        assert_served(&rt, trial, (ended, taken, whole, 0), cut);
    }
    Ok(())
}

#[test]
fn the_answer_to_a_bad_frame_can_be_cut_short(rt: HostRuntime) -> Result<(), Fail> {
    let stream = joined(rt.alloc(), &[FRAMES[0], b"\x00\x11\x06"])?;
    let answers = joined(rt.alloc(), &[ANSWERS[0], BAD_FRAME])?;
    for room in 22..32usize {
        let mut trial = all_of(&stream);
        trial.room = room;
        trial.writer_fails = true;
        let taken = answers.get(..room).unwrap_or(b"too few");
        let want = (served(1, 1, End::WriteFault), taken, 1, 0);
        assert_served(&rt, trial, want, room);
    }
    Ok(())
}

#[test]
fn a_lost_answer_is_had_by_a_repeat(rt: HostRuntime) {
    let mut clerk = Morning::new();
    let mut reader = FRAMES[2];
    let mut full: [u8; 0] = [];
    let mut nowhere = full.as_mut_slice();
    let lost = serve(&rt, rt.alloc(), &mut reader, &mut nowhere, &mut clerk, 10);
    assert_same(&rt, lost, served(1, 0, End::WriteFault));

    let mut again = FRAMES[2];
    let mut written = Vec::new(rt.alloc());
    let had = serve(&rt, rt.alloc(), &mut again, &mut written, &mut clerk, 10);
    assert_same(&rt, had, served(1, 1, End::Closed));
    assert_same(&rt, written.as_slice(), ANSWERS[2]);
}

#[test]
fn a_request_is_answered_before_the_next_is_read(rt: HostRuntime) {
    let written = Cell::new(0);
    let mut reader = Patient {
        frames: &FRAMES[..4],
        given: 0,
        written: &written,
    };
    let mut writer = Meter { written: &written };
    let mut clerk = Morning::new();
    let end = serve(&rt, rt.alloc(), &mut reader, &mut writer, &mut clerk, 10);
    assert_same(&rt, end, served(4, 4, End::Closed));
    assert_same(&rt, written.get(), 88);
}
