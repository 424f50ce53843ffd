//! What no clause says of replays: worked lines, the texts of answers, and what stands where a
//! read, a write or an allocation fails.

mod journeys;
mod memory;
mod rows;
mod tables;

use super::assert_same_at;
use line_replay::{LineReplayFault, replay_text};
use reply_book::NameHashing;
use rows::{ASKED_AGAIN, FIRST_PATH, MISSING_TOUCHES, REFUSALS, REVISION, UNKNOWN_TABLE};
use std::alloc::{AllocError, Global};
use std::fmt::Debug;
use std::io::{Read, Write};
use std::process::Abort;
use std::test::Fail;
use tables::schedule_of;
use test_streams::{Pieces, Taker};
use text_io::RunFault;

/// A line that is asked, and the line that answers it.
type Row = (&'static str, &'static str);

/// The lines of some tables of rows, each with its line feed: those that are read, or those
/// written.
fn lines_of(alloc: Global, tables: &[&[Row]], written: bool) -> Result<Vec<u8>, AllocError> {
    let mut text = Vec::new(alloc);
    for rows in tables {
        for row in rows.iter() {
            let (asked, answered) = *row;
            let line = if written { answered } else { asked };
            text.extend_from_slice(line.as_bytes())?;
            text.push(b'\n')?;
        }
    }
    Ok(text)
}

/// How a replay by the example table ends, and by the revised one too where `revised`, on ten
/// cards.
fn run<R: Read, W: Write>(
    alloc: Global,
    revised: bool,
    reader: &mut R,
    writer: &mut W,
    turns: u32,
) -> Result<Result<(), LineReplayFault>, Fail> {
    let schedule = schedule_of(alloc, revised).ok_or("a schedule")?;
    Ok(replay_text(
        alloc,
        NameHashing::fixed(),
        schedule,
        10,
        reader,
        writer,
        turns,
    ))
}

/// A run on some bytes, by the example table or by the revised one too, ends so and writes this, in
/// the case that is named.
fn assert_replayed<R: Abort + AllocGlobal, C: Debug + Copy>(
    rt: &R,
    (bytes, revised): (&[u8], bool),
    end: Result<(), LineReplayFault>,
    want: &[u8],
    at: C,
) -> Result<(), Fail> {
    let mut reader = bytes;
    let mut written = Vec::new(rt.alloc());
    let ended = run(rt.alloc(), revised, &mut reader, &mut written, 1_000)?;
    assert_same_at(rt, ended, end, at);
    assert_same_at(rt, written.as_slice(), want, at);
    Ok(())
}

/// The lines of some tables of rows are answered by theirs.
fn assert_answered<R: Abort + AllocGlobal>(
    rt: &R,
    tables: &[&[Row]],
    revised: bool,
    at: &str,
) -> Result<(), Fail> {
    let asked = lines_of(rt.alloc(), tables, false)?;
    let answered = lines_of(rt.alloc(), tables, true)?;
    assert_replayed(rt, (&asked, revised), Ok(()), &answered, at)
}

#[test]
fn worked_lines_get_their_answers(rt: HostRuntime) -> Result<(), Fail> {
    let cases: [(&[&[Row]], bool, &str); 7] = [
        (&[], false, "no line"),
        (&[&FIRST_PATH], false, "the first path"),
        (&[&FIRST_PATH, &ASKED_AGAIN], false, "asked again"),
        (&[&MISSING_TOUCHES], false, "missing touches"),
        (&[&REFUSALS], false, "refusals"),
        (
            &[&FIRST_PATH, &REVISION],
            true,
            "a revision changes the fares of later journeys",
        ),
        (
            &[&FIRST_PATH, &UNKNOWN_TABLE],
            false,
            "a revision to a table that isn't there is no entry",
        ),
    ];
    for (tables, revised, at) in cases {
        assert_answered(&rt, tables, revised, at)?;
    }
    Ok(())
}

/// The answer to a bad line.
const BAD: &[u8] = b"0008ff01000000000000\n";

/// The answers to one and to two enquiries of cards that weren't issued, and then to a bad line.
const VACANT_BAD: &[u8] = b"000e8500000000000000000000000000\n0008ff01000000000000\n";

const TWO_VACANT: &[u8] = b"000e8500000000000000000000000000\n000e8500000000000000000000000000\n";

const TWO_VACANT_BAD: &[u8] = b"000e8500000000000000000000000000\n\
    000e8500000000000000000000000000\n0008ff01000000000000\n";

#[test]
fn digits_of_either_case_are_read_and_a_bad_line_ends_the_run(rt: HostRuntime) -> Result<(), Fail> {
    let long = b"000505000000010000000000000000000000000000000000000000000000000000\
          000000000000000000000000000000000000000000000000000000000000000000";
    let (revision, _) = REVISION[1];
    let revision = revision.as_bytes();
    let first = Err(LineReplayFault::BadLine(1));
    let second = Err(LineReplayFault::BadLine(2));
    let third = Err(LineReplayFault::BadLine(3));
    let rows: [(&[u8], Result<(), LineReplayFault>, &[u8]); 13] = [
        // The last line has no line feed.
        (b"0005050000000a\n0005050000000B", Ok(()), TWO_VACANT),
        (b"zz\n", first, BAD),
        (b"\n", first, BAD),
        (b"000505000000 1\n", first, BAD),
        (b"00050500000001\r\n", first, BAD),
        (b"0005050000000100\n", first, BAD),
        (b"\xff\xfe\n", first, BAD),
        (&long[..128], first, BAD),
        (&long[..129], first, BAD),
        // A revision of another length.
        (&revision[..104], first, BAD),
        (&revision[..105], first, BAD),
        (b"00050500000001\n\n00050500000001\n", second, VACANT_BAD),
        (b"00050500000001\n00050500000001\nzz", third, TWO_VACANT_BAD),
    ];
    for (bytes, end, want) in rows {
        assert_replayed(&rt, (bytes, false), end, want, bytes)?;
    }
    Ok(())
}

/// A run under test: how its reader and its writer behave.
#[derive(Clone, Copy)]
struct Trial {
    /// The most bytes of a read, and whether the reader fails behind the last byte.
    read: usize,
    reader_fails: bool,
    turns: u32,
    /// The most bytes of a write, how many bytes the writer takes in all, and whether it fails
    /// behind them and doesn't take 0 bytes.
    write: usize,
    room: usize,
    writer_fails: bool,
}

/// All is read at once and written at once.
const AT_ONCE: Trial = Trial {
    read: 1_000,
    reader_fails: false,
    turns: 1_000,
    write: 1_000,
    room: 1_000,
    writer_fails: false,
};

/// The run on some bytes ends so, and writes as much of the answers as there is room for, in the
/// case that is named.
fn assert_tried<R: Abort + AllocGlobal>(
    rt: &R,
    asked: &[u8],
    trial: Trial,
    end: Result<(), LineReplayFault>,
    answers: &[u8],
    at: &str,
) -> Result<(), Fail> {
    let mut reader = Pieces {
        rest: asked,
        size: trial.read,
        fails: trial.reader_fails,
    };
    let mut writer = Taker {
        taken: Vec::new(rt.alloc()),
        size: trial.write,
        left: trial.room,
        fails: trial.writer_fails,
        holds: false,
    };
    let ended = run(rt.alloc(), false, &mut reader, &mut writer, trial.turns)?;
    assert_same_at(rt, ended, end, at);
    let want = answers.get(..trial.room.min(answers.len()));
    assert_same_at(rt, Some(writer.taken.as_slice()), want, at);
    Ok(())
}

/// A read that fails, and a run of as many reads as are allowed.
const READ: Result<(), LineReplayFault> = Err(LineReplayFault::Run(RunFault::Read));

/// A write that fails or takes nothing.
const WRITE: Result<(), LineReplayFault> = Err(LineReplayFault::Run(RunFault::Write));

/// A run in which the reader fails at its end.
const READER_FAILS: Trial = Trial {
    read: 1_000,
    reader_fails: true,
    turns: 1_000,
    write: 1_000,
    room: 1_000,
    writer_fails: false,
};

/// A run that may make so many reads.
const fn of_turns(turns: u32) -> Trial {
    Trial { turns, ..AT_ONCE }
}

/// A run whose writer takes seven bytes a write and so many in all, and then nothing or fails.
const fn of_room(room: usize, writer_fails: bool) -> Trial {
    Trial {
        write: 7,
        room,
        writer_fails,
        ..AT_ONCE
    }
}

#[test]
fn answers_stand_up_to_a_read_or_a_write_that_fails(rt: HostRuntime) -> Result<(), Fail> {
    let asked = lines_of(rt.alloc(), &[&FIRST_PATH], false)?;
    let asked = asked.as_slice();
    let answers = lines_of(rt.alloc(), &[&FIRST_PATH], true)?;
    let answers = answers.as_slice();
    // The first line has 35 bytes, and its answer 45.
    let first = asked.get(..35).unwrap_or(b"too few");
    let answer = answers.get(..45).unwrap_or(b"too few");
    let by_one = Trial {
        read: 1,
        write: 1,
        ..AT_ONCE
    };
    let rows = [
        (asked, by_one, Ok(()), answers, "bytes one by one"),
        (asked, READER_FAILS, READ, answers, "a read fails"),
        (asked, of_turns(1), READ, answers, "one read"),
        (asked, of_turns(2), Ok(()), answers, "two reads"),
        (asked, of_room(0, true), WRITE, answers, "no room"),
        (asked, of_room(45, true), WRITE, answers, "room for 45"),
        (asked, of_room(100, false), WRITE, answers, "room for 100"),
        (asked, of_room(179, true), WRITE, answers, "room for 179"),
        (
            first,
            READER_FAILS,
            READ,
            answer,
            "a line and a failed read",
        ),
        (first, of_room(0, true), WRITE, answer, "a line and no room"),
    ];
    for (asked, trial, end, answers, at) in rows {
        assert_tried(&rt, asked, trial, end, answers, at)?;
    }
    Ok(())
}

#[test]
fn a_line_is_too_long_at_its_129th_byte_and_not_before(rt: HostRuntime) -> Result<(), Fail> {
    let zeros = [b'0'; 129];
    let by_64 = Trial {
        read: 64,
        ..READER_FAILS
    };
    assert_tried(&rt, &zeros[..128], by_64, READ, b"", "128 bytes")?;
    let bad = Err(LineReplayFault::BadLine(1));
    assert_tried(&rt, &zeros, by_64, bad, BAD, "129 bytes")
}
