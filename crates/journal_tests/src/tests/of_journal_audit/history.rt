//! What no clause says of histories: worked journals with their rows and frames, and what stands
//! where a write or an allocation fails. The rows are those of FARES.md, "Worked examples",
//! and "Verdicts".

mod memory;
mod verdicts;
mod writing;

use super::{EXAMPLE_DIGEST, example, journal_fault, table_fault};
use crate::tests::{assert_same, assert_same_at};
use command_line::HistoryFormat;
use journal_audit::{AuditFault, Wanted, write_history};
use reply_book::NameHashing;
use std::alloc::{AllocError, Global};
use std::process::Abort;
use std::test::Fail;
use tap_journal::JournalFault;

/// A journal's header for 100 touches on 10 cards, of the example table, but for the version.
const HEADER: &str = "a54f59535445524a32000000640000000a\
    1708bef1d8124f49753d74c29fa7192b3da703a42481f59504b76a41ec002428\
    000000000000000000000000000000";

/// The frames of an issue at 07:50 on Monday 2025-01-06, a top-up of 2000, in at 2 at 08:00, and
/// out at 1 at 08:25.
const FRAMES: [&str; 4] = [
    "000f0400070000000100000001677b8b28",
    "00130300070000000200000001000007d0677b8c54",
    "001101000700000003000000010002677b8d80",
    "001102000700000004000000010001677b935c",
];

/// Their rows.
const ROWS: [&str; 4] = [
    "0,2025-01-06T07:50:00Z,2025-01-06,7,1,1,issue,,,Issued,0,0",
    "1,2025-01-06T07:55:00Z,2025-01-06,7,2,1,top-up,,2000,ToppedUp,2000,2000",
    "2,2025-01-06T08:00:00Z,2025-01-06,7,3,1,in,2,,Entered,-900,1100",
    "3,2025-01-06T08:25:00Z,2025-01-06,7,4,1,out,1,,Exited,550,1650",
];

/// The heading of rows.
const HEADING: &str = "place,moment,day,gate,number,card,act,station,pence,verdict,change,balance";

/// All touches.
const ALL: Wanted = Wanted {
    card: None,
    day: None,
};

/// The bytes of a journal in the second format, or the first where `old`, that holds these frames.
/// There are none for want of memory.
fn journal(alloc: Global, old: bool, frames: &[&str]) -> Option<Vec<u8>> {
    let mut bytes = hex::decode(alloc, HEADER).ok()?;
    if old && let Some(version) = bytes.get_mut(8) {
        *version = b'1';
    }
    let size = if old { 32 } else { 64 };
    for frame in frames {
        let touch = hex::decode(alloc, *frame).ok()?;
        bytes.push(0xa5).ok()?;
        bytes.extend_from_slice(touch.get(2..)?).ok()?;
        for _ in touch.len().saturating_sub(1)..size {
            bytes.push(0).ok()?;
        }
    }
    bytes.push(0).ok()?;
    Some(bytes)
}

/// These lines, each with its end.
fn text_of(alloc: Global, lines: &[&str], end: &str) -> Result<String, AllocError> {
    let mut text = String::new(alloc);
    for line in lines {
        text.push_str(line)?;
        text.push_str(end)?;
    }
    Ok(text)
}

/// What is written of a journal's bytes by the example table, and how that ends.
fn told(
    alloc: Global,
    wanted: Wanted,
    format: HistoryFormat,
    bytes: &[u8],
) -> Result<(String, Result<(), AuditFault>), Fail> {
    let schedule = example(alloc).ok_or("a schedule")?;
    let mut written = Vec::new(alloc);
    let bytes = bytes.to_vec(alloc)?;
    let ended = write_history(
        alloc,
        NameHashing::fixed(),
        schedule,
        wanted,
        format,
        bytes,
        &mut written,
    );
    let text = String::from_utf8(written).ok().ok_or("a text")?;
    Ok((text, ended))
}

/// The touches that are wanted of a journal's bytes are told by this text.
fn assert_told<R: Abort + AllocGlobal>(
    rt: &R,
    wanted: Wanted,
    format: HistoryFormat,
    bytes: &[u8],
    want: &str,
) -> Result<(), Fail> {
    let (text, ended) = told(rt.alloc(), wanted, format, bytes)?;
    assert_same(rt, ended, Ok(()));
    assert_same(rt, text.as_str(), want);
    Ok(())
}

/// This fault of a journal's bytes is told, and nothing is written.
fn assert_refused<R: Abort + AllocGlobal>(
    rt: &R,
    format: HistoryFormat,
    bytes: &[u8],
    want: AuditFault,
) -> Result<(), Fail> {
    let (text, ended) = told(rt.alloc(), ALL, format, bytes)?;
    assert_same(rt, ended, Err(want));
    assert_same(rt, text.as_str(), "");
    Ok(())
}

/// The heading and the four rows of the worked journal.
fn worked_rows(alloc: Global) -> Result<String, AllocError> {
    let rows = text_of(alloc, &ROWS, "\r\n")?;
    format!(in alloc; "{HEADING}\r\n{rows}")
}

#[test]
fn a_history_is_told_in_rows(rt: HostRuntime) -> Result<(), Fail> {
    let alloc = rt.alloc();
    let rows = worked_rows(alloc)?;
    for old in [false, true] {
        let bytes = journal(alloc, old, &FRAMES).ok_or("a journal")?;
        assert_told(&rt, ALL, HistoryFormat::Csv, &bytes, rows.as_str())?;
    }
    Ok(())
}

#[test]
fn a_history_is_told_in_frames(rt: HostRuntime) -> Result<(), Fail> {
    let alloc = rt.alloc();
    let bytes = journal(alloc, false, &FRAMES).ok_or("a journal")?;
    let frames = text_of(alloc, &FRAMES, "\n")?;
    assert_told(&rt, ALL, HistoryFormat::Frames, &bytes, frames.as_str())
}

#[test]
fn a_journal_of_no_touch_has_the_heading_alone(rt: HostRuntime) -> Result<(), Fail> {
    let alloc = rt.alloc();
    let bytes = journal(alloc, false, &[]).ok_or("a journal")?;
    let heading = format!(in alloc; "{HEADING}\r\n")?;
    assert_told(&rt, ALL, HistoryFormat::Csv, &bytes, heading.as_str())?;
    assert_told(&rt, ALL, HistoryFormat::Frames, &bytes, "")
}

/// With one of its bytes changed, the worked journal has this fault.
fn assert_refused_with<R: Abort + AllocGlobal>(
    rt: &R,
    at: usize,
    byte: u8,
    want: AuditFault,
) -> Result<(), Fail> {
    let mut bytes = journal(rt.alloc(), false, &FRAMES).ok_or("a journal")?;
    *bytes.get_mut(at).ok_or("a byte")? = byte;
    assert_refused(rt, HistoryFormat::Csv, &bytes, want)
}

#[test]
fn the_first_cause_is_told_and_no_history_is_written(rt: HostRuntime) -> Result<(), Fail> {
    let alloc = rt.alloc();
    let mut made = EXAMPLE_DIGEST;
    made[0] = 0;
    let rows: [(usize, u8, AuditFault); 4] = [
        (0, 0, journal_fault(JournalFault::NotAJournal)),
        (8, b'9', journal_fault(JournalFault::WrongVersion)),
        (17, 0, table_fault(made, EXAMPLE_DIGEST)),
        (65, 9, journal_fault(JournalFault::Damaged(0))),
    ];
    for (at, byte, want) in rows {
        assert_refused_with(&rt, at, byte, want)?;
    }
    let [first, second, third, _] = FRAMES;
    let twice = journal(alloc, false, &[first, second, third, second]).ok_or("a journal")?;
    let damaged = journal_fault(JournalFault::Damaged(3));
    assert_refused(&rt, HistoryFormat::Frames, &twice, damaged)
}
