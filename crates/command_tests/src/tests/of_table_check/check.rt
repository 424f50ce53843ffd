//! Tables that are checked, with what is written worked out by hand.

use crate::tests::assert_same_at;
use fare_table::{EXAMPLE_TABLE, TableFault};
use std::alloc::Global;
use std::process::Abort;
use std::test::Fail;
use table_check::{check_bytes, check_table, report_table};
use test_streams::{Pieces, Taker};
use text_io::RunFault;

/// The digest is that of the system's `sha256sum`.
const EXAMPLE_LINES: &str = "stations 5\nsingles 6\ncaps 3\n\
    digest 1708bef1d8124f49753d74c29fa7192b3da703a42481f59504b76a41ec002428\n";

/// What is written for bytes that come in one piece, and what is answered.
fn checked(alloc: Global, bytes: &[u8]) -> (Vec<u8>, Result<bool, RunFault>) {
    let mut reader = bytes;
    let mut written = Vec::new(alloc);
    let answer = check_table(alloc, &mut reader, &mut written, 1_000);
    (written, answer)
}

/// A table with one text in it replaced.
pub fn changed(alloc: Global, table: &str, from: &str, to: &str) -> Result<String, Fail> {
    let (front, back) = table.split_once(from).ok_or("no such text")?;
    Ok(format!(in alloc; "{front}{to}{back}")?)
}

/// The answer for bytes that come in one piece is this, and these lines are written.
fn assert_checked<R: Abort + AllocGlobal>(
    rt: &R,
    bytes: &[u8],
    want: Result<bool, RunFault>,
    lines: &str,
) {
    let (written, answer) = checked(rt.alloc(), bytes);
    assert_same_at(rt, answer, want, lines);
    assert_same_at(rt, written.as_slice(), lines.as_bytes(), lines);
}

#[test]
fn a_valid_table_is_told_by_its_rows_and_its_digest(rt: HostRuntime) {
    assert_checked(&rt, EXAMPLE_TABLE.as_bytes(), Ok(true), EXAMPLE_LINES);
}

#[test]
fn the_bytes_of_a_table_are_told_in_the_same_lines(rt: HostRuntime) {
    let mut written = Vec::new(rt.alloc());
    let answer = check_bytes(rt.alloc(), EXAMPLE_TABLE.as_bytes(), &mut written);
    assert_same_at(&rt, answer, Ok(true), "answer");
    let lines = EXAMPLE_LINES.as_bytes();
    assert_same_at(&rt, written.as_slice(), lines, "lines");
}

/// The report on these bytes has this fault, or none, and writes these lines.
fn assert_reported<R: Abort + AllocGlobal>(
    rt: &R,
    bytes: &[u8],
    fault: Option<TableFault>,
    lines: &str,
) -> Result<(), Fail> {
    let report = report_table(rt.alloc(), bytes)?;
    assert_same_at(rt, report.fault(), fault, lines);
    let mut written = Vec::new(rt.alloc());
    let answer = report.write(&mut written);
    assert_same_at(rt, answer, Ok(fault.is_none()), lines);
    assert_same_at(rt, written.as_slice(), lines.as_bytes(), lines);
    Ok(())
}

#[test]
fn a_report_has_the_fault_that_it_writes(rt: HostRuntime) -> Result<(), Fail> {
    assert_reported(&rt, EXAMPLE_TABLE.as_bytes(), None, EXAMPLE_LINES)?;
    let line = "fault table 2 NotToml\n";
    assert_reported(&rt, b"x =", Some(TableFault::NotToml), line)
}

#[test]
fn a_refused_table_is_told_by_its_fault(rt: HostRuntime) -> Result<(), Fail> {
    let alloc = rt.alloc();
    let rows = [
        ("id = 5", "id = 3", "fault table 6 Twice station 5\n"),
        ("b = 4", "b = 9", "fault table 7 UnknownStation 9\n"),
        (
            "  {low = 1, high = 3, peak = 400, off_peak = 310},\n",
            "",
            "fault table 8 MissingSingle 1 3\n",
        ),
        (
            "maximum_off_peak = 700",
            "maximum_off_peak = 309",
            "fault table 9 MaximumTooLow\n",
        ),
        ("2025-12-25", "2025-12-32", "fault table 11 BadDate 1\n"),
    ];
    for (from, to, line) in rows {
        let table = changed(alloc, EXAMPLE_TABLE, from, to)?;
        assert_checked(&rt, table.as_bytes(), Ok(false), line);
    }
    Ok(())
}

// A station's number twice, a single that is missing and a maximum that is too low, and the same
// with one of them mended after the other.
#[test]
fn a_table_with_several_faults_is_told_by_its_first(rt: HostRuntime) -> Result<(), Fail> {
    let alloc = rt.alloc();
    let changes = [
        (
            "maximum_off_peak = 700",
            "maximum_off_peak = 309",
            "fault table 9 MaximumTooLow\n",
        ),
        (
            "  {low = 1, high = 3, peak = 400, off_peak = 310},\n",
            "",
            "fault table 8 MissingSingle 1 3\n",
        ),
        (
            "zones = [2, 3]},\n",
            "zones = [2, 3]},\n  {id = 3, name = \"Fir\", zones = [3]},\n",
            "fault table 6 Twice station 6\n",
        ),
    ];
    let mut table = String::from_str(alloc, EXAMPLE_TABLE)?;
    for (from, to, line) in changes {
        table = changed(alloc, table.as_str(), from, to)?;
        assert_checked(&rt, table.as_bytes(), Ok(false), line);
    }
    Ok(())
}

#[test]
fn bytes_that_are_no_table_are_told_by_their_fault(rt: HostRuntime) {
    let rows: [(&[u8], &str); 4] = [
        (b"", "fault table 3 Missing zone 0\n"),
        (b"x =", "fault table 2 NotToml\n"),
        (b"# \xff", "fault table 2 NotToml\n"),
        (b"zone = 1\xc3\n", "fault table 2 NotToml\n"),
    ];
    for (bytes, line) in rows {
        assert_checked(&rt, bytes, Ok(false), line);
    }
}

#[test]
fn a_table_may_come_and_be_told_byte_by_byte(rt: HostRuntime) {
    let alloc = rt.alloc();
    let mut reader = Pieces {
        rest: EXAMPLE_TABLE.as_bytes(),
        size: 1,
        fails: false,
    };
    let mut writer = Taker {
        taken: Vec::new(alloc),
        size: 1,
        left: usize::MAX,
        fails: false,
        holds: false,
    };
    let answer = check_table(alloc, &mut reader, &mut writer, 2_000);
    assert_same_at(&rt, answer, Ok(true), "answer");
    assert_same_at(
        &rt,
        writer.taken.as_slice(),
        EXAMPLE_LINES.as_bytes(),
        "lines",
    );
}

// The example table has 1004 bytes: two reads of 600 bytes give it, and a third one its end.
#[test]
fn nothing_is_told_where_a_read_fails_or_is_one_too_many(rt: HostRuntime) {
    let alloc = rt.alloc();
    for (fails, turns, answer, size) in [
        (true, 1_000, Err(RunFault::Read), 0),
        (false, 2, Err(RunFault::Read), 0),
        (false, 3, Ok(true), EXAMPLE_LINES.len()),
    ] {
        let mut reader = Pieces {
            rest: EXAMPLE_TABLE.as_bytes(),
            size: 600,
            fails,
        };
        let mut written = Vec::new(alloc);
        let given = check_table(alloc, &mut reader, &mut written, turns);
        assert_same_at(&rt, given, answer, turns);
        assert_same_at(&rt, written.len(), size, turns);
    }
}

#[test]
fn a_beginning_is_told_where_a_write_fails_or_takes_nothing(rt: HostRuntime) {
    let alloc = rt.alloc();
    for (left, fails) in [(0, true), (7, true), (28, false), (99, true)] {
        let mut reader = EXAMPLE_TABLE.as_bytes();
        let mut writer = Taker {
            taken: Vec::new(alloc),
            size: 7,
            left,
            fails,
            holds: false,
        };
        let answer = check_table(alloc, &mut reader, &mut writer, 1_000);
        assert_same_at(&rt, answer, Err(RunFault::Write), left);
        assert_same_at(&rt, writer.taken.len(), left, left);
        let begun = EXAMPLE_LINES
            .as_bytes()
            .starts_with(writer.taken.as_slice());
        assert_same_at(&rt, begun, true, left);
    }
}
