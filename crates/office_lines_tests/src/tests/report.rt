//! The lines that `serve` writes, worked out by hand.

use super::{assert_same, assert_same_at};
use office_lines::{Tally, write_opened, write_report};
use std::alloc::Global;
use std::process::Abort;
use std::test::Fail;
use test_streams::Taker;

/// What came of two lines.
const TALLIES: [Tally; 2] = [
    Tally {
        connections: 2,
        requests: 3,
        answers: 4,
        ends: [1, 0, 1, 0, 0, 0, 0],
    },
    Tally {
        connections: 1_000_000,
        requests: 18_446_744_073_709_551_615,
        answers: 0,
        ends: [0, 0, 0, 0, 1_000_000, 0, 0],
    },
];

/// The report on them, where the history has seven entries.
const REPORT: &str = "line 1 connections 2 requests 3 answers 4\n\
    line 2 connections 1000000 requests 18446744073709551615 answers 0\nclosed 7\n";

/// The report on these lines is this, where the office is halted or not, and the history has so
/// many entries.
fn assert_report(
    rt: &impl Abort,
    alloc: Global,
    tallies: &[Tally],
    halted: bool,
    entries: u32,
    text: &str,
) -> Result<(), Fail> {
    let mut written = Vec::new(alloc);
    write_report(&mut written, tallies, halted, entries)?;
    assert_same(rt, written.as_slice(), text.as_bytes());
    Ok(())
}

#[test]
fn a_report_tells_the_opening_each_line_and_the_end(rt: HostRuntime) -> Result<(), Fail> {
    let alloc = rt.alloc();
    let mut written = Vec::new(alloc);
    write_opened(&mut written, 0)?;
    assert_same(&rt, written.as_slice(), "opened 0\n".as_bytes());
    assert_report(&rt, alloc, &TALLIES, false, 7, REPORT)?;
    assert_report(&rt, alloc, &[], true, 1_000_000, "halted 1000000\n")
}

/// What a writer took that takes so many bytes at most, and whether the report was told.
fn told(alloc: Global, left: usize, fails: bool) -> (Vec<u8>, bool) {
    let mut writer = Taker {
        taken: Vec::new(alloc),
        size: 5,
        left,
        fails,
        holds: false,
    };
    let is_told = write_report(&mut writer, &TALLIES, false, 7).is_ok();
    (writer.taken, is_told)
}

#[test]
fn a_beginning_of_a_report_is_told_where_a_write_fails(rt: HostRuntime) {
    for (left, fails) in [(0, true), (40, false), (117, true), (118, false)] {
        let (taken, is_told) = told(rt.alloc(), left, fails);
        assert_same_at(&rt, is_told, left == REPORT.len(), (left, "bytes"));
        assert_same(&rt, taken.len(), left);
        let begins = REPORT.as_bytes().starts_with(taken.as_slice());
        assert_same_at(&rt, begins, true, (left, "bytes"));
    }
}
