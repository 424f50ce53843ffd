//! Statements for writers that fail, or that accept few bytes at a time.

use super::worked::{FORMS, monday};
use super::*;
use test_streams::Taker;

/// What a writer accepts: the bytes of one write, the bytes in all, whether a later write fails (or
/// accepts nothing), and whether the flush fails.
type Taking = (usize, usize, bool, bool);

/// The line of the fault of a write.
const FAULT: &str = "fault run 3 Write";

/// Writers for a text of more than 300 and fewer than 10000 bytes, each with the line of its
/// fault.
const TAKINGS: [(Taking, &str); 5] = [
    ((1, 10_000, true, false), ""),
    ((10_000, 10_000, false, false), ""),
    ((1, 300, false, false), FAULT),
    ((10_000, 300, true, false), FAULT),
    ((7, 10_000, true, true), FAULT),
];

/// The writer gets the beginning of the worked Monday that it accepts, in this format, and the
/// fault has this line.
fn assert_begun<R: Abort + AllocGlobal>(
    rt: &R,
    (format, text): (StatementFormat, &str),
    taking: Taking,
    want: &str,
) -> Result<(), Fail> {
    let alloc = rt.alloc();
    let bytes = journal(alloc, &monday()).ok_or("a journal")?;
    let schedule = example(alloc).ok_or("a schedule")?;
    let (size, left, fails, holds) = taking;
    let mut writer = Taker {
        taken: Vec::new(alloc),
        size,
        left,
        fails,
        holds,
    };
    let ended = write_statement(
        alloc,
        NameHashing::fixed(),
        schedule,
        CARD,
        ALL,
        format,
        bytes,
        &mut writer,
    );
    let line = line_of(alloc, ended)?;
    assert_same_at(rt, line.as_str(), want, (format, left));
    let taken = text.len().min(left);
    let beginning = text.as_bytes().get(..taken);
    assert_same_at(rt, Some(writer.taken.as_slice()), beginning, (format, left));
    Ok(())
}

/// A writer that fails after a number of bytes gets that number of the worked Monday.
fn assert_begun_at_each<R: Abort + AllocGlobal>(
    rt: &R,
    form: (StatementFormat, &str),
) -> Result<(), Fail> {
    let size = form.1.len();
    for left in [0, 10, 100, 300, size.saturating_sub(1), size, 10_000] {
        let want = if left < size { FAULT } else { "" };
        assert_begun(rt, form, (7, left, true, false), want)?;
    }
    Ok(())
}

#[test]
fn a_beginning_of_a_statement_is_left_if_a_write_fails(rt: HostRuntime) -> Result<(), Fail> {
    for form in FORMS {
        assert_begun_at_each(&rt, form)?;
    }
    Ok(())
}

#[test]
fn a_statement_is_written_in_pieces_and_flushed(rt: HostRuntime) -> Result<(), Fail> {
    let [text, _, _] = FORMS;
    for (taking, want) in TAKINGS {
        assert_begun(&rt, text, taking, want)?;
    }
    Ok(())
}
