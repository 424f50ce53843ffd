//! Histories of which a write fails.

use super::*;
use test_streams::Taker;

/// A writer of so many bytes takes the beginning of the rows, and the history fails where there are
/// more.
fn assert_begun<R: Abort + AllocGlobal>(rt: &R, whole: &str, left: usize) -> Result<(), Fail> {
    let alloc = rt.alloc();
    let bytes = journal(alloc, false, &FRAMES).ok_or("a journal")?;
    let schedule = example(alloc).ok_or("a schedule")?;
    let mut writer = Taker {
        taken: Vec::new(alloc),
        size: 7,
        left,
        fails: true,
        holds: false,
    };
    let ended = write_history(
        alloc,
        NameHashing::fixed(),
        schedule,
        ALL,
        HistoryFormat::Csv,
        bytes,
        &mut writer,
    );
    let size = whole.len().min(left);
    assert_same_at(rt, writer.taken.as_slice(), &whole.as_bytes()[..size], left);
    if left < whole.len() {
        assert_same_at(rt, ended, Err(AuditFault::Write), left);
    } else {
        assert_same_at(rt, ended, Ok(()), left);
    }
    Ok(())
}

#[test]
fn a_beginning_of_a_history_stands_where_a_write_fails(rt: HostRuntime) -> Result<(), Fail> {
    let rows = worked_rows(rt.alloc())?;
    for left in [0, 10, 100, 10_000] {
        assert_begun(&rt, rows.as_str(), left)?;
    }
    Ok(())
}
