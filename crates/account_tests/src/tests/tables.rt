//! Fare tables and schedules of texts, each with some of its texts changed.

ghost use Rattle.std.specs.Prelude.{IsTrue};
ghost use Rattle.fare_schedule.specs.Schedule.{IsAfterLast};

use super::{assert_same, assert_that};
use fare_schedule::Schedule;
use fare_table::Fares;
use std::alloc::Global;
use std::process::Abort;

/// A text of a table, and what comes in its place.
pub(super) type Change = (&'static str, &'static str);

/// The single fare of the zones 1 and 2, and the peak maximum, in the example and in the revised
/// table.
pub(super) const DEARER: [Change; 2] = [
    ("350, off_peak = 290", "380, off_peak = 300"),
    ("maximum_peak = 900", "maximum_peak = 1000"),
];

/// The digest of the example table, by the system's `sha256sum`.
pub(super) const EXAMPLE_DIGEST: [u8; 32] = [
    0x17, 0x08, 0xbe, 0xf1, 0xd8, 0x12, 0x4f, 0x49, 0x75, 0x3d, 0x74, 0xc2, 0x9f, 0xa7, 0x19, 0x2b,
    0x3d, 0xa7, 0x03, 0xa4, 0x24, 0x81, 0xf5, 0x95, 0x04, 0xb7, 0x6a, 0x41, 0xec, 0x00, 0x24, 0x28,
];

/// A text with these changes, one after the other: each at the first place of its text. There is
/// none where a text isn't there, or for want of memory.
pub(super) fn changed(alloc: Global, text: &str, changes: &[(&str, &str)]) -> Option<String> {
    let mut made = String::from_str(alloc, text).ok()?;
    for (from, to) in changes {
        let (front, back) = made.as_str().split_once(*from)?;
        made = format!(in alloc; "{front}{to}{back}").ok()?;
    }
    Some(made)
}

/// The table of a text, which is a valid one.
pub(super) fn table_of(rt: &impl Abort, alloc: Global, text: &str) -> Fares {
    Fares::read(alloc, text).ok().expect(rt, "a valid table")
}

/// The table of a text with these changes, which is a valid one.
pub(super) fn table(rt: &impl Abort, alloc: Global, text: &str, changes: &[(&str, &str)]) -> Fares {
    let text = changed(alloc, text, changes).expect(rt, "a changed text");
    table_of(rt, alloc, text.as_str())
}

/// A schedule of a text's table alone.
pub(super) fn schedule_of(rt: &impl Abort, alloc: Global, text: &str) -> Schedule {
    Schedule::new(alloc, table_of(rt, alloc, text))
        .ok()
        .expect(rt, "a schedule")
}

/// A schedule of a text's table, and of the table with these changes, which counts from this fare
/// day on.
pub(super) fn revised(
    rt: &impl Abort,
    alloc: Global,
    text: &str,
    changes: &[(&str, &str)],
    day: i32,
) -> Schedule {
    let mut schedule = schedule_of(rt, alloc, text);
    let other = table(rt, alloc, text, changes);
    let digest = other.digest();
    assert_same(rt, schedule.supply(other), Ok(()));
    revise(rt, &mut schedule, &digest, day);
    schedule
}

/// Makes room and revises, where the conditions are seen to hold.
pub(super) fn revise(rt: &impl Abort, schedule: &mut Schedule, digest: &[u8; 32], day: i32) {
    schedule.ready().ok().expect(rt, "room");
    assert_that(rt, schedule.has_room());
    assert_that(rt, schedule.knows(digest));
    assert_that(rt, is_after_last(schedule, day));
    schedule.revise(digest, day);
}

/// Whether a day is above that of the last revision.
fn is_after_last(schedule: &Schedule, day: i32) -> bool
    ensures { IsTrue result → IsAfterLast schedule.now day }
{
    match schedule.last_day() {
        Some(last) => last < day,
        None => true,
    }
}
