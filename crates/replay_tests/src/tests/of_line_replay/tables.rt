//! Fare tables for replays: the example, and one that changes it.

ghost use Rattle.std.specs.Prelude.{◌≡◌, [], IfSome};
ghost use Rattle.fare_schedule.specs.Schedule.{revisions_of};

use fare_schedule::Schedule;
use fare_table::{EXAMPLE_TABLE, Fares};
use std::alloc::Global;

/// The texts of the example table that the revised one changes, and what comes in their place.
const CHANGES: [(&str, &str); 2] = [
    ("350, off_peak = 290", "380, off_peak = 300"),
    ("maximum_peak = 900", "maximum_peak = 1000"),
];

/// The revised table's text. There is none for want of memory.
fn revised(alloc: Global) -> Option<String> {
    let mut made = String::from_str(alloc, EXAMPLE_TABLE).ok()?;
    for (from, to) in CHANGES {
        let (front, back) = made.as_str().split_once(from)?;
        made = format!(in alloc; "{front}{to}{back}").ok()?;
    }
    Some(made)
}

/// A schedule of the example table alone. There is none for want of memory.
fn example(alloc: Global) -> Option<Schedule>
    ensures { IfSome result (λ schedule. revisions_of schedule ≡ []) }
{
    let first = Fares::read(alloc, EXAMPLE_TABLE).ok()?;
    Schedule::new(alloc, first).ok()
}

/// A schedule of the example table and the revised one, with no revision. There is none for want of
/// memory.
pub(super) fn both(alloc: Global) -> Option<Schedule>
    ensures { IfSome result (λ schedule. revisions_of schedule ≡ []) }
{
    let text = revised(alloc)?;
    let second = Fares::read(alloc, text.as_str()).ok()?;
    let mut schedule = example(alloc)?;
    schedule.supply(second).ok()?;
    Some(schedule)
}

/// A schedule of the example table, and of the revised one too where `revised`. There is none for
/// want of memory.
pub(super) fn schedule_of(alloc: Global, revised: bool) -> Option<Schedule>
    ensures { IfSome result (λ schedule. revisions_of schedule ≡ []) }
{
    if revised { both(alloc) } else { example(alloc) }
}
