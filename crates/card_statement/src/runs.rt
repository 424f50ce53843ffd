//! The rows of the fare days, from journeys and incomplete touches that are newest first.

ghost use Rattle.std.specs.Prelude.{◌≡◌, ◌≤◌, ◌+◌, ◌*◌, ◌^◌, ℤ, List, map, length, sum_by};
ghost use Rattle.std.specs.Prelude.{IfOk};
ghost use Rattle.station_limits.specs.declared.limits.TheConstants.{HISTORY_LIMIT};
ghost use Rattle.oyster_account.specs.Scheme.{scheme_of};
ghost use Rattle.oyster_account.specs.Journey.{journey_day};
ghost use Rattle.oyster_account.specs.Charge.{has_day, caps_on};
ghost use Rattle.card_statement.specs.Incomplete.{incomplete_day};
ghost use Rattle.card_statement.specs.Day.{has_row, day_row, content_of_day, pence_charged};
ghost use Rattle.card_statement.specs.Runs.{AreFalling, AreDaysFalling, run_length, latest};

use crate::statement::{Day, Incomplete};
use fare_schedule::Schedule;
use fare_table::Cap;
use oyster_account::Journey;
use std::alloc::{AllocError, Global};
use std::vec::Vec;

/// The rows of the fare days of these journeys and incomplete touches, newest first. Each day's are
/// next to each other in both lists.
pub(crate) fn days_of(
    alloc: Global,
    schedule: &Schedule,
    journeys: &[Journey],
    incompletes: &[Incomplete],
) -> Result<Vec<Day>, AllocError>
    requires journeys { length journeys.now ≤ HISTORY_LIMIT }
    requires incompletes { length incompletes.now ≤ HISTORY_LIMIT }
    requires journeys_fall { AreFalling journey_day journeys.now }
    requires incompletes_fall { AreFalling incomplete_day incompletes.now }
    ensures rows { (days : List ℤ) → AreDaysFalling days
        → ((day : ℤ) → has_day day days ≡ has_row journeys.now incompletes.now day)
        → IfOk result (λ rows. map content_of_day rows.items ≡ map
        (day_row (caps_on (scheme_of schedule.now)) journeys.now incompletes.now) days) }
    ensures limit { IfOk result (λ rows. sum_by pence_charged (map content_of_day rows.items)
        ≤ 2 ^ 32 * (length journeys.now + length incompletes.now)) }
{
    let mut rows = Vec::new(alloc);
    let mut made = journeys;
    let mut missed = incompletes;
    while let Some(day) = latest(made, missed) {
        let (of_day, earlier) = made.split_at(journeys_on(made, day));
        let (missed_on_day, missed_earlier) = missed.split_at(incompletes_on(missed, day));
        let caps = caps_on(schedule, day);
        rows.push(Day::of(alloc, caps, day, of_day, missed_on_day)?)?;
        made = earlier;
        missed = missed_earlier;
    }
    Ok(rows)
}

/// The caps in force on a fare day.
fn caps_on(schedule: &Schedule, day: i32) -> &[Cap]
    ensures value { result.now ≡ caps_on (scheme_of schedule.now) day }
{
    schedule.on(day).caps()
}

/// The later one of the days of the first journey and of the first incomplete touch.
fn latest(journeys: &[Journey], incompletes: &[Incomplete]) -> Option<i32>
    ensures value { result ≡ latest journeys.now incompletes.now }
{
    match (journeys.first(), incompletes.first()) {
        (Some(journey), Some(incomplete)) => {
            Some(journey.start.stamp.day.max(incomplete.touch.stamp.day))
        }
        (Some(journey), None) => Some(journey.start.stamp.day),
        (None, Some(incomplete)) => Some(incomplete.touch.stamp.day),
        (None, None) => None,
    }
}

/// How many journeys at the front are of a fare day.
fn journeys_on(journeys: &[Journey], day: i32) -> usize
    ensures within { result ≤ length journeys.now }
    ensures run { result ≡ run_length journey_day day journeys.now }
{
    let mut count = 0;
    for journey in journeys {
        if journey.start.stamp.day != day {
            return count;
        }
        count += 1;
    }
    count
}

/// How many incomplete touches at the front are of a fare day.
fn incompletes_on(incompletes: &[Incomplete], day: i32) -> usize
    ensures within { result ≤ length incompletes.now }
    ensures run { result ≡ run_length incomplete_day day incompletes.now }
{
    let mut count = 0;
    for incomplete in incompletes {
        if incomplete.touch.stamp.day != day {
            return count;
        }
        count += 1;
    }
    count
}
