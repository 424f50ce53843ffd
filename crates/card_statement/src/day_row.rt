//! The row of one fare day.

ghost use Rattle.std.specs.Prelude.{◌≡◌, ◌≤◌, ◌+◌, ◌*◌, ◌^◌, map, sum_by, length, IfOk};
ghost use Rattle.std.specs.Prelude.{Option};
ghost use Rattle.station_limits.specs.declared.limits.TheConstants.{HISTORY_LIMIT};
ghost use Rattle.fare_table.specs.declared.rows.Cap.{Cap};
ghost use Rattle.card_statement.specs.NamedCap.{is_covered_by};
ghost use Rattle.card_statement.specs.Incomplete.{pence_missing};
ghost use Rattle.card_statement.specs.Day.{journey_row, row_of_day, content_of_day};

use crate::named_cap::{applied_cap, day_charge, fares_of};
use crate::statement::{Day, Incomplete, JourneyRow};
use fare_table::Cap;
use oyster_account::{Journey, is_covered};
use std::alloc::{AllocError, Global};
use std::vec::Vec;

impl Day {
    /// The row of a fare day from its journeys and its incomplete touches, newest first, under the
    /// caps in force on the day. It allocates the row's two lists.
    pub fn of(
        alloc: Global,
        caps: &[Cap],
        day: i32,
        journeys: &[Journey],
        incompletes: &[Incomplete],
    ) -> Result<Day, AllocError>
        requires journeys { length journeys.now ≤ HISTORY_LIMIT }
        requires incompletes { length incompletes.now ≤ HISTORY_LIMIT }
        ensures row { IfOk result (λ row.
            content_of_day row ≡ row_of_day caps.now journeys.now incompletes.now day) }
        ensures limit { IfOk result (λ row.
            row.charge + row.missing ≤ 2 ^ 32 * (length journeys.now + length incompletes.now)) }
    {
        let cap = applied_cap(caps, journeys);
        Ok(Day {
            day,
            journeys: rows_of(alloc, cap, journeys)?,
            fares: fares_of(journeys),
            cap,
            charge: day_charge(caps, journeys),
            incomplete: copy_of(alloc, incompletes)?,
            missing: missing_of(incompletes),
        })
    }
}

/// The rows of these journeys on a day for which this cap is named.
fn rows_of(
    alloc: Global,
    cap: Option<Cap>,
    journeys: &[Journey],
) -> Result<Vec<JourneyRow>, AllocError>
    ensures rows { IfOk result (λ rows. rows.items ≡ map (journey_row cap) journeys.now) }
{
    let mut rows = Vec::with_capacity(alloc, journeys.len())?;
    for journey in journeys {
        rows.push(JourneyRow {
            journey: *journey,
            covered: is_covered_by(cap, *journey),
        })?;
    }
    Ok(rows)
}

/// Whether a cap is named, and covers the journey.
fn is_covered_by(cap: Option<Cap>, journey: Journey) -> bool
    ensures { result ≡ is_covered_by cap journey }
{
    match cap {
        Some(cap) => is_covered(cap, journey.fare),
        None => false,
    }
}

/// A copy of these incomplete touches.
fn copy_of(alloc: Global, incompletes: &[Incomplete]) -> Result<Vec<Incomplete>, AllocError>
    ensures same { IfOk result (λ rows. rows.items ≡ incompletes.now) }
{
    let mut rows = Vec::with_capacity(alloc, incompletes.len())?;
    for incomplete in incompletes {
        rows.push(*incomplete)?;
    }
    Ok(rows)
}

/// The sum of the charges for these incomplete touches, in pence.
fn missing_of(incompletes: &[Incomplete]) -> u64
    requires few { length incompletes.now ≤ HISTORY_LIMIT }
    ensures value { result ≡ sum_by pence_missing incompletes.now }
    ensures limit { result ≤ 2 ^ 32 * length incompletes.now }
{
    let mut sum = 0;
    for incomplete in incompletes {
        sum += u64::from(incomplete.pence);
    }
    sum
}
