//! The charge for the journeys of one fare day, and the cap that a statement names for the day.

ghost use Rattle.std.specs.Prelude.{◌≡◌, ◌≤◌, ◌*◌, ◌^◌, sum_by, length};
ghost use Rattle.station_limits.specs.declared.limits.TheConstants.{HISTORY_LIMIT};
ghost use Rattle.oyster_account.specs.Journey.{pence_of};
ghost use Rattle.oyster_account.specs.Charge.{capped, day_charge};
ghost use Rattle.card_statement.specs.NamedCap.{applied_cap};

use fare_table::Cap;
use oyster_account::{Journey, is_covered};

/// The charge for the journeys of one fare day under these caps, in pence.
pub(crate) fn day_charge(caps: &[Cap], journeys: &[Journey]) -> u64
    requires few { length journeys.now ≤ HISTORY_LIMIT }
    ensures value { result ≡ day_charge caps.now journeys.now }
    ensures limit { result ≤ 2 ^ 32 * length journeys.now }
{
    let mut least = fares_of(journeys);
    for cap in caps {
        least = least.min(capped(*cap, journeys));
    }
    least
}

/// The cap to name for a day: none if the sum of the fares is the charge, else the first of these
/// caps that gives the charge.
pub(crate) fn applied_cap(caps: &[Cap], journeys: &[Journey]) -> Option<Cap>
    requires few { length journeys.now ≤ HISTORY_LIMIT }
    ensures value { result ≡ applied_cap caps.now journeys.now }
{
    let charge = day_charge(caps, journeys);
    if fares_of(journeys) == charge {
        return None;
    }
    for cap in caps {
        if capped(*cap, journeys) == charge {
            return Some(*cap);
        }
    }
    None
}

/// The sum of the fares of these journeys, in pence.
pub(crate) fn fares_of(journeys: &[Journey]) -> u64
    requires few { length journeys.now ≤ HISTORY_LIMIT }
    ensures value { result ≡ sum_by pence_of journeys.now }
    ensures limit { result ≤ 2 ^ 32 * length journeys.now }
{
    let mut sum = 0;
    for journey in journeys {
        sum += u64::from(journey.fare.pence);
    }
    sum
}

/// The charge for a day's journeys under one cap: its price, and the fares of the journeys that it
/// doesn't cover.
fn capped(cap: Cap, journeys: &[Journey]) -> u64
    requires few { length journeys.now ≤ HISTORY_LIMIT }
    ensures value { result ≡ capped journeys.now cap }
{
    let mut sum = u64::from(cap.price);
    for journey in journeys {
        if !is_covered(cap, journey.fare) {
            sum += u64::from(journey.fare.pence);
        }
    }
    sum
}
