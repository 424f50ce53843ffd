//! What a journey costs by a fare table, and why.

ghost use Rattle.std.specs.Prelude.{◌≡◌, ◌⊎◌, None, Some, IsSome, IfOk, IfErr, map};
ghost use Rattle.fare_table.specs.Fare.{station_at, stamp_of};
ghost use Rattle.fare_table.specs.Fares.{content_of};
ghost use Rattle.oyster_account.specs.Charge.{least};
ghost use Rattle.table_check.specs.Fare.{capped_by, IsQuoteOf, printed_quote, window_name};

use fare_table::{Cap, Fare, Fares};
use money_time::{Stamp, Window};
use oyster_account::part_of;
use std::fmt;

/// What a journey costs by a fare table, and why. It prints as the lines of `check --fare`.
#[derive(Clone, Copy, Debug, PartialEq, Eq)]
pub struct Quote {
    /// What a card is charged that makes no other journey on the fare day, in pence.
    pub charge: u64,
    /// The fare of the journey. The charge is below it where a cap is.
    pub fare: Fare,
    /// Whether a named pair gives the fare, and not the zones.
    pub is_named: bool,
    /// When the journey starts, as the table's clock and holidays stamp it.
    pub stamp: Stamp,
}

/// The number of a station that the table hasn't.
#[derive(Clone, Copy, Debug, PartialEq, Eq)]
pub struct UnknownStation {
    /// The number.
    pub station: u16,
}

/// What the journey from one station to another costs that starts at a moment, in seconds since
/// 1970-01-01 00:00:00 UTC, and ends within the time of a leg. The caller says whether a named pair
/// gives its fare.
///
/// The error is a station that the table hasn't, the first one before the second.
pub fn cost_of(
    fares: &Fares,
    is_named: bool,
    from: u16,
    to: u16,
    moment: u32,
) -> Result<Quote, UnknownStation>
    ensures ok { IfOk result (IsQuoteOf (content_of fares.now) from to moment) }
    ensures unknown { IfErr result (λ unknown.
        ((unknown.station ≡ from) ⊎ (unknown.station ≡ to))
        × (station_at (content_of fares.now) unknown.station ≡ None)) }
{
    if fares.station(from).is_none() {
        return Err(UnknownStation { station: from });
    }
    if fares.station(to).is_none() {
        return Err(UnknownStation { station: to });
    }
    Ok(cost_known(fares, is_named, from, to, moment))
}

/// What such a journey costs between stations that the table has.
fn cost_known(fares: &Fares, is_named: bool, from: u16, to: u16, moment: u32) -> Quote
    requires from_known { IsSome (station_at (content_of fares.now) from) }
    requires to_known { IsSome (station_at (content_of fares.now) to) }
    ensures { IsQuoteOf (content_of fares.now) from to moment result }
{
    let stamp = stamp(fares, moment);
    let fare = fares.fare(from, to, stamp.window);
    Quote {
        charge: charge(fares.caps(), fare),
        fare,
        is_named,
        stamp,
    }
}

/// The stamp of a moment.
fn stamp(fares: &Fares, moment: u32) -> Stamp
    ensures { result ≡ stamp_of (content_of fares.now) moment }
{
    let Ok(stamp) = fares.stamp(moment) else {
        unreachable!()
    };
    stamp
}

/// What a fare day's only journey of this fare is charged: the fare, or what a cap makes of it.
fn charge(caps: &[Cap], fare: Fare) -> u64
    ensures { result ≡ least fare.pence (map (capped_by fare) caps.now) }
{
    let mut least = u64::from(fare.pence);
    for cap in caps {
        least = least.min(capped(*cap, fare));
    }
    least
}

/// What a cap makes of a fare day's only journey of this fare.
fn capped(cap: Cap, fare: Fare) -> u64
    ensures { result ≡ capped_by fare cap }
{
    u64::from(cap.price) + part_of(cap, fare)
}

impl fmt::Display for Quote {
    ghost output = { λ quote. Some (printed_quote quote) };

    fn fmt<W: fmt::Write>(&self, f: &mut fmt::Formatter<W>) -> fmt::Result {
        let (charge, pence, lo, hi) = (self.charge, self.fare.pence, self.fare.lo, self.fare.hi);
        let by = if self.is_named { "pair" } else { "zones" };
        let band = if self.fare.off_peak {
            "off-peak"
        } else {
            "peak"
        };
        let window = window_name(self.stamp.window);
        let (hour, minute) = (self.stamp.minute / 60, self.stamp.minute % 60);
        let (tens, ones) = (minute / 10, minute % 10);
        write!(
            f,
            "charge {charge}\nfare {pence}\nby {by}\nzones {lo} {hi}\nband {band}\n"
        )?;
        write!(f, "window {window}\nclock {hour}:{tens}{ones}\n")
    }
}

/// The name of a window (FARES.md, "Stamp").
fn window_name(window: Window) -> &'static str
    ensures { result.now ≡ window_name window }
{
    match window {
        Window::Early => "early",
        Window::Evening => "evening",
        Window::Off => "off",
    }
}
