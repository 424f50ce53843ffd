//! A statement as text for a customer: a line for each row, with amounts in pounds.

use crate::line::{Line, RefusedTouch, Sums};
use crate::put::Printed;
use crate::station::shown_station;
use crate::words::{balance_pence, band_word, cap_word, sign_word};
use card_statement::{Incomplete, JourneyRow, Reason, TopUp};
use fare_schedule::Schedule;
use fare_table::Cap;
use journal_audit::verdict_field;
use money_time::{FARE_DAY_START, Stamp};
use oyster_account::{Act, Passage};
use std::alloc::{AllocError, Global};

/// The pence of a pound.
const POUND: u64 = 100;
/// The minutes of an hour.
const HOUR: u16 = 60;

/// Adds what a line prints.
pub(crate) fn put_text(
    alloc: Global,
    schedule: &Schedule,
    out: &mut Printed,
    line: &Line,
) -> Result<(), AllocError> {
    match *line {
        Line::Card(card, _) => put_said(alloc, out, card),
        Line::Before(sums) => put_sums(alloc, out, sums),
        Line::Day(day) => put_day(out, day),
        Line::Journey(day, row) => put_journey(alloc, schedule, out, day, row),
        Line::Fares(_, pence) => put_amount(alloc, out, "", pence, "  fares\n"),
        Line::Cap(_, cap) => put_cap(alloc, out, cap),
        Line::Journeys(_, pence) => put_amount(alloc, out, "", pence, "  journeys\n"),
        Line::Touch(day, row) => put_touch(alloc, schedule, out, day, row),
        Line::Charge(day, pence) => {
            put_amount(alloc, out, "", pence, "  charged for ")?;
            out.put_day(day)?;
            out.put("\n")
        }
        Line::TopUps(has_any) => put_heading(out, has_any, "\ntop-ups\n"),
        Line::TopUp(row) => put_top_up(alloc, out, row),
        Line::Refusals(has_any) => put_heading(out, has_any, "\nrefused\n"),
        Line::Refused(refusal) => put_refused(alloc, schedule, out, &refusal),
        Line::PaidIn(pence) => {
            out.put("\n")?;
            put_amount(alloc, out, "", pence, "  paid in\n")
        }
        Line::Charged(pence) => put_amount(alloc, out, "", pence, "  charged\n"),
        Line::Balance(paid_in, charged) => {
            let pence = balance_pence(paid_in, charged);
            put_amount(
                alloc,
                out,
                sign_word(paid_in, charged),
                pence,
                "  balance\n",
            )
        }
    }
}

/// Adds the line of the card.
fn put_said(alloc: Global, out: &mut Printed, card: u32) -> Result<(), AllocError> {
    let said = format!(in alloc; "card {card}\n")?;
    out.put(&said)
}

/// Adds the date of a fare day, after an empty line.
fn put_day(out: &mut Printed, day: i32) -> Result<(), AllocError> {
    out.put("\n")?;
    out.put_day(day)?;
    out.put("\n")
}

/// Adds a heading, if there is anything below it.
fn put_heading(out: &mut Printed, has_any: bool, said: &str) -> Result<(), AllocError> {
    if has_any { out.put(said) } else { Ok(()) }
}

/// Adds an amount in pounds, right-aligned, and what follows it.
fn put_amount(
    alloc: Global,
    out: &mut Printed,
    sign: &str,
    pence: u64,
    said: &str,
) -> Result<(), AllocError> {
    let pounds = format!(in alloc; "{sign}{}", pence / POUND)?;
    let rest = pence % POUND;
    let amount = format!(in alloc; "{pounds:>7}.{rest:02}")?;
    out.put(&amount)?;
    out.put(said)
}

/// Adds the sums before the first day, if a first day is asked for.
fn put_sums(alloc: Global, out: &mut Printed, sums: Option<Sums>) -> Result<(), AllocError> {
    match sums {
        Some(sums) => {
            out.put("before ")?;
            out.put_day(sums.day)?;
            out.put("\n")?;
            put_amount(alloc, out, "", sums.paid_in, "  paid in\n")?;
            put_amount(alloc, out, "", sums.charged, "  charged\n")
        }
        None => Ok(()),
    }
}

/// The clock of a stamp.
pub(crate) fn clock_of(alloc: Global, stamp: Stamp) -> Result<String, AllocError> {
    let hour = stamp.minute / HOUR;
    let minute = stamp.minute % HOUR;
    format!(in alloc; "{hour:02}:{minute:02}")
}

/// Adds the line of a journey.
fn put_journey(
    alloc: Global,
    schedule: &Schedule,
    out: &mut Printed,
    day: i32,
    row: JourneyRow,
) -> Result<(), AllocError> {
    let start = row.journey.start;
    let finish = row.journey.finish;
    let fare = row.journey.fare;
    let said = times_of(alloc, day, start, finish)?;
    put_amount(alloc, out, "", u64::from(fare.pence), &said)?;
    let band = band_word(fare.off_peak);
    let capped = if row.covered { ", capped" } else { "" };
    let zones = format!(in alloc; "zones {} to {}  {band}{capped}: ", fare.lo, fare.hi)?;
    out.put(&zones)?;
    put_ends(alloc, schedule, out, day, start, finish)
}

/// The date of a stamp by the clock, in days since 1970-01-01. A fare day ends on the next date.
fn date_of(stamp: Stamp) -> i32 {
    stamp
        .day
        .saturating_add(i32::from(stamp.minute < FARE_DAY_START))
}

/// The clock of a touch below a fare day, and how many dates later it is, if it is later.
fn clock_below(alloc: Global, day: i32, stamp: Stamp) -> Result<String, AllocError> {
    let clock = clock_of(alloc, stamp)?;
    let later = date_of(stamp).saturating_sub(day);
    if later > 0 {
        format!(in alloc; "{clock} (+{later})")
    } else {
        Ok(clock)
    }
}

/// The times of a journey's ends.
fn times_of(
    alloc: Global,
    day: i32,
    start: Passage,
    finish: Passage,
) -> Result<String, AllocError> {
    let began = clock_below(alloc, day, start.stamp)?;
    let ended = clock_below(alloc, day, finish.stamp)?;
    format!(in alloc; "  {began} to {ended}  ")
}

/// Adds the names of a journey's stations.
fn put_ends(
    alloc: Global,
    schedule: &Schedule,
    out: &mut Printed,
    day: i32,
    start: Passage,
    finish: Passage,
) -> Result<(), AllocError> {
    let from = shown_station(alloc, schedule, day, start.station)?;
    let to = shown_station(alloc, schedule, finish.stamp.day, finish.station)?;
    let said = format!(in alloc; "{from} to {to}\n")?;
    out.put(&said)
}

/// Adds the line of the cap that applied, or that none did.
fn put_cap(alloc: Global, out: &mut Printed, cap: Option<Cap>) -> Result<(), AllocError> {
    match cap {
        Some(cap) => {
            let kind = cap_word(cap.off_peak);
            let said = format!(in alloc;
                "  daily cap of zones {} to {}, {kind}\n",
                cap.lo, cap.hi
            )?;
            put_amount(alloc, out, "", u64::from(cap.price), &said)
        }
        None => out.put("            no daily cap\n"),
    }
}

/// Adds the line of an incomplete touch.
fn put_touch(
    alloc: Global,
    schedule: &Schedule,
    out: &mut Printed,
    day: i32,
    row: Incomplete,
) -> Result<(), AllocError> {
    let clock = clock_below(alloc, day, row.touch.stamp)?;
    let station = shown_station(alloc, schedule, day, row.touch.station)?;
    let (before, after) = sentence_of(row.reason);
    let said = format!(in alloc; "  {clock}  maximum: {before}{station}{after}\n")?;
    put_amount(alloc, out, "", u64::from(row.pence), &said)
}

/// The sentence of a reason, before and after the name of the station.
fn sentence_of(reason: Reason) -> (&'static str, &'static str) {
    match reason {
        Reason::Open => ("touched in at ", ", and no touch in or out followed"),
        Reason::EnteredOver => (
            "touched in at ",
            ", and the next touch was another touch in",
        ),
        Reason::NotLeftInTime => ("touched in at ", ", and touched out after the time limit"),
        Reason::Late => ("touched out at ", " after the time limit"),
        Reason::Unstarted => ("touched out at ", " without a touch in"),
    }
}

/// Adds the line of a top-up.
fn put_top_up(alloc: Global, out: &mut Printed, row: TopUp) -> Result<(), AllocError> {
    put_amount(alloc, out, "", u64::from(row.pence), "  ")?;
    put_when(alloc, out, row.stamp)?;
    out.put("\n")
}

/// Adds a date and a time, both by the clock.
fn put_when(alloc: Global, out: &mut Printed, stamp: Stamp) -> Result<(), AllocError> {
    out.put_day(date_of(stamp))?;
    out.put(" ")?;
    let clock = clock_of(alloc, stamp)?;
    out.put(&clock)
}

/// Adds the line of a refused touch.
fn put_refused(
    alloc: Global,
    schedule: &Schedule,
    out: &mut Printed,
    refusal: &RefusedTouch,
) -> Result<(), AllocError> {
    out.put("            ")?;
    put_when(alloc, out, refusal.stamp)?;
    out.put("  ")?;
    out.put(verdict_field(refusal.verdict))?;
    out.put(": ")?;
    put_act(alloc, schedule, out, refusal)?;
    out.put("\n")
}

/// Adds the act of a refused touch.
fn put_act(
    alloc: Global,
    schedule: &Schedule,
    out: &mut Printed,
    refusal: &RefusedTouch,
) -> Result<(), AllocError> {
    match refusal.act {
        Act::Enter { station, .. } => {
            let at = shown_station(alloc, schedule, refusal.stamp.day, station)?;
            out.put("touch in at ")?;
            out.put(&at)
        }
        Act::Leave { station, .. } => {
            let at = shown_station(alloc, schedule, refusal.stamp.day, station)?;
            out.put("touch out at ")?;
            out.put(&at)
        }
        Act::TopUp { pence, .. } => {
            let pence = u64::from(pence);
            let said = format!(in alloc; "top-up of {}.{:02}", pence / POUND, pence % POUND)?;
            out.put(&said)
        }
        Act::Issue { .. } => out.put("issue"),
        Act::Revise { .. } => out.put("revision"),
    }
}
