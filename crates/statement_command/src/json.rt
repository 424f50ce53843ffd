//! A statement as a JSON object, with amounts in pence. What precedes an item of a list depends on
//! the line before it: the first item follows the line that begins the list.

use crate::days::Days;
use crate::line::{Line, RefusedTouch, Sums};
use crate::put::Printed;
use crate::station::name_of;
use crate::text::clock_of;
use crate::words::{balance_pence, reason_word, sign_word};
use card_statement::{Incomplete, JourneyRow, TopUp};
use fare_schedule::Schedule;
use fare_table::Cap;
use journal_audit::verdict_field;
use oyster_account::{Act, Passage};
use std::alloc::{AllocError, Global};

/// Adds what a line prints, after that of the line before it.
pub(crate) fn put_json(
    alloc: Global,
    schedule: &Schedule,
    out: &mut Printed,
    is_first: bool,
    line: &Line,
) -> Result<(), AllocError> {
    match *line {
        Line::Card(card, days) => put_card(alloc, out, card, days),
        Line::Before(sums) => put_sums(alloc, out, sums),
        Line::Day(day) => put_day(out, is_first, day),
        Line::Journey(_, row) => {
            put_separator(out, is_first)?;
            put_journey(alloc, schedule, out, row)
        }
        Line::Fares(_, pence) => put_number(alloc, out, "\n],\"fares\":", pence, ""),
        Line::Cap(_, cap) => put_cap(alloc, out, cap),
        Line::Journeys(_, pence) => {
            put_number(
                alloc,
                out,
                ",\"charge_for_journeys\":",
                pence,
                ",\"touches\":[",
            )
        }
        Line::Touch(_, row) => {
            put_separator(out, is_first)?;
            put_touch(alloc, schedule, out, row)
        }
        Line::Charge(_, pence) => put_number(alloc, out, "\n],\"charge\":", pence, "}"),
        Line::TopUps(_) => out.put("\n],\"top_ups\":["),
        Line::TopUp(row) => {
            put_separator(out, is_first)?;
            put_top_up(alloc, out, row)
        }
        Line::Refusals(_) => out.put("\n],\"refused\":["),
        Line::Refused(refusal) => {
            put_separator(out, is_first)?;
            put_refused(alloc, out, &refusal)
        }
        Line::PaidIn(pence) => put_number(alloc, out, "\n],\"paid_in\":", pence, ""),
        Line::Charged(pence) => put_number(alloc, out, ",\"charged\":", pence, ""),
        Line::Balance(paid_in, charged) => put_balance(alloc, out, paid_in, charged),
    }
}

/// Adds the beginning of a fare day.
fn put_day(out: &mut Printed, is_first: bool, day: i32) -> Result<(), AllocError> {
    put_separator(out, is_first)?;
    out.put("{\"day\":\"")?;
    out.put_day(day)?;
    out.put("\",\"journeys\":[")
}

/// Whether a line begins a list: the next item is the first.
pub(crate) fn begins_list(line: &Line) -> bool {
    match *line {
        Line::Before(_) => true,
        Line::Day(_) => true,
        Line::Journeys(_, _) => true,
        Line::TopUps(_) => true,
        Line::Refusals(_) => true,
        _ => false,
    }
}

/// Adds what precedes an item of a list.
fn put_separator(out: &mut Printed, is_first: bool) -> Result<(), AllocError> {
    if is_first {
        out.put("\n")
    } else {
        out.put(",\n")
    }
}

/// Adds a number between two texts.
fn put_number(
    alloc: Global,
    out: &mut Printed,
    before: &str,
    number: u64,
    after: &str,
) -> Result<(), AllocError> {
    let said = format!(in alloc; "{before}{number}{after}")?;
    out.put(&said)
}

/// Adds the balance, and the end of the object.
fn put_balance(
    alloc: Global,
    out: &mut Printed,
    paid_in: u64,
    charged: u64,
) -> Result<(), AllocError> {
    out.put(",\"balance\":")?;
    put_number(
        alloc,
        out,
        sign_word(paid_in, charged),
        balance_pence(paid_in, charged),
        "}\n",
    )
}

/// Adds the card and the days that are asked for.
fn put_card(alloc: Global, out: &mut Printed, card: u32, days: Days) -> Result<(), AllocError> {
    put_number(alloc, out, "{\"card\":", u64::from(card), ",\"from\":")?;
    put_any_day(out, days.from)?;
    out.put(",\"to\":")?;
    put_any_day(out, days.to)
}

/// Adds a day as a string, or null.
fn put_any_day(out: &mut Printed, day: Option<i32>) -> Result<(), AllocError> {
    match day {
        Some(day) => {
            out.put("\"")?;
            out.put_day(day)?;
            out.put("\"")
        }
        None => out.put("null"),
    }
}

/// Adds the sums before the first day, and the beginning of the days.
fn put_sums(alloc: Global, out: &mut Printed, sums: Option<Sums>) -> Result<(), AllocError> {
    match sums {
        Some(sums) => {
            put_number(alloc, out, ",\"before\":{\"paid_in\":", sums.paid_in, "")?;
            put_number(alloc, out, ",\"charged\":", sums.charged, "},\"days\":[")
        }
        None => out.put(",\"before\":null,\"days\":["),
    }
}

/// A truth value.
fn truth(is: bool) -> &'static str {
    if is { "true" } else { "false" }
}

/// Adds a journey.
fn put_journey(
    alloc: Global,
    schedule: &Schedule,
    out: &mut Printed,
    row: JourneyRow,
) -> Result<(), AllocError> {
    let fare = row.journey.fare;
    put_number(alloc, out, "{\"pence\":", u64::from(fare.pence), "")?;
    put_number(alloc, out, ",\"low\":", u64::from(fare.lo), "")?;
    put_number(
        alloc,
        out,
        ",\"high\":",
        u64::from(fare.hi),
        ",\"off_peak\":",
    )?;
    out.put(truth(fare.off_peak))?;
    out.put(",\"covered\":")?;
    out.put(truth(row.covered))?;
    out.put(",\"from\":")?;
    put_place(alloc, schedule, out, row.journey.start)?;
    out.put(",\"to\":")?;
    put_place(alloc, schedule, out, row.journey.finish)?;
    out.put("}")
}

/// Adds where and when a touch in or out was.
fn put_place(
    alloc: Global,
    schedule: &Schedule,
    out: &mut Printed,
    at: Passage,
) -> Result<(), AllocError> {
    put_number(
        alloc,
        out,
        "{\"station\":",
        u64::from(at.station),
        ",\"name\":",
    )?;
    match name_of(schedule, at.stamp.day, at.station) {
        Some(name) => put_name(alloc, out, name)?,
        None => out.put("null")?,
    }
    out.put(",\"moment\":\"")?;
    out.put_moment(at.stamp.moment)?;
    out.put("\",\"time\":\"")?;
    let clock = clock_of(alloc, at.stamp)?;
    out.put(&clock)?;
    out.put("\"}")
}

/// Adds a name as a string, with what JSON escapes.
fn put_name(alloc: Global, out: &mut Printed, name: &str) -> Result<(), AllocError> {
    out.put("\"")?;
    for byte in name.as_bytes() {
        put_byte(alloc, out, *byte)?;
    }
    out.put("\"")
}

/// Adds a byte of a name, escaped if it is a quotation mark, a backslash or a control character.
fn put_byte(alloc: Global, out: &mut Printed, byte: u8) -> Result<(), AllocError> {
    if byte < 0x20 {
        let said = format!(in alloc; "\\u{byte:04x}")?;
        return out.put(&said);
    }
    if byte == b'"' || byte == b'\\' {
        out.put("\\")?;
    }
    out.put_byte(byte)
}

/// Adds the cap that applied, or null.
fn put_cap(alloc: Global, out: &mut Printed, cap: Option<Cap>) -> Result<(), AllocError> {
    match cap {
        Some(cap) => {
            put_number(alloc, out, ",\"cap\":{\"pence\":", u64::from(cap.price), "")?;
            put_number(alloc, out, ",\"low\":", u64::from(cap.lo), "")?;
            put_number(
                alloc,
                out,
                ",\"high\":",
                u64::from(cap.hi),
                ",\"off_peak\":",
            )?;
            out.put(truth(cap.off_peak))?;
            out.put("}")
        }
        None => out.put(",\"cap\":null"),
    }
}

/// Adds an incomplete touch.
fn put_touch(
    alloc: Global,
    schedule: &Schedule,
    out: &mut Printed,
    row: Incomplete,
) -> Result<(), AllocError> {
    put_number(
        alloc,
        out,
        "{\"pence\":",
        u64::from(row.pence),
        ",\"reason\":\"",
    )?;
    out.put(reason_word(row.reason))?;
    out.put("\",\"at\":")?;
    put_place(alloc, schedule, out, row.touch)?;
    out.put("}")
}

/// Adds a top-up.
fn put_top_up(alloc: Global, out: &mut Printed, row: TopUp) -> Result<(), AllocError> {
    out.put("{\"day\":\"")?;
    out.put_day(row.stamp.day)?;
    put_number(
        alloc,
        out,
        "\",\"pence\":",
        u64::from(row.pence),
        ",\"moment\":\"",
    )?;
    out.put_moment(row.stamp.moment)?;
    out.put("\"}")
}

/// Adds a refused touch.
fn put_refused(alloc: Global, out: &mut Printed, refusal: &RefusedTouch) -> Result<(), AllocError> {
    out.put("{\"day\":\"")?;
    out.put_day(refusal.stamp.day)?;
    out.put("\",\"moment\":\"")?;
    out.put_moment(refusal.stamp.moment)?;
    out.put("\",\"verdict\":\"")?;
    out.put(verdict_field(refusal.verdict))?;
    out.put("\",\"act\":")?;
    put_act(alloc, out, &refusal.act)?;
    out.put("}")
}

/// Adds the act of a refused touch, its station and its amount.
fn put_act(alloc: Global, out: &mut Printed, act: &Act) -> Result<(), AllocError> {
    match *act {
        Act::Enter { station, .. } => {
            put_number(
                alloc,
                out,
                "\"in\",\"station\":",
                u64::from(station),
                ",\"pence\":null",
            )
        }
        Act::Leave { station, .. } => {
            put_number(
                alloc,
                out,
                "\"out\",\"station\":",
                u64::from(station),
                ",\"pence\":null",
            )
        }
        Act::TopUp { pence, .. } => {
            put_number(
                alloc,
                out,
                "\"top-up\",\"station\":null,\"pence\":",
                u64::from(pence),
                "",
            )
        }
        Act::Issue { .. } => out.put("\"issue\",\"station\":null,\"pence\":null"),
        Act::Revise { .. } => out.put("\"revision\",\"station\":null,\"pence\":null"),
    }
}
