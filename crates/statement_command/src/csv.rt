//! A statement as comma-separated values: rows for each line, with amounts in pence.

ghost use Rattle.std.specs.Prelude.{◌≡◌, ◌++◌, OnOk, IfOk, None, string_bytes, codes};
ghost use Rattle.std.specs.Fmt.{decimal};
ghost use Rattle.statement_command.specs.Csv.{csv_row, csv_of, amount_row, journey_row, cap_row};
ghost use Rattle.statement_command.specs.Csv.{row_start, row_middle, row_other};
ghost use Rattle.statement_command.specs.Csv.{touch_row, sums_rows, refused_row, refused_pence};
ghost use Rattle.statement_command.specs.Csv.{refused_station, journey_middle, cap_middle};
ghost use Rattle.statement_command.specs.Csv.{touch_middle};
ghost use Rattle.statement_command.specs.Words.{sign_word, balance_pence};

use crate::line::{Line, RefusedTouch, Sums};
use crate::put::Printed;
use crate::words::{balance_pence, band_word, cap_word, covered_word, reason_word, sign_word};
use card_statement::{Incomplete, JourneyRow};
use fare_table::Cap;
use journal_audit::verdict_field;
use oyster_account::Act;
use std::alloc::{AllocError, Global};

/// The names of the fields.
const HEADING: &str = "kind,day,pence,low,high,detail,station,moment,to,ended,covered\r\n";

/// Adds the rows of a line.
pub(crate) fn put_csv(alloc: Global, out: &mut Printed, line: &Line) -> Result<(), AllocError>
    ensures { OnOk result (out.new.text.items ≡ out.old.text.items ++ csv_of line.now) }
{
    match *line {
        Line::Card(_, _) => out.put(HEADING),
        Line::Before(sums) => put_sums(alloc, out, sums),
        Line::Day(_) => Ok(()),
        Line::Journey(day, row) => put_journey(alloc, out, day, row),
        Line::Fares(day, pence) => put_amount(alloc, out, "fares", Some(day), pence),
        Line::Cap(day, cap) => put_cap(alloc, out, day, cap),
        Line::Journeys(day, pence) => put_amount(alloc, out, "journeys", Some(day), pence),
        Line::Touch(day, row) => put_touch(alloc, out, day, row),
        Line::Charge(day, pence) => put_amount(alloc, out, "charge", Some(day), pence),
        Line::TopUps(_) => Ok(()),
        Line::TopUp(row) => {
            let middle = format!(in alloc; "{},,,,", row.pence)?;
            let moment = Some(row.stamp.moment);
            put_row(
                out,
                "top_up",
                Some(row.stamp.day),
                &middle,
                moment,
                "",
                None,
                "",
            )
        }
        Line::Refusals(_) => Ok(()),
        Line::Refused(refusal) => put_refused(alloc, out, &refusal),
        Line::PaidIn(pence) => put_amount(alloc, out, "paid_in", None, pence),
        Line::Charged(pence) => put_amount(alloc, out, "charged", None, pence),
        Line::Balance(paid_in, charged) => put_balance(alloc, out, paid_in, charged),
    }
}

/// Adds a row: its kind, its day, the fields from the pence to the station, the moment, the other
/// station, its moment, and whether a cap covers it.
fn put_row(
    out: &mut Printed,
    kind: &str,
    day: Option<i32>,
    middle: &str,
    moment: Option<u32>,
    to: &str,
    ended: Option<u32>,
    covered: &str,
) -> Result<(), AllocError>
    ensures { OnOk result (out.new.text.items ≡ out.old.text.items
        ++ csv_row kind.now day middle.now moment to.now ended covered.now) }
{
    put_start(out, kind, day)?;
    put_middle(out, middle, moment)?;
    put_other(out, to, ended)?;
    out.put(covered)?;
    out.put("\r\n")
}

/// Adds the kind of a row and its day, each with a comma.
fn put_start(out: &mut Printed, kind: &str, day: Option<i32>) -> Result<(), AllocError>
    ensures { OnOk result (out.new.text.items ≡ out.old.text.items ++ row_start kind.now day) }
{
    out.put(kind)?;
    out.put(",")?;
    out.put_any_day(day)?;
    out.put(",")
}

/// Adds the fields from the pence to the station and the moment, each with a comma.
fn put_middle(out: &mut Printed, middle: &str, moment: Option<u32>) -> Result<(), AllocError>
    ensures { OnOk result (out.new.text.items
        ≡ out.old.text.items ++ row_middle middle.now moment) }
{
    out.put(middle)?;
    out.put(",")?;
    out.put_any_moment(moment)?;
    out.put(",")
}

/// Adds the other station and its moment, each with a comma.
fn put_other(out: &mut Printed, to: &str, ended: Option<u32>) -> Result<(), AllocError>
    ensures { OnOk result (out.new.text.items ≡ out.old.text.items ++ row_other to.now ended) }
{
    out.put(to)?;
    out.put(",")?;
    out.put_any_moment(ended)?;
    out.put(",")
}

/// Adds a row with its pence alone, and of a day if there is one.
#[tactic(auto, unfolding(crate::specs::Csv::amount_row))]
fn put_amount(
    alloc: Global,
    out: &mut Printed,
    kind: &str,
    day: Option<i32>,
    pence: u64,
) -> Result<(), AllocError>
    ensures { OnOk result (out.new.text.items ≡ out.old.text.items
        ++ amount_row kind.now day (decimal pence)) }
{
    let middle = format!(in alloc; "{pence},,,,")?;
    put_row(out, kind, day, &middle, None, "", None, "")
}

/// Adds the row of the balance.
#[tactic(auto, unfolding(crate::specs::Csv::amount_row))]
fn put_balance(
    alloc: Global,
    out: &mut Printed,
    paid_in: u64,
    charged: u64,
) -> Result<(), AllocError>
    ensures { OnOk result (out.new.text.items ≡ out.old.text.items
        ++ amount_row (codes "balance") None (sign_word paid_in charged
        ++ decimal (balance_pence paid_in charged))) }
{
    let sign = sign_word(paid_in, charged);
    let pence = balance_pence(paid_in, charged);
    let middle = format!(in alloc; "{sign}{pence},,,,")?;
    put_row(out, "balance", None, &middle, None, "", None, "")
}

/// Adds the rows of the sums before the first day, if there are any.
fn put_sums(alloc: Global, out: &mut Printed, sums: Option<Sums>) -> Result<(), AllocError>
    ensures { OnOk result (out.new.text.items ≡ out.old.text.items ++ sums_rows sums) }
{
    match sums {
        Some(sums) => {
            put_amount(alloc, out, "paid_in_before", None, sums.paid_in)?;
            put_amount(alloc, out, "charged_before", None, sums.charged)
        }
        None => Ok(()),
    }
}

/// Adds the row of a journey.
fn put_journey(
    alloc: Global,
    out: &mut Printed,
    day: i32,
    row: JourneyRow,
) -> Result<(), AllocError>
    ensures { OnOk result (out.new.text.items ≡ out.old.text.items ++ journey_row day row) }
{
    let middle = journey_middle(alloc, row)?;
    let to = format!(in alloc; "{}", row.journey.finish.station)?;
    let began = Some(row.journey.start.stamp.moment);
    let ended = Some(row.journey.finish.stamp.moment);
    let covered = covered_word(row.covered);
    put_row(
        out,
        "journey",
        Some(day),
        &middle,
        began,
        &to,
        ended,
        covered,
    )
}

/// The fare, the zones, the band and the first station of a journey.
fn journey_middle(alloc: Global, row: JourneyRow) -> Result<String, AllocError>
    ensures { IfOk result (λ text. string_bytes text ≡ journey_middle row) }
{
    let pence = row.journey.fare.pence;
    let low = row.journey.fare.lo;
    let high = row.journey.fare.hi;
    let band = band_word(row.journey.fare.off_peak);
    let station = row.journey.start.station;
    format!(in alloc; "{pence},{low},{high},{band},{station}")
}

/// Adds the row of the cap that applied, if one did.
fn put_cap(alloc: Global, out: &mut Printed, day: i32, cap: Option<Cap>) -> Result<(), AllocError>
    ensures { OnOk result (out.new.text.items ≡ out.old.text.items ++ cap_row day cap) }
{
    match cap {
        Some(cap) => {
            let middle = cap_middle(alloc, cap)?;
            put_row(out, "cap", Some(day), &middle, None, "", None, "")
        }
        None => Ok(()),
    }
}

/// The price, the zones and the kind of a cap.
fn cap_middle(alloc: Global, cap: Cap) -> Result<String, AllocError>
    ensures { IfOk result (λ text. string_bytes text ≡ cap_middle cap) }
{
    let price = cap.price;
    let low = cap.lo;
    let high = cap.hi;
    let kind = cap_word(cap.off_peak);
    format!(in alloc; "{price},{low},{high},{kind},")
}

/// Adds the row of an incomplete touch.
fn put_touch(alloc: Global, out: &mut Printed, day: i32, row: Incomplete) -> Result<(), AllocError>
    ensures { OnOk result (out.new.text.items ≡ out.old.text.items ++ touch_row day row) }
{
    let middle = touch_middle(alloc, row)?;
    let moment = Some(row.touch.stamp.moment);
    put_row(out, "touch", Some(day), &middle, moment, "", None, "")
}

/// The charge, the reason and the station of an incomplete touch.
fn touch_middle(alloc: Global, row: Incomplete) -> Result<String, AllocError>
    ensures { IfOk result (λ text. string_bytes text ≡ touch_middle row) }
{
    let pence = row.pence;
    let reason = reason_word(row.reason);
    let station = row.touch.station;
    format!(in alloc; "{pence},,,{reason},{station}")
}

/// Adds the row of a refused touch.
fn put_refused(alloc: Global, out: &mut Printed, refusal: &RefusedTouch) -> Result<(), AllocError>
    ensures { OnOk result (out.new.text.items ≡ out.old.text.items ++ refused_row refusal.now) }
{
    let pence = refused_pence(alloc, &refusal.act)?;
    let verdict = verdict_field(refusal.verdict);
    let station = refused_station(alloc, &refusal.act)?;
    let middle = format!(in alloc; "{pence},,,{verdict},{station}")?;
    let moment = Some(refusal.stamp.moment);
    put_row(
        out,
        "refused",
        Some(refusal.stamp.day),
        &middle,
        moment,
        "",
        None,
        "",
    )
}

/// The pence that a refused top-up asks to pay in.
fn refused_pence(alloc: Global, act: &Act) -> Result<String, AllocError>
    ensures { IfOk result (λ text. string_bytes text ≡ refused_pence act.now) }
{
    match *act {
        Act::Enter { .. } => Ok(String::new(alloc)),
        Act::Leave { .. } => Ok(String::new(alloc)),
        Act::TopUp { pence, .. } => format!(in alloc; "{pence}"),
        Act::Issue { .. } => Ok(String::new(alloc)),
        Act::Revise { .. } => Ok(String::new(alloc)),
    }
}

/// The station of a refused touch in or out.
fn refused_station(alloc: Global, act: &Act) -> Result<String, AllocError>
    ensures { IfOk result (λ text. string_bytes text ≡ refused_station act.now) }
{
    match *act {
        Act::Enter { station, .. } => format!(in alloc; "{station}"),
        Act::Leave { station, .. } => format!(in alloc; "{station}"),
        Act::TopUp { .. } => Ok(String::new(alloc)),
        Act::Issue { .. } => Ok(String::new(alloc)),
        Act::Revise { .. } => Ok(String::new(alloc)),
    }
}
