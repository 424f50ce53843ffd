//! The lines of a statement.

ghost use Rattle.std.specs.Prelude.{◌≡◌, ◌++◌, ◌<◌, ◌^◌, map, sum_by, OnOk, IfOk};
ghost use Rattle.std.specs.List.{list_any};
ghost use Rattle.card_statement.specs.Day.{content_of_day, pence_charged};
ghost use Rattle.card_statement.specs.Statement.{content_of_statement, pence_in_row};
ghost use Rattle.statement_command.specs.Lines.{IsSummable, lines_back, totals_back, heading_back};
ghost use Rattle.statement_command.specs.Lines.{days_back, day_back, day_back_of, sums_back};
ghost use Rattle.statement_command.specs.Lines.{before};
ghost use Rattle.statement_command.specs.Lines.{top_ups_back, top_up_back, is_top_up_of};
ghost use Rattle.statement_command.specs.Lines.{refusals_back, refusal_back, is_refusal_of};
ghost use Rattle.statement_command.specs.Lines.{charged_up_to, charged_before};
ghost use Rattle.statement_command.specs.Lines.{paid_up_to, paid_before};
ghost use Rattle.statement_command.specs.declared.line.Line.TheVariants.{Touch, Journey};

use crate::days::Days;
use crate::line::{Line, RefusedTouch, Sums};
use card_statement::{Day, Incomplete, JourneyRow, Statement, TopUp};
use std::alloc::{AllocError, Global};

/// The lines of the statement of a card on these days, last one first. The refused touches are
/// newest first.
#[tactic(auto, unfolding(crate::specs::Lines::lines_back))]
pub(crate) fn lines_back(
    alloc: Global,
    card: u32,
    days: Days,
    statement: &Statement,
    refusals: &[RefusedTouch],
) -> Result<Vec<Line>, AllocError>
    requires limit { IsSummable statement.now }
    ensures { IfOk result (λ lines. lines.items
        ≡ lines_back card days (content_of_statement statement.now) refusals.now) }
{
    let mut lines = Vec::new(alloc);
    add_totals(&mut lines, days, statement)?;
    add_refusals(&mut lines, days, refusals)?;
    add_top_ups(&mut lines, days, &statement.top_ups)?;
    add_days(&mut lines, days, &statement.days)?;
    add_heading(&mut lines, card, days, statement)?;
    Ok(lines)
}

/// Adds the lines of the sums.
#[tactic(auto, unfolding(crate::specs::Lines::totals_back))]
fn add_totals(lines: &mut Vec<Line>, days: Days, statement: &Statement) -> Result<(), AllocError>
    requires limit { IsSummable statement.now }
    ensures { OnOk result (lines.new.items
        ≡ lines.old.items ++ totals_back days (content_of_statement statement.now)) }
{
    let paid_in = paid_up_to(days, &statement.top_ups);
    let charged = charged_up_to(days, &statement.days);
    lines.push(Line::Balance(paid_in, charged))?;
    lines.push(Line::Charged(charged))?;
    lines.push(Line::PaidIn(paid_in))?;
    Ok(())
}

/// Adds the lines of the refused touches.
#[tactic(auto, unfolding(crate::specs::Lines::refusals_back))]
fn add_refusals(
    lines: &mut Vec<Line>,
    days: Days,
    refusals: &[RefusedTouch],
) -> Result<(), AllocError>
    ensures { OnOk result (lines.new.items ≡ lines.old.items ++ refusals_back days refusals.now) }
{
    for refusal in refusals {
        add_refusal(lines, days, *refusal)?;
    }
    lines.push(Line::Refusals(has_refusal(days, refusals)))?;
    Ok(())
}

/// Adds the line of a refused touch, if its fare day is asked for.
fn add_refusal(lines: &mut Vec<Line>, days: Days, refusal: RefusedTouch) -> Result<(), AllocError>
    ensures { OnOk result (lines.new.items ≡ lines.old.items ++ refusal_back days refusal) }
{
    if days.has(refusal.stamp.day) {
        lines.push(Line::Refused(refusal))?;
    }
    Ok(())
}

/// Whether a refused touch is on a fare day that is asked for.
fn has_refusal(days: Days, refusals: &[RefusedTouch]) -> bool
    ensures { result ≡ list_any (is_refusal_of days) refusals.now }
{
    refusals.iter().any(|refusal| days.has(refusal.stamp.day))
}

/// Adds the lines of the top-ups.
#[tactic(auto, unfolding(crate::specs::Lines::top_ups_back))]
fn add_top_ups(lines: &mut Vec<Line>, days: Days, top_ups: &[TopUp]) -> Result<(), AllocError>
    ensures { OnOk result (lines.new.items ≡ lines.old.items ++ top_ups_back days top_ups.now) }
{
    for top_up in top_ups {
        add_top_up(lines, days, *top_up)?;
    }
    lines.push(Line::TopUps(has_top_up(days, top_ups)))?;
    Ok(())
}

/// Adds the line of a top-up, if its fare day is asked for.
fn add_top_up(lines: &mut Vec<Line>, days: Days, top_up: TopUp) -> Result<(), AllocError>
    ensures { OnOk result (lines.new.items ≡ lines.old.items ++ top_up_back days top_up) }
{
    if days.has(top_up.stamp.day) {
        lines.push(Line::TopUp(top_up))?;
    }
    Ok(())
}

/// Whether a top-up is on a fare day that is asked for.
fn has_top_up(days: Days, top_ups: &[TopUp]) -> bool
    ensures { result ≡ list_any (is_top_up_of days) top_ups.now }
{
    top_ups.iter().any(|top_up| days.has(top_up.stamp.day))
}

/// Adds the lines of the fare days.
fn add_days(lines: &mut Vec<Line>, days: Days, rows: &[Day]) -> Result<(), AllocError>
    requires limit { sum_by pence_charged (map content_of_day rows.now) < 2 ^ 64 }
    ensures { OnOk result (lines.new.items
        ≡ lines.old.items ++ days_back days (map content_of_day rows.now)) }
{
    for row in rows {
        add_day_of(lines, days, row)?;
    }
    Ok(())
}

/// Adds the lines of a fare day, if it is asked for.
fn add_day_of(lines: &mut Vec<Line>, days: Days, row: &Day) -> Result<(), AllocError>
    requires limit { pence_charged (content_of_day row.now) < 2 ^ 64 }
    ensures { OnOk result (lines.new.items
        ≡ lines.old.items ++ day_back_of days (content_of_day row.now)) }
{
    if days.has(row.day) {
        add_day(lines, row)?;
    }
    Ok(())
}

/// Adds the lines of a fare day.
fn add_day(lines: &mut Vec<Line>, row: &Day) -> Result<(), AllocError>
    requires limit { pence_charged (content_of_day row.now) < 2 ^ 64 }
    ensures { OnOk result (lines.new.items ≡ lines.old.items ++ day_back (content_of_day row.now)) }
{
    lines.push(Line::Charge(row.day, row.charge + row.missing))?;
    add_touches(lines, row.day, &row.incomplete)?;
    add_sums(lines, row)?;
    add_journeys(lines, row.day, &row.journeys)?;
    lines.push(Line::Day(row.day))?;
    Ok(())
}

/// Adds the lines of the incomplete touches of a fare day.
fn add_touches(lines: &mut Vec<Line>, day: i32, touches: &[Incomplete]) -> Result<(), AllocError>
    ensures { OnOk result (lines.new.items ≡ lines.old.items ++ map (Touch day) touches.now) }
{
    for touch in touches {
        lines.push(Line::Touch(day, *touch))?;
    }
    Ok(())
}

/// Adds the lines between the incomplete touches and the journeys of a fare day.
fn add_sums(lines: &mut Vec<Line>, row: &Day) -> Result<(), AllocError>
    ensures { OnOk result (lines.new.items
        ≡ lines.old.items ++ sums_back (content_of_day row.now)) }
{
    lines.push(Line::Journeys(row.day, row.charge))?;
    lines.push(Line::Cap(row.day, row.cap))?;
    lines.push(Line::Fares(row.day, row.fares))?;
    Ok(())
}

/// Adds the lines of the journeys of a fare day.
fn add_journeys(lines: &mut Vec<Line>, day: i32, journeys: &[JourneyRow]) -> Result<(), AllocError>
    ensures { OnOk result (lines.new.items ≡ lines.old.items ++ map (Journey day) journeys.now) }
{
    for journey in journeys {
        lines.push(Line::Journey(day, *journey))?;
    }
    Ok(())
}

/// Adds the lines before all fare days.
#[tactic(auto, unfolding(crate::specs::Lines::heading_back))]
fn add_heading(
    lines: &mut Vec<Line>,
    card: u32,
    days: Days,
    statement: &Statement,
) -> Result<(), AllocError>
    requires limit { IsSummable statement.now }
    ensures { OnOk result (lines.new.items
        ≡ lines.old.items ++ heading_back card days (content_of_statement statement.now)) }
{
    lines.push(Line::Before(before(days, statement)))?;
    lines.push(Line::Card(card, days))?;
    Ok(())
}

/// What was paid in and charged before the first day that is asked for, if one is.
fn before(days: Days, statement: &Statement) -> Option<Sums>
    requires limit { IsSummable statement.now }
    ensures { result ≡ before days (content_of_statement statement.now) days.from }
{
    match days.from {
        Some(day) => Some(Sums {
            day,
            paid_in: paid_before(days, &statement.top_ups),
            charged: charged_before(days, &statement.days),
        }),
        None => None,
    }
}

/// The charges of the fare days up to the last day that is asked for.
fn charged_up_to(days: Days, rows: &[Day]) -> u64
    requires limit { sum_by pence_charged (map content_of_day rows.now) < 2 ^ 64 }
    ensures { result ≡ charged_up_to days (map content_of_day rows.now) }
{
    let mut sum = 0;
    for row in rows {
        if days.is_up_to_last(row.day) {
            sum += row.charge + row.missing;
        }
    }
    sum
}

/// The charges of the fare days before the first day that is asked for.
fn charged_before(days: Days, rows: &[Day]) -> u64
    requires limit { sum_by pence_charged (map content_of_day rows.now) < 2 ^ 64 }
    ensures { result ≡ charged_before days (map content_of_day rows.now) }
{
    let mut sum = 0;
    for row in rows {
        if days.is_before_first(row.day) {
            sum += row.charge + row.missing;
        }
    }
    sum
}

/// The top-ups up to the last day that is asked for.
fn paid_up_to(days: Days, top_ups: &[TopUp]) -> u64
    requires limit { sum_by pence_in_row top_ups.now < 2 ^ 64 }
    ensures { result ≡ paid_up_to days top_ups.now }
{
    let mut sum = 0;
    for top_up in top_ups {
        if days.is_up_to_last(top_up.stamp.day) {
            sum += u64::from(top_up.pence);
        }
    }
    sum
}

/// The top-ups before the first day that is asked for.
fn paid_before(days: Days, top_ups: &[TopUp]) -> u64
    requires limit { sum_by pence_in_row top_ups.now < 2 ^ 64 }
    ensures { result ≡ paid_before days top_ups.now }
{
    let mut sum = 0;
    for top_up in top_ups {
        if days.is_before_first(top_up.stamp.day) {
            sum += u64::from(top_up.pence);
        }
    }
    sum
}
