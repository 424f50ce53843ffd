//! The statement of a card from its touches, in one of the formats.

ghost use Rattle.std.specs.Prelude.{◌≡◌, ◌≤◌, length, IfOk};
ghost use Rattle.station_limits.specs.declared.limits.TheConstants.{HISTORY_LIMIT};
ghost use Rattle.oyster_account.specs.Scheme.{scheme_of};
ghost use Rattle.oyster_account.specs.Travel.{travel};
ghost use Rattle.oyster_account.specs.Order.{IsInOrder};
ghost use Rattle.oyster_account.specs.History.{accepted};
ghost use Rattle.card_statement.specs.Known.{AreStationsKnown};
ghost use Rattle.statement_command.specs.Card.{is_refusal, refusal_of, refusals_of};
ghost use Rattle.statement_command.specs.Card.{lines_of, IsPrinted};

use crate::days::Days;
use crate::line::{Line, RefusedTouch};
use crate::lines::lines_back;
use crate::printing::printed;
use card_statement::Statement;
use command_line::StatementFormat;
use fare_schedule::Schedule;
use oyster_account::Judged;
use std::alloc::{AllocError, Global};

/// What the statement of a card prints, from its touches with their replies, oldest first.
pub(crate) fn text_of_card(
    alloc: Global,
    schedule: &Schedule,
    card: u32,
    days: Days,
    format: StatementFormat,
    touches: &[Judged],
) -> Result<Vec<u8>, AllocError>
    requires few { length touches.now ≤ HISTORY_LIMIT }
    requires order { IsInOrder (travel (scheme_of schedule.now) (accepted card touches.now)) }
    requires known { AreStationsKnown (scheme_of schedule.now) card touches.now }
    ensures { IfOk result (λ text. IsPrinted format
        (lines_of (scheme_of schedule.now) card days touches.now) text.items) }
{
    let lines = lines_of(alloc, schedule, card, days, touches)?;
    printed(alloc, schedule, format, &lines)
}

/// The lines of the statement of a card, in their order.
fn lines_of(
    alloc: Global,
    schedule: &Schedule,
    card: u32,
    days: Days,
    touches: &[Judged],
) -> Result<Vec<Line>, AllocError>
    requires few { length touches.now ≤ HISTORY_LIMIT }
    requires order { IsInOrder (travel (scheme_of schedule.now) (accepted card touches.now)) }
    requires known { AreStationsKnown (scheme_of schedule.now) card touches.now }
    ensures { IfOk result (λ lines. lines.items
        ≡ lines_of (scheme_of schedule.now) card days touches.now) }
{
    let statement = Statement::of(alloc, schedule, card, touches)?;
    let refusals = refusals_of(alloc, schedule, card, touches)?;
    let mut lines = lines_back(alloc, card, days, &statement, &refusals)?;
    lines.reverse();
    Ok(lines)
}

/// The refused touches of a card, newest first.
fn refusals_of(
    alloc: Global,
    schedule: &Schedule,
    card: u32,
    touches: &[Judged],
) -> Result<Vec<RefusedTouch>, AllocError>
    ensures { IfOk result (λ refusals. refusals.items
        ≡ refusals_of (scheme_of schedule.now) card touches.now) }
{
    let mut refusals = Vec::new(alloc);
    for judged in touches {
        if let Some(refusal) = refusal_of(schedule, card, judged)? {
            refusals.push(refusal)?;
        }
    }
    refusals.reverse();
    Ok(refusals)
}

/// The refusal of a touch of the card, if it was refused.
fn refusal_of(
    schedule: &Schedule,
    card: u32,
    judged: &Judged,
) -> Result<Option<RefusedTouch>, AllocError>
    ensures { IfOk result (λ refusal. refusal
        ≡ refusal_of (scheme_of schedule.now) card judged.now) }
{
    if !is_refusal(card, judged) {
        return Ok(None);
    }
    Ok(Some(RefusedTouch {
        act: judged.touch.act,
        stamp: schedule.stamp(judged.touch.moment())?,
        verdict: judged.reply.verdict,
    }))
}

/// Whether a touch is one of the card, and was refused.
fn is_refusal(card: u32, judged: &Judged) -> bool
    ensures { result ≡ is_refusal card judged.now }
{
    !judged.touch.is_revision() && judged.touch.card == card && !judged.reply.is_accepted()
}
