//! Whether a history has what the statement of a card requires.

ghost use Rattle.std.specs.Prelude.{◌≡◌, List, [], ◌∷◌, ◌++◌, true, IfOk};
ghost use Rattle.oyster_account.specs.declared.reply.Judged.{Judged};
ghost use Rattle.oyster_account.specs.Scheme.{scheme_of};
ghost use Rattle.oyster_account.specs.Travel.{travel};
ghost use Rattle.oyster_account.specs.Order.{IsInOrder};
ghost use Rattle.oyster_account.specs.History.{accepted, counts_for};
ghost use Rattle.card_statement.specs.Known.{IsActKnown, AreStationsKnown};
ghost use Rattle.card_statement.specs.Ready.{passage_at, GoesOnFrom, IsLastOf};

use crate::rules::{counts_for, is_known};
use crate::statement::Statement;
use fare_schedule::Schedule;
use oyster_account::{Act, Judged, Passage};
use std::alloc::AllocError;

impl Statement {
    /// Whether the card's accepted travel in a history is in order, and of known stations, as
    /// [`Statement::of`] requires it.
    pub fn is_ready(schedule: &Schedule, card: u32, touches: &[Judged]) -> Result<bool, AllocError>
        ensures order { IfOk result (λ ready. ready ≡ true
            → IsInOrder (travel (scheme_of schedule.now) (accepted card touches.now))) }
        ensures known { IfOk result (λ ready. ready ≡ true
            → AreStationsKnown (scheme_of schedule.now) card touches.now) }
    {
        let mut last = None;
        for judged in touches {
            if !goes_on(schedule, card, judged, &mut last)? {
                return Ok(false);
            }
        }
        Ok(true)
    }
}

/// Whether a touch, if it counts for the card and is one in or out, is at a known station and goes
/// on from the last one, whose place it takes.
fn goes_on(
    schedule: &Schedule,
    card: u32,
    judged: &Judged,
    last: &mut Option<Passage>,
) -> Result<bool, AllocError>
    ensures known { IfOk result (λ goes_on. goes_on ≡ true → counts_for card judged.now ≡ true
        → IsActKnown (scheme_of schedule.now) judged.now.touch.act) }
    ensures order { (history : List Judged)
        → IsLastOf (scheme_of schedule.now) card history last.old
        → IfOk result (λ goes_on. goes_on ≡ true
        → IsLastOf (scheme_of schedule.now) card (history ++ judged.now ∷ []) last.new) }
{
    if !counts_for(card, judged) {
        return Ok(true);
    }
    let Some(passage) = passage_at(schedule, &judged.touch.act)? else {
        return Ok(true);
    };
    if !is_known(schedule, passage) || !goes_on_from(*last, passage) {
        return Ok(false);
    }
    *last = Some(passage);
    Ok(true)
}

/// Where and when an act is a touch in or out.
fn passage_at(schedule: &Schedule, act: &Act) -> Result<Option<Passage>, AllocError>
    ensures passage { IfOk result (λ passage.
        passage ≡ passage_at (scheme_of schedule.now) act.now) }
{
    match *act {
        Act::Enter { station, moment } => {
            let stamp = schedule.stamp(moment)?;
            Ok(Some(Passage { station, stamp }))
        }
        Act::Leave { station, moment } => {
            let stamp = schedule.stamp(moment)?;
            Ok(Some(Passage { station, stamp }))
        }
        Act::TopUp { .. } => Ok(None),
        Act::Issue { .. } => Ok(None),
        Act::Revise { .. } => Ok(None),
    }
}

/// Whether neither the moment nor the fare day of a passage is before that of the last one.
fn goes_on_from(last: Option<Passage>, passage: Passage) -> bool
    ensures { result ≡ true → GoesOnFrom last passage }
{
    match last {
        Some(last) => {
            last.stamp.moment <= passage.stamp.moment && last.stamp.day <= passage.stamp.day
        }
        None => true,
    }
}
