//! A card's statement from its touches.

ghost use Rattle.std.specs.Prelude.{◌≡◌, ◌≤◌, ◌<◌, ◌^◌, List, [], ◌∷◌, ◌++◌, length, map, reverse};
ghost use Rattle.std.specs.Prelude.{sum_by, true, None, IfOk};
ghost use Rattle.station_limits.specs.declared.limits.TheConstants.{HISTORY_LIMIT};
ghost use Rattle.oyster_account.specs.declared.touch.Act.{Act};
ghost use Rattle.oyster_account.specs.declared.reply.Judged.{Judged};
ghost use Rattle.oyster_account.specs.Scheme.{scheme_of};
ghost use Rattle.oyster_account.specs.Travel.{travel};
ghost use Rattle.oyster_account.specs.Journey.{journeys};
ghost use Rattle.oyster_account.specs.Order.{IsInOrder};
ghost use Rattle.oyster_account.specs.History.{accepted, counts_for};
ghost use Rattle.card_statement.specs.Statement.{statement_of, statement_with};
ghost use Rattle.card_statement.specs.Statement.{content_of_statement};
ghost use Rattle.card_statement.specs.Statement.{top_up_rows, pence_in_row};
ghost use Rattle.card_statement.specs.Day.{content_of_day, pence_charged};
ghost use Rattle.card_statement.specs.Incomplete.{incompletes};
ghost use Rattle.card_statement.specs.Gathered.{IsGathered, AreStartsKnown};
ghost use Rattle.card_statement.specs.Known.{IsActKnown, AreStationsKnown};

use crate::gathered::Gathered;
use crate::rules::counts_for;
use crate::runs::days_of;
use crate::statement::{Day, Statement, TopUp};
use fare_schedule::Schedule;
use oyster_account::{Act, Judged, Passage};
use std::alloc::{AllocError, Global};
use std::vec::Vec;

impl Statement {
    /// The statement of a card from a history of touches, oldest first, each with its reply.
    /// Touches of other cards and refused touches count for nothing.
    ///
    /// The card's accepted travel is in order and of known stations, as it is if the replies are
    /// those of the account's rules; [`Statement::is_ready`] checks a history of other origin. It
    /// takes one walk over the touches, and for each day one walk over its journeys for each cap.
    /// All sums of its rows fit: of top-ups below 2^60 pence, of charges below 2^62.
    pub fn of(
        alloc: Global,
        schedule: &Schedule,
        card: u32,
        touches: &[Judged],
    ) -> Result<Statement, AllocError>
        requires few { length touches.now ≤ HISTORY_LIMIT }
        requires order { IsInOrder (travel (scheme_of schedule.now) (accepted card touches.now)) }
        requires known { AreStationsKnown (scheme_of schedule.now) card touches.now }
        ensures statement { IfOk result (λ statement. content_of_statement statement
            ≡ statement_of (scheme_of schedule.now) (accepted card touches.now)) }
        ensures paid_in { IfOk result (λ statement. statement.paid_in < 2 ^ 60) }
        ensures charged { IfOk result (λ statement. statement.charged < 2 ^ 62) }
    {
        let mut top_ups = Vec::new(alloc);
        let gathered = gather(alloc, schedule, card, touches, &mut top_ups)?;
        let journeys = gathered.journeys.as_slice();
        let days = days_of(alloc, schedule, journeys, gathered.incompletes.as_slice())?;
        Ok(summed(days, top_ups))
    }
}

/// The statement with these rows, and their sums.
fn summed(days: Vec<Day>, top_ups: Vec<TopUp>) -> Statement
    requires few { length top_ups.items ≤ HISTORY_LIMIT }
    requires limit { sum_by pence_charged (map content_of_day days.items) < 2 ^ 62 }
    ensures value { content_of_statement result
        ≡ statement_with (map content_of_day days.items) top_ups.items }
    ensures paid_in { result.paid_in < 2 ^ 60 }
    ensures charged { result.charged < 2 ^ 62 }
{
    let paid_in = paid_in(top_ups.as_slice());
    let charged = charged(days.as_slice());
    Statement {
        days,
        top_ups,
        paid_in,
        charged,
        balance: paid_in as i64 - charged as i64,
    }
}

/// All journeys and incomplete touches of a card, newest first, and the rows of its top-ups.
fn gather(
    alloc: Global,
    schedule: &Schedule,
    card: u32,
    touches: &[Judged],
    top_ups: &mut Vec<TopUp>,
) -> Result<Gathered, AllocError>
    requires none { top_ups.old.items ≡ [] }
    requires known { AreStationsKnown (scheme_of schedule.now) card touches.now }
    ensures journeys { IfOk result (λ gathered. gathered.journeys.items
        ≡ journeys (scheme_of schedule.now)
        (travel (scheme_of schedule.now) (accepted card touches.now))) }
    ensures incompletes { IfOk result (λ gathered. gathered.incompletes.items
        ≡ incompletes (scheme_of schedule.now) None
        (travel (scheme_of schedule.now) (accepted card touches.now))) }
    ensures top_ups { IfOk result (λ _. top_ups.new.items
        ≡ top_up_rows (scheme_of schedule.now) (accepted card touches.now)) }
{
    let mut gathered = Gathered::none(alloc);
    for judged in touches {
        add_touch(schedule, card, judged, &mut gathered, top_ups)?;
    }
    gathered.end(schedule)?;
    top_ups.reverse();
    Ok(gathered)
}

/// Adds a touch of a history, if it counts for the card.
fn add_touch(
    schedule: &Schedule,
    card: u32,
    judged: &Judged,
    gathered: &mut Gathered,
    top_ups: &mut Vec<TopUp>,
) -> Result<(), AllocError>
    requires ready { AreStartsKnown (scheme_of schedule.now) gathered.old }
    requires known { counts_for card judged.now ≡ true
        → IsActKnown (scheme_of schedule.now) judged.now.touch.act }
    ensures ready { IfOk result (λ _. AreStartsKnown (scheme_of schedule.now) gathered.new) }
    ensures gathered { (history : List Judged)
        → IsGathered (scheme_of schedule.now)
        (travel (scheme_of schedule.now) (accepted card history)) gathered.old
        → IfOk result (λ _. IsGathered (scheme_of schedule.now)
        (travel (scheme_of schedule.now) (accepted card (history ++ judged.now ∷ [])))
        gathered.new) }
    ensures top_ups { (history : List Judged)
        → top_ups.old.items ≡ reverse (top_up_rows (scheme_of schedule.now) (accepted card history))
        → IfOk result (λ _. top_ups.new.items ≡ reverse
        (top_up_rows (scheme_of schedule.now) (accepted card (history ++ judged.now ∷ [])))) }
{
    if counts_for(card, judged) {
        add_act(schedule, &judged.touch.act, gathered, top_ups)
    } else {
        Ok(())
    }
}

/// Adds an accepted act, whose station is known, to what was gathered and to the top-ups.
fn add_act(
    schedule: &Schedule,
    act: &Act,
    gathered: &mut Gathered,
    top_ups: &mut Vec<TopUp>,
) -> Result<(), AllocError>
    requires ready { AreStartsKnown (scheme_of schedule.now) gathered.old }
    requires known { IsActKnown (scheme_of schedule.now) act.now }
    ensures ready { IfOk result (λ _. AreStartsKnown (scheme_of schedule.now) gathered.new) }
    ensures gathered { (acts : List Act)
        → IsGathered (scheme_of schedule.now) (travel (scheme_of schedule.now) acts) gathered.old
        → IfOk result (λ _. IsGathered (scheme_of schedule.now)
        (travel (scheme_of schedule.now) (act.now ∷ acts)) gathered.new) }
    ensures top_ups { (acts : List Act)
        → top_ups.old.items ≡ reverse (top_up_rows (scheme_of schedule.now) acts)
        → IfOk result (λ _. top_ups.new.items
        ≡ reverse (top_up_rows (scheme_of schedule.now) (act.now ∷ acts))) }
{
    match *act {
        Act::Enter { station, moment } => {
            let stamp = schedule.stamp(moment)?;
            gathered.enter(schedule, Passage { station, stamp })
        }
        Act::Leave { station, moment } => {
            let stamp = schedule.stamp(moment)?;
            gathered.leave(schedule, Passage { station, stamp })
        }
        Act::TopUp { pence, moment } => {
            let stamp = schedule.stamp(moment)?;
            top_ups.push(TopUp { pence, stamp })?;
            Ok(())
        }
        Act::Issue { .. } => Ok(()),
        Act::Revise { .. } => Ok(()),
    }
}

/// The sum of these top-ups, in pence.
fn paid_in(top_ups: &[TopUp]) -> u64
    requires few { length top_ups.now ≤ HISTORY_LIMIT }
    ensures value { result ≡ sum_by pence_in_row top_ups.now }
    ensures limit { result < 2 ^ 60 }
{
    let mut sum = 0;
    for top_up in top_ups {
        sum += u64::from(top_up.pence);
    }
    sum
}

/// The sum of the charges of these days, in pence.
fn charged(days: &[Day]) -> u64
    requires few { sum_by pence_charged (map content_of_day days.now) < 2 ^ 62 }
    ensures value { result ≡ sum_by pence_charged (map content_of_day days.now) }
{
    let mut sum = 0;
    for day in days {
        sum += day.charge + day.missing;
    }
    sum
}
