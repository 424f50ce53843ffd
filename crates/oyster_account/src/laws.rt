//! Laws of the account's definitions, each the contract of a call that does nothing, but for
//! `revise_keeps`: that one is the contract of a call that revises a schedule.

ghost use Rattle.std.specs.Prelude.{◌≡◌, ◌∷◌, ◌++◌, [], IsSome};
ghost use Rattle.fare_schedule.specs.InForce.{table_of};
ghost use Rattle.fare_schedule.specs.Schedule.{tables_of, revisions_of, HasRoom, IsAfterLast};
ghost use Rattle.oyster_account.specs.Agreement.{AgreeBefore};
ghost use Rattle.oyster_account.specs.Classes.{IsInOneClass, IsIncompleteMissing};
ghost use Rattle.oyster_account.specs.Rows.{AreJourneysRows};
ghost use Rattle.oyster_account.specs.Laws.{NeverGoesBack, AreOthersNothing};
ghost use Rattle.oyster_account.specs.Laws.{DoRevisionsKeep, IsViewKept, IsRevisionAhead};
ghost use Rattle.oyster_account.specs.Laws.{AreTablesPriced, DoLegsTakeNothing};
ghost use Rattle.oyster_account.specs.Laws.{DoRefusalsChangeNothing, IsKeptBy};
ghost use Rattle.oyster_account.specs.Scheme.{scheme_of};

use fare_schedule::Schedule;
use fare_table::Digest;

/// Each touch in or out begins a leg, ends one, or misses its other end: as an unfinished touch in,
/// a late touch out or an unstarted one. It is in exactly one of these classes.
pub fn one_class()
    ensures { IsInOneClass }
{}

/// Beside its journeys a card is charged for its unfinished, late and unstarted touches, and for no
/// others.
pub fn incomplete_is_missing()
    ensures { IsIncompleteMissing }
{}

/// A card's journeys are its legs, cut into the longest rows of which each leg but the first begins
/// with a touch in that continues.
pub fn journeys_are_rows()
    ensures { AreJourneysRows }
{}

/// A card's accepted travel never goes back, neither in its moments nor in its fare days.
pub fn never_back()
    ensures { NeverGoesBack }
{}

/// A revision from a day on that no accepted travel of a card has reached leaves the touches, with
/// their replies, that the card stands for.
pub fn revisions_keep()
    ensures { DoRevisionsKeep }
{}

/// A revision is accepted only from a day on that no card's accepted travel has reached.
pub fn revisions_are_ahead()
    ensures { IsRevisionAhead }
{}

/// A revision from a day on that no accepted travel of a card has reached leaves what is seen of
/// the card.
pub fn view_kept()
    ensures { IsViewKept }
{}

/// Another card's touches change nothing of a card.
pub fn others_nothing()
    ensures { AreOthersNothing }
{}

/// On no fare day of a schedule is a fare above the maximum of its window, or a maximum above the
/// highest price.
pub fn tables_are_priced()
    ensures { AreTablesPriced }
{}

/// Where prices keep to that, a touch out that ends a leg takes nothing from its card, whatever the
/// card's accepted acts are.
pub fn legs_take_nothing()
    ensures { DoLegsTakeNothing }
{}

/// A refused touch changes nothing of its card: its change is 0, its balance is the one that was
/// seen, and what is seen stays.
pub fn refusals_change_nothing()
    ensures { DoRefusalsChangeNothing }
{}

/// Revises a schedule, as [`Schedule::revise`] does and under its conditions. Where no accepted
/// touch of a history has reached the day, each card stands for the same touches with the same
/// replies after it, and is seen as before. The days before keep their terms, and the moments of
/// these days their stamps.
pub fn revise_keeps(schedule: &mut Schedule, digest: &Digest, day: i32)
    requires known { IsSome (table_of (tables_of schedule.old) digest.now) }
    requires room { HasRoom schedule.old }
    requires later { IsAfterLast schedule.old day }
    ensures revisions { revisions_of schedule.new
        ≡ revisions_of schedule.old ++ record { digest = digest.now; day = day } ∷ [] }
    ensures days { AgreeBefore day (scheme_of schedule.old) (scheme_of schedule.new) }
    ensures cards { IsKeptBy (scheme_of schedule.old) (scheme_of schedule.new) day }
{
    schedule.revise(digest, day);
}
