//! Which touches count for a card, and which stations are known.

ghost use Rattle.std.specs.Prelude.{◌≡◌, true};
ghost use Rattle.oyster_account.specs.Scheme.{scheme_of};
ghost use Rattle.oyster_account.specs.Travel.{IsKnown};
ghost use Rattle.oyster_account.specs.History.{counts_for};

use fare_schedule::Schedule;
use oyster_account::{Judged, Passage};

/// Whether a touch is the card's, and was accepted.
pub(crate) fn counts_for(card: u32, judged: &Judged) -> bool
    ensures { result ≡ counts_for card judged.now }
{
    !judged.touch.is_revision() && judged.touch.card == card && judged.reply.is_accepted()
}

/// Whether the station of a passage is known.
pub(crate) fn is_known(schedule: &Schedule, passage: Passage) -> bool
    ensures { result ≡ true → IsKnown (scheme_of schedule.now) passage }
{
    match schedule.on(passage.stamp.day).station(passage.station) {
        Some(_) => true,
        None => false,
    }
}
