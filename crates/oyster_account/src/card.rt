//! A card, as the touches that it was judged by.

ghost use Rattle.std.specs.Prelude.{◌≤◌};
ghost use Rattle.station_limits.specs.declared.limits.TheConstants.{HISTORY_LIMIT};

use crate::account::{Account, Judgement};
use crate::reply::{CardView, Reply};
use crate::touch::Touch;
use fare_schedule::Schedule;
use money_time::Stamp;
use std::alloc::{AllocError, Global};

/// The most bytes that a card takes: a station keeps 100,000 of them in memory.
const CARD_SIZE: usize = 400;

const _: () = prove!(size_of::<Card>() <= CARD_SIZE);

/// The account of one card, which keeps running sums: a touch costs the same however many came
/// before it (FARES.md, "A card and its history"). A copy goes on by itself.
#[derive(Clone, Copy, Debug)]
pub struct Card {
    /// How many touches were applied, refused ones among them.
    count: u32,
    /// What its accepted acts come to.
    account: Account,
    ghost limited: { count ≤ HISTORY_LIMIT },
}

impl Card {
    ghost use Rattle.std.specs.Prelude.{◌≡◌, ◌<◌, ◌↔◌, ◌+◌, ◌++◌, ◌∷◌, ◌≤ℤ◌, ℕ, pos};
    ghost use Rattle.std.specs.Prelude.{false, List, [], IsTrue, Ok};
    ghost use Rattle.oyster_account.specs.declared.reply.Judged.{Judged};
    ghost use Rattle.oyster_account.specs.Scheme.{Scheme, scheme_of};
    ghost use Rattle.oyster_account.specs.History.{accepted, is_accepted};
    ghost use Rattle.oyster_account.specs.Balance.{view};
    ghost use Rattle.oyster_account.specs.Judge.{judge, ChangesNothing};
    ghost use Rattle.oyster_account.specs.Touch.{moment_of, is_revision};
    ghost use Rattle.oyster_account.specs.Verdict.{acceptance_code};
    ghost use Rattle.oyster_account.specs.declared.verdict.Acceptance.TheVariants.{Exited};
    ghost use Rattle.oyster_account.specs.Standing.{StandsFor, HasRoom, touches_in};

    /// A card that no touch was applied to: it stands for no touches, of any number and scheme.
    pub fn vacant(_alloc: Global) -> Card
        ensures { (scheme : Scheme) (number : ℕ) → StandsFor scheme number [] result }
    {
        Card {
            count: 0,
            account: Account::none(),
        }
    }

    /// Makes room for one touch: there always is, since a card keeps sums and no list.
    pub fn ready(&mut self) -> Result<(), AllocError>
        ensures ok { result ≡ Ok tt }
        ensures room { HasRoom self.new }
        ensures count { touches_in self.new ≡ touches_in self.old }
        ensures same { (scheme : Scheme) (number : ℕ) (history : List Judged)
            → StandsFor scheme number history self.old → StandsFor scheme number history self.new }
    {
        Ok(())
    }

    /// Whether one touch can be applied without memory.
    pub fn has_room(&self) -> bool
        ensures { IsTrue result ↔ HasRoom self.now }
    {
        true
    }

    /// How many touches were applied, refused ones among them.
    pub fn count(&self) -> u32
        ensures { result ≡ touches_in self.now }
    {
        // Every touch counts, and not the accepted ones alone.
        self.count
    }

    /// The reply to a touch of this card, and what would be seen of the card after it.
    ///
    /// The stamp is that of the touch's moment. The touch is no revision. The card's earlier
    /// touches had the same card number, and are fewer than `HISTORY_LIMIT`. The reply is that
    /// of FARES.md, "Verdicts". It takes no memory.
    pub fn judge(&self, schedule: &Schedule, touch: &Touch, stamp: &Stamp) -> (Reply, CardView)
        requires few { touches_in self.now < HISTORY_LIMIT }
        requires of_card { is_revision touch.now.act ≡ false }
        requires stamped { stamp.now ≡ (scheme_of schedule.now).stamp (moment_of touch.now.act) }
        requires stands { (history : List Judged)
            × StandsFor (scheme_of schedule.now) touch.now.card history self.now }
        ensures reply { (history : List Judged)
            → StandsFor (scheme_of schedule.now) touch.now.card history self.now
            → result.0 ≡ judge (scheme_of schedule.now)
            (accepted touch.now.card history) touch.now.act }
        ensures view { (history : List Judged)
            → StandsFor (scheme_of schedule.now) touch.now.card history self.now
            → result.1 ≡ view (scheme_of schedule.now)
            (accepted touch.now.card
            (history ++ record { touch = touch.now; reply = result.0 } ∷ [])) }

        // A refused touch changes nothing.
        ensures refused { (history : List Judged)
            → StandsFor (scheme_of schedule.now) touch.now.card history self.now
            → is_accepted result.0 ≡ false
            → ChangesNothing (view (scheme_of schedule.now) (accepted touch.now.card history))
            result.1 result.0 }

        // A touch out that ends a leg takes nothing from the card.
        ensures refund { result.0.verdict ≡ acceptance_code Exited → pos 0 ≤ℤ result.0.change }
    {
        let judgement = self.account.judge(schedule, &touch.act, stamp);
        (judgement.reply, judgement.view)
    }

    /// Applies a touch, and answers its reply: the card then stands for the touches before it and
    /// this one, with that reply.
    ///
    /// The conditions are those of `judge`, and that there is room: `ready` makes it. It takes no
    /// memory.
    #[inline(always)]
    pub fn apply(&mut self, schedule: &Schedule, touch: &Touch, stamp: &Stamp) -> Reply
        requires few { touches_in self.old < HISTORY_LIMIT }
        requires of_card { is_revision touch.now.act ≡ false }
        requires stamped { stamp.now ≡ (scheme_of schedule.now).stamp (moment_of touch.now.act) }
        requires room { HasRoom self.old }
        requires stands { (history : List Judged)
            × StandsFor (scheme_of schedule.now) touch.now.card history self.old }
        ensures reply { (history : List Judged)
            → StandsFor (scheme_of schedule.now) touch.now.card history self.old
            → result ≡ judge (scheme_of schedule.now)
            (accepted touch.now.card history) touch.now.act }
        ensures count { touches_in self.new ≡ touches_in self.old + 1 }
        ensures stands { (history : List Judged)
            → StandsFor (scheme_of schedule.now) touch.now.card history self.old
            → StandsFor (scheme_of schedule.now) touch.now.card
            (history ++ record { touch = touch.now; reply = result } ∷ []) self.new }

        // A refused touch changes nothing.
        ensures refused { (history : List Judged)
            → StandsFor (scheme_of schedule.now) touch.now.card history self.old
            → is_accepted result ≡ false
            → ChangesNothing (view (scheme_of schedule.now) (accepted touch.now.card history))
            (view (scheme_of schedule.now) (accepted touch.now.card
            (history ++ record { touch = touch.now; reply = result } ∷ []))) result }

        // A touch out that ends a leg takes nothing from the card.
        ensures refund { result.verdict ≡ acceptance_code Exited → pos 0 ≤ℤ result.change }
    {
        let Judgement { reply, view: _ } = self.account.apply(schedule, &touch.act, stamp);
        self.count += 1;
        reply
    }

    /// What is seen of the card: its state, and its balance in pence.
    pub fn view(&self) -> CardView
        ensures { (scheme : Scheme) (number : ℕ) (history : List Judged)
            → StandsFor scheme number history self.now
            → result ≡ view scheme (accepted number history) }
    {
        self.account.view()
    }
}
