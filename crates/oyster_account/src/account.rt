//! What a card keeps of its accepted acts, and how an act is judged by it.

ghost use Rattle.std.specs.Prelude.{◌≡◌, negsuc, pos, ◌^◌, ◌≤ℤ◌, ◌+◌, ◌<◌, ℕ, false};
ghost use Rattle.std.specs.Prelude.{List, [], ◌∷◌};
ghost use Rattle.station_limits.specs.declared.limits.TheConstants.{HISTORY_LIMIT};
ghost use Rattle.oyster_account.specs.declared.touch.Act.{Act};
ghost use Rattle.oyster_account.specs.Touch.{moment_of};
ghost use Rattle.oyster_account.specs.Scheme.{Scheme, scheme_of};
ghost use Rattle.oyster_account.specs.Travel.{travel};
ghost use Rattle.oyster_account.specs.Order.{IsInOrder};
ghost use Rattle.oyster_account.specs.Balance.{balance, view, state_of};
ghost use Rattle.oyster_account.specs.Refusal.{is_travel, is_backwards};
ghost use Rattle.oyster_account.specs.Judge.{acceptance};

use crate::refusal::refusal_by;
use crate::reply::{CardState, CardView, Reply};
use crate::touch::Act;
use crate::travel::{Passage, fares_for};
use crate::travels::Travels;
use crate::verdict::Acceptance;
use fare_schedule::Schedule;
use money_time::Stamp;

/// What a card's accepted acts come to. A further one changes it in place.
#[derive(Clone, Copy, Debug)]
pub struct Account {
    /// Whether the card was issued.
    issued: bool,
    /// What was paid in, in pence.
    paid: u64,
    /// Its touches in and out.
    travels: Travels,
    ghost paid_limit: { paid < 2 ^ 61 },
}

/// The reply to an act, and what is seen of the card after it.
#[derive(Clone, Copy, Debug)]
pub struct Judgement {
    pub reply: Reply,
    pub view: CardView,
}

impl Account {
    ghost use Rattle.oyster_account.specs.Account.{IsAccountOf, IsAccountSafe};
    ghost use Rattle.oyster_account.specs.Account.{IsSound, IsJudgementOf, acts_after};

    /// The account of a card with no acts.
    pub fn none() -> Account
        ensures of { (scheme : Scheme) → IsAccountOf scheme [] result }
        ensures safe { (scheme : Scheme) → IsAccountSafe scheme 0 result }
    {
        Account {
            issued: false,
            paid: 0,
            travels: Travels::none(),
        }
    }

    /// Judges an act: `apply` on a copy. The stamp is that of its moment.
    pub fn judge(&self, schedule: &Schedule, act: &Act, stamp: &Stamp) -> Judgement
        requires stamped { stamp.now ≡ (scheme_of schedule.now).stamp (moment_of act.now) }
        requires safe { IsAccountSafe (scheme_of schedule.now) HISTORY_LIMIT self.now }
        requires stands { (acts : List Act) × IsInOrder (travel (scheme_of schedule.now) acts)
            × IsAccountOf (scheme_of schedule.now) acts self.now }
        ensures { (acts : List Act) → IsInOrder (travel (scheme_of schedule.now) acts)
            → IsAccountOf (scheme_of schedule.now) acts self.now
            → IsJudgementOf (scheme_of schedule.now) acts act.now result }
    {
        let mut after = *self;
        after.apply(schedule, act, stamp)
    }

    /// Judges an act, and takes it where it is accepted. The stamp is that of its moment.
    #[inline(always)]
    pub fn apply(&mut self, schedule: &Schedule, act: &Act, stamp: &Stamp) -> Judgement
        requires stamped { stamp.now ≡ (scheme_of schedule.now).stamp (moment_of act.now) }
        requires safe { IsAccountSafe (scheme_of schedule.now) HISTORY_LIMIT self.old }
        requires stands { (acts : List Act) × IsInOrder (travel (scheme_of schedule.now) acts)
            × IsAccountOf (scheme_of schedule.now) acts self.old }
        ensures judged { (acts : List Act) → IsInOrder (travel (scheme_of schedule.now) acts)
            → IsAccountOf (scheme_of schedule.now) acts self.old
            → IsJudgementOf (scheme_of schedule.now) acts act.now result }
        ensures of { (acts : List Act) → IsInOrder (travel (scheme_of schedule.now) acts)
            → IsAccountOf (scheme_of schedule.now) acts self.old
            → IsAccountOf (scheme_of schedule.now) (acts_after acts act.now result.reply) self.new }
        ensures safe { (count : ℕ) → IsAccountSafe (scheme_of schedule.now) count self.old
            → IsAccountSafe (scheme_of schedule.now) (count + 1) self.new }
    {
        let old = self.balance();
        let backwards = self.is_backwards(act, stamp);
        let fares = fares_for(schedule, *stamp);
        match refusal_by(fares, self.issued, backwards, old, act) {
            Some(refusal) => {
                let view = self.view();
                Judgement {
                    reply: Reply::refused(refusal, view.balance),
                    view,
                }
            }
            None => {
                let acceptance = self.add(schedule, act, stamp);
                let state = self.state();
                let new = self.balance();
                Judgement {
                    reply: Reply::granted(acceptance, old, new),
                    view: CardView {
                        state,
                        balance: new,
                    },
                }
            }
        }
    }

    /// Adds an accepted act, and answers what it is. The stamp is that of its moment.
    #[inline(always)]
    fn add(&mut self, schedule: &Schedule, act: &Act, stamp: &Stamp) -> Acceptance
        requires stamped { stamp.now ≡ (scheme_of schedule.now).stamp (moment_of act.now) }
        requires sound { IsSound ((scheme_of schedule.now).on stamp.now.day) act.now }
        requires safe { IsAccountSafe (scheme_of schedule.now) HISTORY_LIMIT self.old }
        ensures acceptance { (acts : List Act) → IsAccountOf (scheme_of schedule.now) acts self.old
            → result ≡ acceptance (scheme_of schedule.now)
            (travel (scheme_of schedule.now) acts) act.now }
        ensures of { (acts : List Act) → IsInOrder (travel (scheme_of schedule.now) acts)
            → IsAccountOf (scheme_of schedule.now) acts self.old
            → IsAccountOf (scheme_of schedule.now) (act.now ∷ acts) self.new }
        ensures safe { (count : ℕ) → IsAccountSafe (scheme_of schedule.now) count self.old
            → IsAccountSafe (scheme_of schedule.now) (count + 1) self.new }
    {
        match act {
            Act::Enter { station, .. } => self.travels.enter(schedule, passage(*station, stamp)),
            Act::Leave { station, .. } => self.travels.leave(schedule, passage(*station, stamp)),
            Act::TopUp { pence, .. } => {
                self.paid += u64::from(*pence);
                Acceptance::ToppedUp
            }
            Act::Issue { .. } => {
                self.issued = true;
                Acceptance::Issued
            }
            Act::Revise { .. } => Acceptance::Revised,
        }
    }

    /// The balance, in pence.
    fn balance(&self) -> i64
        ensures value { (scheme : Scheme) (acts : List Act) → IsAccountOf scheme acts self.now
            → result ≡ balance scheme acts }
        ensures low { negsuc (2 ^ 62) ≤ℤ result }
        ensures high { result ≤ℤ pos (2 ^ 62) }
    {
        self.paid as i64 - self.travels.charge() as i64
    }

    /// What is seen of the card.
    pub fn view(&self) -> CardView
        ensures { (scheme : Scheme) (acts : List Act) → IsAccountOf scheme acts self.now
            → result ≡ view scheme acts }
    {
        if !self.issued {
            return CardView {
                state: CardState::Vacant,
                balance: 0,
            };
        }
        CardView {
            state: self.state(),
            balance: self.balance(),
        }
    }

    /// The state of the card, where it is issued.
    fn state(&self) -> CardState
        ensures { (scheme : Scheme) (acts : List Act) → IsAccountOf scheme acts self.now
            → result ≡ state_of (travel scheme acts) }
    {
        if self.travels.is_inside() {
            CardState::Inside
        } else {
            CardState::Outside
        }
    }

    /// Whether an act is a touch in or out that comes before the newest one.
    fn is_backwards(&self, act: &Act, stamp: &Stamp) -> bool
        ensures value { (scheme : Scheme) (acts : List Act)
            → stamp.now ≡ scheme.stamp (moment_of act.now)
            → IsAccountOf scheme acts self.now
            → result ≡ is_backwards scheme (travel scheme acts) act.now }
        ensures travels { is_travel act.now ≡ false → result ≡ false }
    {
        match act {
            Act::Enter { station, .. } | Act::Leave { station, .. } => {
                self.travels.is_backwards(passage(*station, stamp))
            }
            Act::TopUp { .. } | Act::Issue { .. } | Act::Revise { .. } => false,
        }
    }
}

/// A passage of a station's gates at the moment of a stamp.
fn passage(station: u16, stamp: &Stamp) -> Passage
    ensures { result ≡ record { station = station; stamp = stamp.now } }
{
    Passage {
        station,
        stamp: *stamp,
    }
}
