//! Laws of a door, each the contract of a call that does nothing.
ghost use Rattle.std.specs.Prelude.{◌≡◌, ◌+◌, ◌≤◌, true, Some, List, ℕ, All};
ghost use Rattle.oyster_account.specs.declared.touch.Touch.{Touch};
ghost use Rattle.gate_session.specs.declared.request.Request.{Request};
ghost use Rattle.gate_session.specs.declared.answer.Answer.{Answer};
ghost use Rattle.gate_session.specs.Clerk.{IsRun};
ghost use Rattle.door_clerk.specs.declared.bucket.Bucket.{Bucket};
ghost use Rattle.door_clerk.specs.declared.reading.Clocks.{Clocks};
ghost use Rattle.door_clerk.specs.declared.reading.Standing.{Standing};
ghost use Rattle.door_clerk.specs.declared.reading.Standing.TheVariants.{Repeat};
ghost use Rattle.door_clerk.specs.declared.refusal.DoorRefusal.{DoorRefusal};
ghost use Rattle.door_clerk.specs.declared.rule.Rate.{Rate};
ghost use Rattle.door_clerk.specs.Rule.{Terms};
ghost use Rattle.door_clerk.specs.Bucket.{has_token};
ghost use Rattle.door_clerk.specs.Allowed.{IsAllowed, IsNamed};
ghost use Rattle.door_clerk.specs.Door.{DoesAtDoor, DoorState, IsKeptOut, IsPassed, IsStopped};
ghost use Rattle.door_clerk.specs.Sorted.{AreSorted, IsPaced, IsSortedRun, touches_in};
ghost use Rattle.door_clerk.specs.Laws.{AllowsAll, HasGate, StandsAsWell};

use crate::bucket::TICKS_PER_SECOND;
use crate::surroundings::Surroundings;
use gate_session::Clerk;

/// A touch that is allowed is allowed later as well, wherever there is a token for it: the server's
/// clock has only gone on, and the history has the touch by then, or no less room.
pub fn later_allows_the_same()
    ensures later { (terms : Terms) (bucket then : Bucket) (touch : Touch) (before after : Clocks)
        (was is : Standing) → IsAllowed terms bucket touch before was
        → before.seconds ≤ after.seconds → StandsAsWell was is
        → has_token terms.rate then after.ticks ≡ true → IsAllowed terms then touch after is }

    // A repeat is asked for its kind, its gate number and a token alone, whatever the clock shows.
    ensures repeats { (terms : Terms) (bucket : Bucket) (touch : Touch) (clocks : Clocks)
        → IsNamed terms touch → has_token terms.rate bucket clocks.ticks ≡ true
        → IsAllowed terms bucket touch clocks Repeat }
{}

/// After a full second without a touch a rate of at least one lets a touch through.
pub fn a_second_is_enough()
    ensures { (rate : Rate) (bucket : Bucket) (ticks : ℕ)
        → 1 ≤ rate.touches → 1 ≤ rate.burst → bucket.ticks + TICKS_PER_SECOND ≤ ticks
        → has_token (Some rate) bucket ticks ≡ true }
{}

/// A request for which there is nothing at which it is allowed is kept out: the clerk behind the
/// door, and the bucket, stay as they were.
pub fn a_request_is_kept_out<C: Clerk, S: Surroundings>()
    ensures { (round : S) (terms : Terms) (old new : DoorState C) (request : Request)
        (answer : Answer)
        → DoesAtDoor C.gives (S.shows round) (S.stands round) terms old request answer new
        → ((after : Bucket)
        → IsPassed (S.shows round) (S.stands round) terms old.bucket request after → ⊥)
        → (refusal : DoorRefusal)
        × IsStopped (S.shows round) (S.stands round) terms old.bucket request refusal
        × IsKeptOut old request answer new refusal }
{}

/// With a rule that allows all, each answer and each state is that of the clerk behind the door.
pub fn all_is_let_through<C: Clerk, S: Surroundings>()
    ensures { (round : S) (terms : Terms) (old new : DoorState C) (requests : List Request)
        (answers : List Answer) → AllowsAll terms → All HasGate requests
        → IsRun (DoesAtDoor C.gives (S.shows round) (S.stands round) terms) old requests answers new
        → IsRun C.gives old.clerk requests answers new.clerk × (new.bucket ≡ old.bucket) }
{}

/// Of a whole list of requests the clerk behind the door is given exactly those that are allowed,
/// in their order, and its answers are handed on.
pub fn sessions_are_sorted<C: Clerk, S: Surroundings>()
    ensures { (round : S) (terms : Terms) (old new : DoorState C) (requests : List Request)
        (answers : List Answer)
        → IsRun (DoesAtDoor C.gives (S.shows round) (S.stands round) terms) old requests answers new
        → IsSortedRun C.gives (S.shows round) (S.stands round) terms old new requests answers }
{}

/// Whatever is asked, the touches that are let through are no more than the bucket had tokens for,
/// and gained by the rate since.
pub fn the_rate_is_kept<S: Surroundings>()
    ensures { (round : S) (terms : Terms) (rate : Rate) (before after : Bucket)
        (requests through : List Request) (answers replies : List Answer)
        → terms.rate ≡ Some rate
        → AreSorted (S.shows round) (S.stands round) terms before requests answers through replies
        after → IsPaced rate before after (touches_in through) }
{}
