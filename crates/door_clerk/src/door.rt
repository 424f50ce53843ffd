//! A door before a clerk.
ghost use Rattle.std.specs.Prelude.{◌≡◌, IfOk, IfErr};
ghost use Rattle.door_clerk.specs.Rule.{terms_of};
ghost use Rattle.door_clerk.specs.Allowed.{IsAdmitted, IsRefusedFor};
ghost use Rattle.door_clerk.specs.Door.{DoesAtDoor, not_allowed, door_state};

use crate::bucket::Bucket;
use crate::reading::Clocks;
use crate::refusal::DoorRefusal;
use crate::rule::Rule;
use crate::surroundings::Surroundings;
use gate_session::{Answer, Clerk, FaultCode};
use oyster_account::Touch;
use std::sync::Wait;

/// A clerk who lets through to another what a rule allows.
///
/// What is let through is answered as the clerk behind the door answers it. What isn't is answered
/// by fault 7, `NotAllowed`, and changes nothing behind the door: the session goes on. A touch that
/// is let through takes a token of the bucket, whatever it is answered. One that is kept out takes
/// none, and an enquiry takes none.
#[derive(Drop)]
pub struct DoorClerk<'a, C, S> {
    /// What is allowed.
    pub rule: &'a Rule,
    /// How many touches may still come at once. Give it to the name's next connection.
    pub bucket: Bucket,
    /// Why the last request was kept out, if it was.
    pub last: Option<DoorRefusal>,
    /// The clocks and the history.
    pub surroundings: S,
    /// The clerk behind the door.
    pub behind: C,
}

impl<C: Clerk, S: Surroundings> Clerk for DoorClerk<'_, C, S> {
    ghost gives = { λ old request answer new. (new.rule ≡ old.rule)
        × (new.surroundings ≡ old.surroundings)
        × DoesAtDoor C.gives (S.shows old.surroundings) (S.stands old.surroundings)
        (terms_of old.rule.now) (door_state old.bucket old.last old.behind) request answer
        (door_state new.bucket new.last new.behind) };

    fn submit<R: Wait>(&mut self, rt: &R, touch: Touch) -> Answer {
        match self.decide(rt, &touch) {
            Ok(bucket) => {
                self.bucket = bucket;
                self.last = None;
                self.behind.submit(rt, touch)
            }
            Err(refusal) => {
                self.last = Some(refusal);
                kept_out(touch.gate, touch.number)
            }
        }
    }

    fn enquire(&mut self, card: u32) -> Answer {
        if self.rule.kinds.enquire {
            self.last = None;
            self.behind.enquire(card)
        } else {
            self.last = Some(DoorRefusal::Kind);
            kept_out(0, 0)
        }
    }
}

impl<C, S: Surroundings> DoorClerk<'_, C, S> {
    /// The bucket after a touch that is allowed, or why it isn't.
    fn decide<R: Wait>(&self, rt: &R, touch: &Touch) -> Result<Bucket, DoorRefusal>
        ensures ok { IfOk result (IsAdmitted (S.shows self.now.surroundings)
            (S.stands self.now.surroundings) (terms_of self.now.rule.now) self.now.bucket
            touch.now) }
        ensures err { IfErr result (IsRefusedFor (S.shows self.now.surroundings)
            (S.stands self.now.surroundings) (terms_of self.now.rule.now) self.now.bucket
            touch.now) }
    {
        self.rule.check_name(touch)?;
        let Clocks { seconds, ticks } = self.surroundings.clocks();
        let bucket = self.rule.check_rate(&self.bucket, ticks)?;
        let moment = touch.moment();
        if !self.rule.is_fitting(moment, seconds) {
            let standing = self.surroundings.standing(rt, touch);
            self.rule.check_standing(moment, seconds, standing)?;
        }
        Ok(bucket)
    }
}

/// The answer to a request that is kept out, with this gate and number.
fn kept_out(gate: u16, number: u32) -> Answer
    ensures { result ≡ not_allowed gate number }
{
    Answer::Fault {
        code: FaultCode::NotAllowed.code(),
        gate,
        number,
    }
}
