//! The clerk of a connection: it has the office commit touches, and asks it for balances.

ghost use Rattle.std.specs.Prelude.{◌≡◌};
ghost use Rattle.gate_session.specs.Answers.{AnswerFits};
ghost use Rattle.office_lines.specs.Clerk.{clerk_at, code_of, HasGiven};

use crate::notice::Watch;
use gate_session::{Answer, Clerk, FaultCode};
use oyster_account::Touch;
use std::sync::Wait;
use tap_disk::{Disk, SystemError};
use tap_office::{Desk, Named, Office, Seat, SubmitFault};

/// A clerk who answers from an office, at a seat and a desk of it.
///
/// A touch is answered by its reply once every crash leaves it in the journal, or by its fault. The
/// desk learns each receipt and each refusal before its answer is given, so that no later answer
/// here is of less.
/// An enquiry takes no lock: it is answered from what is published, or by the fault of a halted
/// office, with no gate and no number, where the desk has nothing to answer from.
///
/// What comes of each touch is shown to a watch, which tells nobody but on standard error.
#[derive(Drop)]
pub struct OfficeClerk<'a, N: Named, D: Disk, T> {
    pub office: &'a Office<N, D>,
    pub watch: &'a T,
    pub seat: &'a mut Seat<N>,
    pub desk: &'a mut Desk<N>,
}

impl<N: Named, D: Disk, T: Watch> Clerk for OfficeClerk<'_, N, D, T> {
    ghost gives = { λ old request answer new. (new.seat.ghost_name ≡ old.seat.ghost_name)
        × (new.desk.ghost_name ≡ old.desk.ghost_name)
        × HasGiven N.opened (clerk_at old.seat.now old.desk.now)
        (clerk_at new.seat.now new.desk.now) request answer
        × AnswerFits answer };

    fn submit<R: Wait>(&mut self, rt: &R, touch: Touch) -> Answer {
        let watch = self.watch;
        match self.office.submit(rt, self.seat, touch) {
            Ok(receipt) => {
                let reply = receipt.reply;
                let shown = Shown {
                    entries: receipt.front,
                    accepted: receipt.fresh && reply.is_accepted(),
                };
                self.desk.learn(receipt);
                show(rt, watch, &touch, shown);
                Answer::reply(reply, &touch)
            }
            Err(refusal) => {
                let fault = refusal.fault;
                self.desk.learn_refusal(refusal);
                watch.refused(fault, said_of(rt, self.office, fault));
                Answer::fault(code_of(fault), &touch)
            }
        }
    }

    fn enquire(&mut self, card: u32) -> Answer {
        match self.desk.enquire(card) {
            Some(enquiry) => Answer::Holding {
                view: enquiry.view,
                front: enquiry.front,
            },
            None => Answer::unnamed_fault(FaultCode::Halted),
        }
    }
}

/// The fault that a gate is sent for a fault of the office.
pub fn code_of(fault: SubmitFault) -> FaultCode
    ensures { result ≡ code_of fault }
{
    match fault {
        SubmitFault::Conflict => FaultCode::Conflict,
        SubmitFault::Halted => FaultCode::Halted,
        SubmitFault::Memory => FaultCode::Memory,
        SubmitFault::Full => FaultCode::Full,
        SubmitFault::UnknownTable => FaultCode::UnknownTable,
    }
}

/// What the system said where the journal's disk has failed, if anything.
fn said_of<R: Wait, N: Named, D: Disk>(
    rt: &R,
    office: &Office<N, D>,
    fault: SubmitFault,
) -> Option<SystemError> {
    match fault {
        SubmitFault::Halted => office.error(rt),
        _ => None,
    }
}

/// What a watch is shown of a touch that was answered.
#[derive(Clone, Copy)]
struct Shown {
    /// How many entries the history had then.
    entries: u32,
    /// Whether the touch is new, and was accepted.
    accepted: bool,
}

/// Shows a watch a touch that was answered.
fn show<T: Watch, R: Wait>(rt: &R, watch: &T, touch: &Touch, shown: Shown) {
    if shown.accepted {
        watch.accepted(rt, touch.gate, touch.moment());
    }
    watch.answered(shown.entries);
}
