//! A touch that waits is sent, committed and answered.
ghost use Rattle.std.specs.Prelude.{◌≡◌, ℕ, Bool, List, Some, IsSome, IfOk, OnOk, OnErr, Err};
ghost use Rattle.oyster_account.specs.declared.touch.Touch.{Touch};
ghost use Rattle.oyster_account.specs.Touch.{Fits};
ghost use Rattle.gate_session.specs.declared.answer.Answer.TheVariants as answers;
ghost use Rattle.gate_session.specs.Answers.{AnswerFits};
ghost use Rattle.gate_client.specs.Client.{HasAsked, answered, waits_of};
ghost use Rattle.gate_law.specs.Whole.{Whole};
ghost use Rattle.gate_law.specs.Shown as gates;
ghost use Rattle.station_calls.specs.Shown as stations;
ghost use Rattle.station_calls.specs.Commits.{answer_to, code_of};
ghost use Rattle.station_calls.specs.Settled.{IsSettling};

use crate::commit::commit_in_steps;
use gate_client::{Client, HearFault};
use gate_law::{NoReplyFault, fitting, send_in_steps};
use gate_session::{ANSWER_SIZE, Answer, FaultCode};
use oyster_account::{Reply, Touch};
use std::alloc::Global;
use std::sync::Wait;
use tap_disk::Disk;
use tap_office::{Keeper, Named, Receipt, Seat, SubmitFault};

/// Sends the touch that waits, commits it at a keeper with a journal, and hears the answer, byte
/// for byte. Whatever comes of it is a run of steps of the gate and of the station, from any state
/// of all gates that client and keeper show to one that they show then. In that run the gate's
/// caller was told the reply or the fault that it heard, and nothing else.
///
/// `Unsent` comes where there was no memory for the frame, and then nothing was done; `Unheard`
/// where no reply was heard. After each the touch waits on.
pub fn settle_in_steps<N: Named, D: Disk, K: Disk, R: Wait>(
    rt: &R,
    alloc: Global,
    client: &mut Client<D>,
    keeper: &mut Keeper<N, K>,
    seat: &mut Seat<N>,
) -> Result<Reply, NoReplyFault>
    requires { IsSome (waits_of client.old) }
    ensures { (alone : ℕ → Bool) (number : ℕ) (whole : Whole) (touch : Touch)
        → waits_of client.old ≡ Some touch
        → gates.IsShownBy number (whole.gates number) client.old
        → stations.IsShownBy K.honest K.outcome N.opened keeper.old whole
        → IsSettling K.honest K.outcome alone N.opened number whole touch result client.new
        keeper.new }
{
    let Some(touch) = client.waiting() else {
        unreachable!()
    };
    let mut frame = Vec::new(alloc);
    let Ok(()) = send_in_steps(client, &mut frame) else {
        return Err(NoReplyFault::Unsent);
    };
    let answer = answer_for(&touch, commit_in_steps(rt, keeper, seat, touch, None));
    match heard(client, &answer) {
        Ok(reply) => Ok(reply),
        Err(fault) => Err(NoReplyFault::Unheard(fault)),
    }
}

/// The answer to a commit.
fn answer_for<N: Named>(touch: &Touch, committed: Result<Receipt<N>, SubmitFault>) -> Answer
    ensures value { result ≡ answer_to touch.now committed }
    ensures fits { AnswerFits result }
{
    let answer = match committed {
        Ok(receipt) => Answer::reply(receipt.reply, touch),
        Err(fault) => Answer::fault(code_of(fault), touch),
    };
    fitting(answer)
}

/// The fault that a gate is sent for a fault of the keeper.
fn code_of(fault: SubmitFault) -> FaultCode
    ensures { result ≡ code_of fault }
{
    match fault {
        SubmitFault::Conflict => FaultCode::Conflict,
        SubmitFault::Halted => FaultCode::Halted,
        SubmitFault::Memory => FaultCode::Memory,
        SubmitFault::Full => FaultCode::Full,
        SubmitFault::UnknownTable => FaultCode::UnknownTable,
    }
}

/// What a client hears of the frame of this answer: a reply only where it is that, and a fault only
/// where it is that.
fn heard<D: Disk>(client: &mut Client<D>, answer: &Answer) -> Result<Reply, HearFault>
    requires { IsSome (waits_of client.old) }
    ensures reply { (touch : Touch) → waits_of client.old ≡ Some touch → Fits touch
        → AnswerFits answer.now → IfOk result (λ reply.
        answer.now ≡ answers.Reply touch.gate touch.number reply) }
    ensures refused { (touch : Touch) (code : ℕ) → waits_of client.old ≡ Some touch → Fits touch
        → AnswerFits answer.now → result ≡ Err (HearFault.Refused code)
        → answer.now ≡ answers.Fault code touch.gate touch.number }
    ensures answered { OnOk result (client.new ≡ answered client.old) }
    ensures asked { (asked : List Touch) → HasAsked asked client.old → HasAsked asked client.new }
    ensures kept { OnErr result (client.new ≡ client.old) }
{
    let mut frame = [0; ANSWER_SIZE];
    let size = answer.write_into(&mut frame);
    client.hear_in(&frame[..size])
}
