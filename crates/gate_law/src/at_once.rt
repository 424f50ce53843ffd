//! A touch that is settled where nothing goes wrong on its way: both frames arrive whole.
ghost use Rattle.std.specs.Prelude.{◌≡◌, Some, IsSome, IsOk, OnOk, OnErr};
ghost use Rattle.oyster_account.specs.declared.touch.Touch.{Touch};
ghost use Rattle.oyster_account.specs.Touch.{Fits};
ghost use Rattle.gate_session.specs.declared.request.Request.TheVariants as requests;
ghost use Rattle.gate_client.specs.Heard.{frame_of};
ghost use Rattle.gate_client.specs.Client.{answered, waits_of};
ghost use Rattle.gate_law.specs.AtOnce.{DoesReply, IsHeard};

use crate::book_clerk::fitting;
use gate_client::{Client, HearFault};
use gate_session::{ANSWER_SIZE, Answer, Clerk, FaultCode, REQUEST_SIZE, Request, hand_over};
use oyster_account::Reply;
use std::sync::Wait;
use tap_disk::Disk;

/// Sends the touch that waits over a line that brings every byte, has a clerk answer it, and hears
/// the answer.
///
/// It takes no memory, so an `Err` is the clerk's: its fault as `Refused`, and an answer that is
/// no answer to the touch as `hear_in` has it. At an `Err` the touch waits on.
pub fn settle_at_once<D: Disk, C: Clerk, H: Wait>(
    rt: &H,
    client: &mut Client<D>,
    clerk: &mut C,
) -> Result<Reply, HearFault>
    requires { IsSome (waits_of client.old) }

    // The clerk was handed the touch, and what it answered is heard.
    ensures heard { (touch : Touch) → waits_of client.old ≡ Some touch
        → IsHeard C.gives touch clerk.old clerk.new result }

    // So it is Ok where the clerk replies.
    ensures ok { (touch : Touch) → waits_of client.old ≡ Some touch
        → DoesReply C.gives clerk.old touch → IsOk result }
    ensures answered { OnOk result (client.new ≡ answered client.old) }
    ensures kept { OnErr result (client.new ≡ client.old) }
{
    let mut frame = [0; REQUEST_SIZE];
    let size = client.frame_into(&mut frame);
    let answer = fitting(answer_to(rt, clerk, &frame[..size]));
    let mut text = [0; ANSWER_SIZE];
    let size = answer.write_into(&mut text);
    client.hear_in(&text[..size])
}

/// What a clerk answers to the request whose frame these bytes are. A fault where they are none.
fn answer_to<C: Clerk, H: Wait>(rt: &H, clerk: &mut C, bytes: &[u8]) -> Answer
    ensures { (touch : Touch) → Fits touch → bytes.now ≡ frame_of touch
        → C.gives clerk.old (requests.Touch touch) result clerk.new }
{
    let Some(request) = Request::read_whole(bytes) else {
        return Answer::unnamed_fault(FaultCode::BadFrame);
    };
    hand_over(rt, clerk, request)
}
