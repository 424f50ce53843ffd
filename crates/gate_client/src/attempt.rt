//! One try of a touch: its frame is written to a line, and one answer is read from it.
ghost use Rattle.std.specs.Prelude.{◌≡◌, ℕ, Some, IsSome, IfOk, OnOk, OnErr, Err};
ghost use Rattle.std.specs.Io.KnownBytes.{Consumes};
ghost use Rattle.oyster_account.specs.declared.touch.Touch.{Touch};
ghost use Rattle.gate_session.specs.declared.answer.Answer.TheVariants as answers;
ghost use Rattle.gate_session.specs.Answers.{answer_frame};
ghost use Rattle.text_io.specs.Writing.{Wrote};
ghost use Rattle.gate_client.specs.Client.{waits_of, answered};
ghost use Rattle.gate_client.specs.declared.attempt.TryFault.TheVariants.{Cut, Unheard};
ghost use Rattle.gate_client.specs.declared.fault.HearFault.TheVariants.{Refused, Stray};
ghost use Rattle.gate_client.specs.Exchange.{HasSent, HasSettled, printed_try_fault};
ghost use Rattle.gate_client.specs.Tries.{HasStrayed};

use crate::{Client, HearFault};
use oyster_account::Reply;
use std::fmt;
use std::io::{Read, Write};
use tap_disk::Disk;
use thiserror::Error;

/// Why a try of a touch brought no reply. The touch waits on.
#[derive(Clone, Copy, Debug, PartialEq, Eq, Error)]
pub enum TryFault {
    /// No line could be made.
    Unreached,
    /// The frame wasn't written whole. Nothing was read.
    Cut,
    /// The frame was written, and this came of the answer.
    Unheard(HearFault),
}

/// Prints what stands in a notice of the fault.
impl fmt::Display for TryFault {
    ghost output = { λ fault. Some (printed_try_fault fault) };

    fn fmt<W: fmt::Write>(&self, f: &mut fmt::Formatter<W>) -> fmt::Result {
        match self {
            TryFault::Unreached => f.write_str("connect"),
            TryFault::Cut => f.write_str("send"),
            TryFault::Unheard(fault) => write!(f, "hear {fault}"),
        }
    }
}

/// Sends the touch that waits over a line, and reads one answer. After Ok none waits.
///
/// At a fault the touch waits on, and the line is done: write nothing more to it, and read nothing
/// more from it.
pub fn exchange<D: Disk, R: Read, W: Write>(
    client: &mut Client<D>,
    reader: &mut R,
    writer: &mut W,
) -> Result<Reply, TryFault>
    requires { IsSome (waits_of client.old) }

    // The frame was written whole, and the reply to it was read, and nothing else.
    ensures sent { (t : Touch) → waits_of client.old ≡ Some t
        → Wrote (W.contents writer.old) (W.contents writer.new) (λ text. HasSent t text result) }
    ensures settled { (t : Touch) → waits_of client.old ≡ Some t
        → IfOk result (λ reply. HasSettled t reply (R.remaining reader.old) (R.remaining reader.new)
        (W.contents writer.old) (W.contents writer.new)) }
    ensures answered { OnOk result (client.new ≡ answered client.old) }

    // At a fault nothing changes; behind a cut frame nothing is read.
    ensures kept { OnErr result (client.new ≡ client.old) }
    ensures cut { result ≡ Err Cut → reader.new ≡ reader.old }

    // A fault of the station was read as one of this touch, and a stray answer as another's.
    ensures refused { (t : Touch) (code : ℕ) → waits_of client.old ≡ Some t
        → result ≡ Err (Unheard (Refused code))
        → Consumes (R.remaining reader.old) (R.remaining reader.new)
        (answer_frame (answers.Fault code t.gate t.number)) }
    ensures stray { (t : Touch) → waits_of client.old ≡ Some t → result ≡ Err (Unheard Stray)
        → HasStrayed t (R.remaining reader.old) (R.remaining reader.new) }
{
    let Ok(()) = client.send(writer) else {
        return Err(TryFault::Cut);
    };
    match client.hear(reader) {
        Ok(reply) => Ok(reply),
        Err(fault) => Err(TryFault::Unheard(fault)),
    }
}
