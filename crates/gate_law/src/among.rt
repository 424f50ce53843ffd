//! The tries of a touch over its lines as steps of its gate, whatever other gates and the station
//! do before, between and behind them. Each is the call of `gate_client`, and answers what that
//! answers.
ghost use Rattle.std.specs.Prelude.{◌≡◌, ℕ, Bool, Some, IsSome, OnOk, OnErr};
ghost use Rattle.oyster_account.specs.declared.touch.Touch.{Touch};
ghost use Rattle.gate_client.specs.Client.{waits_of, answered};
ghost use Rattle.gate_client.specs.Tries.{HasRead};
ghost use Rattle.gate_client.specs.Exchange.{HasSent};
ghost use Rattle.text_io.specs.Writing.{Wrote};
ghost use Rattle.gate_law.specs.Whole.{Whole};
ghost use Rattle.gate_law.specs.Shown.{IsShownBy};
ghost use Rattle.gate_law.specs.ClientRuns.{told_of, refused_of};
ghost use Rattle.gate_law.specs.Among.{heard_by, IsTryAmong, IsRunAmong, IsSettling};

use gate_client::{Client, Line, SettleFault, Station, TryFault, exchange, settle};
use oyster_account::Reply;
use std::io::{Read, Write};
use tap_disk::Disk;

/// Makes one try of the touch that waits: that is the step Sends where its frame is written whole,
/// and then Hears where a reply is read, HearsFault where a fault is, or none. Others may do steps
/// before it, and before the answer is read. That what was read was written before is the premise
/// Line, at the moment of the reading.
///
/// Each fault comes as `exchange` says.
pub fn exchange_among_others<D: Disk, R: Read, W: Write>(
    client: &mut Client<D>,
    reader: &mut R,
    writer: &mut W,
) -> Result<Reply, TryFault>
    requires { IsSome (waits_of client.old) }
    ensures sent { (t : Touch) → waits_of client.old ≡ Some t
        → Wrote (W.contents writer.old) (W.contents writer.new) (λ text. HasSent t text result) }
    ensures read { (t : Touch) → waits_of client.old ≡ Some t
        → HasRead t (R.remaining reader.old) (R.remaining reader.new) result }
    ensures steps { (alone : ℕ → Bool) (cards number : ℕ) (t : Touch) (first last : Whole)
        → IsShownBy number (first.gates number) client.old → waits_of client.old ≡ Some t
        → IsTryAmong alone cards number t result first last
        → IsRunAmong alone cards number first last client.new (told_of t (heard_by result))
        (refused_of t (heard_by result)) }
{
    exchange(client, reader, writer)
}

/// Settles the touch that waits, as the loop of a gate's program does: its tries are a run of the
/// law's steps, whatever others do before, between and behind them. So after it every gate agrees
/// (`every_gate_agrees`), if all began where the law begins. What the caller is told is the reply
/// that is returned; and a fault of the station that is returned is the last one that the caller is
/// refused, and was read as the answer to this touch.
///
/// Each fault comes as `settle` of `gate_client` says.
pub fn settle_among_others<D: Disk, R: Read + Drop, W: Write + Drop, S: Station<R, W>>(
    client: &mut Client<D>,
    station: &mut S,
    line: Option<Line<R, W>>,
    tries: u32,
) -> Result<(Reply, Line<R, W>), SettleFault>
    requires { IsSome (waits_of client.old) }
    ensures steps { (t : Touch) → waits_of client.old ≡ Some t
        → IsSettling R.remaining W.contents S.made t tries line result client.old client.new }
    ensures answered { OnOk result (client.new ≡ answered client.old) }
    ensures kept { OnErr result (client.new ≡ client.old) }
{
    settle(client, station, line, tries)
}
