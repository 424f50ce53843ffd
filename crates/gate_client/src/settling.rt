//! The settling of the touch that waits: the same bytes over one line after the other, until its
//! reply is there.
ghost use Rattle.std.specs.Prelude.{◌≡◌, ◌⊎◌, ◌↔◌, IsTrue, List, Some, IsSome, IfSome, IfOk, OnOk};
ghost use Rattle.std.specs.Prelude.{OnErr};
ghost use Rattle.oyster_account.specs.declared.touch.Touch.{Touch};
ghost use Rattle.gate_client.specs.Client.{waits_of, answered};
ghost use Rattle.gate_client.specs.declared.settling.Line.{Line};
ghost use Rattle.gate_client.specs.Exchange.{HasSettled};
ghost use Rattle.gate_client.specs.SettleTexts.{printed_settle_fault, last_answer, last_fault};
ghost use Rattle.gate_client.specs.SettleTexts.{IsAnswer};
ghost use Rattle.gate_client.specs.Tries.{Try, IsTaken, IsTriedOver, AreTries};

use crate::attempt::{TryFault, exchange};
use crate::{Client, HearFault};
use gate_session::FaultCode;
use oyster_account::Reply;
use std::fmt;
use std::io::{Read, Write};
use tap_disk::Disk;
use thiserror::Error;

/// A line to a station.
#[derive(Drop)]
pub struct Line<R, W> {
    /// What the station sends.
    pub reader: R,
    /// What it is sent.
    pub writer: W,
}

/// Lines to a station, one after the other, by whichever of its addresses.
pub trait Station<R, W> {
    /// The line was made by this station's call, and nothing passed over it yet.
    ghost made: { Line R W → Type 0 };

    /// A new line. `None` where none can be made now.
    fn connect(&mut self) -> Option<Line<R, W>>
        ensures { IfSome result made };

    /// A try brought no reply: waits before the next one.
    fn failed(&mut self, fault: TryFault);
}

/// Why a touch isn't settled. It waits on: all but the last are answers of the station that repeats
/// don't change.
#[derive(Clone, Copy, Debug, PartialEq, Eq, Error)]
pub enum SettleFault {
    /// Another touch has its gate and number.
    Conflict,
    /// The station's history has no room for it.
    Full,
    /// The station doesn't know the table that it names.
    UnknownTable,
    /// The station doesn't allow it over this line. An earlier try may have brought it into the
    /// history.
    NotAllowed,
    /// So many tries as were allowed brought no reply.
    Tries(u32),
}

impl SettleFault {
    /// Whether the station answers the touch by a fault that repeats don't change, so that the gate
    /// may give it up.
    pub fn is_answer(self) -> bool
        ensures { IsTrue result ↔ IsAnswer self }
    {
        !matches!(self, SettleFault::Tries(_))
    }
}

/// Prints what stands behind `fault ` in the line of the fault: that it is an answer, by its code
/// and its name, or how many tries there were.
impl fmt::Display for SettleFault {
    ghost output = { λ fault. Some (printed_settle_fault fault) };

    fn fmt<W: fmt::Write>(&self, f: &mut fmt::Formatter<W>) -> fmt::Result {
        match *self {
            SettleFault::Conflict => f.write_str("answer 2 Conflict"),
            SettleFault::Full => f.write_str("answer 5 Full"),
            SettleFault::UnknownTable => f.write_str("answer 6 UnknownTable"),
            SettleFault::NotAllowed => f.write_str("answer 7 NotAllowed"),
            SettleFault::Tries(tries) => write!(f, "tries {tries}"),
        }
    }
}

/// Settles the touch that waits: sends it over a line and reads the answer, over a new line each
/// time, until the reply is there. It begins with `line`, where there is one.
///
/// After Ok none waits, and the line can carry the next touch. A line on which no whole answer to
/// the touch came, or a fault of the station, is dropped. The station's faults 2, 5, 6 and 7 end
/// it, since repeats don't change them, and so do so many tries.
pub fn settle<D: Disk, R: Read + Drop, W: Write + Drop, S: Station<R, W>>(
    client: &mut Client<D>,
    station: &mut S,
    line: Option<Line<R, W>>,
    tries: u32,
) -> Result<(Reply, Line<R, W>), SettleFault>
    requires { IsSome (waits_of client.old) }

    // Over the line that is handed back the touch's frame was written, and the reply to it was
    // read.
    ensures settled { (t : Touch) → waits_of client.old ≡ Some t → IfOk result (λ done.
        (begun : Line R W) × ((line ≡ Some begun) ⊎ S.made begun)
        × HasSettled t done.0 (R.remaining begun.reader) (R.remaining done.1.reader)
        (W.contents begun.writer) (W.contents done.1.writer)) }
    ensures answered { OnOk result (client.new ≡ answered client.old) }
    ensures kept { OnErr result (client.new ≡ client.old) }

    // It comes of tries over one line after the other: so a fault of the station that ends it was
    // read as the answer to this touch, over the line of the last.
    ensures tries { (t : Touch) → waits_of client.old ≡ Some t → (tried : List (Try R W))
        × AreTries R.remaining W.contents S.made t tries line tried result }
{
    let mut ready = line;
    for _ in 0..tries {
        let line = line_for(station, ready);
        ready = None;
        match try_over(client, line) {
            Ok(done) => return Ok(done),
            Err(fault) => {
                if let Some(last) = last_fault(fault) {
                    return Err(last);
                }
                station.failed(fault);
            }
        }
    }
    Err(SettleFault::Tries(tries))
}

/// The line that is ready, or else a new one.
pub(crate) fn line_for<R, W, S: Station<R, W>>(
    station: &mut S,
    ready: Option<Line<R, W>>,
) -> Option<Line<R, W>>
    ensures { IsTaken S.made ready result }
{
    match ready {
        Some(line) => Some(line),
        None => station.connect(),
    }
}

/// One try of the touch that waits. At a fault the line is dropped.
fn try_over<D: Disk, R: Read + Drop, W: Write + Drop>(
    client: &mut Client<D>,
    line: Option<Line<R, W>>,
) -> Result<(Reply, Line<R, W>), TryFault>
    requires { IsSome (waits_of client.old) }
    ensures settled { (t : Touch) → waits_of client.old ≡ Some t → IfOk result (λ done.
        (begun : Line R W) × (line ≡ Some begun)
        × HasSettled t done.0 (R.remaining begun.reader) (R.remaining done.1.reader)
        (W.contents begun.writer) (W.contents done.1.writer)) }
    ensures answered { OnOk result (client.new ≡ answered client.old) }
    ensures kept { OnErr result (client.new ≡ client.old) }
    ensures tried { (t : Touch) → waits_of client.old ≡ Some t
        → IsTriedOver R.remaining W.contents t line result }
{
    let Some(mut line) = line else {
        return Err(TryFault::Unreached);
    };
    let reply = exchange(client, &mut line.reader, &mut line.writer)?;
    Ok((reply, line))
}

/// The fault that ends the settling where a try met this one. `None` where it goes on.
fn last_fault(fault: TryFault) -> Option<SettleFault>
    ensures { result ≡ last_fault fault }
{
    let TryFault::Unheard(HearFault::Refused(code)) = fault else {
        return None;
    };
    last_answer(code)
}

/// The fault of an answer of the station that repeats don't change.
fn last_answer(code: u8) -> Option<SettleFault>
    ensures { result ≡ last_answer code }
{
    if code == FaultCode::Conflict.code() {
        Some(SettleFault::Conflict)
    } else if code == FaultCode::Full.code() {
        Some(SettleFault::Full)
    } else if code == FaultCode::UnknownTable.code() {
        Some(SettleFault::UnknownTable)
    } else if code == FaultCode::NotAllowed.code() {
        Some(SettleFault::NotAllowed)
    } else {
        None
    }
}
