//! A gate and a station over a line in memory: a touch is asked, sent and served, and its reply is
//! heard.
ghost use Rattle.std.specs.Prelude.{◌≡◌, ℕ, List, [], ◌∷◌, ◌++◌, Some, IsSome, IfOk, OnErr};
ghost use Rattle.std.specs.Prelude.{vec_items};
ghost use Rattle.oyster_account.specs.declared.touch.Touch.{Touch};
ghost use Rattle.oyster_account.specs.Touch.{Fits};
ghost use Rattle.text_io.specs.Writing.{IsBeginning};
ghost use Rattle.gate_client.specs.Heard.{frame_of};
ghost use Rattle.gate_client.specs.File.{next_touch};
ghost use Rattle.gate_client.specs.Client.{HasAsked, gate_of, waits_of};
ghost use Rattle.gate_law.specs.Joint.{Joint};
ghost use Rattle.gate_law.specs.Settled.{IsServed, IsSettled, IsShown, IsRound, HasLegal};
ghost use Rattle.gate_law.specs.Station.{StationState, KeepsStation};

use gate_client::{AskFault, Client, HearFault, LineFault};
use gate_session::{Clerk, serve};
use oyster_account::{Act, Reply};
use std::alloc::Global;
use std::sync::Wait;
use tap_disk::Disk;

/// How many reads a session makes: one for the frame, which it gets whole, and one that ends it.
const READS: u32 = 2;

/// How many bytes a line brings, each way. What lies behind them is lost.
#[derive(Clone, Copy, Debug, PartialEq, Eq)]
pub struct Carried {
    /// Of the request.
    pub to_station: usize,
    /// Of the answer.
    pub to_gate: usize,
}

/// Why a touch that waits has no reply. It waits on.
#[derive(Clone, Copy, Debug, PartialEq, Eq)]
pub enum NoReplyFault {
    /// There was no memory for its frame.
    Unsent,
    /// The gate heard no reply. The station has the touch or not.
    Unheard(HearFault),
}

/// Why a touch that was to be asked has no reply.
#[derive(Clone, Copy, Debug, PartialEq, Eq)]
pub enum TouchFault {
    /// It isn't kept, or may not be: as `Client::ask` says.
    Unasked(AskFault),
    /// It is kept, and waits.
    Unsettled(NoReplyFault),
}

/// Asks for a touch of this card, and settles it.
pub fn ask_and_settle<D: Disk, C: Clerk, H: Wait>(
    rt: &H,
    alloc: Global,
    client: &mut Client<D>,
    clerk: &mut C,
    card: u32,
    act: Act,
    carried: Carried,
) -> Result<Reply, TouchFault>
    ensures ok { (station : C → StationState) (asked : List Touch) → KeepsStation C.gives station
        → HasAsked asked client.old → HasLegal (station clerk.old) → IfOk result (λ reply. IsSettled
        (asked ++ next_touch (gate_of client.old) asked card act ∷ [])
        (next_touch (gate_of client.old) asked card act) reply client.new
        (station clerk.new).history) }

    // Whatever is lost, what came of it are steps of the law: none where the touch isn't kept.
    // After a failing disk the gate's file has to be opened again, as `opening_is_a_step` has it.
    ensures steps { (station : C → StationState) (gate cards : ℕ) (s : Joint)
        → KeepsStation C.gives station → IsShown gate cards s client.old (station clerk.old)
        → IsRound gate cards s (next_touch gate s.asked card act) result client.new
        (station clerk.new) }
{
    match client.ask(card, act) {
        Ok(_) => match settle_in_memory(rt, alloc, client, clerk, carried) {
            Ok(reply) => Ok(reply),
            Err(fault) => Err(TouchFault::Unsettled(fault)),
        },
        Err(fault) => Err(TouchFault::Unasked(fault)),
    }
}

/// Sends the touch that waits to a station, over a line that brings as much of each side's bytes as
/// `carried` says, has it answered, and hears the answer.
///
/// At an `Err` the touch waits on, and the station has it or not: it can be settled again.
pub fn settle_in_memory<D: Disk, C: Clerk, H: Wait>(
    rt: &H,
    alloc: Global,
    client: &mut Client<D>,
    clerk: &mut C,
    carried: Carried,
) -> Result<Reply, NoReplyFault>
    requires { IsSome (waits_of client.old) }

    // Where a reply is handed out, the touch stands once in the station's history, with that reply,
    // and in the gate's file.
    ensures ok { (station : C → StationState) (asked : List Touch) (touch : Touch)
        → KeepsStation C.gives station → HasAsked asked client.old
        → waits_of client.old ≡ Some touch → HasLegal (station clerk.old)
        → IfOk result (λ reply. IsSettled asked touch reply client.new
        (station clerk.new).history) }
    ensures kept { OnErr result (client.new ≡ client.old) }

    // Whatever is lost, what came of it are steps of the law.
    ensures steps { (station : C → StationState) (gate cards : ℕ) (s : Joint) (touch : Touch)
        → KeepsStation C.gives station → IsShown gate cards s client.old (station clerk.old)
        → waits_of client.old ≡ Some touch
        → IsRound gate cards s touch result client.new (station clerk.new) }
{
    let Ok(frame) = sent(alloc, client) else {
        return Err(NoReplyFault::Unsent);
    };
    let text = served(rt, alloc, clerk, brought(&frame, carried.to_station));
    match client.hear_in(brought(&text, carried.to_gate)) {
        Ok(reply) => Ok(reply),
        Err(fault) => Err(NoReplyFault::Unheard(fault)),
    }
}

/// What a line brings of these bytes.
fn brought(bytes: &[u8], limit: usize) -> &[u8]
    ensures { IsBeginning result.now bytes.now }
{
    &bytes[..limit.min(bytes.len())]
}

/// The frame of the touch that waits, as it is sent.
fn sent<D: Disk>(alloc: Global, client: &Client<D>) -> Result<Vec<u8>, LineFault>
    requires { IsSome (waits_of client.now) }
    ensures written { (touch : Touch) → waits_of client.now ≡ Some touch
        → IfOk result (λ frame. vec_items frame ≡ frame_of touch) }
    ensures fits { (touch : Touch) → waits_of client.now ≡ Some touch → Fits touch }
{
    let mut frame = Vec::new(alloc);
    client.send(&mut frame)?;
    Ok(frame)
}

/// What a station writes where it reads these bytes.
fn served<C: Clerk, H: Wait>(rt: &H, alloc: Global, clerk: &mut C, bytes: &[u8]) -> Vec<u8>
    ensures { IsServed C.gives clerk.old clerk.new bytes.now (vec_items result) }
{
    let mut reader = bytes;
    let mut text = Vec::new(alloc);
    serve(rt, alloc, &mut reader, &mut text, clerk, READS);
    text
}
