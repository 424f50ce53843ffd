//! The calls of a gate's client as steps of its gate. Each is the call of `gate_client` of that
//! name, and answers what it answers.
ghost use Rattle.std.specs.Prelude.{◌≡◌, ◌≢◌, ℕ, Bool, List, [], ◌∷◌, ◌++◌, Some, IsSome};
ghost use Rattle.std.specs.Prelude.{IfSome, IfOk, IfErr, OnOk, OnErr, false, None};
ghost use Rattle.oyster_account.specs.declared.touch.Touch.{Touch};
ghost use Rattle.oyster_account.specs.Touch.{Fits};
ghost use Rattle.text_io.specs.Writing.{Wrote};
ghost use Rattle.gate_client.specs.Client.{HasAsked, gate_of, waits_of, disk_of, header_in};
ghost use Rattle.gate_client.specs.Client.{is_stopped};
ghost use Rattle.gate_client.specs.Heard.{IsSent};
ghost use Rattle.gate_client.specs.File.{header_by, next_touch};
ghost use Rattle.gate_law.specs.Whole.{Whole};
ghost use Rattle.gate_law.specs.Shown.{IsShownBy, IsInFile};
ghost use Rattle.gate_law.specs.ClientRuns.{IsClientRun, told_of, refused_of, IsOnLine};

use gate_client::{AskFault, Client, ClientFault, HearFault, LineFault};
use oyster_account::{Act, Reply, Touch};
use std::alloc::Global;
use std::io::{Read, Write};
use tap_disk::{Choice, Disk, MemoryDisk};

/// Keeps a touch: that is the step Asks, and no step where it isn't handed out. Where the disk
/// fails the gate ends, which is the step GateStops. A crash at any moment of the call leaves what
/// a crash of the gate may leave.
///
/// Each fault comes as `Client::ask` says.
pub fn ask_in_steps<D: Disk>(client: &mut Client<D>, card: u32, act: Act) -> Result<Touch, AskFault>
    ensures steps { (alone : ℕ → Bool) (cards number : ℕ) (whole : Whole)
        → IsShownBy number (whole.gates number) client.old
        → IsClientRun alone cards number whole client.new [] [] [] }
    ensures crash { (number : ℕ) (whole : Whole)
        → IsShownBy number (whole.gates number) client.old → is_stopped client.old ≡ false
        → waits_of client.old ≡ None → D.honest (disk_of client.new) → (c : List ℕ)
        → D.outcome_since (disk_of client.new) (D.moment (disk_of client.old)) c
        → IsInFile (header_in client.old) number (whole.gates number) c }

    // What is handed out is the touch that was asked for, and waits.
    ensures touch { (asked : List Touch) → HasAsked asked client.old
        → IfOk result (λ t. t ≡ next_touch (gate_of client.old) asked card act) }
    ensures waits { IfOk result (λ t. waits_of client.new ≡ Some t) }
    ensures kept { OnErr result (waits_of client.new ≡ waits_of client.old) }
{
    client.ask(card, act)
}

/// Writes the frame of the touch that waits: that is the step Sends where it is written whole, and
/// no step where it is cut.
///
/// A fault comes as `Client::send` says.
pub fn send_in_steps<D: Disk, W: Write>(client: &Client<D>, writer: &mut W) -> Result<(), LineFault>
    requires { IsSome (waits_of client.now) }
    ensures written { (t : Touch) → waits_of client.now ≡ Some t
        → Wrote (W.contents writer.old) (W.contents writer.new) (λ text. IsSent t text result) }
    ensures fits { (t : Touch) → waits_of client.now ≡ Some t → Fits t }
    ensures steps { (alone : ℕ → Bool) (cards number : ℕ) (whole : Whole) (t : Touch)
        → IsShownBy number (whole.gates number) client.now → waits_of client.now ≡ Some t
        → IfOk result (λ _. IsClientRun alone cards number whole client.now (t ∷ []) [] []) }
{
    client.send(writer)
}

/// Reads an answer to the touch that waits: that is the step Hears where it is a reply, the step
/// HearsFault where it is a fault, if it was written before: the premise Line. It is no step where
/// the answer is neither, or another's. What the caller is told is what is returned.
///
/// Each fault comes as `Client::hear` says.
pub fn hear_in_steps<D: Disk, R: Read>(
    client: &mut Client<D>,
    reader: &mut R,
) -> Result<Reply, HearFault>
    requires { IsSome (waits_of client.old) }
    ensures { (alone : ℕ → Bool) (cards number : ℕ) (whole : Whole) (t : Touch)
        → IsShownBy number (whole.gates number) client.old → waits_of client.old ≡ Some t
        → IsOnLine whole t result
        → IsClientRun alone cards number whole client.new [] (told_of t result)
        (refused_of t result) }
{
    client.hear(reader)
}

/// Gives up the touch that waits: that is the step GivesUp where it is given up. Where the disk
/// fails the gate ends, which is the step GateStops, and no step is made otherwise. A crash at any
/// moment of the call leaves what a crash of the gate may leave.
///
/// Each fault comes as `Client::give_up` says.
pub fn give_up_in_steps<D: Disk>(client: &mut Client<D>) -> Result<(), AskFault>
    requires { IsSome (waits_of client.old) }
    ensures steps { (alone : ℕ → Bool) (cards number : ℕ) (whole : Whole)
        → IsShownBy number (whole.gates number) client.old
        → IsClientRun alone cards number whole client.new [] [] [] }
    ensures crash { (number : ℕ) (whole : Whole) (t : Touch)
        → IsShownBy number (whole.gates number) client.old → waits_of client.old ≡ Some t
        → D.honest (disk_of client.new) → (c : List ℕ)
        → D.outcome_since (disk_of client.new) (D.moment (disk_of client.old)) c
        → IsInFile (header_in client.old) number (whole.gates number) c }

    // What waited is kept once more where it is given up, and none waits.
    ensures given_up { (asked : List Touch) (t : Touch) → HasAsked asked client.old
        → waits_of client.old ≡ Some t → IfOk result (λ _. HasAsked (asked ++ t ∷ []) client.new) }
    ensures none { OnOk result (waits_of client.new ≡ None) }
    ensures kept { IfErr result (λ fault. fault ≢ AskFault.Device → client.new ≡ client.old) }
{
    client.give_up()
}

/// Opens the file that a crash or an end has left: the gate stops, and is opened, with its touches,
/// or with one more, that it was being asked for or was giving up. The last of them waits, where it
/// isn't given up. One journal is proved here, from the disk's bytes.
///
/// Each fault comes as `Client::open` says, with the disk.
pub fn open_in_steps<D: Disk>(
    alloc: Global,
    disk: D,
    gate: u16,
) -> Result<Client<D>, ClientFault<D>>
    ensures { (alone : ℕ → Bool) (cards capacity : ℕ) (whole : Whole)
        → IsInFile (header_by gate capacity) gate (whole.gates gate) (D.content disk)
        → IfOk result (λ client. D.honest (disk_of client)
        → IsClientRun alone cards gate whole client [] [] []) }
{
    Client::open(alloc, disk, gate)
}

/// The gate's power fails between two calls, and what the crash leaves of its disk, by this choice,
/// is opened again: the gate stops, and is opened. `gate` is the client's number.
///
/// None comes where memory was refused, or where `Client::open` has a fault.
pub fn crash_in_steps(
    alloc: Global,
    client: Client<MemoryDisk>,
    gate: u16,
    choice: Choice,
) -> Option<Client<MemoryDisk>>
    ensures { (alone : ℕ → Bool) (cards : ℕ) (whole : Whole)
        → IsShownBy gate (whole.gates gate) client
        → IfSome result (λ opened. IsClientRun alone cards gate whole opened [] [] []) }
{
    let disk = client.close();
    let Ok(left) = disk.crash(choice) else {
        return None;
    };
    match open_in_steps(alloc, left, gate) {
        Ok(opened) => Some(opened),
        Err(_) => None,
    }
}
