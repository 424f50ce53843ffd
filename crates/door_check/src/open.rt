//! The door in the file that a command names.

ghost use Rattle.std.specs.Prelude.{IfOk, IfErr};
ghost use Rattle.door_file.specs.Door.{rules_of};
ghost use Rattle.door_file.specs.Meaning.{MeansDoor};
ghost use Rattle.door_check.specs.Doors.{IsDoorIn, IsNoDoorIn, IsDoorFault};

use crate::fault::NoDoor;
use crate::standing::door_detail;
use console::{LimitedFiles, TrialFault};
use door_file::{Door, DoorFault, MOST_BYTES};
use std::alloc::Global;
use text_io::RunFault;

/// The most bytes that are read of a door's file: one more than it may have.
pub(crate) const MOST_READ: u64 = MOST_BYTES as u64 + 1;

/// The door in the file of this path, of which at most one byte more is read than a door may have.
///
/// A fault is `Trial` if the file can't be opened or read, or memory was refused. Otherwise it is
/// `Refused`, with the first fault of the door and its place.
pub fn door_of<F: LimitedFiles>(alloc: Global, files: &F, path: &str) -> Result<Door, NoDoor>
    ensures ok { IfOk result (λ door.
        IsDoorIn (F.gave_first files.now) path.now (rules_of door)) }
    ensures fault { IfErr result (IsNoDoorIn (F.gave_first files.now) path.now) }
{
    let bytes = files.first_bytes_in(alloc, path, MOST_READ)?;
    door_in(alloc, path, &bytes)
}

/// The door that the bytes of the file at a path are.
fn door_in(alloc: Global, path: &str, bytes: &[u8]) -> Result<Door, NoDoor>
    ensures ok { IfOk result (λ door. MeansDoor bytes.now (rules_of door)) }
    ensures fault { IfErr result (IsDoorFault bytes.now) }
{
    match Door::read_bytes(alloc, bytes) {
        Ok(door) => Ok(door),
        Err(DoorFault::Memory) => Err(NoDoor::Trial(TrialFault::Run(RunFault::Memory))),
        Err(fault) => {
            let detail = door_detail(alloc, path, bytes, &fault);
            Err(NoDoor::Refused(fault, detail))
        }
    }
}
