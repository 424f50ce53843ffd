//! Why the file that a command names gives no door.

ghost use Rattle.std.specs.Prelude.{◌≡◌};
ghost use Rattle.door_check.specs.Doors.{told_door};
ghost use Rattle.door_check.specs.declared.fault.NoDoor.TheVariants.{Trial};

use console::{Detail, TrialFault};
use door_file::DoorFault;
use std::fmt;
use thiserror::Error;

/// Why the file that a command names gives no door.
#[derive(Debug, Drop, Error)]
pub enum NoDoor {
    /// The file can't be opened or read to its end, or memory was refused.
    Trial(TrialFault),
    /// The file's door is refused, for any other reason than want of memory.
    Refused(DoorFault, Detail),
}

/// Prints the line that standard error gets of the fault, without its line feed. It is written by
/// hand, since the derive doesn't state what it prints.
impl fmt::Display for NoDoor {
    ghost output = { told_door };

    fn fmt<W: fmt::Write>(&self, f: &mut fmt::Formatter<W>) -> fmt::Result {
        match self {
            NoDoor::Trial(fault) => write!(f, "{fault}"),
            NoDoor::Refused(fault, _) => write!(f, "{fault}"),
        }
    }
}

impl NoDoor {
    /// The line that follows the fault's, where there is one.
    pub fn detail(&self) -> Option<&str> {
        match self {
            NoDoor::Trial(fault) => fault.detail(),
            NoDoor::Refused(_, detail) => detail.line(),
        }
    }
}

impl From<TrialFault> for NoDoor {
    ghost from_gives = { λ given fault. fault ≡ Trial given };

    fn from(fault: TrialFault) -> NoDoor {
        NoDoor::Trial(fault)
    }
}
