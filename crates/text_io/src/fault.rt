//! Why a run over some input ended early.

ghost use Rattle.std.specs.Prelude.{◌≡◌, Some};
ghost use Rattle.text_io.specs.declared.fault.RunFault.TheVariants.{Memory, Write};
ghost use Rattle.text_io.specs.Texts.{printed_run_fault};

use crate::write::WriteFault;
use std::alloc::{AllocError, AllocFailed};
use std::fmt;
use thiserror::Error;

/// Why a run over some input ended early, whatever the input is. The printed numbers begin at 1.
#[derive(Clone, Copy, Debug, PartialEq, Eq, Error)]
pub enum RunFault {
    /// There was no memory for what was read, or for what came of it.
    Memory,
    /// A read failed, or as many reads as were allowed were made without an end.
    Read,
    /// A write failed, or took nothing.
    Write,
}

/// Prints the line that standard error gets of the fault: its number and its name. It is written by
/// hand, since the derive doesn't state what it prints.
impl fmt::Display for RunFault {
    ghost output = { λ fault. Some (printed_run_fault fault) };

    fn fmt<W: fmt::Write>(&self, f: &mut fmt::Formatter<W>) -> fmt::Result {
        match *self {
            RunFault::Memory => f.write_str("fault run 1 Memory"),
            RunFault::Read => f.write_str("fault run 2 Read"),
            RunFault::Write => f.write_str("fault run 3 Write"),
        }
    }
}

impl From<AllocError> for RunFault {
    ghost from_gives = { λ _ fault. fault ≡ Memory };

    fn from(_error: AllocError) -> RunFault {
        RunFault::Memory
    }
}

impl<T: Drop> From<AllocFailed<T>> for RunFault {
    ghost from_gives = { λ _ fault. fault ≡ Memory };

    fn from(_error: AllocFailed<T>) -> RunFault {
        RunFault::Memory
    }
}

impl From<WriteFault> for RunFault {
    ghost from_gives = { λ _ fault. fault ≡ Write };

    fn from(_fault: WriteFault) -> RunFault {
        RunFault::Write
    }
}
