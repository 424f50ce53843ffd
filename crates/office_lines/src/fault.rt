//! Why an office wasn't served to its end.

ghost use Rattle.std.specs.Prelude.{◌≡◌};
ghost use Rattle.office_lines.specs.declared.fault.ServeFault.TheVariants.{Memory, Write};

use std::alloc::AllocError;
use std::io;
use tap_office::CloseCause;

/// Why an office wasn't served to its end.
#[derive(Clone, Copy, Debug, PartialEq, Eq)]
pub enum ServeFault {
    /// There was no memory for what its end needs.
    Memory,
    /// The first line or the report couldn't be written.
    Write,
    /// It couldn't be closed.
    Close(CloseCause),
}

impl From<AllocError> for ServeFault {
    ghost from_gives = { λ _ fault. fault ≡ Memory };

    fn from(_error: AllocError) -> ServeFault {
        ServeFault::Memory
    }
}

impl From<io::Error> for ServeFault {
    ghost from_gives = { λ _ fault. fault ≡ Write };

    fn from(_error: io::Error) -> ServeFault {
        ServeFault::Write
    }
}
