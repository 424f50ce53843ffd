//! Why a replay ended early.

ghost use Rattle.std.specs.Prelude.{◌≡◌};
ghost use Rattle.text_io.specs.declared.fault.RunFault.TheVariants.{Memory, Write};
ghost use Rattle.line_replay.specs.declared.fault.LineReplayFault.TheVariants.{Run};
ghost use Rattle.line_replay.specs.Fault.{replay_fault};

use console::TrialFault;
use std::alloc::{AllocError, AllocFailed};
use text_io::{RunFault, WriteFault};

/// Why a replay ended early.
#[derive(Clone, Copy, Debug, PartialEq, Eq)]
pub enum LineReplayFault {
    /// There was no memory for the cards, a touch, a line or an answer, or a read or a write
    /// failed.
    Run(RunFault),
    /// The line of this number is no request. Lines count from 1.
    BadLine(u64),
}

impl From<RunFault> for LineReplayFault {
    ghost from_gives = { λ given fault. fault ≡ Run given };

    fn from(fault: RunFault) -> LineReplayFault {
        LineReplayFault::Run(fault)
    }
}

impl From<AllocError> for LineReplayFault {
    ghost from_gives = { λ _ fault. fault ≡ Run Memory };

    fn from(_error: AllocError) -> LineReplayFault {
        LineReplayFault::Run(RunFault::Memory)
    }
}

impl<T: Drop> From<AllocFailed<T>> for LineReplayFault {
    ghost from_gives = { λ _ fault. fault ≡ Run Memory };

    fn from(_error: AllocFailed<T>) -> LineReplayFault {
        LineReplayFault::Run(RunFault::Memory)
    }
}

impl From<WriteFault> for LineReplayFault {
    ghost from_gives = { λ _ fault. fault ≡ Run Write };

    fn from(_fault: WriteFault) -> LineReplayFault {
        LineReplayFault::Run(RunFault::Write)
    }
}

/// Why a replay ended early is told as it is.
impl From<LineReplayFault> for TrialFault {
    ghost from_gives = { λ given fault. fault ≡ replay_fault given };

    fn from(fault: LineReplayFault) -> TrialFault {
        match fault {
            LineReplayFault::Run(fault) => TrialFault::Run(fault),
            LineReplayFault::BadLine(number) => TrialFault::BadLine(number),
        }
    }
}
