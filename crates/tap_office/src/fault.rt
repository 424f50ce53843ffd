//! Why a touch is not committed, and why an office is not closed.
use std::alloc::AllocError;
use thiserror::Error;

/// Why a touch was not committed.
#[derive(Clone, Copy, Debug, PartialEq, Eq, Error)]
pub enum SubmitFault {
    /// The gate has used the touch's number for another touch.
    #[error("the number stands for another touch")]
    Conflict,
    /// The disk failed at an earlier touch or at this one: the office has to be opened again.
    #[error("the office is halted")]
    Halted,
    /// Memory was refused. The same touch can be submitted again.
    #[error("out of memory")]
    Memory,
    /// The journal holds as many touches as its capacity.
    #[error("the journal is full")]
    Full,
    /// The touch revises fares to a table that the office wasn't opened with.
    #[error("the table is not supplied")]
    UnknownTable,
}

impl From<AllocError> for SubmitFault {
    ghost use Rattle.std.specs.Prelude.{◌≡◌};
    ghost use Rattle.tap_office.specs.declared.fault.SubmitFault.TheVariants.{Memory};

    ghost from_gives = { λ _ fault. fault ≡ Memory };

    fn from(_error: AllocError) -> SubmitFault {
        SubmitFault::Memory
    }
}

/// Why an office was not closed.
#[derive(Clone, Copy, Debug, PartialEq, Eq, Error)]
pub enum CloseCause {
    /// There are not as many seats as were made.
    #[error("a seat is missing")]
    SeatMissing,
    /// A receipt doesn't stand at its place.
    #[error("a receipt doesn't stand at its place")]
    Mismatch,
    /// A desk has learnt what isn't seen to be a beginning of the history, or not in its order.
    #[error("a desk has learnt another history")]
    DeskMismatch,
}
