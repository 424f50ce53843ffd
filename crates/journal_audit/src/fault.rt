//! Why nothing, or only a beginning, was told of a journal.

ghost use Rattle.std.specs.Prelude.{◌≡◌, Some};
ghost use Rattle.journal_audit.specs.declared.fault.AuditFault.TheVariants as cause;
ghost use Rattle.journal_audit.specs.Texts.{printed_header_fault, printed_seal_fault};
ghost use Rattle.journal_audit.specs.Texts.{printed_gate_fault};

use std::alloc::{AllocError, AllocFailed};
use std::fmt;
use tap_journal::Refused;
use text_io::WriteFault;
use thiserror::Error;

/// Why a header doesn't say what is expected of it, in the order in which the causes are looked
/// for. The printed numbers begin at 1.
#[derive(Clone, Copy, Debug, PartialEq, Eq, Error)]
pub enum JournalHeaderFault {
    /// It says another capacity than the expected one.
    Capacity { says: u32, expected: u32 },
    /// It says another number of cards than the expected one.
    Cards { says: u32, expected: u32 },
}

/// Why a journal isn't the one that was sealed, in the order in which the causes are looked for.
/// The printed numbers begin at 1.
#[derive(Clone, Copy, Debug, PartialEq, Eq, Error)]
pub enum SealFault {
    /// The journal has so many touches, and the seal is of more.
    Shorter { touches: u32, sealed: u32 },
    /// The bytes of the header and of these touches' slots are others.
    Changed,
}

/// Why some bytes aren't a gate's file, in the order in which the causes are looked for
/// (JOURNAL.md, "A gate's file"). The printed numbers begin at 1.
#[derive(Clone, Copy, Debug, PartialEq, Eq, Error)]
pub enum GateFault {
    /// They aren't a journal, or its making was cut short.
    NoFile,
    /// They are a journal of another version or of other numbers, of another gate, or a server's.
    AnotherFile,
    /// The slot at this place, counted from 0, holds no touch, is cut short or isn't there.
    Damaged(u32),
    /// The touch at this place, counted from 0, is another gate's, or its number isn't its place
    /// plus one.
    Foreign(u32),
}

/// Why a journal wasn't told of to its end. `Header` and `Seal` come of audits alone, `Gate` of the
/// audit of a gate's file, `Card` of a history, and `Place` of balances.
#[derive(Clone, Copy, Debug, PartialEq, Eq, Error)]
pub enum AuditFault {
    /// There was no memory for what is told.
    #[error("out of memory")]
    Memory,
    /// A write failed, or took nothing.
    #[error("a write failed")]
    Write,
    /// The bytes are no journal that can be opened with these tables.
    #[error("{0}")]
    Journal(Refused),
    /// The journal's header doesn't say what is expected of it.
    #[error("{0}")]
    Header(JournalHeaderFault),
    /// The journal isn't the one that was sealed.
    #[error("{0}")]
    Seal(SealFault),
    /// The bytes aren't the gate's file.
    #[error("{0}")]
    Gate(GateFault),
    /// The history was asked for that of a card above the journal's number of cards.
    #[error("card {card}, and the journal has {cards}")]
    Card { card: u32, cards: u32 },
    /// The journal has fewer touches than balances were asked for behind: so many.
    #[error("the journal has {0} touches")]
    Place(u32),
    /// What was paid in less what was charged isn't what the card with this number holds. No call
    /// of this library answers it.
    #[error("card {0} isn't balanced")]
    Balance(u32),
}

/// Prints the fault's number and name: what stands in a fault line behind `fault seal `. It is
/// written by hand, since the derive doesn't state what it prints.
impl fmt::Display for SealFault {
    ghost output = { λ fault. Some (printed_seal_fault fault) };

    fn fmt<W: fmt::Write>(&self, f: &mut fmt::Formatter<W>) -> fmt::Result {
        match *self {
            SealFault::Shorter { touches, sealed } => {
                write!(f, "1 Shorter {touches}, not {sealed}")
            }
            SealFault::Changed => f.write_str("2 Changed"),
        }
    }
}

/// Prints the fault's number and name, and both numbers: what stands in a fault line behind
/// `fault header `.
impl fmt::Display for JournalHeaderFault {
    ghost output = { λ fault. Some (printed_header_fault fault) };

    fn fmt<W: fmt::Write>(&self, f: &mut fmt::Formatter<W>) -> fmt::Result {
        match *self {
            JournalHeaderFault::Capacity { says, expected } => {
                write!(f, "1 Capacity {says}, not {expected}")
            }
            JournalHeaderFault::Cards { says, expected } => {
                write!(f, "2 Cards {says}, not {expected}")
            }
        }
    }
}

/// Prints the fault's number and name, and the place where there is one: what stands in a fault
/// line behind `fault gate `.
impl fmt::Display for GateFault {
    ghost output = { λ fault. Some (printed_gate_fault fault) };

    fn fmt<W: fmt::Write>(&self, f: &mut fmt::Formatter<W>) -> fmt::Result {
        match *self {
            GateFault::NoFile => f.write_str("1 NoFile"),
            GateFault::AnotherFile => f.write_str("2 AnotherFile"),
            GateFault::Damaged(place) => write!(f, "3 Damaged {place}"),
            GateFault::Foreign(place) => write!(f, "4 Foreign {place}"),
        }
    }
}

impl From<AllocError> for AuditFault {
    ghost from_gives = { λ _ fault. fault ≡ cause.Memory };

    fn from(_error: AllocError) -> AuditFault {
        AuditFault::Memory
    }
}

impl<T: Drop> From<AllocFailed<T>> for AuditFault {
    ghost from_gives = { λ _ fault. fault ≡ cause.Memory };

    fn from(_error: AllocFailed<T>) -> AuditFault {
        AuditFault::Memory
    }
}

impl From<WriteFault> for AuditFault {
    ghost from_gives = { λ _ fault. fault ≡ cause.Write };

    fn from(_fault: WriteFault) -> AuditFault {
        AuditFault::Write
    }
}

impl From<Refused> for AuditFault {
    ghost from_gives = { λ given fault. fault ≡ cause.Journal given };

    fn from(refused: Refused) -> AuditFault {
        AuditFault::Journal(refused)
    }
}

impl From<SealFault> for AuditFault {
    ghost from_gives = { λ given fault. fault ≡ cause.Seal given };

    fn from(fault: SealFault) -> AuditFault {
        AuditFault::Seal(fault)
    }
}

impl From<JournalHeaderFault> for AuditFault {
    ghost from_gives = { λ given fault. fault ≡ cause.Header given };

    fn from(fault: JournalHeaderFault) -> AuditFault {
        AuditFault::Header(fault)
    }
}

impl From<GateFault> for AuditFault {
    ghost from_gives = { λ given fault. fault ≡ cause.Gate given };

    fn from(fault: GateFault) -> AuditFault {
        AuditFault::Gate(fault)
    }
}
