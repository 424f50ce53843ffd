//! Why a command didn't do what it was asked for, and what is told of it on standard error.

ghost use Rattle.std.specs.Prelude.{◌≡◌, None};
ghost use Rattle.text_io.specs.declared.fault.RunFault.TheVariants.{Memory};
ghost use Rattle.console.specs.Detail.{no_detail};
ghost use Rattle.console.specs.declared.fault.TrialFault.TheVariants.{Run};
ghost use Rattle.journal_audit.specs.declared.commands.fault.CommandFault.TheVariants.{Journal};
ghost use Rattle.journal_audit.specs.declared.commands.fault.CommandFault.TheVariants.{Migrate};
ghost use Rattle.journal_audit.specs.declared.commands.fault.CommandFault.TheVariants.{Trial};
ghost use Rattle.journal_audit.specs.Command.{audit_fault};
ghost use Rattle.journal_audit.specs.Told.{told_fault};

use crate::fault::{AuditFault, GateFault, JournalHeaderFault, SealFault};
use clap::Error as LineError;
use console::{Detail, TrialFault, tell_fault};
use door_file::DoorFault;
use std::alloc::AllocError;
use std::process::ExitCode;
use std::{fmt, io};
use tap_journal::{JournalFault, NotCarried, Refused};
use text_io::RunFault;
use thiserror::Error;

/// Why a command wasn't done.
#[derive(Debug, Drop, Error)]
pub enum CommandFault {
    /// The command line asks for nothing that the program does, a file or a table isn't had, or the
    /// run ended early.
    Trial(TrialFault),
    /// The journal can't be made or opened.
    Journal(Refused, Detail),
    /// The journal can't be carried over to the new file.
    Migrate(NotCarried, Detail),
    /// The journal's header doesn't say what is expected of it.
    Header(JournalHeaderFault),
    /// The journal isn't the one that was sealed.
    Seal(SealFault),
    /// The file isn't the gate's.
    Gate(GateFault),
    /// The touches of a card were asked for, and the journal has fewer cards than its number.
    Card { card: u32, cards: u32 },
    /// The statement of this card was asked for, and the journal has no accepted issue of it.
    Unissued(u32),
    /// The journal has fewer touches than balances were asked for behind: it has so many.
    Place(u32),
    /// So many open slots stand behind the journal's end, and the server was to look for them.
    Behind(u32, Detail),
    /// What was paid in on the card of this number, less what it was charged, isn't its balance. No
    /// run shows it.
    Balance(u32),
    /// The file of a door has this fault.
    Door(DoorFault, Detail),
    /// The address can't be listened on.
    Listen(Detail),
    /// A standard stream didn't take what was written. It is the run's fault, with what the system
    /// says of it.
    Output(Detail),
    /// Not as many seats came back to the closing as were made. No run shows it.
    SeatMissing,
    /// A receipt doesn't stand at its place. No run shows it.
    Mismatch,
    /// A desk has learnt another history. No run shows it.
    DeskMismatch,
}

/// Prints the line that standard error gets of the fault, without its line feed. It is written by
/// hand, since the derive doesn't state what it prints.
impl fmt::Display for CommandFault {
    ghost output = { told_fault };

    fn fmt<W: fmt::Write>(&self, f: &mut fmt::Formatter<W>) -> fmt::Result {
        match self {
            CommandFault::Trial(fault) => write!(f, "{fault}"),
            CommandFault::Journal(refused, _) => {
                let cause = refused.cause;
                write!(f, "fault journal {cause}")
            }
            CommandFault::Migrate(refused, _) => {
                let cause = refused.cause;
                write!(f, "fault migrate {cause}")
            }
            CommandFault::Header(fault) => write!(f, "fault header {fault}"),
            CommandFault::Seal(fault) => write!(f, "fault seal {fault}"),
            CommandFault::Gate(fault) => write!(f, "fault gate {fault}"),
            CommandFault::Card { card, cards } => write!(f, "fault card {card} above {cards}"),
            CommandFault::Unissued(card) => write!(f, "fault card {card} not issued"),
            CommandFault::Place(touches) => write!(f, "fault place {touches}"),
            CommandFault::Behind(slots, _) => write!(f, "fault behind {slots}"),
            CommandFault::Balance(card) => write!(f, "fault balance {card}"),
            CommandFault::Door(fault, _) => write!(f, "{fault}"),
            CommandFault::Listen(_) => f.write_str("fault listen"),
            CommandFault::Output(_) => f.write_str("fault run 3 Write"),
            CommandFault::SeatMissing => f.write_str("fault close 1 SeatMissing"),
            CommandFault::Mismatch => f.write_str("fault close 2 Mismatch"),
            CommandFault::DeskMismatch => f.write_str("fault close 3 DeskMismatch"),
        }
    }
}

impl CommandFault {
    /// The line that stands behind the fault's, where there is one.
    pub fn detail(&self) -> Option<&str> {
        match self {
            CommandFault::Trial(fault) => fault.detail(),
            CommandFault::Journal(_, detail) => detail.line(),
            CommandFault::Migrate(_, detail) => detail.line(),
            CommandFault::Behind(_, detail) => detail.line(),
            CommandFault::Door(_, detail) => detail.line(),
            CommandFault::Listen(detail) => detail.line(),
            CommandFault::Output(detail) => detail.line(),
            _ => None,
        }
    }

    /// This fault, with what stands behind its line where it is of a journal. Its line stays.
    pub fn with(self, detail: Detail) -> CommandFault
        ensures { told_fault result ≡ told_fault self }
    {
        match self {
            CommandFault::Journal(refused, _) => CommandFault::Journal(refused, detail),
            CommandFault::Migrate(refused, _) => CommandFault::Migrate(refused, detail),
            fault => fault,
        }
    }
}

/// Tells standard error why a command wasn't done, and answers the status: that of `clap` for a
/// command line, else 1. Help and the version go to standard output. The error is that of the
/// writing.
pub fn tell_command_fault<R: Print + Eprint>(rt: &R, fault: CommandFault) -> io::Result<ExitCode> {
    match fault {
        CommandFault::Trial(fault) => tell_fault(rt, fault),
        fault => {
            rt.eprintln(&fault)?;
            if let Some(detail) = fault.detail() {
                rt.eprintln(detail)?;
            }
            Ok(ExitCode::from(1))
        }
    }
}

impl From<TrialFault> for CommandFault {
    ghost from_gives = { λ given fault. fault ≡ Trial given };

    fn from(fault: TrialFault) -> CommandFault {
        CommandFault::Trial(fault)
    }
}

impl From<RunFault> for CommandFault {
    ghost from_gives = { λ given fault. fault ≡ Trial (Run given) };

    fn from(fault: RunFault) -> CommandFault {
        CommandFault::Trial(TrialFault::Run(fault))
    }
}

impl From<AllocError> for CommandFault {
    ghost from_gives = { λ _ fault. fault ≡ Trial (Run Memory) };

    fn from(_error: AllocError) -> CommandFault {
        RunFault::Memory.into()
    }
}

impl From<JournalFault> for CommandFault {
    ghost from_gives = { λ given fault. fault
        ≡ Journal (record { cause = given; found = None }) no_detail };

    fn from(cause: JournalFault) -> CommandFault {
        let refused = Refused { cause, found: None };
        CommandFault::Journal(refused, Detail::none())
    }
}

impl From<Refused> for CommandFault {
    ghost from_gives = { λ given fault. fault ≡ Journal given no_detail };

    fn from(refused: Refused) -> CommandFault {
        CommandFault::Journal(refused, Detail::none())
    }
}

impl From<NotCarried> for CommandFault {
    ghost from_gives = { λ given fault. fault ≡ Migrate given no_detail };

    fn from(refused: NotCarried) -> CommandFault {
        CommandFault::Migrate(refused, Detail::none())
    }
}

impl From<AuditFault> for CommandFault {
    ghost from_gives = { λ given fault. fault ≡ audit_fault given };

    fn from(fault: AuditFault) -> CommandFault {
        match fault {
            AuditFault::Memory => RunFault::Memory.into(),
            AuditFault::Write => RunFault::Write.into(),
            AuditFault::Journal(refused) => refused.into(),
            AuditFault::Header(fault) => CommandFault::Header(fault),
            AuditFault::Seal(fault) => CommandFault::Seal(fault),
            AuditFault::Gate(fault) => CommandFault::Gate(fault),
            AuditFault::Card { card, cards } => CommandFault::Card { card, cards },
            AuditFault::Place(touches) => CommandFault::Place(touches),
            AuditFault::Balance(card) => CommandFault::Balance(card),
        }
    }
}

/// A command line for which there was no memory is a fault of the run.
impl From<LineError> for CommandFault {
    fn from(error: LineError) -> CommandFault {
        CommandFault::Trial(error.into())
    }
}
