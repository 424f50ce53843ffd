//! Why a run ended before all was answered, or a line wasn't, and what is told of it on standard
//! error.

ghost use Rattle.std.specs.Prelude.{◌≡◌};
ghost use Rattle.text_io.specs.declared.fault.RunFault.TheVariants.{Memory};
ghost use Rattle.gate_command.specs.declared.fault.SendFault.TheVariants.{Run};
ghost use Rattle.gate_command.specs.Told.{told_fault};

use clap::Error as LineError;
use clap::error::ErrorKind;
use gate_client::{AskFault, EnquireFault, FileFault, SettleFault};
use std::alloc::AllocError;
use std::process::ExitCode;
use std::{fmt, io};
use text_io::RunFault;

/// What stands behind the line of a fault: nothing where there was no memory for it.
pub type Detail = Option<String>;

/// Why a run ended before all was answered.
#[derive(Debug, Drop)]
pub enum SendFault {
    /// The command line asks for help or the version, or for nothing that the program does.
    Line(LineError),
    /// There was no memory for the command line or a line, a read from standard input failed, or a
    /// write to standard output.
    Run(RunFault),
    /// The system's file for the gate's file can't be had.
    File(Detail),
    /// The gate's file can't be made or opened.
    GateFile(FileFault, Detail),
    /// The line of this number, from 1, asks for nothing.
    BadLine(u64, Detail),
    /// The clock can't be read, or is behind 1970 or ahead of 2106.
    Clock,
    /// A touch can't be kept.
    Ask(AskFault, Detail),
    /// A touch that was kept isn't settled, and waits on.
    Settle(SettleFault, Detail),
    /// An enquiry isn't answered.
    Enquire(EnquireFault, Detail),
}

/// Prints the line that standard error gets of the fault, without its line feed.
impl fmt::Display for SendFault {
    ghost output = { told_fault };

    fn fmt<W: fmt::Write>(&self, f: &mut fmt::Formatter<W>) -> fmt::Result {
        match self {
            SendFault::Line(error) => write!(f, "{error}"),
            SendFault::Run(fault) => write!(f, "{fault}"),
            SendFault::File(_) => f.write_str("fault file"),
            SendFault::GateFile(fault, _) => write!(f, "fault gate-file {fault}"),
            SendFault::BadLine(number, _) => write!(f, "fault line {number}"),
            SendFault::Clock => f.write_str("fault clock"),
            SendFault::Ask(fault, _) => write!(f, "fault ask {fault}"),
            SendFault::Settle(fault, _) => write!(f, "fault {fault}"),
            SendFault::Enquire(fault, _) => write!(f, "fault enquiry {fault}"),
        }
    }
}

impl SendFault {
    /// The line that stands behind the fault's, where there is one.
    pub fn detail(&self) -> Option<&str> {
        match self {
            SendFault::File(detail) => detail.as_deref(),
            SendFault::GateFile(_, detail) => detail.as_deref(),
            SendFault::BadLine(_, detail) => detail.as_deref(),
            SendFault::Ask(_, detail) => detail.as_deref(),
            SendFault::Settle(_, detail) => detail.as_deref(),
            SendFault::Enquire(_, detail) => detail.as_deref(),
            _ => None,
        }
    }

    /// Tells standard error what the fault is. The error is that of the writing.
    pub(crate) fn tell<R: Eprint>(&self, rt: &R) -> io::Result<()> {
        rt.eprintln(self)?;
        if let Some(detail) = self.detail() {
            rt.eprintln(detail)?;
        }
        Ok(())
    }

    /// Whether a line of the input asks for nothing: the next one may be read.
    pub(crate) fn is_bad_line(&self) -> bool {
        matches!(self, SendFault::BadLine(..))
    }
}

/// Tells standard error why a run ended, and answers the status: that of `clap` for a command line,
/// else 1. Help and the version go to standard output. The error is that of the writing.
pub fn tell_fault<R: Print + Eprint>(rt: &R, fault: SendFault) -> io::Result<ExitCode> {
    match fault {
        SendFault::Line(error) => {
            error.print(rt)?;
            Ok(ExitCode::from(error.exit_code() as u8))
        }
        fault => {
            fault.tell(rt)?;
            Ok(ExitCode::from(1))
        }
    }
}

impl From<RunFault> for SendFault {
    ghost from_gives = { λ run fault. fault ≡ Run run };

    fn from(fault: RunFault) -> SendFault {
        SendFault::Run(fault)
    }
}

impl From<AllocError> for SendFault {
    ghost from_gives = { λ _ fault. fault ≡ Run Memory };

    fn from(_error: AllocError) -> SendFault {
        SendFault::Run(RunFault::Memory)
    }
}

/// A command line for which there was no memory is a fault of the run.
impl From<LineError> for SendFault {
    fn from(error: LineError) -> SendFault {
        if error.kind() == ErrorKind::OutOfMemory {
            SendFault::Run(RunFault::Memory)
        } else {
            SendFault::Line(error)
        }
    }
}
