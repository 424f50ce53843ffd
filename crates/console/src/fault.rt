//! Why a trial wasn't made, and what is told of it on standard error.

ghost use Rattle.std.specs.Prelude.{◌≡◌};
ghost use Rattle.text_io.specs.declared.fault.RunFault.TheVariants.{Memory};
ghost use Rattle.console.specs.declared.fault.TrialFault.TheVariants.{Run};
ghost use Rattle.console.specs.Trial.{trial_fault};
ghost use Rattle.console.specs.Told.{told_trial};

use crate::detail::Detail;
use clap::Error as LineError;
use clap::error::ErrorKind;
use fare_schedule::SupplyFault;
use fare_table::TableFault;
use std::alloc::AllocError;
use std::process::ExitCode;
use std::{fmt, io};
use text_io::RunFault;
use thiserror::Error;

/// Why a trial wasn't made. It is also what any command may fail of before it does what is its own:
/// by its command line, its files, its tables, or for want of memory.
#[derive(Debug, Drop, Error)]
pub enum TrialFault {
    /// The command line asks for help or the version, or for nothing that the program does.
    Line(LineError),
    /// A file of the command line can't be opened or made, or can't be read to its end.
    File(Detail),
    /// The file's fare table is refused.
    Table(TableFault, Detail),
    /// The table in the file of this place among the further ones, from 1, is refused beside the
    /// tables before it.
    Supply(SupplyFault, usize, Detail),
    /// The table hasn't the station of this number, from or to which a journey is asked for.
    Station(u16),
    /// The run over the input ended early.
    Run(RunFault),
    /// The line of this number, from 1, of the input of a replay is no request.
    BadLine(u64),
}

/// Prints the line that standard error gets of the fault, without its line feed. It is written by
/// hand, since the derive doesn't state what it prints.
impl fmt::Display for TrialFault {
    ghost output = { told_trial };

    fn fmt<W: fmt::Write>(&self, f: &mut fmt::Formatter<W>) -> fmt::Result {
        match self {
            TrialFault::Line(error) => write!(f, "{error}"),
            TrialFault::File(_) => f.write_str("fault file"),
            TrialFault::Table(fault, _) => write!(f, "{fault}"),
            TrialFault::Supply(fault, place, _) => write!(f, "fault supply {fault} {place}"),
            TrialFault::Station(station) => write!(f, "fault station {station}"),
            TrialFault::Run(fault) => write!(f, "{fault}"),
            TrialFault::BadLine(number) => write!(f, "fault run 4 BadLine {number}"),
        }
    }
}

impl TrialFault {
    /// The line that stands behind the fault's, where there is one.
    pub fn detail(&self) -> Option<&str> {
        match self {
            TrialFault::File(detail) => detail.line(),
            TrialFault::Table(_, detail) => detail.line(),
            TrialFault::Supply(_, _, detail) => detail.line(),
            _ => None,
        }
    }
}

/// Tells standard error why a command wasn't done, and answers the status: that of `clap` for a
/// command line, else 1. Help and the version go to standard output. The error is that of the
/// writing.
pub fn tell_fault<R: Print + Eprint>(rt: &R, fault: TrialFault) -> io::Result<ExitCode> {
    match fault {
        TrialFault::Line(error) => {
            error.print(rt)?;
            Ok(ExitCode::from(error.exit_code() as u8))
        }
        fault => {
            rt.eprintln(&fault)?;
            if let Some(detail) = fault.detail() {
                rt.eprintln(detail)?;
            }
            Ok(ExitCode::from(1))
        }
    }
}

impl From<RunFault> for TrialFault {
    ghost from_gives = { λ given fault. fault ≡ Run given };

    fn from(fault: RunFault) -> TrialFault {
        TrialFault::Run(fault)
    }
}

/// A table for which there was no memory is a fault of the run.
impl From<TableFault> for TrialFault {
    ghost from_gives = { λ given fault. fault ≡ trial_fault given };

    fn from(fault: TableFault) -> TrialFault {
        match fault {
            TableFault::Memory => TrialFault::Run(RunFault::Memory),
            fault => TrialFault::Table(fault, Detail::none()),
        }
    }
}

impl From<AllocError> for TrialFault {
    ghost from_gives = { λ _ fault. fault ≡ Run Memory };

    fn from(_error: AllocError) -> TrialFault {
        TrialFault::Run(RunFault::Memory)
    }
}

/// A command line for which there was no memory is a fault of the run.
impl From<LineError> for TrialFault {
    fn from(error: LineError) -> TrialFault {
        if error.kind() == ErrorKind::OutOfMemory {
            TrialFault::Run(RunFault::Memory)
        } else {
            TrialFault::Line(error)
        }
    }
}
