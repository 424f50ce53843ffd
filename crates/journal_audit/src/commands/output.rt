//! How a command ends whose standard output refuses a write.

ghost use Rattle.std.specs.Prelude.{◌≡◌, IfErr, IfOk};
ghost use Rattle.std.specs.Process.{exit_status};
ghost use Rattle.journal_audit.specs.Output.{IsPipeGone};
ghost use Rattle.journal_audit.specs.Told.{told_fault};
ghost use Rattle.journal_audit.specs.declared.commands.output.TheConstants.{PIPE_STATUS};

use crate::commands::fault::CommandFault;
use console::{Detail, SystemRefusal, TrialFault};
use std::alloc::Global;
use std::process::ExitCode;
use text_io::RunFault;

/// The status of a command whose output goes to a pipe that nobody reads any more: that of a tool
/// of the shell, which the signal SIGPIPE ends.
pub const PIPE_STATUS: u8 = 141;

/// How a command ends that wasn't done for this fault, where standard output refused a write for
/// this reason. Where it was a failed write to a pipe that nobody reads any more, the command ends
/// with `PIPE_STATUS`, and nothing is told. Of another failed write the reason is told behind the
/// fault's line. Any other fault stays as it is.
pub fn ended_by(
    alloc: Global,
    refusal: Option<SystemRefusal>,
    fault: CommandFault,
) -> Result<ExitCode, CommandFault>
    ensures quiet { IfOk result (λ status. (exit_status status ≡ PIPE_STATUS)
        × IsPipeGone refusal fault) }
    ensures told { IfErr result (λ told. told_fault told ≡ told_fault fault) }
{
    match fault {
        CommandFault::Trial(TrialFault::Run(RunFault::Write)) => match refusal {
            Some(SystemRefusal::Other(libc::EPIPE)) => Ok(ExitCode::from(PIPE_STATUS)),
            Some(refusal) => Err(CommandFault::Output(Detail::of(
                alloc,
                "standard output",
                &refusal,
            ))),
            None => Err(fault),
        },
        fault => Err(fault),
    }
}
