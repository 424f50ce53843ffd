//! The command `check --door`: the rules of a door, or its first fault.

ghost use Rattle.std.specs.Prelude.{◌≡◌, ◌⊎◌, ◌++◌, codes, IfOk, IfErr, OnOk};
ghost use Rattle.std.specs.Io.KnownBytes.{Appends};
ghost use Rattle.std.specs.Process.{exit_status};
ghost use Rattle.text_io.specs.Writing.{Wrote, IsBeginning};
ghost use Rattle.text_io.specs.declared.fault.RunFault.TheVariants.{Write as WriteFailed};
ghost use Rattle.console.specs.Files.{IsFileFault};
ghost use Rattle.door_file.specs.Texts.{printed_fault};
ghost use Rattle.door_check.specs.Doors.{ForFirst};
ghost use Rattle.door_check.specs.Report.{IsReport, IsReported, IsUnreported, status_of};

use crate::lines::door_lines;
use crate::open::MOST_READ;
use crate::standing::door_detail;
use console::{Detail, LimitedFiles, TrialFault};
use door_file::{Door, DoorFault};
use std::alloc::{AllocError, Global};
use std::io::Write;
use std::process::ExitCode;
use text_io::{RunFault, write_text};

/// What is told of a door.
struct DoorReport {
    /// The lines that are written.
    text: Vec<u8>,
    /// Whether it is a door.
    valid: bool,
    /// What is told of its fault beside the fault's line.
    detail: Detail,
}

/// By hand, so that it is one call wherever one is dropped.
impl Drop for DoorReport {
    fn drop(self) {
        let DoorReport {
            text: _,
            valid: _,
            detail: _,
        } = self;
    }
}

/// Checks the door in a file, and writes a line for each of its rules and how many they are, or the
/// line of its first fault. Standard error gets the place of the fault, with what is there and what
/// is allowed. What standard error doesn't take is lost.
///
/// The status is 0 for a door, else 1. At most one byte more is read of the file than a door may
/// have, and that before anything is written. A fault is that of the file, want of memory, or a
/// failed write.
pub fn check_door<R: AllocGlobal + Eprint, F: LimitedFiles, W: Write>(
    rt: &R,
    files: &F,
    path: &str,
    writer: &mut W,
) -> Result<ExitCode, TrialFault>
    ensures ok { IfOk result (λ status. ForFirst (F.gave_first files.now) path.now (λ bytes.
        Wrote (W.contents writer.old) (W.contents writer.new)
        (λ text. IsReported bytes text (exit_status status)))) }
    ensures fault { IfErr result (λ fault. (IsFileFault fault × (writer.new ≡ writer.old))
        ⊎ ForFirst (F.gave_first files.now) path.now (λ bytes.
        Wrote (W.contents writer.old) (W.contents writer.new)
        (λ text. IsUnreported bytes text fault))) }
{
    let alloc = rt.alloc();
    let bytes = files.first_bytes_in(alloc, path, MOST_READ)?;
    let report = report_on(alloc, path, &bytes)?;
    write_report(writer, &report.text)?;
    if let Some(line) = report.detail.line() {
        let _ = rt.eprintln(line);
    }
    Ok(status_of(report.valid))
}

/// Writes a report. The fault is that of the writing, and a beginning was written.
fn write_report<W: Write>(writer: &mut W, text: &[u8]) -> Result<(), RunFault>
    ensures ok { OnOk result (Appends (W.contents writer.old) (W.contents writer.new) text.now) }
    ensures fault { IfErr result (λ fault. (fault ≡ WriteFailed)
        × Wrote (W.contents writer.old) (W.contents writer.new)
        (λ written. IsBeginning written text.now)) }
{
    write_text(writer, text)?;
    Ok(())
}

/// What is told of the door that the bytes of the file at a path hold. Nothing is written yet.
fn report_on(alloc: Global, path: &str, bytes: &[u8]) -> Result<DoorReport, AllocError>
    ensures { IfOk result (λ report. IsReport bytes.now report.text.items report.valid) }
{
    match Door::read_bytes(alloc, bytes) {
        Ok(door) => Ok(DoorReport {
            text: door_lines(alloc, &door)?,
            valid: true,
            detail: Detail::none(),
        }),
        Err(DoorFault::Memory) => Err(AllocError),
        Err(fault) => Ok(DoorReport {
            text: fault_line(alloc, &fault)?,
            valid: false,
            detail: door_detail(alloc, path, bytes, &fault),
        }),
    }
}

/// The line of a fault.
fn fault_line(alloc: Global, fault: &DoorFault) -> Result<Vec<u8>, AllocError>
    ensures { IfOk result (λ text. text.items ≡ printed_fault fault.now ++ codes "\n") }
{
    let line = format!(in alloc; "{fault}\n")?;
    Ok(line.into_bytes())
}

/// The status of a check: 0 for a door, else 1.
fn status_of(valid: bool) -> ExitCode
    ensures { exit_status result ≡ status_of valid }
{
    if valid {
        ExitCode::SUCCESS
    } else {
        ExitCode::FAILURE
    }
}
