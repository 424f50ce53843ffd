//! The command `check --fare`: what a journey costs by a table, and why.

ghost use Rattle.std.specs.Prelude.{◌≡◌, ◌⊎◌, IfOk, IfErr, OnOk, string_bytes};
ghost use Rattle.std.specs.Io.KnownBytes.{Appends};
ghost use Rattle.std.specs.Process.{exit_status};
ghost use Rattle.text_io.specs.Writing.{Wrote};
ghost use Rattle.text_io.specs.declared.fault.RunFault.TheVariants.{Write as WriteFailed};
ghost use Rattle.fare_table.specs.Fares.{content_of};
ghost use Rattle.table_check.specs.Fare.{IsQuoteOf};
ghost use Rattle.table_check.specs.Journey.{IsFareText, IsUnknown};
ghost use Rattle.console.specs.Files.{ForFile};
ghost use Rattle.console.specs.declared.fault.TrialFault.TheVariants.{Run};

use crate::document::SurveyFault;
use crate::fare::{Quote, cost_of};
use crate::sheet::Sheet;
use crate::tables::table_of;
use command_line::Journey;
use console::{TrialFault, WholeFiles};
use fare_table::Fares;
use std::alloc::Global;
use std::io::Write;
use std::process::ExitCode;
use text_io::{RunFault, write_text};

/// Writes what a journey costs by the fare table in a file, and why. The status is 0.
///
/// A fault is that of the file, `Table`, `Station` for a station that the table hasn't, want of
/// memory, or a failed write. Before any other fault than that nothing was written.
pub fn tell_fare<F: WholeFiles, W: Write>(
    alloc: Global,
    files: &F,
    path: &str,
    journey: Journey,
    writer: &mut W,
) -> Result<ExitCode, TrialFault>
    ensures ok { OnOk result (ForFile (F.gave files.now) path.now (λ bytes.
        Wrote (W.contents writer.old) (W.contents writer.new) (IsFareText bytes journey))) }
    ensures status { IfOk result (λ status. exit_status status ≡ 0) }
    ensures kept { IfErr result (λ fault. (fault ≡ Run WriteFailed) ⊎ (writer.new ≡ writer.old)) }
{
    let bytes = files.bytes_in(alloc, path)?;
    let text = fare_text(alloc, path, &bytes, journey)?;
    write_lines(writer, text.as_str())?;
    Ok(ExitCode::SUCCESS)
}

/// Writes the lines of a command. The fault is that of the writing.
pub(crate) fn write_lines<W: Write>(writer: &mut W, text: &str) -> Result<(), RunFault>
    ensures ok { OnOk result (Appends (W.contents writer.old) (W.contents writer.new) text.now) }
    ensures fault { IfErr result (λ fault. fault ≡ WriteFailed) }
{
    write_text(writer, text.as_bytes())?;
    Ok(())
}

/// The lines of what a journey costs by the table that the bytes of the file at a path are.
fn fare_text(
    alloc: Global,
    path: &str,
    bytes: &[u8],
    journey: Journey,
) -> Result<String, TrialFault>
    ensures { IfOk result (λ text. IsFareText bytes.now journey (string_bytes text)) }
{
    let fares = table_of(alloc, path, bytes)?;
    let is_named = names_pair(alloc, bytes, journey)?;
    let quote = quote_of(&fares, is_named, journey)?;
    Ok(format!(in alloc; "{quote}")?)
}

/// What a journey costs by a table. A fault is that of a station which the table hasn't.
fn quote_of(fares: &Fares, is_named: bool, journey: Journey) -> Result<Quote, TrialFault>
    ensures ok { IfOk result
        (IsQuoteOf (content_of fares.now) journey.from journey.to journey.moment) }
    ensures unknown { IfErr result (IsUnknown (content_of fares.now) journey) }
{
    match cost_of(fares, is_named, journey.from, journey.to, journey.moment) {
        Ok(quote) => Ok(quote),
        Err(unknown) => Err(TrialFault::Station(unknown.station)),
    }
}

/// Whether a named pair of a valid table's text gives the fare of a journey. An `Err` is want of
/// memory.
fn names_pair(alloc: Global, bytes: &[u8], journey: Journey) -> Result<bool, RunFault> {
    match Sheet::read(alloc, bytes) {
        Ok(sheet) => Ok(sheet.has_pair(journey.from, journey.to)),
        Err(SurveyFault::Misread(_)) => Ok(false),
        Err(SurveyFault::Memory) => Err(RunFault::Memory),
    }
}
