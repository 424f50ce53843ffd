//! The command `check --against`: what one table changes of another, and whether it may revise it.

ghost use Rattle.std.specs.Prelude.{◌≡◌, ◌⊎◌, ◌++◌, IfOk, IfErr, string_bytes};
ghost use Rattle.std.specs.Process.{exit_status};
ghost use Rattle.text_io.specs.declared.fault.RunFault.TheVariants.{Write as WriteFailed};
ghost use Rattle.table_check.specs.Comparison.{HasCompared, IsJudged, ArePlaces};
ghost use Rattle.table_check.specs.Comparison.{verdict_text, revision_status};
ghost use Rattle.console.specs.declared.fault.TrialFault.TheVariants.{Run};

use crate::changes::changes_of;
use crate::document::SurveyFault;
use crate::journey::write_lines;
use crate::reading::Said;
use crate::sheet::Sheet;
use crate::tables::table_of;
use console::{TrialFault, WholeFiles};
use fare_schedule::{Schedule, SupplyFault};
use fare_table::Fares;
use std::alloc::{AllocError, Global};
use std::io::Write;
use std::process::ExitCode;
use text_io::RunFault;

/// What stands where two tables say the same.
const SAME: &str = "nothing changes\n";

/// What is told of two tables.
#[derive(Drop)]
struct Comparison {
    /// The lines.
    text: String,
    /// Why the second may not revise the first, where it may not.
    fault: Option<SupplyFault>,
}

/// Writes what the fare table in the second file changes of that in the first, a line for each
/// place, and whether it may revise the first. The status is 0 where it may, else 1.
///
/// A fault is that of the first file or its table, then of the second's; want of memory; or a
/// failed write. Before any other fault than that nothing was written.
pub fn tell_changes<F: WholeFiles, W: Write>(
    alloc: Global,
    files: &F,
    old: &str,
    new: &str,
    writer: &mut W,
) -> Result<ExitCode, TrialFault>
    ensures ok { IfOk result (λ status. HasCompared (F.gave files.now) old.now new.now
        (W.contents writer.old) (W.contents writer.new) (exit_status status)) }
    ensures kept { IfErr result (λ fault. (fault ≡ Run WriteFailed) ⊎ (writer.new ≡ writer.old)) }
{
    let before = files.bytes_in(alloc, old)?;
    let first = table_of(alloc, old, &before)?;
    let after = files.bytes_in(alloc, new)?;
    let second = table_of(alloc, new, &after)?;
    let places = places_text(alloc, &before, &after)?;
    let compared = compare(alloc, first, second, places)?;
    write_lines(writer, &compared.text)?;
    Ok(ExitCode::from(revision_status(compared.fault)))
}

/// What is told of two tables that differ at these places.
fn compare(
    alloc: Global,
    first: Fares,
    second: Fares,
    places: String,
) -> Result<Comparison, TrialFault>
    ensures { IfOk result (λ compared. IsJudged first second compared.fault
        × (string_bytes compared.text ≡ string_bytes places ++ verdict_text compared.fault)) }
{
    let fault = revision_fault(alloc, first, second)?;
    let verdict = verdict_text(fault);
    let text = format!(in alloc; "{places}{verdict}")?;
    Ok(Comparison { text, fault })
}

/// The lines of the places at which the tables differ that these bytes are, or that they don't.
fn places_text(alloc: Global, old: &[u8], new: &[u8]) -> Result<String, RunFault>
    ensures { IfOk result (λ text. ArePlaces (string_bytes text)) }
{
    let before = reading_in(alloc, old)?;
    let after = reading_in(alloc, new)?;
    let text = changes_of(alloc, &before, &after)?;
    if text.is_empty() {
        return Ok(String::from_str(alloc, SAME)?);
    }
    Ok(text)
}

/// What a valid table says at each place.
fn reading_in(alloc: Global, bytes: &[u8]) -> Result<Vec<Said>, RunFault> {
    match Sheet::read(alloc, bytes) {
        Ok(sheet) => Ok(sheet.reading(alloc)?),
        Err(SurveyFault::Misread(_)) => Ok(Vec::new(alloc)),
        Err(SurveyFault::Memory) => Err(RunFault::Memory),
    }
}

/// Why fares may not be revised from the first table to the second, by the rule of the schedule
/// that would have both. An `Err` is want of memory.
fn revision_fault(
    alloc: Global,
    first: Fares,
    second: Fares,
) -> Result<Option<SupplyFault>, AllocError>
    ensures { IfOk result (IsJudged first second) }
{
    let mut schedule = Schedule::new(alloc, first)?;
    match schedule.supply(second) {
        Ok(()) => Ok(None),
        Err(SupplyFault::Memory) => Err(AllocError),
        Err(fault) => Ok(Some(fault)),
    }
}

/// The last line: whether the second table may revise the first.
fn verdict_text(fault: Option<SupplyFault>) -> &'static str
    ensures { result.now ≡ verdict_text fault }
{
    match fault {
        None => "may revise\n",
        Some(SupplyFault::Twice) => "may not revise: it is the same table\n",
        Some(SupplyFault::OtherZone) => "may not revise: it has another zone\n",
        Some(SupplyFault::OtherStations) => "may not revise: it has other stations\n",
        Some(SupplyFault::TooMany) => "may not revise: there are too many tables\n",
        Some(SupplyFault::Memory) => "may not revise: there is no memory\n",
    }
}

/// The status of a comparison.
fn revision_status(fault: Option<SupplyFault>) -> u8
    ensures { result ≡ revision_status fault }
{
    match fault {
        None => 0,
        Some(_) => 1,
    }
}
