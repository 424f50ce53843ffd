//! The command `check`: a table's report, and notes on standard error on what is beside it.

ghost use Rattle.std.specs.Prelude.{◌≡◌, ◌⊎◌, ◌&&◌, not, IfOk, IfErr, if◌then◌else◌};
ghost use Rattle.std.specs.Process.{exit_status};
ghost use Rattle.text_io.specs.Writing.{Wrote};
ghost use Rattle.text_io.specs.declared.fault.RunFault.TheVariants.{Memory};
ghost use Rattle.table_check.specs.Check.{report_of};
ghost use Rattle.console.specs.Files.{ForFile, IsFileFault};
ghost use Rattle.table_check.specs.Reported.{IsReported, IsUnreported};

use crate::check::report_table;
use crate::document::SurveyFault;
use crate::sheet::{Sheet, look_over};
use crate::survey::Survey;
use crate::tables::sheet_detail;
use crate::unknown::Unknown;
use console::{Detail, TrialFault, WholeFiles};
use fare_table::TableFault;
use std::alloc::Global;
use std::io::Write;
use std::process::ExitCode;
use text_io::RunFault;

/// What is told of a table beside its report.
struct Notes {
    /// What is told of its fault beside the fault's line.
    detail: Detail,
    /// What a survey of its text has found: nothing where it is no document.
    survey: Option<Survey>,
}

/// By hand, so that it is one call wherever one is dropped.
impl Drop for Notes {
    fn drop(self) {
        let Notes {
            detail: _,
            survey: _,
        } = self;
    }
}

/// Checks the fare table in a file, and writes what it is. Standard error is told which keys aren't
/// known, which prices may not be meant, which rows a valid table has beside those of its report,
/// and where a refused one is bad, with what may stand there. What it doesn't take is lost.
///
/// The status is 0 for a valid table, else 1; where notes count, it is 1 for a valid table with
/// notes as well. The file is read to its end, and the memory for all notes is there, before
/// anything is written. A fault is that of the file, want of memory, or a failed write.
pub fn check_file<R: AllocGlobal + Eprint, F: WholeFiles, W: Write>(
    rt: &R,
    files: &F,
    path: &str,
    notes_count: bool,
    writer: &mut W,
) -> Result<ExitCode, TrialFault>
    ensures ok { IfOk result (λ status. ForFile (F.gave files.now) path.now (λ bytes.
        Wrote (W.contents writer.old) (W.contents writer.new)
        (λ text. IsReported (report_of bytes) notes_count text (exit_status status)))) }
    ensures fault { IfErr result (λ fault. (IsFileFault fault × (writer.new ≡ writer.old))
        ⊎ ForFile (F.gave files.now) path.now (λ bytes.
        Wrote (W.contents writer.old) (W.contents writer.new)
        (λ text. IsUnreported (report_of bytes) text fault))) }
{
    let alloc = rt.alloc();
    let bytes = files.bytes_in(alloc, path)?;
    let report = report_table(alloc, &bytes)?;
    let notes = notes_on(alloc, path, &bytes, report.fault())?;
    let noted = has_notes(&notes);
    let is_valid = report.write(writer)?;
    tell_notes(rt, &notes, is_valid);
    Ok(status_of(is_valid, notes_count && noted))
}

/// What there is to note of the table in the file at a path, which has this first fault or none. An
/// `Err` is want of memory.
fn notes_on(
    alloc: Global,
    path: &str,
    bytes: &[u8],
    fault: Option<TableFault>,
) -> Result<Notes, RunFault>
    ensures { IfErr result (λ fault. fault ≡ Memory) }
{
    match look_over(alloc, bytes) {
        Ok((sheet, survey)) => Ok(Notes {
            detail: detail_in(alloc, path, &sheet, fault),
            survey: Some(survey),
        }),
        Err(SurveyFault::Misread(misread)) => Ok(Notes {
            detail: Detail::of(alloc, path, &misread),
            survey: None,
        }),
        Err(SurveyFault::Memory) => Err(RunFault::Memory),
    }
}

/// What is told of a table's fault beside its line: nothing of a valid table.
fn detail_in(alloc: Global, path: &str, sheet: &Sheet<'_>, fault: Option<TableFault>) -> Detail {
    match fault {
        Some(fault) => sheet_detail(alloc, path, sheet, fault),
        None => Detail::none(),
    }
}

/// Whether there is a note on a text.
fn has_notes(notes: &Notes) -> bool {
    match &notes.survey {
        Some(survey) => {
            survey.are_pounds || !survey.unknown.is_empty() || !survey.low_caps.is_empty()
        }
        None => false,
    }
}

/// The status of a check: 0 for a valid table that isn't refused for its notes, else 1.
fn status_of(is_valid: bool, is_refused: bool) -> ExitCode
    ensures { exit_status result ≡ (if is_valid && not is_refused then 0 else 1) }
{
    if is_valid && !is_refused {
        ExitCode::SUCCESS
    } else {
        ExitCode::FAILURE
    }
}

/// Tells what was found in a table's text.
fn tell_notes<R: Eprint>(rt: &R, notes: &Notes, is_valid: bool) {
    if let Some(line) = notes.detail.line() {
        let _ = rt.eprintln(line);
    }
    if let Some(survey) = &notes.survey {
        tell_unknown(rt, survey);
        if is_valid {
            tell_prices(rt, survey);
            tell_rows(rt, survey);
        }
    }
}

/// Tells which keys aren't known.
fn tell_unknown<R: Eprint>(rt: &R, survey: &Survey) {
    for unknown in &survey.unknown {
        tell_key(rt, unknown, survey.first_heading);
    }
}

/// Tells of a key that isn't known, or that belongs above the heading in this line.
fn tell_key<R: Eprint>(rt: &R, unknown: &Unknown, first_heading: Option<usize>) {
    match first_heading {
        Some(line) if unknown.is_misplaced() => {
            let key = unknown.key.as_str();
            let _ = eprintln!(rt; "note: {key} belongs above the first [[..]], line {line}");
        }
        _ => {
            let _ = rt.eprintln(unknown);
        }
    }
}

/// Tells which prices may not be meant.
fn tell_prices<R: Eprint>(rt: &R, survey: &Survey) {
    if survey.are_pounds {
        let _ = rt.eprintln("note: all prices are below 10 pence; are they meant as pounds?");
    }
    for cap in &survey.low_caps {
        let _ = rt.eprintln(cap);
    }
}

/// Tells how many rows a table has that its report doesn't tell.
fn tell_rows<R: Eprint>(rt: &R, survey: &Survey) {
    let (pairs, interchanges, holidays) = (survey.pairs, survey.interchanges, survey.holidays);
    let _ = eprintln!(rt; "pairs {pairs}");
    let _ = eprintln!(rt; "interchanges {interchanges}");
    let _ = eprintln!(rt; "holidays {holidays}");
}
