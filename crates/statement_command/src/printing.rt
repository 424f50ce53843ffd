//! The lines of a statement in one of the formats.

ghost use Rattle.std.specs.Prelude.{◌≡◌, IfOk};
ghost use Rattle.statement_command.specs.Csv.{csv_text};
ghost use Rattle.statement_command.specs.Card.{IsPrinted};

use crate::csv::put_csv;
use crate::json::{begins_list, put_json};
use crate::line::Line;
use crate::put::Printed;
use crate::text::put_text;
use command_line::StatementFormat;
use fare_schedule::Schedule;
use std::alloc::{AllocError, Global};

/// What these lines print in a format.
pub(crate) fn printed(
    alloc: Global,
    schedule: &Schedule,
    format: StatementFormat,
    lines: &[Line],
) -> Result<Vec<u8>, AllocError>
    ensures { IfOk result (λ text. IsPrinted format lines.now text.items) }
{
    match format {
        StatementFormat::Text => text_of(alloc, schedule, lines),
        StatementFormat::Csv => csv_of(alloc, lines),
        StatementFormat::Json => json_of(alloc, schedule, lines),
    }
}

/// The lines as comma-separated values.
fn csv_of(alloc: Global, lines: &[Line]) -> Result<Vec<u8>, AllocError>
    ensures { IfOk result (λ text. text.items ≡ csv_text lines.now) }
{
    let mut out = Printed::new(alloc);
    for line in lines {
        put_csv(alloc, &mut out, line)?;
    }
    Ok(out.into_text())
}

/// The lines as text.
fn text_of(alloc: Global, schedule: &Schedule, lines: &[Line]) -> Result<Vec<u8>, AllocError> {
    let mut out = Printed::new(alloc);
    for line in lines {
        put_text(alloc, schedule, &mut out, line)?;
    }
    Ok(out.into_text())
}

/// The lines as a JSON object.
fn json_of(alloc: Global, schedule: &Schedule, lines: &[Line]) -> Result<Vec<u8>, AllocError> {
    let mut out = Printed::new(alloc);
    let mut is_first = true;
    for line in lines {
        put_json(alloc, schedule, &mut out, is_first, line)?;
        is_first = begins_list(line);
    }
    Ok(out.into_text())
}
