//! Where bytes stop being a TOML document, and why.

ghost use Rattle.std.specs.Prelude.{◌≡◌, IfOk};
ghost use Rattle.table_check.specs.Place.{line_behind, column_behind, goes_on};

use std::alloc::{AllocError, Global};
use thiserror::Error;

const LINE_FEED: u8 = b'\n';

/// Why bytes are no TOML document, and the place. It prints as both.
#[derive(Debug, PartialEq, Eq, Drop, Error)]
#[error("line {line}, column {column}: {reason}")]
pub struct Misread {
    /// The line, from 1.
    pub line: usize,
    /// The column in the line, from 1, in characters.
    pub column: usize,
    /// Why what stands there can't stand there.
    pub reason: String,
}

impl Misread {
    /// At the place behind these bytes, for this reason.
    pub(crate) fn behind(alloc: Global, before: &[u8], reason: &str) -> Result<Misread, AllocError>
        ensures { IfOk result (λ misread. misread.line ≡ line_behind before.now) }
    {
        Ok(Misread {
            line: line_behind(before),
            column: column_behind(last_line(before)),
            reason: String::from_str(alloc, reason)?,
        })
    }
}

/// The line of the place behind these bytes, from 1.
pub fn line_behind(before: &[u8]) -> usize
    ensures { result ≡ line_behind before.now }
{
    before.iter().filter(|byte| **byte == LINE_FEED).count() + 1
}

/// What of these bytes stands in their last line.
fn last_line(before: &[u8]) -> &[u8] {
    match before.iter().rposition(|byte| *byte == LINE_FEED) {
        Some(place) => before
            .get(place..)
            .and_then(|rest| rest.get(1..))
            .unwrap_or(&[]),
        None => before,
    }
}

/// The column of the place behind these bytes of its line, from 1, in characters.
fn column_behind(line: &[u8]) -> usize
    ensures { result ≡ column_behind line.now }
{
    line.iter().filter(|byte| !goes_on(**byte)).count() + 1
}

/// Whether a byte of UTF-8 goes on with a character.
fn goes_on(byte: u8) -> bool
    ensures { result ≡ goes_on byte }
{
    0x80 <= byte && byte < 0xc0
}
