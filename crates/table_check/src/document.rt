//! The TOML document that bytes are.

ghost use Rattle.std.specs.Prelude.{◌≡◌, None, Some, IfOk, IfErr};
ghost use Rattle.toml.specs.View.{table_view};
ghost use Rattle.table_check.specs.declared.document.SurveyFault.TheVariants.{Memory};
ghost use Rattle.table_check.specs.Survey.{document_in, HasNoSurvey};

use crate::misread::Misread;
use console::Detail;
use std::alloc::{AllocError, Global};
use std::str;
use thiserror::Error;
use toml::Table;

/// Why a number with a zero in front is none.
const ZERO_IN_FRONT: &str = "a number may not begin with 0";

/// Why bytes can't be surveyed.
#[derive(Debug, Drop, Error)]
pub enum SurveyFault {
    /// Memory was refused.
    #[error("no memory")]
    Memory,
    /// The bytes are no TOML document.
    #[error("{0}")]
    Misread(Misread),
}

impl SurveyFault {
    /// The second line of a fault of the file at this path, which has no survey: the place at which
    /// its text stops being a document. Without memory it names the file alone.
    pub fn detail(&self, alloc: Global, path: &str) -> Detail {
        match self {
            SurveyFault::Misread(misread) => Detail::of(alloc, path, misread),
            SurveyFault::Memory => Detail::of_file(alloc, path),
        }
    }
}

impl From<AllocError> for SurveyFault {
    ghost from_gives = { λ _ fault. fault ≡ Memory };

    fn from(_error: AllocError) -> SurveyFault {
        SurveyFault::Memory
    }
}

/// The tree that the bytes stand for.
#[tactic(auto, using(crate::proofs::DocumentLemmas::document_facts))]
pub fn tree_of(alloc: Global, bytes: &[u8]) -> Result<Table, SurveyFault>
    ensures ok { IfOk result (λ tree. document_in bytes.now ≡ Some (table_view tree)) }
    ensures fault { IfErr result (HasNoSurvey bytes.now) }
{
    let text = match str::from_utf8(bytes) {
        Ok(text) => text,
        Err(error) => return Err(misread(alloc, bytes, error.valid_up_to(), "not UTF-8")),
    };
    match toml::table_from_str(alloc, text) {
        Ok(tree) => Ok(tree),
        Err(error) => match error.span() {
            Some(span) => Err(misread(alloc, bytes, span.start, error.message())),
            None => Err(SurveyFault::Memory),
        },
    }
}

/// The bytes can't be read on from this place, for this reason.
fn misread(alloc: Global, bytes: &[u8], place: usize, reason: &str) -> SurveyFault
    ensures { document_in bytes.now ≡ None → HasNoSurvey bytes.now result }
{
    let before = bytes.get(..place).unwrap_or(bytes);
    let reason = if begins_with_zero(bytes, before) {
        ZERO_IN_FRONT
    } else {
        reason
    };
    match Misread::behind(alloc, before, reason) {
        Ok(misread) => SurveyFault::Misread(misread),
        Err(_) => SurveyFault::Memory,
    }
}

/// Whether the word that can't be read on from behind these bytes is of digits, with a zero in
/// front.
fn begins_with_zero(bytes: &[u8], before: &[u8]) -> bool {
    let start = match before
        .iter()
        .rposition(|byte| !byte.is_ascii_alphanumeric())
    {
        Some(place) => place.saturating_add(1),
        None => 0,
    };
    matches!(
        bytes.get(start..),
        Some([b'0', b'0'..=b'9', ..]) if !is_date(bytes, start)
    )
}

/// Whether the word that begins here has a hyphen behind four digits, as a date.
fn is_date(bytes: &[u8], start: usize) -> bool {
    bytes.get(start.saturating_add(4)) == Some(&b'-')
}
