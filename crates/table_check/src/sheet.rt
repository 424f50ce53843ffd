//! A text that is a TOML document, to be asked what stands where.

ghost use Rattle.std.specs.Prelude.{◌≡◌, Some, IfOk, IfErr, IfSome, option_map};
ghost use Rattle.toml.specs.View.{view, table_view};
ghost use Rattle.table_check.specs.Found.{value_in, IsLineOf};
ghost use Rattle.table_check.specs.Survey.{document_in, CountsRows, HasNoSurvey, IsSurveyOf};

use crate::above::{Above, first_above};
use crate::document::{SurveyFault, tree_of};
use crate::misread::line_behind;
use crate::pieces::{Piece, pieces_of};
use crate::places::{Wanted, place_of};
use crate::reading::{Said, reading_of};
use crate::rows::{has_pair, naming, row_before};
use crate::survey::{Survey, survey_of};
use crate::tree::{member_in, row_at};
use fare_table::Key;
use std::alloc::{AllocError, Global};
use toml::{Table, Value};
use toml_reading::value_at;

/// A text that is a TOML document, to be asked what stands where. It needn't be a valid fare table.
pub struct Sheet<'a> {
    bytes: &'a [u8],
    tree: Table,
    pieces: Vec<Piece<'a>>,
}

/// By hand, so that it is one call wherever one is dropped.
impl<'a> Drop for Sheet<'a> {
    fn drop(self) {
        let Sheet {
            bytes: _,
            tree: _,
            pieces: _,
        } = self;
    }
}

impl<'a> Sheet<'a> {
    /// The document that these bytes are.
    ///
    /// `Misread` comes where they are none, and `Memory` says nothing of them.
    pub fn read(alloc: Global, bytes: &'a [u8]) -> Result<Sheet<'a>, SurveyFault>
        ensures bytes { IfOk result (λ sheet. sheet.bytes.now ≡ bytes.now) }
        ensures ok { IfOk result (λ sheet. document_in bytes.now ≡ Some (table_view sheet.tree)) }
        ensures fault { IfErr result (HasNoSurvey bytes.now) }
    {
        let tree = tree_of(alloc, bytes)?;
        let pieces = pieces_of(alloc, bytes)?;
        Ok(Sheet {
            bytes,
            tree,
            pieces,
        })
    }

    /// What there is to tell of the document beside what a report has. An `Err` is want of memory.
    pub fn survey(&self, alloc: Global) -> Result<Survey, AllocError>
        ensures { IfOk result (CountsRows (table_view self.now.tree)) }
    {
        survey_of(alloc, self.bytes, &self.tree, self.pieces.as_slice())
    }

    /// The line, from 1, in which a key or a row stands, where it is in the text. A key in quotes
    /// with escapes isn't found.
    pub fn line_of(&self, wanted: Wanted) -> Option<usize>
        ensures { IfSome result (IsLineOf self.now.bytes.now) }
    {
        match place_of(self.pieces.as_slice(), wanted) {
            Some(at) => Some(self.line_at(at)),
            None => None,
        }
    }

    /// The line of the place behind this many bytes.
    fn line_at(&self, at: usize) -> usize
        ensures { IsLineOf self.now.bytes.now result }
    {
        match self.bytes.get(..at) {
            Some(before) => line_behind(before),
            None => 1,
        }
    }

    /// The value of a key, or the row, where it is there.
    pub fn value_of(&self, wanted: Wanted) -> Option<&Value>
        ensures { option_map (λ value. view value.now) result
            ≡ value_in wanted (table_view self.now.tree) }
    {
        match wanted {
            Wanted::Key(key) => value_at(&self.tree, key),
            Wanted::Row(list, row) => row_at(&self.tree, list, row),
            Wanted::Cell(list, row, key) => match row_at(&self.tree, list, row) {
                Some(row) => member_in(row, key),
                None => None,
            },
        }
    }

    /// The first price above its maximum: the off-peak maximum, then the single fares row by row,
    /// then the pairs.
    pub fn above(&self) -> Option<Above> {
        first_above(&self.tree)
    }

    /// The first pair, or else the first interchange, that names this station, by the key that
    /// names it.
    pub fn naming(&self, station: u16) -> Option<Wanted> {
        naming(&self.tree, i64::from(station))
    }

    /// What the table says at each place, in the order of TABLE.md: its own keys, its rows and
    /// its holidays. Keys that nobody knows aren't read. An `Err` is want of memory.
    pub fn reading(&self, alloc: Global) -> Result<Vec<Said>, AllocError> {
        reading_of(alloc, &self.tree)
    }

    /// Whether a pair names these two stations, in either order.
    pub fn has_pair(&self, from: u16, to: u16) -> bool {
        has_pair(&self.tree, i64::from(from), i64::from(to))
    }

    /// The first row of a list that names what a later one names.
    pub fn row_before(&self, list: Key, row: usize) -> Option<usize> {
        row_before(&self.tree, list, row)
    }
}

/// Looks a text over, which needn't be a valid fare table: the document that it is, and what there
/// is to tell of it.
///
/// `Misread` comes where it is no TOML document, and `Memory` says nothing of it.
pub fn look_over<'a>(alloc: Global, bytes: &'a [u8]) -> Result<(Sheet<'a>, Survey), SurveyFault>
    ensures ok { IfOk result (λ found. IsSurveyOf bytes.now found.1) }
    ensures fault { IfErr result (HasNoSurvey bytes.now) }
{
    let sheet = Sheet::read(alloc, bytes)?;
    let survey = sheet.survey(alloc)?;
    Ok((sheet, survey))
}
