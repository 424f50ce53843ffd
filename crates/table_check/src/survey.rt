//! The survey of a text that may be a fare table.

ghost use Rattle.std.specs.Prelude.{IfOk};
ghost use Rattle.toml.specs.View.{table_view};
ghost use Rattle.table_check.specs.Survey.{CountsRows};

use crate::misread::line_behind;
use crate::pieces::Piece;
use crate::places::first_heading;
use crate::prices::{LowCap, are_pounds, low_caps};
use crate::tree::count_at;
use crate::unknown::{Unknown, unknown_keys};
use fare_table::Key;
use std::alloc::{AllocError, Global};
use toml::Table;

/// What there is to tell of a TOML document beside what a report has.
#[derive(Debug)]
pub struct Survey {
    /// The keys that aren't known.
    pub unknown: Vec<Unknown>,
    /// How many rows the list of pairs has.
    pub pairs: usize,
    /// How many rows the list of interchanges has.
    pub interchanges: usize,
    /// How many holidays there are.
    pub holidays: usize,
    /// The first heading in brackets, by its line, where there is one.
    pub first_heading: Option<usize>,
    /// The caps that are below a single fare.
    pub low_caps: Vec<LowCap>,
    /// Whether all prices are so low that they may be pounds.
    pub are_pounds: bool,
}

/// By hand, so that it is one call wherever one is dropped.
impl Drop for Survey {
    fn drop(self) {
        let Survey {
            unknown: _,
            pairs: _,
            interchanges: _,
            holidays: _,
            first_heading: _,
            low_caps: _,
            are_pounds: _,
        } = self;
    }
}

/// What there is to tell of a document of this tree, whose text has these pieces.
pub fn survey_of(
    alloc: Global,
    bytes: &[u8],
    tree: &Table,
    pieces: &[Piece<'_>],
) -> Result<Survey, AllocError>
    ensures { IfOk result (CountsRows (table_view tree.now)) }
{
    Ok(Survey {
        unknown: unknown_keys(alloc, tree)?,
        pairs: count_at(tree, Key::Pair.text()),
        interchanges: count_at(tree, Key::Interchange.text()),
        holidays: count_at(tree, Key::Holidays.text()),
        first_heading: heading_line(bytes, pieces),
        low_caps: low_caps(alloc, tree)?,
        are_pounds: are_pounds(tree),
    })
}

/// The line of the first heading in brackets.
fn heading_line(bytes: &[u8], pieces: &[Piece<'_>]) -> Option<usize> {
    let place = first_heading(pieces);
    place.map(|place| line_behind(bytes.get(..place).unwrap_or(&[])))
}
