//! Keys that aren't known, and those that were meant by them.

use fare_table::{Key, LISTS, TOP_KEYS};
use std::alloc::{AllocError, Global};
use std::fmt;
use strsim::osa_distance;
use toml::{Table, Value};
use toml_reading::items_at;

/// How many letters a key has at least of which two may be wrong. Of a shorter one it is one.
const LONG: usize = 7;

/// A key that isn't known, and so is ignored. It prints as a note on it.
#[derive(Debug, PartialEq, Eq, Drop)]
pub struct Unknown {
    /// The list in whose row it stands. A key of the table itself has none.
    pub list: Option<Key>,
    /// The row, from 1, and 0 of the table itself.
    pub row: usize,
    /// The key.
    pub key: String,
    /// The known key that it is near to.
    pub meant: Option<Key>,
}

impl Unknown {
    /// Whether it is a key of the table itself that stands in a row: TOML takes it for one of the
    /// heading above it.
    pub fn is_misplaced(&self) -> bool {
        self.list.is_some() && is_among(self.key.as_str(), &TOP_KEYS)
    }
}

impl fmt::Display for Unknown {
    fn fmt<W: fmt::Write>(&self, f: &mut fmt::Formatter<W>) -> fmt::Result {
        let (key, row) = (self.key.escape_debug(), self.row);
        match self.list {
            Some(list) => {
                let list = list.text();
                write!(f, "note: {list}.{key} in row {row} isn't known")?;
            }
            None => write!(f, "note: {key} isn't known")?,
        }
        match self.meant {
            Some(meant) => {
                let meant = meant.text();
                write!(f, "; is {meant} meant?")
            }
            None => Ok(()),
        }
    }
}

/// The keys of a table that aren't known: first its own, then list by list those of its rows. Those
/// of one row are in the order of their texts.
pub fn unknown_keys(alloc: Global, tree: &Table) -> Result<Vec<Unknown>, AllocError> {
    let mut unknown = Vec::new(alloc);
    look_at(alloc, tree, None, 0, &mut unknown)?;
    for list in LISTS {
        // A holiday has no keys.
        if !list.keys().is_empty() {
            look_at_rows(alloc, list, items_at(tree, list.text()), &mut unknown)?;
        }
    }
    Ok(unknown)
}

/// Adds the unknown keys of a list's rows.
fn look_at_rows(
    alloc: Global,
    list: Key,
    rows: &[Value],
    unknown: &mut Vec<Unknown>,
) -> Result<(), AllocError> {
    for (place, row) in rows.iter().enumerate() {
        if let Value::Table(keys) = row {
            look_at(alloc, keys, Some(list), place.saturating_add(1), unknown)?;
        }
    }
    Ok(())
}

/// Adds the unknown keys of a table, which is a list's row or none.
fn look_at(
    alloc: Global,
    table: &Table,
    list: Option<Key>,
    row: usize,
    unknown: &mut Vec<Unknown>,
) -> Result<(), AllocError> {
    let known: &[Key] = match list {
        Some(list) => list.keys(),
        None => &TOP_KEYS,
    };
    for key in table.keys() {
        let key = key.as_str();
        if !is_among(key, known) {
            unknown.push(Unknown {
                list,
                row,
                key: String::from_str(alloc, key)?,
                meant: nearest(alloc, key, known)?,
            })?;
        }
    }
    Ok(())
}

/// Whether the key is one of these.
fn is_among(key: &str, known: &[Key]) -> bool {
    known.iter().any(|known| known.text() == key)
}

/// Of these keys the first that is nearest to a text, where one is near.
fn nearest(alloc: Global, text: &str, known: &[Key]) -> Result<Option<Key>, AllocError> {
    let mut best = None;
    let mut least = usize::MAX;
    for key in known {
        let name = key.text();
        let distance = osa_distance(alloc, text, name)?;
        if distance < least && is_near(text, name, distance) {
            best = Some(*key);
            least = distance;
        }
    }
    Ok(best)
}

/// Whether a known key may be meant by a text that is so many edits away: few letters are wrong,
/// and not all of them, or one of the two begins with the other.
fn is_near(text: &str, name: &str, distance: usize) -> bool {
    let allowed = if name.len() < LONG { 1 } else { 2 };
    (distance <= allowed && distance < name.len())
        || is_beginning(name, text)
        || is_beginning(text, name)
}

/// Whether a text begins with another one, which has more than one letter.
fn is_beginning(front: &str, text: &str) -> bool {
    front.len() > 1 && text.starts_with(front)
}
