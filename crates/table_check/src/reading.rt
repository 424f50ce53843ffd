//! What a fare table says, place by place, in words.

use crate::found::Found;
use crate::rows::naming_keys;
use crate::tree::{member_in, text_in, whole_in};
use fare_table::{Key, LISTS, TOP_KEYS};
use std::alloc::{AllocError, Global};
use toml::{Table, Value};
use toml_reading::{items_at, value_at};

/// What a table says at one place.
#[derive(Debug, PartialEq, Eq, Drop)]
pub struct Said {
    /// The place, in words: a key of the table, or which row it is.
    pub place: String,
    /// What stands there.
    pub value: String,
}

/// What a table says at each place, in the order of TABLE.md: its own keys, its rows and its
/// holidays. Keys that nobody knows aren't read.
pub fn reading_of(alloc: Global, tree: &Table) -> Result<Vec<Said>, AllocError> {
    let mut said = Vec::new(alloc);
    for key in TOP_KEYS {
        match value_at(tree, key.text()) {
            Some(value) if !LISTS.contains(&key) => said.push(said_of(alloc, key.text(), value)?)?,
            _ => {}
        }
    }
    for list in LISTS {
        if list != Key::Holidays {
            for row in items_at(tree, list.text()) {
                said.push(row_said(alloc, list, row)?)?;
            }
        }
    }
    for day in items_at(tree, Key::Holidays.text()) {
        said.push(day_said(alloc, day)?)?;
    }
    Ok(said)
}

/// What stands at a key of the table itself.
fn said_of(alloc: Global, key: &str, value: &Value) -> Result<Said, AllocError> {
    Ok(Said {
        place: format!(in alloc; "{key}")?,
        value: value_text(alloc, value)?,
    })
}

/// What a row says.
fn row_said(alloc: Global, list: Key, row: &Value) -> Result<Said, AllocError> {
    Ok(Said {
        place: row_place(alloc, list, row)?,
        value: row_text(alloc, list, row)?,
    })
}

/// A holiday.
fn day_said(alloc: Global, day: &Value) -> Result<Said, AllocError> {
    let date = match day {
        Value::String(text) => text.as_str(),
        _ => "",
    };
    Ok(Said {
        place: format!(in alloc; "holiday {date}")?,
        value: format!(in alloc; "yes")?,
    })
}

/// Which row of a list it is, in words: by the keys that no two rows of the list share.
fn row_place(alloc: Global, list: Key, row: &Value) -> Result<String, AllocError> {
    match list {
        Key::Station => {
            let id = number(row, Key::StationId);
            format!(in alloc; "station {id}")
        }
        Key::Single => {
            let (low, high) = (number(row, Key::SingleLow), number(row, Key::SingleHigh));
            format!(in alloc; "single of zones {low} to {high}")
        }
        Key::Cap => {
            let (lo, hi) = (number(row, Key::CapLo), number(row, Key::CapHi));
            let kind = text_in(row, Key::CapKind);
            format!(in alloc; "{kind} cap of zones {lo} to {hi}")
        }
        Key::Pair => {
            let (from, to) = (number(row, Key::PairFrom), number(row, Key::PairTo));
            ends_place(alloc, list.text(), from, to)
        }
        _ => {
            let (a, b) = (
                number(row, Key::InterchangeA),
                number(row, Key::InterchangeB),
            );
            ends_place(alloc, list.text(), a, b)
        }
    }
}

/// A row that names two stations, in either order.
fn ends_place(alloc: Global, list: &str, one: i64, other: i64) -> Result<String, AllocError> {
    let (low, high) = (one.min(other), one.max(other));
    format!(in alloc; "{list} of stations {low} and {high}")
}

/// The number at a key of a row, which every valid table has there.
fn number(row: &Value, key: Key) -> i64 {
    whole_in(row, key).unwrap_or(0)
}

/// What a row of a list says: each key that is there, but those that name the row.
fn row_text(alloc: Global, list: Key, row: &Value) -> Result<String, AllocError> {
    let mut text = String::new(alloc);
    for key in list.keys() {
        let name = key.text();
        match member_in(row, name) {
            Some(value) if !naming_keys(list).contains(key) => {
                let before = if text.is_empty() { "" } else { ", " };
                let value = value_text(alloc, value)?;
                text.push_str(&format!(in alloc; "{before}{name} {value}")?)?;
            }
            _ => {}
        }
    }
    Ok(text)
}

/// A value, in one line: of a list each item.
fn value_text(alloc: Global, value: &Value) -> Result<String, AllocError> {
    match value {
        Value::Array(items) => items_text(alloc, items.as_slice()),
        value => {
            let found = Found { value };
            format!(in alloc; "{found}")
        }
    }
}

/// The items of a list, in one line.
fn items_text(alloc: Global, items: &[Value]) -> Result<String, AllocError> {
    let mut text = String::new(alloc);
    for value in items {
        let found = Found { value };
        let before = if text.is_empty() { "" } else { " and " };
        text.push_str(&format!(in alloc; "{before}{found}")?)?;
    }
    Ok(text)
}
