//! Rows of a table by what they name: stations, zones, and what others name as well.

use crate::places::Wanted;
use crate::tree::{row_at, text_in, whole_in};
use fare_table::Key;
use toml::{Table, Value};
use toml_reading::items_at;

/// The lists whose rows name two stations.
const OF_TWO: [Key; 2] = [Key::Pair, Key::Interchange];

/// The keys that name a row of this list: no two rows have the same there. A row of another key is
/// named by none.
pub fn naming_keys(list: Key) -> &'static [Key] {
    match list {
        Key::Station => &[Key::StationId],
        Key::Single => &[Key::SingleLow, Key::SingleHigh],
        Key::Pair => &[Key::PairFrom, Key::PairTo],
        Key::Cap => &[Key::CapLo, Key::CapHi, Key::CapKind],
        Key::Interchange => &[Key::InterchangeA, Key::InterchangeB],
        _ => &[],
    }
}

/// The first pair, or else the first interchange, that names this station, by the key that names
/// it.
pub fn naming(tree: &Table, station: i64) -> Option<Wanted> {
    for list in OF_TWO {
        for (place, row) in items_at(tree, list.text()).iter().enumerate() {
            for key in naming_keys(list) {
                if whole_in(row, *key) == Some(station) {
                    let row = place.saturating_add(1);
                    return Some(Wanted::Cell(list.text(), row, key.text()));
                }
            }
        }
    }
    None
}

/// The first row of a list, from 1, that names what the row of this number names.
pub fn row_before(tree: &Table, list: Key, row: usize) -> Option<usize> {
    let later = row_at(tree, list.text(), row)?;
    for (place, earlier) in items_at(tree, list.text()).iter().enumerate() {
        let number = place.saturating_add(1);
        if number < row && name_the_same(list, earlier, later) {
            return Some(number);
        }
    }
    None
}

/// Whether a pair names these two stations, in either order.
pub fn has_pair(tree: &Table, from: i64, to: i64) -> bool {
    items_at(tree, Key::Pair.text()).iter().any(|row| {
        let (one, other) = (whole_in(row, Key::PairFrom), whole_in(row, Key::PairTo));
        (one == Some(from) && other == Some(to)) || (one == Some(to) && other == Some(from))
    })
}

/// Whether two rows of a list name the same: a station its number, a single fare its zones, a pair
/// and an interchange their stations in either order, and a cap its zones and its kind.
fn name_the_same(list: Key, one: &Value, other: &Value) -> bool {
    match naming_keys(list) {
        [] => false,
        [from, to] if OF_TWO.contains(&list) => are_ends_same(one, other, *from, *to),
        keys => keys.iter().all(|key| are_same(one, other, *key)),
    }
}

/// Whether two rows have the same whole number and the same text at a key.
fn are_same(one: &Value, other: &Value, key: Key) -> bool {
    whole_in(one, key) == whole_in(other, key) && text_in(one, key) == text_in(other, key)
}

/// Whether two rows have the same two whole numbers at two keys, in either order.
fn are_ends_same(one: &Value, other: &Value, from: Key, to: Key) -> bool {
    let (start, end) = (whole_in(one, from), whole_in(one, to));
    let (from, to) = (whole_in(other, from), whole_in(other, to));
    (start == from && end == to) || (start == to && end == from)
}
