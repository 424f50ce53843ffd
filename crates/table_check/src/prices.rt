//! Prices that are valid and may not be meant: pounds for pence, and caps below a fare that they
//! cover.

use crate::tree::{text_in, whole_at, whole_in};
use fare_table::Key;
use std::alloc::{AllocError, Global};
use std::fmt;
use toml::{Table, Value};
use toml_reading::items_at;

/// A price that is lower is rather one in pounds.
const LEAST_PENCE: i64 = 10;

/// The keys of prices of the table itself.
const MAXIMA: [Key; 2] = [Key::MaximumPeak, Key::MaximumOffPeak];

/// The lists whose rows have prices, and the keys of these.
const PRICES: [(Key, Key); 5] = [
    (Key::Single, Key::SinglePeak),
    (Key::Single, Key::SingleOffPeak),
    (Key::Pair, Key::PairPeak),
    (Key::Pair, Key::PairOffPeak),
    (Key::Cap, Key::CapPrice),
];

/// A cap that is below a single fare which it covers. It prints as a note on it.
#[derive(Clone, Copy, Debug, PartialEq, Eq)]
pub struct LowCap {
    /// The cap's row, from 1.
    pub row: usize,
    /// Its price, in pence.
    pub price: i64,
    /// The row of the first such single fare, from 1.
    pub single: usize,
    /// What that costs, in pence.
    pub fare: i64,
}

impl fmt::Display for LowCap {
    fn fmt<W: fmt::Write>(&self, f: &mut fmt::Formatter<W>) -> fmt::Result {
        let (row, price, single, fare) = (self.row, self.price, self.single, self.fare);
        write!(
            f,
            "note: cap.price in row {row} is {price}, below the {fare} "
        )?;
        write!(f, "of the single in row {single}")
    }
}

/// Whether all prices of a table are so low that they may be pounds: no maximum, fare or cap has
/// ten pence, and there is a maximum.
pub fn are_pounds(tree: &Table) -> bool {
    let has_maximum = whole_at(tree, Key::MaximumPeak).is_some();
    let are_maxima_low = MAXIMA.iter().all(|key| whole_at(tree, *key).is_none_or(|price| price
        < LEAST_PENCE));
    has_maximum && are_maxima_low && PRICES.iter().all(|(list, key)| are_low(tree, *list, *key))
}

/// Whether no row of a list has a price of ten pence at a key.
fn are_low(tree: &Table, list: Key, key: Key) -> bool {
    items_at(tree, list.text()).iter().all(|row| whole_in(row, key).is_none_or(|price| price
        < LEAST_PENCE))
}

/// The caps that are below a single fare which they cover, row by row.
pub fn low_caps(alloc: Global, tree: &Table) -> Result<Vec<LowCap>, AllocError> {
    let mut low = Vec::new(alloc);
    for (place, cap) in items_at(tree, Key::Cap.text()).iter().enumerate() {
        if let Some(found) = low_cap(tree, place.saturating_add(1), cap) {
            low.push(found)?;
        }
    }
    Ok(low)
}

/// The cap in this row, where it is below a single fare which it covers.
fn low_cap(tree: &Table, row: usize, cap: &Value) -> Option<LowCap> {
    let price = whole_in(cap, Key::CapPrice)?;
    for (place, single) in items_at(tree, Key::Single.text()).iter().enumerate() {
        if let Some(fare) = covered_fare(cap, single) {
            if price < fare {
                let single = place.saturating_add(1);
                return Some(LowCap {
                    row,
                    price,
                    single,
                    fare,
                });
            }
        }
    }
    None
}

/// What a single fare costs that a cap covers: in the peak windows, or outside of them where the
/// cap covers off-peak journeys alone.
fn covered_fare(cap: &Value, single: &Value) -> Option<i64> {
    let is_covered = whole_in(cap, Key::CapLo)? <= whole_in(single, Key::SingleLow)?
        && whole_in(single, Key::SingleHigh)? <= whole_in(cap, Key::CapHi)?;
    let key = match text_in(cap, Key::CapKind) {
        "off-peak" => Key::SingleOffPeak,
        _ => Key::SinglePeak,
    };
    if is_covered {
        whole_in(single, key)
    } else {
        None
    }
}
