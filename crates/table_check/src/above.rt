//! The price that is above its maximum.

use crate::places::Wanted;
use crate::tree::{whole_at, whole_in};
use fare_table::Key;
use std::fmt;
use toml::Table;
use toml_reading::items_at;

/// The lists whose rows have prices, in the order in which they are looked at, and the key of each
/// price with that of its maximum.
const PRICED: [(Key, [(Key, Key); 2]); 2] = [
    (
        Key::Single,
        [
            (Key::SinglePeak, Key::MaximumPeak),
            (Key::SingleOffPeak, Key::MaximumOffPeak),
        ],
    ),
    (
        Key::Pair,
        [
            (Key::PairPeak, Key::MaximumPeak),
            (Key::PairOffPeak, Key::MaximumOffPeak),
        ],
    ),
];

/// A price, or the off-peak maximum, that is above its maximum. It prints as what is allowed.
#[derive(Clone, Copy, Debug, PartialEq, Eq)]
pub struct Above {
    /// Where it stands.
    pub price: Wanted,
    /// The maximum's key.
    pub maximum: &'static str,
    /// The maximum, in pence.
    pub most: i64,
}

impl fmt::Display for Above {
    fn fmt<W: fmt::Write>(&self, f: &mut fmt::Formatter<W>) -> fmt::Result {
        let (maximum, most) = (self.maximum, self.most);
        write!(f, "at most {maximum}, {most}")
    }
}

/// The first price above its maximum: the off-peak maximum, then the single fares row by row, then
/// the pairs.
pub fn first_above(tree: &Table) -> Option<Above> {
    let most = whole_at(tree, Key::MaximumPeak)?;
    if whole_at(tree, Key::MaximumOffPeak)? > most {
        return Some(Above {
            price: Wanted::Key(Key::MaximumOffPeak.text()),
            maximum: Key::MaximumPeak.text(),
            most,
        });
    }
    for (list, prices) in PRICED {
        if let Some(above) = first_in(tree, list.text(), prices) {
            return Some(above);
        }
    }
    None
}

/// The first price above its maximum in a list.
fn first_in(tree: &Table, list: &'static str, prices: [(Key, Key); 2]) -> Option<Above> {
    for (place, row) in items_at(tree, list).iter().enumerate() {
        for (key, maximum) in prices {
            if let (Some(price), Some(most)) = (whole_in(row, key), whole_at(tree, maximum)) {
                if price > most {
                    let price = Wanted::Cell(list, place.saturating_add(1), key.text());
                    return Some(Above {
                        price,
                        maximum: maximum.text(),
                        most,
                    });
                }
            }
        }
    }
    None
}
