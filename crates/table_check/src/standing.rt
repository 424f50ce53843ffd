//! Where a fault of a fare table stands in its file, what stands there, and what may.

ghost use Rattle.std.specs.Prelude.{◌≡◌, Some, None};
ghost use Rattle.fare_table.specs.Keys.{text_of, shape_of, list_of};
ghost use Rattle.table_check.specs.Allowed.{allowed_by, printed_allowed, list_text};

use crate::found::Found;
use crate::places::Wanted;
use crate::second_line::{PlaceContent, SecondLine};
use crate::sheet::Sheet;
use fare_table::{Key, Shape, TableFault};
use std::fmt;

/// What may stand where a fault of a table is. It prints as it is told.
#[derive(Clone, Copy, PartialEq, Eq)]
pub enum Allowed {
    /// A whole number from the first to the second.
    Whole(u32, u32),
    /// The same, in this order with another key of its row.
    Ordered(u32, u32, &'static str),
    /// A truth value.
    Truth,
    /// A text.
    Text,
    /// A station's name.
    Name,
    /// Which journeys a cap covers.
    Kind,
    /// The zones of a station.
    Zones,
    /// A list of at least and at most so many rows.
    Rows(usize, usize),
    /// A row of a list.
    Table,
    /// What this earlier row doesn't name.
    Unlike(usize),
    /// The number of a station of the table.
    Station,
    /// A single fare between these zones.
    Single(u8, u8),
    /// At most the number of this key, which is this one.
    AtMost(&'static str, i64),
    /// The rule of a clock.
    Rule,
    /// A date.
    Date,
}

/// What TABLE.md says of a key.
#[derive(Clone, Copy)]
struct Entry {
    /// The list whose rows have the key, and no text for a key of the table itself.
    list: &'static str,
    /// The key's text.
    text: &'static str,
    /// What it holds.
    allowed: Allowed,
}

/// The place of a fault in a fare table.
type TablePlace<'a> = SecondLine<PlaceContent<'a>, Allowed>;

/// Where this fault of a table stands. Of want of memory, and of a text that is no table, there is
/// no place.
pub fn place_of<'a>(sheet: &'a Sheet<'_>, fault: TableFault) -> Option<TablePlace<'a>> {
    match fault {
        TableFault::Memory => None,
        TableFault::NotToml => None,
        TableFault::Missing(key, row) => Some(absent(sheet, key, row)),
        TableFault::WrongType(key, row) => {
            let entry = entry_of(key);
            Some(place_at(sheet, wanted_at(&entry, row), typed(&entry, row)))
        }
        TableFault::Range(key, row) => {
            let entry = entry_of(key);
            Some(place_at(sheet, wanted_at(&entry, row), ordered(key, entry.allowed)))
        }
        TableFault::Twice(list, row) => repeated(sheet, list, row),
        TableFault::UnknownStation(id) => {
            Some(place_at(sheet, sheet.naming(id)?, Allowed::Station))
        }
        TableFault::MissingSingle(low, high) => Some(no_single(low, high)),
        TableFault::MaximumTooLow => above(sheet),
        TableFault::BadZone => Some(place_at(sheet, Wanted::Key(Key::Zone.text()), Allowed::Rule)),
        TableFault::BadDate(row) => {
            Some(place_at(sheet, Wanted::Row(Key::Holidays.text(), row), Allowed::Date))
        }
    }
}

/// The place of a key that is absent: that of the row that lacks it, or none.
fn absent<'a>(sheet: &'a Sheet<'_>, key: Key, row: usize) -> TablePlace<'a> {
    let entry = entry_of(key);
    let line = match row {
        0 => None,
        row => sheet.line_of(Wanted::Row(entry.list, row)),
    };
    SecondLine {
        line,
        standing: PlaceContent::Nothing(entry.text),
        allowed: entry.allowed,
    }
}

/// The place of a key or a row, and what stands there.
fn place_at<'a>(sheet: &'a Sheet<'_>, wanted: Wanted, allowed: Allowed) -> TablePlace<'a> {
    let standing = match sheet.value_of(wanted) {
        Some(value) => PlaceContent::Value(Found { value }),
        None => PlaceContent::Nothing("value"),
    };
    SecondLine {
        line: sheet.line_of(wanted),
        standing,
        allowed,
    }
}

/// Where a key stands: in the row of its list, or at the top. A list's own key stands for its row.
fn wanted_at(entry: &Entry, row: usize) -> Wanted {
    match (entry.list, row) {
        ("", 0) => Wanted::Key(entry.text),
        ("", row) => Wanted::Row(entry.text, row),
        (list, row) => Wanted::Cell(list, row, entry.text),
    }
}

/// What may stand at a key, or at a row of a list.
fn typed(entry: &Entry, row: usize) -> Allowed {
    match (entry.list, row) {
        ("", 0) => entry.allowed,
        ("", _) if entry.text == Key::Holidays.text() => Allowed::Date,
        ("", _) => Allowed::Table,
        _ => entry.allowed,
    }
}

/// The place of a row that names what an earlier one names: that of its first key.
fn repeated<'a>(sheet: &'a Sheet<'_>, list: Key, row: usize) -> Option<TablePlace<'a>> {
    let key = list.keys().first()?;
    let earlier = sheet.row_before(list, row)?;
    Some(place_at(
        sheet,
        Wanted::Cell(list.text(), row, key.text()),
        Allowed::Unlike(earlier),
    ))
}

/// No place, for a single fare that isn't there.
fn no_single<'a>(low: u8, high: u8) -> TablePlace<'a> {
    SecondLine {
        line: None,
        standing: PlaceContent::Nothing(Key::Single.text()),
        allowed: Allowed::Single(low, high),
    }
}

/// The place of the first price above its maximum.
fn above<'a>(sheet: &'a Sheet<'_>) -> Option<TablePlace<'a>> {
    let above = sheet.above()?;
    Some(place_at(
        sheet,
        above.price,
        Allowed::AtMost(above.maximum, above.most),
    ))
}

/// What is allowed at a key that is in an order with another one of its row.
fn ordered(key: Key, allowed: Allowed) -> Allowed {
    let order = match key {
        Key::SingleHigh => "not below low",
        Key::PairHi => "not below lo",
        Key::CapHi => "not below lo",
        Key::SingleOffPeak => "not above peak",
        Key::PairOffPeak => "not above peak",
        Key::InterchangeB => "not a",
        _ => return allowed,
    };
    match allowed {
        Allowed::Whole(low, high) => Allowed::Ordered(low, high, order),
        allowed => allowed,
    }
}

/// What TABLE.md says of a key.
fn entry_of(key: Key) -> Entry
    ensures list { result.list.now ≡ list_text (list_of key) }
    ensures text { result.text.now ≡ text_of key }
    ensures allowed { result.allowed ≡ allowed_by (shape_of key) }
{
    Entry {
        list: list_word(key),
        text: key.text(),
        allowed: allowed_at(key.shape()),
    }
}

/// The text of the list whose rows have a key, and none for a key of the table itself.
fn list_word(key: Key) -> &'static str
    ensures { result.now ≡ list_text (list_of key) }
{
    match key.list() {
        Some(list) => list.text(),
        None => "",
    }
}

/// What a key of this shape may hold.
fn allowed_at(shape: Shape) -> Allowed
    ensures { result ≡ allowed_by shape }
{
    match shape {
        Shape::Whole(highest) => Allowed::Whole(1, highest),
        Shape::Truth => Allowed::Truth,
        Shape::Text => Allowed::Text,
        Shape::Name => Allowed::Name,
        Shape::Kind => Allowed::Kind,
        Shape::Zones => Allowed::Zones,
        Shape::Rows(least, most) => Allowed::Rows(least, most),
    }
}

impl fmt::Display for Allowed {
    ghost output = { λ allowed. Some (printed_allowed allowed) };

    fn fmt<W: fmt::Write>(&self, f: &mut fmt::Formatter<W>) -> fmt::Result {
        match *self {
            Allowed::Whole(low, high) => write!(f, "a whole number from {low} to {high}"),
            Allowed::Ordered(low, high, order) => {
                write!(f, "a whole number from {low} to {high}, {order}")
            }
            Allowed::Truth => f.write_str("true or false"),
            Allowed::Text => f.write_str("a text"),
            Allowed::Name => f.write_str("a text of 1 to 64 bytes"),
            Allowed::Kind => f.write_str("\"anytime\" or \"off-peak\""),
            Allowed::Zones => f.write_str("one zone from 1 to 9, or two in ascending order"),
            Allowed::Rows(least, most) => write!(f, "a list of {least} to {most}"),
            Allowed::Table => f.write_str("a table"),
            Allowed::Unlike(row) => write!(f, "row {row} names the same"),
            Allowed::Station => f.write_str("the number of a station of the table"),
            Allowed::Single(low, high) => write!(f, "one of low {low} and high {high}"),
            Allowed::AtMost(key, most) => write!(f, "at most {key}, {most}"),
            Allowed::Rule => f.write_str("a POSIX TZ rule, as \"GMT0BST,M3.5.0/1,M10.5.0\""),
            Allowed::Date => f.write_str("a date of the calendar, as \"2025-12-25\""),
        }
    }
}
