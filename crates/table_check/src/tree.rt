//! What a key of a table holds, in the tree that a TOML text stands for.

ghost use Rattle.std.specs.Prelude.{◌≡◌, Some, length, map, option_map, slice_get};
ghost use Rattle.toml.specs.View.{view, table_view};
ghost use Rattle.toml_reading.specs.Tree.{items_at};
ghost use Rattle.table_check.specs.Found.{member_in, row_at};

use fare_table::Key;
use toml::{Table, Value};
use toml_reading::{items_at, value_at};

/// How many rows the list at a key has, 0 where there is no list.
pub fn count_at(table: &Table, key: &str) -> usize
    ensures { result ≡ length (items_at key.now (table_view table.now)) }
{
    items_at(table, key).len()
}

/// The whole number at a key, where there is one.
pub fn whole_at(table: &Table, key: Key) -> Option<i64> {
    match value_at(table, key.text()) {
        Some(Value::Integer(number)) => Some(*number),
        _ => None,
    }
}

/// The whole number at a key of a row, where there is one.
pub fn whole_in(row: &Value, key: Key) -> Option<i64> {
    match row {
        Value::Table(row) => whole_at(row, key),
        _ => None,
    }
}

/// The text at a key of a row, and the empty one where there is none.
pub fn text_in<'a>(row: &'a Value, key: Key) -> &'a str {
    toml_reading::text_in(member_in(row, key.text()))
}

/// The value at a key of a row, where the row is a table.
pub fn member_in<'a>(row: &'a Value, key: &str) -> Option<&'a Value>
    ensures { option_map (λ value. view value.now) result
        ≡ member_in key.now (Some (view row.now)) }
{
    match row {
        Value::Table(row) => value_at(row, key),
        _ => None,
    }
}

/// The row of a list that has this number, from 1.
pub fn row_at<'a>(table: &'a Table, list: &str, row: usize) -> Option<&'a Value>
    ensures { option_map (λ value. view value.now) result
        ≡ row_at row (items_at list.now (table_view table.now)) }
{
    if row == 0 {
        None
    } else {
        item_at(items_at(table, list), row - 1)
    }
}

/// The row at a place, from 0.
fn item_at(rows: &[Value], place: usize) -> Option<&Value>
    ensures { option_map (λ value. view value.now) result ≡ slice_get (map view rows.now) place }
{
    rows.get(place)
}
