//! What the keys of a door's file hold, in the tree that a TOML text stands for.
ghost use Rattle.std.specs.Prelude.{◌≡◌, ◌≤◌, map, option_map, IfSome};
ghost use Rattle.toml.specs.View.{view, table_view};
ghost use Rattle.door_file.specs.Keys.{shape_of};
ghost use Rattle.door_file.specs.Tree.{value_at, items_at, name_in, is_kind};
ghost use Rattle.door_file.specs.Content.{number_at, highest_of};

use crate::key::{Key, Shape};
use crate::kind::Kind;
use toml::{Table, Value};
use toml_reading::{text_in, whole_in};

/// The value at a key of a table.
pub fn value_at(table: &Table, key: Key) -> Option<&Value>
    ensures { option_map (λ value. view value.now) result ≡ value_at key (table_view table.now) }
{
    toml_reading::value_at(table, key.text())
}

/// The items of the list at a key, none where there is no list.
pub fn items_at(table: &Table, key: Key) -> &[Value]
    ensures { map view result.now ≡ items_at key (table_view table.now) }
{
    toml_reading::items_at(table, key.text())
}

/// The whole number at a key, where there is one in the key's range.
pub fn number_at(table: &Table, key: Key) -> Option<u32>
    ensures value { result ≡ number_at key (table_view table.now) }
    ensures bound { IfSome result (λ number. number ≤ highest_of (shape_of key)) }
{
    match (key.shape(), value_at(table, key)) {
        (Shape::Whole(low, high), Some(value)) => whole_in(value, low, high),
        _ => None,
    }
}

/// The name of a rule, empty where it has none.
pub fn name_in(row: &Value) -> &str
    ensures { result.now ≡ name_in (view row.now) }
{
    match row {
        Value::Table(table) => text_in(value_at(table, Key::Name)),
        _ => "",
    }
}

/// Whether a value is the word of this kind of request.
pub fn is_kind(kind: Kind, value: &Value) -> bool
    ensures { result ≡ is_kind kind (view value.now) }
{
    match value {
        Value::String(text) => text.as_str() == kind.word(),
        _ => false,
    }
}
