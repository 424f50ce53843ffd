//! The values of a tree: that at a key, the items of a list, and a text.
ghost use Rattle.std.specs.Prelude.{◌≡◌, Some, map, option_map};
ghost use Rattle.toml.specs.Data.{get_member};
ghost use Rattle.toml.specs.View.{view, table_view};
ghost use Rattle.toml_reading.specs.Tree.{items_in, items_at, text_in};

use toml::{Table, Value};

/// The value at a key of a table.
pub fn value_at<'a>(table: &'a Table, key: &str) -> Option<&'a Value>
    ensures { option_map (λ value. view value.now) result
        ≡ get_member key.now (table_view table.now) }
{
    table.get(key)
}

/// The items of the list at a key, none where there is no list.
pub fn items_at<'a>(table: &'a Table, key: &str) -> &'a [Value]
    ensures { map view result.now ≡ items_at key.now (table_view table.now) }
{
    match value_at(table, key) {
        Some(value) => items_in(value),
        None => &[],
    }
}

/// The items of a value, none where it is no list.
fn items_in(value: &Value) -> &[Value]
    ensures { map view result.now ≡ items_in (Some (view value.now)) }
{
    match value {
        Value::Array(items) => items.as_slice(),
        _ => &[],
    }
}

/// The text of a value, empty where it is no text or there is none.
pub fn text_in(value: Option<&Value>) -> &str
    ensures { result.now ≡ text_in (option_map (λ value. view value.now) value.entry) }
{
    match value {
        Some(Value::String(text)) => text.as_str(),
        _ => "",
    }
}
