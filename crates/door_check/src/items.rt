//! The item of a list that a fault of a door is about.

use door_file::{Key, Problem, is_known, range_in};
use toml::Value;

/// The item of a list of gates or kinds that has this problem. If the value is no such list, or no
/// item has the problem, it is the value itself.
pub(crate) fn item_at_fault<'a>(key: Key, problem: Problem, value: &'a Value) -> &'a Value {
    let Value::Array(items) = value else {
        return value;
    };
    let items = items.as_slice();
    let found = match (key, problem) {
        (Key::Gates, _) => items.iter().find(|item| range_in(item).is_none()),
        (Key::Kinds, Problem::Twice) => second_of_two(items),
        (Key::Kinds, _) => items.iter().find(|item| !is_known(item)),
        _ => None,
    };
    match found {
        Some(item) => item,
        None => value,
    }
}

/// The first text in a list that is there before.
fn second_of_two(items: &[Value]) -> Option<&Value> {
    for (place, item) in items.iter().enumerate() {
        if items[..place].iter().any(|earlier| is_same(earlier, item)) {
            return Some(item);
        }
    }
    None
}

/// Whether two values are the same text.
fn is_same(value: &Value, other: &Value) -> bool {
    match (value, other) {
        (Value::String(value), Value::String(other)) => value.as_str() == other.as_str(),
        _ => false,
    }
}
