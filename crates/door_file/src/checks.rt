//! Whether the value of a key is of its type, and in its range.
ghost use Rattle.std.specs.Prelude.{◌≡◌, ◌&&◌, Bool, is_some, length};
ghost use Rattle.std.specs.List.{list_all};
ghost use Rattle.toml.specs.Data.{as_str};
ghost use Rattle.toml.specs.View.{view};
ghost use Rattle.door_file.specs.Tree.{range_in};
ghost use Rattle.door_file.specs.Faults.{has_type, in_range, has_enough, is_gate, is_known};

use crate::gates::range_in;
use crate::key::{MOST_RULES, Shape};
use crate::kind::KINDS;
use crate::tree::is_kind;
use station_limits::CERTIFICATE_NAME_LIMIT;
use toml::Value;
use toml_reading::{are_whole, is_count, whole_in};

/// Whether a value is of the type of this shape.
pub fn has_type(shape: Shape, value: &Value) -> bool
    ensures { result ≡ has_type shape (view value.now) }
{
    match shape {
        Shape::Rules => value.is_array(),
        Shape::Name => value.is_str(),
        Shape::Gates => has_gates(value),
        Shape::Kinds => has_texts(value),
        Shape::Whole(_, _) => value.is_integer(),
    }
}

/// Whether a value is a list of gates and of ranges.
fn has_gates(value: &Value) -> bool
    ensures { result ≡ has_type Shape.Gates (view value.now) }
{
    match value {
        Value::Array(items) => are_gates(items.as_slice()),
        _ => false,
    }
}

/// Whether each item is a whole number or a list of such.
fn are_gates(items: &[Value]) -> bool
    ensures { result ≡ list_all (λ item. is_gate (view item)) items.now }
{
    items.iter().all(|item| is_gate(item))
}

/// Whether a value is a whole number or a list of such.
fn is_gate(value: &Value) -> bool
    ensures { result ≡ is_gate (view value.now) }
{
    match value {
        Value::Integer(_) => true,
        Value::Array(items) => are_whole(items.as_slice()),
        _ => false,
    }
}

/// Whether a value is a list of texts.
fn has_texts(value: &Value) -> bool
    ensures { result ≡ has_type Shape.Kinds (view value.now) }
{
    match value {
        Value::Array(items) => are_texts(items.as_slice()),
        _ => false,
    }
}

/// Whether each item is a text.
fn are_texts(items: &[Value]) -> bool
    ensures { result ≡ list_all (λ item. is_some (as_str (view item))) items.now }
{
    items.iter().all(|item| item.is_str())
}

/// Whether a value, of the type of this shape, is in its range.
pub fn in_range(shape: Shape, needed: bool, value: &Value) -> bool
    ensures { result ≡ in_range shape needed (view value.now) }
{
    match shape {
        Shape::Rules => has_rules(value),
        Shape::Name => is_name(value),
        Shape::Gates => has_ranges(needed, value),
        Shape::Kinds => has_kinds(needed, value),
        Shape::Whole(low, high) => whole_in(value, low, high).is_some(),
    }
}

/// Whether the value, if it is a list, has as many items as a door may have rules.
fn has_rules(value: &Value) -> bool
    ensures { (needed : Bool) → result ≡ in_range Shape.Rules needed (view value.now) }
{
    match value {
        Value::Array(items) => is_count(items.as_slice().len(), 1, MOST_RULES),
        _ => true,
    }
}

/// Whether the value, if it is a text, has the length of a name.
fn is_name(value: &Value) -> bool
    ensures { (needed : Bool) → result ≡ in_range Shape.Name needed (view value.now) }
{
    match value {
        Value::String(text) => is_count(text.len(), 1, CERTIFICATE_NAME_LIMIT),
        _ => true,
    }
}

/// Whether the value, if it is a list, has ranges of gates alone, and one where it is needed.
fn has_ranges(needed: bool, value: &Value) -> bool
    ensures { result ≡ in_range Shape.Gates needed (view value.now) }
{
    match value {
        Value::Array(items) => are_enough_ranges(needed, items.as_slice()),
        _ => true,
    }
}

/// Whether these are ranges of gates alone, and one is there where it is needed.
fn are_enough_ranges(needed: bool, items: &[Value]) -> bool
    ensures { result ≡ has_enough needed (length items.now)
        && list_all (λ item. is_some (range_in (view item))) items.now }
{
    has_enough(needed, items.len()) && are_ranges(items)
}

/// Whether the value, if it is a list, has the words of kinds alone, and one where it is needed.
fn has_kinds(needed: bool, value: &Value) -> bool
    ensures { result ≡ in_range Shape.Kinds needed (view value.now) }
{
    match value {
        Value::Array(items) => are_enough_kinds(needed, items.as_slice()),
        _ => true,
    }
}

/// Whether these are the words of kinds alone, and one is there where it is needed.
fn are_enough_kinds(needed: bool, items: &[Value]) -> bool
    ensures { result ≡ has_enough needed (length items.now)
        && list_all (λ item. is_known (view item)) items.now }
{
    has_enough(needed, items.len()) && are_kinds(items)
}

/// Whether a list of so many items has one, where it is needed.
fn has_enough(needed: bool, count: usize) -> bool
    ensures { result ≡ has_enough needed count }
{
    !needed || 0 < count
}

/// Whether each item is a range of gates.
fn are_ranges(items: &[Value]) -> bool
    ensures { result ≡ list_all (λ item. is_some (range_in (view item))) items.now }
{
    items.iter().all(|item| range_in(item).is_some())
}

/// Whether each item is the word of a kind of request.
fn are_kinds(items: &[Value]) -> bool
    ensures { result ≡ list_all (λ item. is_known (view item)) items.now }
{
    items.iter().all(|item| is_known(item))
}

/// Whether a value is the word of a kind of request.
pub fn is_known(value: &Value) -> bool
    ensures { result ≡ is_known (view value.now) }
{
    KINDS.iter().any(|kind| is_kind(*kind, value))
}
