//! What is named twice: a rule's name by an earlier rule, or a kind in one list.
ghost use Rattle.std.specs.Prelude.{◌≡◌, List, map, count_by};
ghost use Rattle.toml.specs.Data.{Data};
ghost use Rattle.toml.specs.View.{view};
ghost use Rattle.door_file.specs.Tree.{is_kind};
ghost use Rattle.door_file.specs.Faults.{is_repeat, is_taken, has_twice};

use crate::key::Shape;
use crate::kind::{KINDS, Kind};
use crate::tree::{is_kind, name_in};
use toml::Value;

/// Whether a value of this shape names what may be named once, after these rules.
pub fn is_repeat(shape: Shape, earlier: &[Value], value: &Value) -> bool
    ensures { result ≡ is_repeat shape (map view earlier.now) (view value.now) }
{
    match shape {
        Shape::Name => repeats_name(earlier, value),
        Shape::Kinds => repeats_kind(value),
        Shape::Rules | Shape::Gates | Shape::Whole(_, _) => false,
    }
}

/// Whether a value, if it is a text, is the name of one of these rules.
fn repeats_name(earlier: &[Value], value: &Value) -> bool
    ensures { result ≡ is_repeat Shape.Name (map view earlier.now) (view value.now) }
{
    match value {
        Value::String(text) => is_taken(text.as_str(), earlier),
        _ => false,
    }
}

/// Whether one of these rules has this name.
fn is_taken(name: &str, rules: &[Value]) -> bool
    ensures { result ≡ is_taken name.now (map view rules.now) }
{
    rules.iter().any(|rule| name == name_in(rule))
}

/// Whether a value, if it is a list, has some kind of request more than once.
fn repeats_kind(value: &Value) -> bool
    ensures { (earlier : List Data) → result ≡ is_repeat Shape.Kinds earlier (view value.now) }
{
    match value {
        Value::Array(items) => has_twice(items.as_slice()),
        _ => false,
    }
}

/// Whether some kind of request is in the list more than once.
fn has_twice(items: &[Value]) -> bool
    ensures { result ≡ has_twice (map view items.now) }
{
    KINDS.iter().any(|kind| 1 < count_of(*kind, items))
}

/// How many of the items are the word of this kind.
fn count_of(kind: Kind, items: &[Value]) -> usize
    ensures { result ≡ count_by (λ item. is_kind kind (view item)) items.now }
{
    items.iter().filter(|item| is_kind(kind, item)).count()
}
