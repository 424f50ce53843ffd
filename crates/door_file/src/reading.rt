//! The rules of a tree that has no fault.
ghost use Rattle.std.specs.Prelude.{◌≡◌, ◌≤◌, map, IfOk, IfSome};
ghost use Rattle.std.specs.List.{list_any};
ghost use Rattle.toml.specs.View.{view};
ghost use Rattle.door_clerk.specs.Rule.{terms_of};
ghost use Rattle.toml_reading.specs.Tree.{members_in};
ghost use Rattle.door_file.specs.Rule.{entry_of};
ghost use Rattle.door_file.specs.Keys.{shape_of};
ghost use Rattle.door_file.specs.Tree.{is_kind, items_at};
ghost use Rattle.door_file.specs.Content.{kinds_of, rate_of, terms_in, entry_in, number_at};
ghost use Rattle.door_file.specs.Content.{highest_of};

use crate::gates::ranges_of;
use crate::key::Key;
use crate::kind::Kind;
use crate::name::Text;
use crate::rule::NamedRule;
use crate::tree::{self, is_kind, name_in};
use door_clerk::{Kinds, Rate, Rule};
use std::alloc::{AllocError, Global};
use toml::Value;

/// The rule of each of these values.
pub fn rules_of(alloc: Global, values: &[Value]) -> Result<Vec<NamedRule>, AllocError>
    ensures { IfOk result
        (λ rules. map entry_of rules.items ≡ map entry_in (map view values.now)) }
{
    let mut rules = Vec::new(alloc);
    for value in values {
        rules.push(rule_of(alloc, value)?)?;
    }
    Ok(rules)
}

/// The rule that a value says, with its name.
fn rule_of(alloc: Global, value: &Value) -> Result<NamedRule, AllocError>
    ensures { IfOk result (λ rule. entry_of rule ≡ entry_in (view value.now)) }
{
    let name = Text::new(alloc, name_in(value))?;
    let rule = terms_of(alloc, value)?;
    Ok(NamedRule {
        name,
        rule,
        connections: connections_of(value),
    })
}

/// What a rule says beside its name and its connections.
fn terms_of(alloc: Global, rule: &Value) -> Result<Rule, AllocError>
    ensures { IfOk result (λ made. terms_of made ≡ terms_in (members_in (view rule.now))) }
{
    let gates = ranges_of(alloc, items(rule, Key::Gates))?;
    Ok(Rule {
        gates,
        kinds: kinds_of(items(rule, Key::Kinds)),
        ahead: number(rule, Key::Ahead),
        rate: rate_of(number(rule, Key::Rate), number(rule, Key::Burst)),
        reserved: number(rule, Key::Reserved).unwrap_or(0),
    })
}

/// The kinds of request whose words are in a list.
fn kinds_of(items: &[Value]) -> Kinds
    ensures { result ≡ kinds_of (map view items.now) }
{
    Kinds {
        enter: has_kind(Kind::Enter, items),
        leave: has_kind(Kind::Leave, items),
        top_up: has_kind(Kind::TopUp, items),
        issue: has_kind(Kind::Issue, items),
        revise: has_kind(Kind::Revise, items),
        enquire: has_kind(Kind::Enquire, items),
    }
}

/// Whether the word of this kind is in a list.
fn has_kind(kind: Kind, items: &[Value]) -> bool
    ensures { result ≡ list_any (is_kind kind) (map view items.now) }
{
    items.iter().any(|item| is_kind(kind, item))
}

/// The rate of so many touches a second, and at once as many as are given, else as many as in a
/// second.
fn rate_of(touches: Option<u32>, burst: Option<u32>) -> Option<Rate>
    ensures { result ≡ rate_of touches burst }
{
    let touches = touches?;
    Some(Rate {
        touches,
        burst: burst.unwrap_or(touches),
    })
}

/// How many connections a rule allows at once.
fn connections_of(rule: &Value) -> Option<u16>
    ensures { result ≡ number_at Key.Connections (members_in (view rule.now)) }
{
    let connections = number(rule, Key::Connections)?;
    Some(connections as u16)
}

/// The items of the list at a key of a rule, none where there is no list.
fn items(rule: &Value, key: Key) -> &[Value]
    ensures { map view result.now ≡ items_at key (members_in (view rule.now)) }
{
    match rule {
        Value::Table(table) => tree::items_at(table, key),
        _ => &[],
    }
}

/// The whole number at a key of a rule, where there is one in the key's range.
fn number(rule: &Value, key: Key) -> Option<u32>
    ensures value { result ≡ number_at key (members_in (view rule.now)) }
    ensures bound { IfSome result (λ number. number ≤ highest_of (shape_of key)) }
{
    match rule {
        Value::Table(table) => tree::number_at(table, key),
        _ => None,
    }
}
