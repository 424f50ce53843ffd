//! The faults of a tree, in the order of the file.
ghost use Rattle.std.specs.Prelude.{◌≡◌, ◌≢◌, [], map, option_map, None, Some, IfOk, IfErr};
ghost use Rattle.toml.specs.View.{view, table_view};
ghost use Rattle.toml_reading.specs.First.{first};
ghost use Rattle.door_file.specs.Faults.{is_needed, has_others, problem_of, problem_at, key_fault};
ghost use Rattle.door_file.specs.Faults.{keys_faults, table_faults, rule_faults, rules_faults};
ghost use Rattle.door_file.specs.Faults.{unknown_faults, faults};

use crate::checks::{has_type, in_range};
use crate::fault::{DoorFault, Place, Problem};
use crate::key::{FILE_KEYS, Key, RULE_KEYS, Shape};
use crate::kind::Kind;
use crate::name::Text;
use crate::repeats::is_repeat;
use crate::tree::{is_kind, items_at, value_at};
use crate::unknown::first_unknown;
use std::alloc::Global;
use toml::{Table, Value};

/// Whether a key must be in this table.
fn is_needed(key: Key, table: &Table) -> bool
    ensures { result ≡ is_needed key (table_view table.now) }
{
    match key {
        Key::Rule | Key::Name | Key::Kinds => true,
        Key::Gates => has_others(items_at(table, Key::Kinds)),
        Key::Rate => value_at(table, Key::Burst).is_some(),
        Key::Ahead | Key::Burst | Key::Reserved | Key::Connections => false,
    }
}

/// Whether one of the kinds is another than enquiries.
fn has_others(kinds: &[Value]) -> bool
    ensures { result ≡ has_others (map view kinds.now) }
{
    kinds.iter().any(|kind| !is_kind(Kind::Enquire, kind))
}

/// What is wrong with the value of a key, of which this is the shape.
fn problem_of(
    shape: Shape,
    needed: bool,
    earlier: &[Value],
    value: Option<&Value>,
) -> Option<Problem>
    ensures { result ≡ problem_of shape needed (map view earlier.now)
        (option_map (λ value. view value.now) value.entry) }
{
    match value {
        None if needed => Some(Problem::Missing),
        None => None,
        Some(value) if !has_type(shape, value) => Some(Problem::WrongType),
        Some(value) if !in_range(shape, needed, value) => Some(Problem::Range),
        Some(value) if is_repeat(shape, earlier, value) => Some(Problem::Twice),
        Some(_) => None,
    }
}

/// What is wrong at a key of a table, of which these are the earlier ones.
fn problem_at(key: Key, earlier: &[Value], table: &Table) -> Option<Problem>
    ensures { result ≡ problem_at (map view earlier.now) (table_view table.now) key }
{
    let needed = is_needed(key, table);
    problem_of(key.shape(), needed, earlier, value_at(table, key))
}

/// The fault at a key of a table.
fn key_fault(rule: usize, earlier: &[Value], table: &Table, key: Key) -> Option<DoorFault>
    ensures { result ≡ key_fault rule (map view earlier.now) (table_view table.now) key }
{
    match problem_at(key, earlier, table) {
        Some(problem) => Some(DoorFault::At(Place { rule, key }, problem)),
        None => None,
    }
}

/// The first fault at these keys of a table.
fn first_in_keys(rule: usize, earlier: &[Value], table: &Table, keys: &[Key]) -> Option<DoorFault>
    ensures { result ≡ first
        (keys_faults rule (map view earlier.now) (table_view table.now) keys.now) }
{
    for key in keys {
        if let Some(fault) = key_fault(rule, earlier, table, *key) {
            return Some(fault);
        }
    }
    None
}

/// Refuses a table that has another key than these.
fn refuse_unknown(alloc: Global, rule: usize, table: &Table, keys: &[Key]) -> Result<(), DoorFault>
    ensures no_fault { IfOk result
        (λ _. first (unknown_faults rule (table_view table.now) keys.now) ≡ None) }
    ensures fault { IfErr result (λ fault. fault ≢ DoorFault.Memory
        → first (unknown_faults rule (table_view table.now) keys.now) ≡ Some fault) }
{
    match first_unknown(table, keys) {
        Some(name) => {
            let name = Text::new(alloc, name.as_str())?;
            Err(DoorFault::UnknownKey(name, rule))
        }
        None => Ok(()),
    }
}

/// Refuses a table that has a fault at one of these keys, or another key than these.
#[tactic(auto, using(toml_reading::proofs::FirstLemmas::firsts))]
fn check_table(
    alloc: Global,
    rule: usize,
    earlier: &[Value],
    table: &Table,
    keys: &[Key],
) -> Result<(), DoorFault>
    ensures no_fault { IfOk result (λ _. first
        (table_faults rule (map view earlier.now) (table_view table.now) keys.now) ≡ None) }
    ensures fault { IfErr result (λ fault. fault ≢ DoorFault.Memory → first
        (table_faults rule (map view earlier.now) (table_view table.now) keys.now) ≡ Some fault) }
{
    match first_in_keys(rule, earlier, table, keys) {
        Some(fault) => Err(fault),
        None => refuse_unknown(alloc, rule, table, keys),
    }
}

/// Refuses a rule that has a fault. Its number counts from 1, and these are the earlier rules.
fn check_rule(
    alloc: Global,
    number: usize,
    earlier: &[Value],
    rule: &Value,
) -> Result<(), DoorFault>
    ensures no_fault { IfOk result (λ _. first
        (rule_faults number (map view earlier.now) (view rule.now)) ≡ None) }
    ensures fault { IfErr result (λ fault. fault ≢ DoorFault.Memory → first
        (rule_faults number (map view earlier.now) (view rule.now)) ≡ Some fault) }
{
    match rule {
        Value::Table(table) => check_table(alloc, number, earlier, table, &RULE_KEYS),
        _ => Err(DoorFault::At(
            Place {
                rule: number,
                key: Key::Rule,
            },
            Problem::WrongType,
        )),
    }
}

/// Refuses rules of which one has a fault.
fn check_rules(alloc: Global, rules: &[Value]) -> Result<(), DoorFault>
    ensures no_fault { IfOk result (λ _. first (rules_faults 1 [] (map view rules.now)) ≡ None) }
    ensures fault { IfErr result (λ fault. fault ≢ DoorFault.Memory
        → first (rules_faults 1 [] (map view rules.now)) ≡ Some fault) }
{
    for (place, rule) in rules.iter().enumerate() {
        if let Err(fault) = check_rule(alloc, place + 1, &rules[..place], rule) {
            return Err(fault);
        }
    }
    Ok(())
}

/// Refuses a tree that has a fault.
pub fn check(alloc: Global, table: &Table) -> Result<(), DoorFault>
    ensures no_fault { IfOk result (λ _. first (faults (table_view table.now)) ≡ None) }
    ensures fault { IfErr result (λ fault. fault ≢ DoorFault.Memory
        → first (faults (table_view table.now)) ≡ Some fault) }
{
    if let Err(fault) = check_table(alloc, 0, &[], table, &FILE_KEYS) {
        return Err(fault);
    }
    check_rules(alloc, items_at(table, Key::Rule))
}
