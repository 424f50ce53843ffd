//! The lines that are printed of a door: one for each rule, and how many rules there are.

ghost use Rattle.std.specs.Prelude.{◌≡◌, ◌++◌, ◌+◌, IfOk, OnOk, map, string_bytes};
ghost use Rattle.door_file.specs.Door.{rules_of};
ghost use Rattle.door_file.specs.Rule.{entry_of};
ghost use Rattle.door_clerk.specs.Rule.{terms_of};
ghost use Rattle.door_check.specs.Lines.{printed_gates, printed_ranges, printed_terms};
ghost use Rattle.door_check.specs.Lines.{rule_line, lines_behind, door_lines, some_reserved};

use crate::limits::{KindWords, Limit, Pace, Range};
use crate::name::push_name;
use door_clerk::{GateRange, Rule};
use door_file::{Door, NamedRule};
use std::alloc::{AllocError, Global};

/// The lines of a door: one for each rule, in the order of the file, and how many rules there are.
pub(crate) fn door_lines(alloc: Global, door: &Door) -> Result<Vec<u8>, AllocError>
    ensures { IfOk result (λ text. text.items ≡ door_lines (rules_of door.now)) }
{
    let rules = door.rules();
    let mut text = rule_lines(alloc, rules)?;
    let count = rules.len();
    let last = format!(in alloc; "rules {count}\n")?;
    text.extend_from_slice(last.as_bytes())?;
    Ok(text)
}

/// The line of each of these rules.
fn rule_lines(alloc: Global, rules: &[NamedRule]) -> Result<Vec<u8>, AllocError>
    ensures { IfOk result (λ text. text.items ≡ lines_behind 0 (map entry_of rules.now)) }
{
    let mut text = Vec::new(alloc);
    for (place, rule) in rules.iter().enumerate() {
        push_line(alloc, &mut text, place + 1, rule)?;
    }
    Ok(text)
}

/// Adds the line of the rule of this number, from 1, to a text. At an `Err` a beginning was added.
fn push_line(
    alloc: Global,
    text: &mut Vec<u8>,
    number: usize,
    rule: &NamedRule,
) -> Result<(), AllocError>
    ensures { OnOk result
        (text.new.items ≡ text.old.items ++ rule_line number (entry_of rule.now)) }
{
    let front = format!(in alloc; "rule {number} ")?;
    let terms = terms_text(alloc, &rule.rule, rule.connections)?;
    text.extend_from_slice(front.as_bytes())?;
    push_name(text, rule.name.as_str())?;
    text.extend_from_slice(terms.as_bytes())?;
    Ok(())
}

/// What a rule allows, and how many connections at once: the rest of its line behind its name.
fn terms_text(alloc: Global, rule: &Rule, connections: Option<u16>) -> Result<String, AllocError>
    ensures { IfOk result
        (λ text. string_bytes text ≡ printed_terms (terms_of rule.now) connections) }
{
    let gates = gates_text(alloc, rule.gates.as_slice())?;
    let kinds = KindWords(rule.kinds);
    let ahead = Limit {
        name: "ahead",
        number: rule.ahead,
    };
    let rate = Pace(rule.rate);
    let reserved = Limit {
        name: "reserved",
        number: some_reserved(rule.reserved),
    };
    let connections = Limit {
        name: "connections",
        number: widened(connections),
    };
    format!(in alloc; ":{gates}{kinds}{ahead}{rate}{reserved}{connections}\n")
}

/// The reserved places, where there are any.
fn some_reserved(places: u32) -> Option<u32>
    ensures { result ≡ some_reserved places }
{
    if places == 0 { None } else { Some(places) }
}

/// The same number in 32 bits.
fn widened(number: Option<u16>) -> Option<u32>
    ensures { result ≡ number }
{
    match number {
        Some(number) => Some(u32::from(number)),
        None => None,
    }
}

/// The gates of a rule, empty for a rule without gates.
fn gates_text(alloc: Global, gates: &[GateRange]) -> Result<String, AllocError>
    ensures { IfOk result (λ text. string_bytes text ≡ printed_gates gates.now) }
{
    if gates.is_empty() {
        return Ok(String::new(alloc));
    }
    let ranges = ranges_text(alloc, gates)?;
    format!(in alloc; " gates{ranges};")
}

/// The ranges, with a space before each.
fn ranges_text(alloc: Global, gates: &[GateRange]) -> Result<String, AllocError>
    ensures { IfOk result (λ text. string_bytes text ≡ printed_ranges gates.now) }
{
    let mut text = String::new(alloc);
    for range in gates {
        let range = Range(*range);
        let part = format!(in alloc; " {range}")?;
        text.push_str(&part)?;
    }
    Ok(text)
}
