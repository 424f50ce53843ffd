//! The gates of a rule: numbers and ranges.
ghost use Rattle.std.specs.Prelude.{◌≡◌, ◌≤◌, map, IfSome, IfOk};
ghost use Rattle.toml.specs.View.{view};
ghost use Rattle.door_file.specs.Tree.{range_in, ends_in, one_gate, two_gates, gate_in};
ghost use Rattle.door_file.specs.Content.{ranges_of};
ghost use Rattle.door_file.specs.declared.key.TheConstants.{HIGHEST_GATE};

use crate::key::HIGHEST_GATE;
use door_clerk::GateRange;
use std::alloc::{AllocError, Global};
use toml::Value;
use toml_reading::whole_in;

/// A range without a gate.
const NO_GATE: GateRange = GateRange { first: 1, last: 0 };

/// The range of gates that a value is: the number of one gate, or a list of the first and the last.
pub fn range_in(value: &Value) -> Option<GateRange>
    ensures { result ≡ range_in (view value.now) }
{
    match value {
        Value::Array(items) => ends_in(items.as_slice()),
        _ => one_gate(gate_in(value)),
    }
}

/// The number of a gate that a value is.
fn gate_in(value: &Value) -> Option<u32>
    ensures value { result ≡ gate_in (view value.now) }
    ensures bound { IfSome result (λ gate. gate ≤ HIGHEST_GATE) }
{
    whole_in(value, 1, HIGHEST_GATE)
}

/// The range that the two items of a list are.
#[tactic(auto, using(crate::proofs::TreeLemmas::tree_facts))]
fn ends_in(items: &[Value]) -> Option<GateRange>
    ensures { result ≡ ends_in (map view items.now) }
{
    match items {
        [first, last] => two_gates(gate_in(first), gate_in(last)),
        _ => None,
    }
}

/// The range of one gate alone.
fn one_gate(gate: Option<u32>) -> Option<GateRange>
    requires { IfSome gate (λ gate. gate ≤ HIGHEST_GATE) }
    ensures { result ≡ one_gate gate }
{
    let gate = gate?;
    Some(GateRange {
        first: gate as u16,
        last: gate as u16,
    })
}

/// The range from one gate to another, where the first is not above the last.
fn two_gates(first: Option<u32>, last: Option<u32>) -> Option<GateRange>
    requires first { IfSome first (λ gate. gate ≤ HIGHEST_GATE) }
    requires last { IfSome last (λ gate. gate ≤ HIGHEST_GATE) }
    ensures { result ≡ two_gates first last }
{
    let first = first?;
    let last = last?;
    if first <= last {
        Some(GateRange {
            first: first as u16,
            last: last as u16,
        })
    } else {
        None
    }
}

/// The ranges of these values, one without a gate for what is none.
pub fn ranges_of(alloc: Global, items: &[Value]) -> Result<Vec<GateRange>, AllocError>
    ensures { IfOk result (λ ranges. ranges.items ≡ ranges_of (map view items.now)) }
{
    let mut ranges = Vec::new(alloc);
    for item in items {
        ranges.push(range_in(item).unwrap_or(NO_GATE))?;
    }
    Ok(ranges)
}
