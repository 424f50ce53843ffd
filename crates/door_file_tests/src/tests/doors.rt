//! A door of two rules, and what its rules say.
use super::assert_same_at;
use door_clerk::{GateRange, Kinds, Rate};
use door_file::{Door, NamedRule};
use std::process::Abort;
use std::test::Fail;

/// A door of two rules.
pub(super) const DOOR: &str = "# A door.
[[rule]]
name = \"*\"
kinds = [\"enquiry\"]

[[rule]]
name = \"gate-7\"
gates = [7, [100, 120]]
kinds = [\"in\", \"out\", \"top-up\"]
ahead = 300
rate = 5
burst = 20
reserved = 1000
connections = 2
";

/// No kind of request.
pub(super) const NONE: Kinds = Kinds {
    enter: false,
    leave: false,
    top_up: false,
    issue: false,
    revise: false,
    enquire: false,
};

/// What a rule says.
#[derive(Clone, Copy)]
pub(super) struct Said {
    /// The name that it is for.
    pub(super) name: &'static str,
    /// Its ranges of gate numbers.
    pub(super) gates: &'static [GateRange],
    /// Its kinds of request.
    pub(super) kinds: Kinds,
    /// Its numbers: `ahead`, `reserved` and `connections`.
    pub(super) numbers: (Option<u32>, u32, Option<u16>),
    /// Its rate.
    pub(super) rate: Option<Rate>,
}

/// The rule for all others of the door.
const OTHERS: Said = Said {
    name: "*",
    gates: &[],
    kinds: Kinds {
        enquire: true,
        ..NONE
    },
    numbers: (None, 0, None),
    rate: None,
};

/// The gate's rule of the door.
const GATE: Said = Said {
    name: "gate-7",
    gates: &[
        GateRange { first: 7, last: 7 },
        GateRange {
            first: 100,
            last: 120,
        },
    ],
    kinds: Kinds {
        enter: true,
        leave: true,
        top_up: true,
        ..NONE
    },
    numbers: (Some(300), 1000, Some(2)),
    rate: Some(Rate {
        touches: 5,
        burst: 20,
    }),
};

/// A rule says this.
pub(super) fn assert_rule(rt: &impl Abort, found: &NamedRule, said: Said) {
    let rule = &found.rule;
    assert_same_at(rt, found.name.as_str(), said.name, "name");
    assert_same_at(rt, rule.gates.as_slice(), said.gates, said.name);
    assert_same_at(rt, rule.kinds, said.kinds, said.name);
    let numbers = (rule.ahead, rule.reserved, found.connections);
    assert_same_at(rt, numbers, said.numbers, said.name);
    assert_same_at(rt, rule.rate, said.rate, said.name);
}

/// The two rules of the door.
pub(super) fn assert_door(rt: &impl Abort, door: &Door) -> Result<(), Fail> {
    let [others, gate] = door.rules() else {
        return Err(Fail::from("not two rules"));
    };
    assert_rule(rt, others, OTHERS);
    assert_rule(rt, gate, GATE);
    Ok(())
}
