//! What rules say.
use super::doors::{DOOR, NONE, Said, assert_door, assert_rule};
use door_clerk::{GateRange, Kinds, Rate};
use door_file::Door;
use std::test::Fail;

#[test]
fn rules_have_the_values_of_their_keys(rt: HostRuntime) -> Result<(), Fail> {
    let door = Door::read(rt.alloc(), DOOR)?;
    assert_door(&rt, &door)
}

#[test]
fn bytes_are_read_as_their_text(rt: HostRuntime) -> Result<(), Fail> {
    let door = Door::read_bytes(rt.alloc(), DOOR.as_bytes())?;
    assert_door(&rt, &door)
}

/// A rule with the highest number of each key, a name of 64 bytes, and each kind of request.
const HIGHEST: &str = "[[rule]]
name = '0123456789abcdef0123456789abcdef0123456789abcdef0123456789abcdef'
gates = [[1, 65535]]
kinds = ['enquiry', 'revise', 'issue', 'top-up', 'out', 'in']
ahead = 86400
rate = 1000
burst = 10000
reserved = 1000000
connections = 65535
";

#[test]
fn the_highest_number_of_each_key_is_taken(rt: HostRuntime) -> Result<(), Fail> {
    let door = Door::read(rt.alloc(), HIGHEST)?;
    let rule = door.rules().first().ok_or("no rule")?;
    let said = Said {
        name: "0123456789abcdef0123456789abcdef0123456789abcdef0123456789abcdef",
        gates: &[GateRange {
            first: 1,
            last: 65_535,
        }],
        kinds: Kinds {
            enter: true,
            leave: true,
            top_up: true,
            issue: true,
            revise: true,
            enquire: true,
        },
        numbers: (Some(86_400), 1_000_000, Some(65_535)),
        rate: Some(Rate {
            touches: 1_000,
            burst: 10_000,
        }),
    };
    assert_rule(&rt, rule, said);
    Ok(())
}

#[test]
fn without_a_burst_as_many_come_at_once_as_in_a_second(rt: HostRuntime) -> Result<(), Fail> {
    let text = "[[rule]]\nname = 'a'\ngates = [1]\nkinds = ['in']\nrate = 3";
    let door = Door::read(rt.alloc(), text)?;
    let rule = door.rules().first().ok_or("no rule")?;
    let said = Said {
        name: "a",
        gates: &[GateRange { first: 1, last: 1 }],
        kinds: Kinds {
            enter: true,
            ..NONE
        },
        numbers: (None, 0, None),
        rate: Some(Rate {
            touches: 3,
            burst: 3,
        }),
    };
    assert_rule(&rt, rule, said);
    Ok(())
}
