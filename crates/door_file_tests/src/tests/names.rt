//! Which rule is that of a connection, and its place.
use super::assert_same_at;
use super::doors::DOOR;
use door_file::Door;
use std::process::Abort;
use std::test::Fail;

/// A connection's name, and the place and the name of its rule.
type Row = (Option<&'static str>, Option<usize>, Option<&'static str>);

/// The name of the rule for a connection, if there is one.
fn name_for<'a>(door: &'a Door, name: Option<&str>) -> Option<&'a str> {
    match door.rule_for(name) {
        Some(rule) => Some(rule.name.as_str()),
        None => None,
    }
}

/// Each connection has its rule.
fn assert_rows(rt: &impl Abort, door: &Door, rows: &[Row]) {
    for (name, place, rule) in rows {
        assert_same_at(rt, door.place_for(*name), *place, *name);
        assert_same_at(rt, name_for(door, *name), *rule, *name);
    }
}

#[test]
fn a_connection_has_the_rule_of_its_name_else_that_of_all_others(
    rt: HostRuntime,
) -> Result<(), Fail> {
    let door = Door::read(rt.alloc(), DOOR)?;
    let rows = [
        (Some("gate-7"), Some(1), Some("gate-7")),
        (Some("gate-70"), Some(0), Some("*")),
        (Some("gate-"), Some(0), Some("*")),
        (Some("Gate-7"), Some(0), Some("*")),
        (Some(""), Some(0), Some("*")),
        (Some("*"), Some(0), Some("*")),
        (None, Some(0), Some("*")),
    ];
    assert_rows(&rt, &door, &rows);
    Ok(())
}

#[test]
fn without_a_rule_for_all_others_a_stranger_has_none(rt: HostRuntime) -> Result<(), Fail> {
    let text = "rule = [{name = 'a', kinds = ['enquiry']}, {name = 'b', kinds = ['enquiry']}]";
    let door = Door::read(rt.alloc(), text)?;
    let rows = [
        (Some("a"), Some(0), Some("a")),
        (Some("b"), Some(1), Some("b")),
        (Some("c"), None, None),
        (Some("*"), None, None),
        (None, None, None),
    ];
    assert_rows(&rt, &door, &rows);
    Ok(())
}
