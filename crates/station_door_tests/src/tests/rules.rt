//! By which rule a connection is let in.

use super::*;

#[test]
fn a_connection_has_the_rule_of_its_name_or_that_of_the_others(rt: HostRuntime) {
    let Some(station) = station(rt.alloc(), THREE) else {
        return;
    };
    assert_same(&rt, station.rules().len(), 3);
    let rows = [
        (GATE, 0, "gate-7"),
        (STRANGER, 1, "*"),
        (None, 1, "*"),
        (Some("*"), 1, "*"),
        (Some("office"), 2, "office"),
    ];
    for (name, place, rule) in rows {
        let pass = enter(&rt, &station, name);
        assert_same_at(&rt, pass.place, place, name);
        assert_same_at(&rt, pass.rule.name.as_str(), rule, name);
        pass.leave(&rt, FULL);
    }
}

#[test]
fn a_stranger_is_shut_out_where_no_rule_is_for_others(rt: HostRuntime) {
    let Some(station) = station(rt.alloc(), ALONE) else {
        return;
    };
    for name in [STRANGER, None, Some("*"), Some("")] {
        let found = visit(&rt, &station, name);
        assert_same_at(&rt, found, Err(ShutOut::NoRule), name);
    }
    assert_same(&rt, visit(&rt, &station, GATE), Ok(0));
}

/// Threads may share this.
fn assert_shared<T: Sync>(_shared: &T) {}

#[test]
fn lines_in_threads_may_share_a_door(rt: HostRuntime) {
    let Some(station) = station(rt.alloc(), ALONE) else {
        return;
    };
    assert_shared(&station);
}
