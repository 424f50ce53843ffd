//! How many connections of a rule are let in.

use super::*;

#[test]
fn the_only_place_is_taken_given_back_and_taken_again(rt: HostRuntime) {
    let Some(station) = station(rt.alloc(), THREE) else {
        return;
    };
    let first = enter(&rt, &station, GATE);
    let full = Err(ShutOut::Connections { place: 0 });
    assert_same(&rt, visit(&rt, &station, GATE), full);
    assert_same(&rt, visit(&rt, &station, GATE), full);
    // The places of the other rules are their own.
    assert_same(&rt, visit(&rt, &station, STRANGER), Ok(1));
    let bucket = first.bucket;
    first.leave(&rt, bucket);
    assert_same(&rt, visit(&rt, &station, GATE), Ok(0));
    let second = enter(&rt, &station, GATE);
    assert_same(&rt, visit(&rt, &station, GATE), full);
    second.leave(&rt, bucket);
}

#[test]
fn all_strangers_share_the_places_of_one_rule(rt: HostRuntime) {
    let Some(station) = station(rt.alloc(), THREE) else {
        return;
    };
    let named = enter(&rt, &station, STRANGER);
    assert_same(&rt, visit(&rt, &station, None), Ok(1));
    let nameless = enter(&rt, &station, None);
    let full = Err(ShutOut::Connections { place: 1 });
    assert_same(&rt, visit(&rt, &station, Some("gate-9")), full);
    assert_same(&rt, visit(&rt, &station, GATE), Ok(0));
    named.leave(&rt, FULL);
    assert_same(&rt, visit(&rt, &station, Some("gate-9")), Ok(1));
    nameless.leave(&rt, FULL);
}

#[test]
fn a_rule_without_a_limit_lets_all_in(rt: HostRuntime) {
    let Some(station) = station(rt.alloc(), THREE) else {
        return;
    };
    let office = Some("office");
    let first = enter(&rt, &station, office);
    let second = enter(&rt, &station, office);
    assert_same(&rt, visit(&rt, &station, office), Ok(2));
    first.leave(&rt, FULL);
    second.leave(&rt, FULL);
    assert_same(&rt, visit(&rt, &station, office), Ok(2));
}
