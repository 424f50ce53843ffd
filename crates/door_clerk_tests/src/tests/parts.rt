//! The parts of a rule, and a bucket.

use super::*;
use door_clerk::{DoorRefusal, TICKS_PER_SECOND};
use gate_session::Request;

#[test]
fn a_range_has_both_its_ends(rt: HostRuntime) {
    let range = GateRange { first: 1, last: 20 };
    for (gate, is_in) in [(0, false), (1, true), (20, true), (21, false)] {
        assert_same_at(&rt, range.contains(gate), is_in, gate);
    }
}

#[test]
fn each_kind_is_allowed_by_its_own_name(rt: HostRuntime) {
    let Ok(rule) = barrier(rt.alloc()) else {
        return;
    };
    assert_same(&rt, rule.allows_gate(40), true);
    assert_same(&rt, rule.allows_gate(39), false);
    let revision = Act::Revise {
        day: 20_000,
        moment: 0,
        digest: [0; 32],
    };
    let rows = [
        (Request::Touch(entry(1, 0)), true),
        (Request::Touch(touch(1, Act::Issue { moment: 0 })), false),
        (Request::Touch(touch(1, revision)), false),
        (Request::Enquire(8), true),
    ];
    for (request, is_allowed) in rows {
        assert_same_at(&rt, PASSAGES.allow(&request), is_allowed, request);
    }
    let top_up = Act::TopUp {
        pence: 2_000,
        moment: 0,
    };
    assert_same(&rt, PASSAGES.allow_act(&top_up), false);
    assert_same(
        &rt,
        rule.check_name(&touch(40, top_up)),
        Err(DoorRefusal::Kind),
    );
    assert_same(&rt, rule.check_name(&entry(39, 0)), Err(DoorRefusal::Gate));
    assert_same(&rt, rule.check_name(&entry(40, 0)), Ok(()));
}

#[test]
fn a_bucket_gains_a_touch_a_second(rt: HostRuntime) {
    let Ok(rule) = barrier(rt.alloc()) else {
        return;
    };
    let full = Bucket::full(rule.rate, 5_000);
    assert_same(&rt, full.level, 2 * TICKS_PER_SECOND);
    let spent = full.after(rule.rate, 5_000).after(rule.rate, 5_000);
    let empty = Bucket {
        level: 0,
        ticks: 5_000,
    };
    assert_same(&rt, spent, empty);
    for (ticks, has) in [
        (4_000, false),
        (5_999, false),
        (6_000, true),
        (u64::MAX, true),
    ] {
        assert_same_at(&rt, empty.has_token(rule.rate, ticks), has, ticks);
    }
    assert_same(&rt, rule.check_rate(&empty, 5_999), Err(DoorRefusal::Rate));
    let later = Bucket {
        level: 0,
        ticks: 6_000,
    };
    assert_same(&rt, rule.check_rate(&empty, 6_000), Ok(later));
    assert_same(&rt, empty.has_token(None, 5_000), true);
}

/// A bucket with so much in it at so many ticks.
fn at(level: u64, ticks: u64) -> Bucket {
    Bucket { level, ticks }
}

#[test]
fn a_merged_bucket_is_the_emptier_of_two(rt: HostRuntime) {
    let rows = [
        // one connection sent nothing, and the other one two touches at once
        (at(2_000, 0), at(0, 5_000), at(0, 5_000)),
        (at(0, 5_000), at(2_000, 0), at(0, 5_000)),
        // a bucket of long ago is full again
        (at(0, 0), at(1_000, 60_000), at(1_000, 60_000)),
        // what it gained since the later of both counts
        (at(0, 4_500), at(1_000, 5_000), at(500, 5_000)),
        (at(1_500, 5_000), at(1_500, 5_000), at(1_500, 5_000)),
    ];
    for (one, other, want) in rows {
        assert_same_at(&rt, one.merged(Some(RATE), &other), want, (one, other));
    }
    let untouched = at(0, 0);
    assert_same(&rt, untouched.merged(None, &at(7, 9)), untouched);
}

#[test]
fn a_new_touch_is_near_and_leaves_the_reserve(rt: HostRuntime) {
    let Ok(rule) = barrier(rt.alloc()) else {
        return;
    };
    let full = Standing::New { room: 100 };
    let rows = [
        (1_060, NEW, Ok(())),
        (1_061, NEW, Err(DoorRefusal::Ahead)),
        (1_061, full, Err(DoorRefusal::Ahead)),
        (0, full, Err(DoorRefusal::Reserve)),
        (u32::MAX, Standing::Repeat, Ok(())),
    ];
    for (moment, standing, want) in rows {
        let found = rule.check_standing(moment, 1_000, standing);
        assert_same_at(&rt, found, want, (moment, standing));
    }
    assert_same(&rt, rule.is_fitting(1_060, 1_000), false);
    let open = Rule {
        reserved: 0,
        ..rule
    };
    assert_same(&rt, open.is_fitting(1_060, 1_000), true);
    assert_same(&rt, open.is_fitting(1_061, 1_000), false);
}
