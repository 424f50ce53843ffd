//! With which bucket a connection begins.

use super::*;

#[test]
fn the_next_connection_begins_with_what_the_last_one_left(rt: HostRuntime) {
    let Some(station) = station(rt.alloc(), THREE) else {
        return;
    };
    let half = Bucket {
        level: 1_000,
        ticks: 9_000,
    };
    let rows = [(SPENT, FULL), (half, SPENT), (half, half)];
    for (left, begins) in rows {
        let found = pass_on(&rt, &station, GATE, left);
        assert_same_at(&rt, found, Ok(begins), left);
    }
    // The buckets of the other rules are their own.
    assert_same(&rt, pass_on(&rt, &station, STRANGER, FULL), Ok(FULL));
}

#[test]
fn a_connection_that_sent_nothing_refills_nothing(rt: HostRuntime) {
    let Some(station) = station(rt.alloc(), THREE) else {
        return;
    };
    let silent = enter(&rt, &station, STRANGER);
    assert_same(&rt, pass_on(&rt, &station, STRANGER, SPENT), Ok(FULL));
    let untouched = silent.bucket;
    assert_same(&rt, untouched, FULL);
    silent.leave(&rt, untouched);
    assert_same(&rt, pass_on(&rt, &station, STRANGER, SPENT), Ok(SPENT));
}
