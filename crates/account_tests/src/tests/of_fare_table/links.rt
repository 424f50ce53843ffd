//! What two stations have between them: the minutes of a leg, and those of an interchange.
use super::fares::leg_of;
use super::{Change, assert_same_at, table};
use fare_table::{EXAMPLE_TABLE, Fares};
use money_time::Window;
use std::process::Abort;

/// Two stations, and the minutes of a leg between them, its pence at peak and its highest zone.
pub type Leg = (u16, u16, u32, u32, u8);

/// Two stations, and the minutes of their interchange.
pub type Walk = (u16, u16, Option<u32>);

/// The minutes of the example's pair, a second pair, and a second interchange.
const MORE_ROWS: [Change; 2] = [
    (
        "off_peak = 200}]",
        "off_peak = 200, minutes = 75}, \
            {from = 5, to = 1, lo = 1, hi = 9, peak = 2, off_peak = 1}]",
    ),
    (
        "minutes = 10}]",
        "minutes = 10}, {a = 5, b = 2, minutes = 20}]",
    ),
];

/// Legs of the table with more rows.
const LEGS: [Leg; 6] = [
    (2, 4, 75, 230, 2),
    (4, 2, 75, 230, 2),
    (5, 1, 90, 2, 9),
    (1, 5, 90, 2, 9),
    (1, 2, 90, 350, 2),
    (2, 2, 90, 210, 2),
];

/// Interchanges of the table with more rows.
const WALKS: [Walk; 9] = [
    (1, 4, Some(10)),
    (4, 1, Some(10)),
    (5, 2, Some(20)),
    (2, 5, Some(20)),
    (1, 5, None),
    (5, 4, None),
    (1, 1, None),
    (1, 9, None),
    (0, 65535, None),
];

/// Legs of a table, in the early window.
pub fn assert_legs(rt: &impl Abort, fares: &Fares, rows: &[Leg]) {
    for (from, to, minutes, pence, hi) in rows {
        let (fare, leg) = leg_of(rt, fares, *from, *to, Window::Early);
        assert_same_at(rt, leg, *minutes, (*from, *to));
        assert_same_at(rt, fare.pence, *pence, (*from, *to));
        assert_same_at(rt, fare.hi, *hi, (*from, *to));
    }
}

/// Interchanges of a table.
pub fn assert_interchanges(rt: &impl Abort, fares: &Fares, rows: &[Walk]) {
    for (from, to, minutes) in rows {
        assert_same_at(rt, fares.interchange(*from, *to), *minutes, (*from, *to));
    }
}

// The second pair gives a price below each single, and a range of its own.
#[test]
fn a_pair_and_an_interchange_count_in_both_directions(rt: HostRuntime) {
    let fares = table(&rt, rt.alloc(), EXAMPLE_TABLE, &MORE_ROWS);
    assert_legs(&rt, &fares, &LEGS);
    assert_interchanges(&rt, &fares, &WALKS);
}
