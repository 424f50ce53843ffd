//! What two tables are compared by, and stamps by the zone of one and the holidays of the other.
use super::{Change, assert_same, assert_same_at, table, table_of};
use crate::tests::moments::{Moment, stamp_of};
use fare_table::{EXAMPLE_TABLE, Fares};
use money_time::Window;
use std::process::Abort;

/// A text in place of the example's zone, as TOML has it, and the text that it stands for.
const ZONES: [(&str, &str); 3] = [
    ("GMT0BST,M3.5.0/1,M10.5.0", "GMT0BST,M3.5.0/1,M10.5.0"),
    ("GMT0", "GMT0"),
    ("\\u0047MT0", "GMT0"),
];

#[test]
fn the_text_of_the_zone_is_told(rt: HostRuntime) {
    for (text, told) in ZONES.as_slice() {
        let change = [("GMT0BST,M3.5.0/1,M10.5.0", *text)];
        let fares = table(&rt, rt.alloc(), EXAMPLE_TABLE, &change);
        assert_same(&rt, fares.zone_text(), *told);
    }
}

/// A change of the example, whether the example has each station of the changed table, and whether
/// that one has each of the example.
type Row = (Change, bool, bool);

/// Other names and zones; a station less; a station more; a station with another number.
const STATIONS: [Row; 5] = [
    (("Elder", "Eller"), true, true),
    (("zones = [2, 3]", "zones = [3]"), true, true),
    (
        ("  {id = 5, name = \"Elder\", zones = [2, 3]},\n", ""),
        true,
        false,
    ),
    (
        (
            "  {id = 5,",
            "  {id = 6, name = \"Fir\", zones = [1]},\n  {id = 5,",
        ),
        false,
        true,
    ),
    (("id = 5", "id = 6"), false, false),
];

#[test]
fn stations_are_compared_by_their_numbers(rt: HostRuntime) {
    let example = table_of(&rt, rt.alloc(), EXAMPLE_TABLE);
    for (change, is_had, has) in STATIONS.as_slice() {
        let other = table(&rt, rt.alloc(), EXAMPLE_TABLE, &[*change]);
        let found = (
            example.has_stations_of(&other),
            other.has_stations_of(&example),
        );
        assert_same_at(&rt, found, (*is_had, *has), *change);
    }
}

/// A table five hours behind, whose holiday is Monday 2025-07-07.
const BEHIND: [Change; 2] = [
    ("GMT0BST,M3.5.0/1,M10.5.0", "EST5"),
    ("2025-12-25", "2025-07-07"),
];

// By the first table's zone and the second's holidays this moment has this stamp.
fn assert_stamp(rt: &impl Abort, one: &Fares, other: &Fares, expected: Moment) {
    let by_one = one.stamp(expected.0).ok().expect(rt, "a stamp");
    assert_same(rt, other.restamp(by_one), stamp_of(&expected));
}

// 1751866200 is Monday 2025-07-07, 06:30 by the example's zone and 00:30 by the other, so of the
// fare day before. 1766667600 is Thursday 2025-12-25, 13:00 and 08:00.
#[test]
fn a_stamp_may_go_by_the_holidays_of_another_table(rt: HostRuntime) {
    let example = table_of(&rt, rt.alloc(), EXAMPLE_TABLE);
    let behind = table(&rt, rt.alloc(), EXAMPLE_TABLE, &BEHIND);
    let rows = [
        (&example, &example, (1751866200, 20276, 390, Window::Early)),
        (&example, &behind, (1751866200, 20276, 390, Window::Off)),
        (&behind, &example, (1751866200, 20275, 30, Window::Off)),
        (&behind, &example, (1766667600, 20447, 480, Window::Off)),
        (&behind, &behind, (1766667600, 20447, 480, Window::Early)),
    ];
    for (one, other, expected) in rows {
        assert_stamp(&rt, one, other, expected);
    }
}
