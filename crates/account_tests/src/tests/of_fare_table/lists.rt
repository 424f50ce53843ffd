//! A table without the lists that may be left out.
use super::fares::{assert_stamps, leg_of};
use super::{Change, assert_same, table};
use crate::tests::moments::Moment;
use fare_table::{EXAMPLE_TABLE, Fare};
use money_time::Window;

/// The lists that may be absent, each under a name that is ignored.
const NO_LISTS: [Change; 4] = [
    ("holidays = [", "days = ["),
    ("pair = [", "pairs = ["),
    ("cap = [", "caps = ["),
    ("interchange = [", "others = ["),
];

/// The lists that may be empty, each before one that is ignored.
const EMPTY_LISTS: [Change; 4] = [
    ("holidays = [", "holidays = []\ndays = ["),
    ("pair = [", "pair = []\npairs = ["),
    ("cap = [", "cap = []\ncaps = ["),
    ("interchange = [", "interchange = []\nothers = ["),
];

/// 2025-12-25 at 08:00, a Thursday that is no holiday.
const MORNING: [Moment; 1] = [(1766649600, 20447, 480, Window::Early)];

#[test]
fn four_lists_may_be_absent_or_empty(rt: HostRuntime) {
    // A journey from 2 to 4 costs the single of the zones 2 and 1.
    let single = Fare {
        pence: 350,
        lo: 1,
        hi: 2,
        off_peak: false,
    };
    for changes in [&NO_LISTS, &EMPTY_LISTS] {
        let fares = table(&rt, rt.alloc(), EXAMPLE_TABLE, changes);
        assert_same(&rt, leg_of(&rt, &fares, 2, 4, Window::Early), (single, 90));
        assert_same(&rt, fares.caps().len(), 0);
        assert_same(&rt, fares.interchange(1, 4), None);
        assert_stamps(&rt, &fares, &MORNING, "the example without lists");
    }
}
