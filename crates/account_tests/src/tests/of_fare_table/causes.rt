//! A fault of each cause that a text can have. The bad tables of scripts/tests have the others.
use super::{Change, assert_same_at, changed};
use fare_table::{EXAMPLE_TABLE, Fares, Key, TableFault};

/// A change of the example for each cause, and the fault that it makes.
const CAUSES: [(Change, TableFault); 10] = [
    (
        ("evening_rule = true", "evening_rule ="),
        TableFault::NotToml,
    ),
    (
        ("minutes = 10", "minute = 10"),
        TableFault::Missing(Key::InterchangeMinutes, 1),
    ),
    (
        ("price = 600", "price = true"),
        TableFault::WrongType(Key::CapPrice, 3),
    ),
    (("id = 3", "id = 0"), TableFault::Range(Key::StationId, 3)),
    (("hi = 3", "hi = 2"), TableFault::Twice(Key::Cap, 2)),
    (("from = 2", "from = 9"), TableFault::UnknownStation(9)),
    (
        ("zones = [2, 3]", "zones = [2, 4]"),
        TableFault::MissingSingle(1, 4),
    ),
    (("m_peak = 900", "m_peak = 399"), TableFault::MaximumTooLow),
    (("GMT0BST,", "Europe/London,"), TableFault::BadZone),
    (("2025-12-25", "2025-12-32"), TableFault::BadDate(1)),
];

#[test]
fn each_cause_has_its_fault(rt: HostRuntime) {
    for (change, fault) in CAUSES.as_slice() {
        let text = changed(rt.alloc(), EXAMPLE_TABLE, &[*change]).expect(&rt, "a text");
        let found = Fares::read(rt.alloc(), text.as_str()).err();
        assert_same_at(&rt, found, Some(*fault), *change);
    }
}
