//! Tables that are supplied, and those that aren't.
use super::*;
use std::alloc::AllocError;

/// The least number of numbered tables, and the one with which a schedule of the example and the
/// revised table is full.
const FIRST_NUMBER: u32 = 1;

const LAST_NUMBER: u32 = 14;

/// The example table with this number as its entry minimum.
fn numbered(rt: &impl Abort, alloc: Global, number: u32) -> Fares {
    let minimum = format!(in alloc; "entry_minimum = {number}")
        .ok()
        .expect(rt, "a text");
    table(
        rt,
        alloc,
        EXAMPLE_TABLE,
        &[("entry_minimum = 190", minimum.as_str())],
    )
}

// The schedule is the one of the example and of the revised table, which counts from 20095 on.
fn assert_revised(rt: &impl Abort, schedule: &Schedule) {
    assert_that(rt, schedule.knows(&EXAMPLE));
    assert_that(rt, schedule.knows(&REVISED));
    assert_that(rt, !schedule.knows(&[0; 32]));
    assert_days(rt, schedule, &[(20094, EXAMPLE), (20095, REVISED)]);
    assert_same(rt, schedule.last_day(), Some(20095));
}

/// The changes of the example in a table, and the fault by which it is refused.
type Refused = (&'static [Change], SupplyFault);

/// The zone's rule and one without summer time, and the same rule in another text.
const WINTER: Change = ("GMT0BST,M3.5.0/1,M10.5.0", "GMT0");

const SPELLED: Change = ("GMT0BST,", "GMT0BST-1,");

/// The row of station 5 and nothing, with a sixth station, and with another number.
const WITHOUT_5: Change = ("  {id = 5, name = \"Elder\", zones = [2, 3]},\n", "");

const MORE: Change = (
    "  {id = 5,",
    "  {id = 6, name = \"Fir\", zones = [1]},\n  {id = 5,",
);

const RENUMBERED: Change = ("id = 5", "id = 6");

/// Tables that are there, of another zone, and of other stations. Of two causes the lower is told.
const REFUSED: [Refused; 8] = [
    (&[], SupplyFault::Twice),
    (&DEARER, SupplyFault::Twice),
    (&[WINTER], SupplyFault::OtherZone),
    (&[SPELLED], SupplyFault::OtherZone),
    (&[WITHOUT_5], SupplyFault::OtherStations),
    (&[MORE], SupplyFault::OtherStations),
    (&[RENUMBERED], SupplyFault::OtherStations),
    (&[WINTER, WITHOUT_5], SupplyFault::OtherZone),
];

/// Each cause comes before that of one table too many, a seventeenth.
const REFUSED_IF_FULL: [Refused; 4] = [
    (&[], SupplyFault::Twice),
    (&[WINTER], SupplyFault::OtherZone),
    (&[WITHOUT_5], SupplyFault::OtherStations),
    (
        &[("entry_minimum = 190", "entry_minimum = 15")],
        SupplyFault::TooMany,
    ),
];

// Tables with these changes of the example are refused by these faults, and the schedule stays.
fn assert_refused(rt: &impl Abort, alloc: Global, schedule: &mut Schedule, rows: &[Refused]) {
    for (changes, fault) in rows {
        let refused = table(rt, alloc, EXAMPLE_TABLE, *changes);
        let digest = refused.digest();
        let known = schedule.knows(&digest);
        assert_same(rt, known, *fault == SupplyFault::Twice);
        assert_same(rt, schedule.supply(refused), Err(*fault));
        assert_same_at(rt, schedule.knows(&digest), known, *fault);
        assert_revised(rt, schedule);
    }
}

#[test]
fn a_table_is_refused_by_its_first_cause(rt: HostRuntime) {
    let alloc = rt.alloc();
    let mut schedule = revised(&rt, alloc, EXAMPLE_TABLE, &DEARER, 20095);
    assert_refused(&rt, alloc, &mut schedule, &REFUSED);
}

#[test]
fn a_seventeenth_table_is_too_many_where_it_has_no_other_cause(rt: HostRuntime) {
    let alloc = rt.alloc();
    let mut schedule = revised(&rt, alloc, EXAMPLE_TABLE, &DEARER, 20095);
    for number in FIRST_NUMBER..=LAST_NUMBER {
        let supplied = schedule.supply(numbered(&rt, alloc, number));
        assert_same_at(&rt, supplied, Ok(()), number);
    }
    assert_revised(&rt, &schedule);
    assert_refused(&rt, alloc, &mut schedule, &REFUSED_IF_FULL);
}

#[test]
fn a_supplied_table_is_known_and_may_change_a_station(rt: HostRuntime) {
    let alloc = rt.alloc();
    let mut schedule = revised(&rt, alloc, EXAMPLE_TABLE, &DEARER, 20095);
    let changes = [("\"Elder\", zones = [2, 3]", "\"Eller\", zones = [3]")];
    let supplied = table(&rt, alloc, EXAMPLE_TABLE, &changes);
    let digest = supplied.digest();
    assert_that(&rt, !schedule.knows(&digest));
    assert_same(&rt, schedule.supply(supplied), Ok(()));
    assert_that(&rt, schedule.knows(&digest));
    assert_revised(&rt, &schedule);
}

#[test]
fn a_fault_prints_its_number_and_name(rt: HostRuntime) -> Result<(), Fail> {
    let rows = [
        (SupplyFault::Memory, "1 Memory"),
        (SupplyFault::Twice, "2 Twice"),
        (SupplyFault::OtherZone, "3 OtherZone"),
        (SupplyFault::OtherStations, "4 OtherStations"),
        (SupplyFault::TooMany, "5 TooMany"),
    ];
    for (fault, text) in rows {
        let said = format!(in rt.alloc(); "{fault}")?;
        assert_same(&rt, said.as_str(), text);
    }
    // A refused growth is the first.
    assert_same(&rt, SupplyFault::from(AllocError), SupplyFault::Memory);
    Ok(())
}

#[test]
fn a_place_and_a_digest_stand_for_one_table(rt: HostRuntime) {
    let alloc = rt.alloc();
    let alone = schedule_of(&rt, alloc, EXAMPLE_TABLE);
    assert_same(&rt, alone.place(&REVISED), None);
    let schedule = revised(&rt, alloc, EXAMPLE_TABLE, &DEARER, 20095);
    for (digest, place) in [(EXAMPLE, Some(0)), (REVISED, Some(1)), ([0; 32], None)] {
        assert_same_at(&rt, schedule.place(&digest), place, digest);
    }
    // Where no table stands it is the first one's.
    for (place, digest) in [(0, EXAMPLE), (1, REVISED), (2, EXAMPLE), (255, EXAMPLE)] {
        assert_same_at(&rt, schedule.digest_at(place), digest, place);
    }
}
