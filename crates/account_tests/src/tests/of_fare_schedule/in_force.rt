//! Which table is in force, and the stamps that go by it.
use super::*;
use crate::tests::moments::{Moment, stamp_of};
use money_time::Window;

/// The pence of a journey between 2 and 1 in the early window.
fn early_pence(rt: &impl Abort, fares: &Fares) -> u32 {
    assert_that(rt, fares.station(2).is_some());
    assert_that(rt, fares.station(1).is_some());
    fares.fare(2, 1, Window::Early).pence
}

#[test]
fn a_revised_table_counts_from_its_day(rt: HostRuntime) {
    let schedule = revised(&rt, rt.alloc(), EXAMPLE_TABLE, &DEARER, 20095);
    let days = [
        (i32::MIN, EXAMPLE),
        (20094, EXAMPLE),
        (20095, REVISED),
        (20096, REVISED),
        (i32::MAX, REVISED),
    ];
    assert_days(&rt, &schedule, &days);
    assert_same(&rt, early_pence(&rt, schedule.on(20094)), 350);
    assert_same(&rt, early_pence(&rt, schedule.on(20095)), 380);
    assert_same(&rt, schedule.last_day(), Some(20095));
    // By the system's `TZ=RULE date -d @MOMENT`: Tuesday 2025-01-07, 08:00; Monday 2025-07-07,
    // 06:30 in summer time; Thursday 2025-12-25, 08:00, a holiday of both tables.
    let stamps = [
        (1736236800, 20095, 480, Window::Early),
        (1751866200, 20276, 390, Window::Early),
        (1766649600, 20447, 480, Window::Off),
    ];
    assert_stamps(&rt, &schedule, &stamps);
}

#[test]
fn without_a_revision_the_first_table_counts(rt: HostRuntime) {
    let alloc = rt.alloc();
    let mut schedule = schedule_of(&rt, alloc, EXAMPLE_TABLE);
    let supplied = schedule.supply(table(&rt, alloc, EXAMPLE_TABLE, &DEARER));
    assert_same(&rt, supplied, Ok(()));
    assert_days(
        &rt,
        &schedule,
        &[(0, EXAMPLE), (20095, EXAMPLE), (i32::MAX, EXAMPLE)],
    );
    assert_same(&rt, schedule.last_day(), None);
}

// There and back twice: each look-up has days before, between and behind the revisions.
#[test]
fn of_five_revisions_the_last_counts(rt: HostRuntime) {
    let mut schedule = revised(&rt, rt.alloc(), EXAMPLE_TABLE, &DEARER, -3);
    revise(&rt, &mut schedule, &EXAMPLE, 10);
    revise(&rt, &mut schedule, &REVISED, 11);
    revise(&rt, &mut schedule, &REVISED, 15);
    revise(&rt, &mut schedule, &EXAMPLE, i32::MAX);
    let days = [
        (-4, EXAMPLE),
        (-3, REVISED),
        (9, REVISED),
        (10, EXAMPLE),
        (11, REVISED),
        (14, REVISED),
        (15, REVISED),
        (i32::MAX - 1, REVISED),
        (i32::MAX, EXAMPLE),
    ];
    assert_days(&rt, &schedule, &days);
    assert_same(&rt, schedule.last_day(), Some(i32::MAX));

    // Whichever day is turned to.
    for (day, _) in days {
        schedule.turn_to(day);
        assert_days(&rt, &schedule, &days);
        assert_same(&rt, schedule.last_day(), Some(i32::MAX));
    }
}

#[test]
fn a_day_may_be_turned_to_before_it_is_revised(rt: HostRuntime) {
    let mut schedule = revised(&rt, rt.alloc(), EXAMPLE_TABLE, &DEARER, 10);
    schedule.turn_to(12);
    revise(&rt, &mut schedule, &EXAMPLE, 12);
    let days = [(9, EXAMPLE), (10, REVISED), (11, REVISED), (12, EXAMPLE)];
    assert_days(&rt, &schedule, &days);
}

// The stamps of a schedule are these.
fn assert_stamps(rt: &impl Abort, schedule: &Schedule, rows: &[Moment]) {
    for row in rows {
        let moment = row.0;
        assert_same_at(rt, schedule.stamp(moment), Ok(stamp_of(row)), moment);
    }
}

// The supplied table has Thursday 2025-01-09, day 20097, as its holiday, and counts from 20096 on,
// then not any more from 20098 on. Moments at 08:00 of 2025-01-09 and of 2025-12-25.
#[test]
fn a_stamp_goes_by_the_holidays_in_force(rt: HostRuntime) {
    let alloc = rt.alloc();
    let mut schedule = schedule_of(&rt, alloc, EXAMPLE_TABLE);
    assert_stamps(&rt, &schedule, &[(1736409600, 20097, 480, Window::Early)]);
    let other = table(&rt, alloc, EXAMPLE_TABLE, &[("2025-12-25", "2025-01-09")]);
    let digest = other.digest();
    assert_same(&rt, schedule.supply(other), Ok(()));
    revise(&rt, &mut schedule, &digest, 20096);
    let rows = [
        (1736409600, 20097, 480, Window::Off),
        (1766649600, 20447, 480, Window::Early),
    ];
    assert_stamps(&rt, &schedule, &rows);
    revise(&rt, &mut schedule, &EXAMPLE, 20098);
    let rows = [
        (1736409600, 20097, 480, Window::Off),
        (1766649600, 20447, 480, Window::Off),
    ];
    assert_stamps(&rt, &schedule, &rows);
}
