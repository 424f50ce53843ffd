//! A card by a schedule of two tables, of which the second counts from Tuesday 2025-01-07 on.

use super::*;
use crate::tests::tables::DEARER;
use fare_table::EXAMPLE_TABLE;

/// The fare day of that Tuesday, which begins at 04:30.
const TUESDAY: i32 = 20095;

/// A number of each rule that goes by a table.
const OTHERWISE: [Change; 8] = [
    ("entry_minimum = 190", "entry_minimum = 1300"),
    ("balance_limit = 9000", "balance_limit = 2500"),
    ("leg_minutes = 90", "leg_minutes = 60"),
    ("maximum_peak = 900", "maximum_peak = 1000"),
    ("maximum_off_peak = 700", "maximum_off_peak = 800"),
    ("350, off_peak = 290", "380, off_peak = 300"),
    ("price = 600", "price = 500"),
    ("minutes = 10}]", "minutes = 5}]"),
];

/// Numbers of the table with which cards are compared.
const WIDE_OTHERWISE: [Change; 7] = [
    ("entry_minimum = 190", "entry_minimum = 250"),
    ("balance_limit = 30_000", "balance_limit = 20_000"),
    ("leg_minutes = 90", "leg_minutes = 50"),
    ("maximum_peak = 1200", "maximum_peak = 1100"),
    ("350, off_peak = 290", "380, off_peak = 300"),
    ("a = 1, b = 4, minutes = 10", "a = 1, b = 4, minutes = 15"),
    ("price = 850", "price = 690"),
];

/// A journey costs by the table of its first touch in.
const JOURNEYS: [&[Step]; 2] = [
    // On Tuesday out at 04:50 is of the new fare day, and in at 04:25 of the one before.
    &[
        (In(2, 1_736_150_400), 1, -900, 1100, INSIDE),
        (Out(1, 1_736_151_900), 4, 550, 1650, OUTSIDE),
        (In(2, 1_736_223_900), 1, -700, 950, INSIDE),
        (Out(1, 1_736_225_400), 4, 410, 1360, OUTSIDE),
        (In(2, 1_736_236_800), 1, -1000, 360, INSIDE),
        (Out(1, 1_736_238_300), 4, 620, 980, OUTSIDE),
    ],
    // A late touch out takes the maximum of its own day: out at 06:30.
    &[
        (In(2, 1_736_223_900), 1, -700, 1300, INSIDE),
        (Out(1, 1_736_231_400), 6, -1000, 300, OUTSIDE),
    ],
];

/// Each rule goes by the table of its day.
const RULES: [&[Step]; 7] = [
    // In at 04:25, and out 85 minutes later: the limit is 90 minutes, and 60 from 04:30 on.
    &[
        (In(2, 1_736_223_900), 1, -700, 1300, INSIDE),
        (Out(1, 1_736_229_000), 4, 410, 1710, OUTSIDE),
    ],
    &[
        (In(2, 1_736_224_200), 1, -800, 1200, INSIDE),
        (Out(1, 1_736_229_300), 6, -800, 400, OUTSIDE),
    ],
    // A touch in at 04:29 continues within ten minutes, and from 04:30 on within five. One that
    // continues takes the maximum of the day on which its journey began.
    &[
        (In(2, 1_736_222_400), 1, -700, 1300, INSIDE),
        (Out(1, 1_736_223_600), 4, 410, 1710, OUTSIDE),
        (In(4, 1_736_224_140), 2, -700, 1010, INSIDE),
    ],
    &[
        (In(2, 1_736_222_400), 1, -700, 1300, INSIDE),
        (Out(1, 1_736_224_020), 4, 410, 1710, OUTSIDE),
        (In(4, 1_736_224_320), 2, -700, 1010, INSIDE),
        (Out(3, 1_736_226_000), 4, 780, 1790, OUTSIDE),
    ],
    &[
        (In(2, 1_736_222_400), 1, -700, 1300, INSIDE),
        (Out(1, 1_736_224_020), 4, 410, 1710, OUTSIDE),
        (In(4, 1_736_224_321), 1, -800, 910, INSIDE),
    ],
    // Two off-peak journeys of Tuesday reach its cap of 500, and a top-up its limit of 2500.
    &[
        (In(2, 1_736_244_000), 1, -800, 1200, INSIDE),
        (Out(1, 1_736_245_500), 4, 500, 1700, OUTSIDE),
        (In(2, 1_736_246_400), 1, -800, 900, INSIDE),
        (Out(1, 1_736_247_900), 4, 600, 1500, OUTSIDE),
        (TopUp(1001, 1_736_248_000), 26, 0, 1500, OUTSIDE),
        (TopUp(1000, 1_736_248_000), 7, 1000, 2500, OUTSIDE),
    ],
    // Two such journeys of Monday don't reach its cap of 600, and a third at 04:25 does. A
    // touch in asks for 190 pence at 04:25, and for 1300 from 04:30 on.
    &[
        (In(2, 1_736_157_600), 1, -700, 1300, INSIDE),
        (Out(1, 1_736_159_100), 4, 410, 1710, OUTSIDE),
        (In(2, 1_736_160_000), 1, -700, 1010, INSIDE),
        (Out(1, 1_736_161_500), 4, 410, 1420, OUTSIDE),
        (Out(1, 1_736_161_500), 5, -700, 720, OUTSIDE),
        (In(2, 1_736_223_900), 1, -700, 20, INSIDE),
        (Out(2, 1_736_224_800), 4, 680, 700, OUTSIDE),
        (In(2, 1_736_226_000), 24, 0, 700, OUTSIDE),
    ],
];

#[test]
fn journeys_and_rules_go_by_the_table_of_their_day(rt: HostRuntime) -> Result<(), Fail> {
    let tables: [(&[Change], &[&[Step]]); 2] = [(&DEARER, &JOURNEYS), (&OTHERWISE, &RULES)];
    for (changes, rows) in tables {
        let schedule = revised(&rt, rt.alloc(), EXAMPLE_TABLE, changes, TUESDAY);
        play(&rt, rt.alloc(), &schedule, &WITH_2000, rows)?;
    }
    Ok(())
}

#[test]
fn a_card_answers_as_a_plain_account_does_over_a_revision(rt: HostRuntime) -> Result<(), Fail> {
    let alloc = rt.alloc();
    let schedule = revised(&rt, alloc, WIDE_TABLE, &WIDE_OTHERWISE, TUESDAY);
    let mut wanderer = Wanderer::new();
    wander_on(&rt, alloc, &schedule, &mut wanderer)
}
