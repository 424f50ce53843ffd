//! Journeys by lines in and lines out, on the example table: the amounts are worked out by hand
//! from the rules of FARES.md.

use super::assert_replayed;
use std::alloc::{AllocError, Global};
use std::process::Abort;
use std::test::Fail;

/// 2025-01-06 00:00, a Monday.
const MONDAY: u32 = 1_736_121_600;

/// 2025-01-11 00:00.
const SATURDAY: u32 = MONDAY + 5 * 86_400;

/// The kind byte of a touch in, and that of a touch out.
const IN: u8 = 1;

const OUT: u8 = 2;

/// A touch of the card, and its reply: its kind and station, the time of the day, and the verdict,
/// change and balance.
type Passing = ((u8, u16), (u32, u32, u32), (u8, i32, i64));

/// Out of town in the evening: off-peak.
const OUT_OF_TOWN: [Passing; 2] = [
    ((IN, 3), (17, 0, 0), (1, -900, 1100)),
    ((OUT, 1), (17, 40, 0), (4, 590, 1690)),
];

const INTO_TOWN: [Passing; 2] = [
    ((IN, 1), (17, 0, 0), (1, -900, 1100)),
    ((OUT, 3), (17, 40, 0), (4, 500, 1600)),
];

/// Three journeys from 2 to 1, of which the third is capped. A fourth costs nothing, and no refund
/// of it is taken back: out again with no touch in.
const WEEKDAY: [Passing; 9] = [
    ((IN, 2), (6, 40, 0), (1, -900, 1100)),
    ((OUT, 1), (7, 5, 0), (4, 550, 1650)),
    ((IN, 2), (7, 40, 0), (1, -900, 750)),
    ((OUT, 1), (8, 5, 0), (4, 550, 1300)),
    ((IN, 2), (8, 40, 0), (1, -900, 400)),
    ((OUT, 1), (9, 5, 0), (4, 750, 1150)),
    ((IN, 2), (10, 0, 0), (1, -700, 450)),
    ((OUT, 1), (10, 25, 0), (4, 700, 1150)),
    ((OUT, 1), (10, 30, 0), (5, -700, 450)),
];

const WEEKEND: [Passing; 6] = [
    ((IN, 2), (6, 40, 0), (1, -700, 1300)),
    ((OUT, 1), (7, 5, 0), (4, 410, 1710)),
    ((IN, 2), (7, 40, 0), (1, -700, 1010)),
    ((OUT, 1), (8, 5, 0), (4, 410, 1420)),
    ((IN, 2), (8, 40, 0), (1, -700, 720)),
    ((OUT, 1), (9, 5, 0), (4, 680, 1400)),
];

/// In again within ten minutes, and a second later.
const AFTER_EIGHT: [Passing; 4] = [
    ((IN, 2), (8, 0, 0), (1, -900, 1100)),
    ((OUT, 1), (8, 25, 0), (4, 550, 1650)),
    ((IN, 4), (8, 33, 0), (2, -900, 750)),
    ((OUT, 3), (9, 0, 0), (4, 1010, 1760)),
];

const AFTER_TEN: [Passing; 4] = [
    ((IN, 2), (8, 0, 0), (1, -900, 1100)),
    ((OUT, 1), (8, 25, 0), (4, 550, 1650)),
    ((IN, 4), (8, 35, 0), (2, -900, 750)),
    ((OUT, 3), (9, 0, 0), (4, 1010, 1760)),
];

const TOO_LATE: [Passing; 4] = [
    ((IN, 2), (8, 0, 0), (1, -900, 1100)),
    ((OUT, 1), (8, 25, 0), (4, 550, 1650)),
    ((IN, 4), (8, 35, 1), (1, -900, 750)),
    ((OUT, 3), (9, 0, 0), (4, 500, 1250)),
];

/// The lines in and the lines out of a day: the card is issued with 2000 pence at 00:01, and then
/// makes these steps.
fn lines(alloc: Global, day: u32, steps: &[Passing]) -> Result<(String, String), AllocError> {
    let moment = day.saturating_add(60);
    let mut asked = format!(in alloc;
        "000f0400010000000100000001{moment:08x}\n00130300010000000200000001000007d0{moment:08x}\n"
    )?;
    let mut answered = String::new(alloc);
    answered.push_str("00148100010000000108000000000000000000000000\n")?;
    answered.push_str("00148100010000000207000007d000000000000007d0\n")?;
    let mut number: u32 = 2;
    for ((kind, station), (hour, minute, second), (verdict, change, balance)) in steps {
        number = number.saturating_add(1);
        let minutes = hour.saturating_mul(60).saturating_add(*minute);
        let seconds = minutes.saturating_mul(60).saturating_add(*second);
        let moment = day.saturating_add(seconds);
        let line = format!(in alloc;
            "0011{kind:02x}0001{number:08x}00000001{station:04x}{moment:08x}\n"
        )?;
        asked.push_str(line.as_str())?;
        let line = format!(in alloc;
            "0014810001{number:08x}{verdict:02x}{change:08x}{balance:016x}\n"
        )?;
        answered.push_str(line.as_str())?;
    }
    Ok((asked, answered))
}

/// Replays the lines of a day from an empty history, and compares what is written.
fn check<R: Abort + AllocGlobal>(
    rt: &R,
    day: u32,
    steps: &[Passing],
    at: &str,
) -> Result<(), Fail> {
    let (asked, answered) = lines(rt.alloc(), day, steps)?;
    let lines = (asked.as_bytes(), false);
    assert_replayed(rt, lines, Ok(()), answered.as_bytes(), at)
}

#[test]
fn worked_journeys_get_their_answers(rt: HostRuntime) -> Result<(), Fail> {
    let rows: [(u32, &[Passing], &str); 7] = [
        (
            MONDAY,
            &OUT_OF_TOWN,
            "an evening journey out of town is off-peak",
        ),
        (MONDAY, &INTO_TOWN, "an evening journey into town is not"),
        (
            MONDAY,
            &WEEKDAY,
            "a third journey is capped, and a refund never takes",
        ),
        (
            SATURDAY,
            &WEEKEND,
            "a third journey of a Saturday is capped",
        ),
        (
            MONDAY,
            &AFTER_EIGHT,
            "in after eight minutes continues the journey",
        ),
        (
            MONDAY,
            &AFTER_TEN,
            "in after ten minutes continues the journey",
        ),
        (MONDAY, &TOO_LATE, "in a second later begins another"),
    ];
    for (day, steps, at) in rows {
        check(&rt, day, steps, at)?;
    }
    Ok(())
}
