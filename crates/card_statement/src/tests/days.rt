//! The rows of fare days.

ghost use Rattle.std.specs.Prelude.{◌≤◌, length};
ghost use Rattle.station_limits.specs.declared.limits.TheConstants.{HISTORY_LIMIT};

use super::{MONDAY, TRIES, assert_same, passage};
use crate::statement::{Day, Incomplete, Reason};
use fare_table::{Cap, Fare};
use money_time::Window;
use oyster_account::Journey;
use std::alloc::Global;
use std::process::Abort;
use std::test::Fail;

/// The caps of docs/example.toml.
const CAPS: [Cap; 3] = [
    Cap {
        lo: 1,
        hi: 2,
        off_peak: false,
        price: 850,
    },
    Cap {
        lo: 1,
        hi: 3,
        off_peak: false,
        price: 1000,
    },
    Cap {
        lo: 1,
        hi: 2,
        off_peak: true,
        price: 600,
    },
];

/// A journey of half an hour at this fare.
fn journey(pence: u32, lo: u8, hi: u8, off_peak: bool) -> Journey {
    let window = if off_peak { Window::Off } else { Window::Early };
    Journey {
        start: passage(2, 480, window),
        finish: passage(1, 510, window),
        fare: Fare {
            pence,
            lo,
            hi,
            off_peak,
        },
    }
}

/// Monday's row, again if memory was refused.
fn row(alloc: Global, journeys: &[Journey], incompletes: &[Incomplete]) -> Result<Day, Fail>
    requires journeys { length journeys.now ≤ HISTORY_LIMIT }
    requires incompletes { length incompletes.now ≤ HISTORY_LIMIT }
{
    for _ in 0..TRIES {
        if let Ok(day) = Day::of(alloc, &CAPS, MONDAY, journeys, incompletes) {
            return Ok(day);
        }
    }
    Err("memory is refused again and again".into())
}

/// Monday's row has these fares, this cap's price, this charge, and so many covered journeys.
fn assert_row(
    rt: &impl Abort,
    alloc: Global,
    journeys: &[Journey],
    want: (u64, Option<u32>, u64, usize),
) -> Result<(), Fail>
    requires { length journeys.now ≤ HISTORY_LIMIT }
{
    let (fares, price, charge, covered) = want;
    let day = row(alloc, journeys, &[])?;
    let marked = day.journeys.iter().filter(|row| row.covered).count();
    assert_same(rt, day.fares, fares);
    assert_same(rt, day.cap.map(|cap| cap.price), price);
    assert_same(rt, day.charge, charge);
    assert_same(rt, marked, covered);
    Ok(())
}

#[test]
fn a_day_names_the_cap_that_lowers_its_charge(rt: HostRuntime) -> Result<(), Fail> {
    let alloc = rt.alloc();
    let peak = journey(350, 1, 2, false);
    let wider = journey(240, 2, 3, false);
    let off_peak = journey(290, 1, 2, true);
    assert_row(&rt, alloc, &[], (0, None, 0, 0))?;
    assert_row(&rt, alloc, &[peak], (350, None, 350, 0))?;
    assert_row(&rt, alloc, &[peak, peak, peak], (1050, Some(850), 850, 3))?;
    assert_row(
        &rt,
        alloc,
        &[wider, peak, peak, peak],
        (1290, Some(1000), 1000, 4),
    )?;
    assert_row(
        &rt,
        alloc,
        &[off_peak, off_peak, off_peak],
        (870, Some(600), 600, 3),
    )?;
    assert_row(
        &rt,
        alloc,
        &[off_peak, off_peak, off_peak, wider],
        (1110, Some(600), 840, 3),
    )
}

#[test]
fn an_incomplete_touch_counts_towards_no_cap(rt: HostRuntime) -> Result<(), Fail> {
    let late = Incomplete {
        touch: passage(1, 570, Window::Off),
        reason: Reason::Late,
        pence: 700,
    };
    let unfinished = Incomplete {
        touch: passage(2, 480, Window::Early),
        reason: Reason::NotLeftInTime,
        pence: 900,
    };
    let day = row(rt.alloc(), &[], &[late, unfinished])?;
    assert_same(&rt, day.charge, 0);
    assert_same(&rt, day.missing, 1600);
    assert_same(&rt, day.incomplete.get(1).copied(), Some(unfinished));
    Ok(())
}
