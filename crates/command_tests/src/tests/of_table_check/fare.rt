//! What a journey costs by a table, worked out by hand.
use super::check::changed;
use crate::tests::assert_same_at;
use fare_table::{EXAMPLE_TABLE, Fare, Fares};
use money_time::{Stamp, Window};
use std::test::Fail;
use table_check::{Quote, UnknownStation, cost_of};

/// Monday 2025-01-06 at 08:00.
const MORNING: Stamp = Stamp {
    moment: 1_736_150_400,
    day: 20_094,
    minute: 480,
    window: Window::Early,
};

/// The same day at 12:00.
const NOON: Stamp = Stamp {
    moment: 1_736_164_800,
    day: 20_094,
    minute: 720,
    window: Window::Off,
};

/// A journey of the day between the zones 1 and 2 in the peak: the cheaper zone of station 5 is 2.
const BY_ZONES: Quote = Quote {
    charge: 350,
    fare: Fare {
        pence: 350,
        lo: 1,
        hi: 2,
        off_peak: false,
    },
    is_named: false,
    stamp: MORNING,
};

/// A journey of the named pair outside the peak. Its fare is above the off-peak cap.
const BY_PAIR: Quote = Quote {
    charge: 180,
    fare: Fare {
        pence: 200,
        lo: 2,
        hi: 2,
        off_peak: true,
    },
    is_named: true,
    stamp: NOON,
};

/// Journeys by the example with an off-peak cap of 180 pence: two stations, and what one costs.
const JOURNEYS: [(u16, u16, Stamp, Result<Quote, UnknownStation>); 4] = [
    (5, 1, MORNING, Ok(BY_ZONES)),
    (4, 2, NOON, Ok(BY_PAIR)),
    (4, 6, NOON, Err(UnknownStation { station: 6 })),
    (7, 6, NOON, Err(UnknownStation { station: 7 })),
];

#[test]
fn a_journey_costs_its_fare_or_what_a_cap_makes_of_it(rt: HostRuntime) -> Result<(), Fail> {
    let text = changed(rt.alloc(), EXAMPLE_TABLE, "price = 600", "price = 180")?;
    let fares = Fares::read(rt.alloc(), text.as_str())?;
    for (from, to, stamp, want) in JOURNEYS {
        let is_named = from == 4;
        let cost = cost_of(&fares, is_named, from, to, stamp.moment);
        assert_same_at(&rt, cost, want, (from, to));
    }
    Ok(())
}
