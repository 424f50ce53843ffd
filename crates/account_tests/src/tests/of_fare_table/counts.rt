//! Lists with as many rows as they may have.
use super::fares::{assert_stamps, assert_stations};
use super::links::{Leg, Walk, assert_interchanges, assert_legs};
use super::{assert_same, table_of};
use crate::tests::moments::Moment;
use fare_table::{Cap, Fares, Zones};
use money_time::Window;
use std::alloc::{AllocError, Global};
use std::fmt::Write;
use std::process::Abort;

/// The keys of a table itself.
const RATES: &str = "zone = 'UTC0'\nentry_minimum = 1\nbalance_limit = 1\nleg_minutes = 90\n\
    evening_rule = false\nmaximum_peak = 1\nmaximum_off_peak = 1\n";

/// The only single.
const SINGLE: &str = "{low = 1, high = 1, peak = 1, off_peak = 1}";

/// The zones and prices of a pair.
const ONE_ZONE: &str = "lo = 1, hi = 1, peak = 1, off_peak = 1";

/// Legs where there are 10,000 pairs, each with the minutes of its second station's number.
const LEGS: [Leg; 6] = [
    (1, 101, 101, 1, 1),
    (101, 1, 101, 1, 1),
    (100, 200, 200, 1, 1),
    (200, 100, 200, 1, 1),
    (1, 100, 90, 1, 1),
    (101, 200, 90, 1, 1),
];

/// Interchanges where there are 1,000 of them.
const WALKS: [Walk; 6] = [
    (1, 101, Some(101)),
    (101, 1, Some(101)),
    (20, 150, Some(150)),
    (150, 20, Some(150)),
    (20, 151, None),
    (21, 101, None),
];

/// 06:30 on 2025-12-24 and on the two days after it: the first and the third are holidays.
const MORNINGS: [Moment; 3] = [
    (1766557800, 20446, 390, Window::Off),
    (1766644200, 20447, 390, Window::Early),
    (1766730600, 20448, 390, Window::Off),
];

// Stations numbered from 1.
fn stations(alloc: Global, count: u32) -> Result<String, AllocError> {
    let mut text = String::new(alloc);
    for id in 1..=count {
        write!(text, "{{id = {id}, name = 'Number {id}', zones = [1]}},\n")?;
    }
    Ok(text)
}

// Interchanges of each station up to 20 with each from 101 to 150, 1,000 of them. The minutes are
// the number of the second station.
fn interchanges(alloc: Global) -> Result<String, AllocError> {
    let mut text = String::new(alloc);
    for number in 0..1_000 {
        let a = 1 + number / 50;
        let b = 101 + number % 50;
        write!(text, "{{a = {a}, b = {b}, minutes = {b}}},\n")?;
    }
    Ok(text)
}

// Pairs of each station up to 100 with each from 101 to 200, 10,000 of them. The minutes are the
// number of the second station.
fn pairs(alloc: Global) -> Result<String, AllocError> {
    let mut text = String::new(alloc);
    for number in 0..10_000 {
        let from = 1 + number / 100;
        let to = 101 + number % 100;
        write!(
            text,
            "{{from = {from}, to = {to}, {ONE_ZONE}, minutes = {to}}},\n"
        )?;
    }
    Ok(text)
}

// Caps of both kinds from each zone up to 4 to each from 5 to 8, 32 of them.
fn caps(alloc: Global) -> Result<String, AllocError> {
    let mut text = String::new(alloc);
    for number in 0..16 {
        let lo = 1 + number / 4;
        let hi = 5 + number % 4;
        write!(
            text,
            "{{lo = {lo}, hi = {hi}, kind = 'anytime', price = 1}},\n"
        )?;
        write!(
            text,
            "{{lo = {lo}, hi = {hi}, kind = 'off-peak', price = 1}},\n"
        )?;
    }
    Ok(text)
}

// 999 times 2025-12-24, a Wednesday, and the Friday after it.
fn holidays(alloc: Global) -> Result<String, AllocError> {
    let mut text = String::new(alloc);
    for _ in 0..999 {
        text.push_str("'2025-12-24',\n")?;
    }
    text.push_str("'2025-12-26'")?;
    Ok(text)
}

/// A table's text with so many stations, one single and this list.
fn text(
    alloc: Global,
    count: u32,
    key: &str,
    rows: Result<String, AllocError>,
) -> Result<String, AllocError> {
    let rows = rows?;
    let stations = stations(alloc, count)?;
    format!(in alloc; "{RATES}station = [{stations}]\nsingle = [{SINGLE}]\n{key} = [{rows}]\n")
}

/// The table with so many stations, one single and this list.
fn table(
    rt: &impl Abort,
    alloc: Global,
    count: u32,
    key: &str,
    rows: Result<String, AllocError>,
) -> Fares {
    let text = text(alloc, count, key, rows).ok().expect(rt, "a text");
    table_of(rt, alloc, text.as_str())
}

/// The last cap where there are 32.
const LAST_CAP: Cap = Cap {
    lo: 4,
    hi: 8,
    off_peak: true,
    price: 1,
};

#[test]
fn a_table_may_have_1000_stations_and_32_caps(rt: HostRuntime) {
    let fares = table(&rt, rt.alloc(), 1_000, "cap", caps(rt.alloc()));
    assert_same(&rt, fares.station_count(), 1_000);
    assert_same(&rt, fares.station(1_001).is_none(), true);
    let last = [(1_000, "Number 1000", Zones::One(1))];
    assert_stations(&rt, &fares, &last, "1,000 stations");
    let caps = fares.caps();
    assert_same(
        &rt,
        (caps.len(), caps.last().copied()),
        (32, Some(LAST_CAP)),
    );
}

#[test]
fn a_table_may_have_10000_pairs_1000_interchanges_and_1000_holidays(rt: HostRuntime) {
    let alloc = rt.alloc();
    let paired = table(&rt, alloc, 200, "pair", pairs(alloc));
    assert_legs(&rt, &paired, &LEGS);
    drop(paired);
    let linked = table(&rt, alloc, 200, "interchange", interchanges(alloc));
    assert_interchanges(&rt, &linked, &WALKS);
    drop(linked);
    let festive = table(&rt, alloc, 1, "holidays", holidays(alloc));
    assert_stamps(&rt, &festive, &MORNINGS, "1,000 holidays");
}
