//! What one table says otherwise than another, with the lines worked out by hand.
use super::notes::sheet_of;
use crate::tests::assert_same_at;
use std::alloc::Global;
use std::fmt::Write;
use std::test::Fail;
use table_check::{Said, changes_of};

/// A table with each list.
const OLD: &str = "zone = \"GMT0\"\nentry_minimum = 150\nevening_rule = true\n\
holidays = [\"2025-12-25\"]\n\
station = [{id = 1, name = \"Alder\", zones = [1]}, {id = 2, name = \"Birch\", zones = [2, 3]}]\n\
single = [{low = 1, high = 2, peak = 350, off_peak = 290}]\n\
pair = [{from = 2, to = 1, lo = 1, hi = 2, peak = 230, off_peak = 200}]\n\
cap = [{lo = 1, hi = 2, kind = \"off-peak\", price = 600}]\n\
interchange = [{a = 1, b = 2, minutes = 10}]\n\
unknown = 7\n";

/// The same places, but for the rule of the evening, a pair and a holiday; in another order.
const NEW: &str = "entry_minimum = 160\nzone = \"GMT0\"\nmaximum_peak = 900\n\
holidays = [\"2025-12-26\"]\n\
cap = [{lo = 1, hi = 2, kind = \"off-peak\", price = 600}]\n\
station = [{id = 2, name = \"Birch\", zones = [2, 3]}, {id = 1, name = \"Aspen\", zones = [1]}]\n\
single = [{low = 1, high = 2, off_peak = 290, peak = 360}]\n\
pair = [{from = 1, to = 2, lo = 1, hi = 2, peak = 230, off_peak = 200, minutes = 30}]\n\
interchange = [{a = 2, b = 1, minutes = 10}]\n\
unknown = 8\n";

/// What a text says at each place, a line each.
fn read(alloc: Global, text: &'static str) -> Result<String, Fail> {
    let said = reading(alloc, text)?;
    let mut lines = String::new(alloc);
    for one in &said {
        add_line(&mut lines, one)?;
    }
    Ok(lines)
}

/// Adds the line of a place.
fn add_line(lines: &mut String, said: &Said) -> Result<(), Fail> {
    let (place, value) = (said.place.as_str(), said.value.as_str());
    write!(lines, "{place} = {value}\n")?;
    Ok(())
}

/// What a text says at each place.
fn reading(alloc: Global, text: &'static str) -> Result<Vec<Said>, Fail> {
    Ok(sheet_of(alloc, text)?.reading(alloc)?)
}

#[test]
fn a_reading_has_each_place_of_a_table(rt: HostRuntime) -> Result<(), Fail> {
    let lines = read(rt.alloc(), OLD)?;
    let wanted = "zone = \"GMT0\"\nentry_minimum = 150\nevening_rule = true\n\
station 1 = name \"Alder\", zones 1\nstation 2 = name \"Birch\", zones 2 and 3\n\
single of zones 1 to 2 = peak 350, off_peak 290\n\
pair of stations 1 and 2 = lo 1, hi 2, peak 230, off_peak 200\n\
off-peak cap of zones 1 to 2 = price 600\n\
interchange of stations 1 and 2 = minutes 10\n\
holiday 2025-12-25 = yes\n";
    assert_same_at(&rt, lines.as_str(), wanted, OLD);
    Ok(())
}

#[test]
fn tables_that_differ_are_told_place_by_place(rt: HostRuntime) -> Result<(), Fail> {
    let alloc = rt.alloc();
    let (old, new) = (reading(alloc, OLD)?, reading(alloc, NEW)?);
    let text = changes_of(alloc, &old, &new)?;
    let wanted = "entry_minimum: 150 -> 160\nevening_rule: true -> none\n\
station 1: name \"Alder\", zones 1 -> name \"Aspen\", zones 1\n\
single of zones 1 to 2: peak 350, off_peak 290 -> peak 360, off_peak 290\n\
pair of stations 1 and 2: lo 1, hi 2, peak 230, off_peak 200 -> \
lo 1, hi 2, peak 230, off_peak 200, minutes 30\n\
holiday 2025-12-25: yes -> none\nmaximum_peak: none -> 900\nholiday 2025-12-26: none -> yes\n";
    assert_same_at(&rt, text.as_str(), wanted, NEW);
    let same = changes_of(alloc, &old, &old)?;
    assert_same_at(&rt, same.as_str(), "", OLD);
    Ok(())
}

/// The old table with each of its holidays twice, and one more.
const TWICE: &str = "zone = \"GMT0\"\nentry_minimum = 150\nevening_rule = true\n\
holidays = [\"2026-01-01\", \"2025-12-25\", \"2026-01-01\", \"2025-12-25\"]\n\
station = [{id = 1, name = \"Alder\", zones = [1]}, {id = 2, name = \"Birch\", zones = [2, 3]}]\n\
single = [{low = 1, high = 2, peak = 350, off_peak = 290}]\n\
pair = [{from = 2, to = 1, lo = 1, hi = 2, peak = 230, off_peak = 200}]\n\
cap = [{lo = 1, hi = 2, kind = \"off-peak\", price = 600}]\n\
interchange = [{a = 1, b = 2, minutes = 10}]\n";

#[test]
fn a_holiday_that_is_listed_twice_has_one_line(rt: HostRuntime) -> Result<(), Fail> {
    let alloc = rt.alloc();
    let (old, twice) = (reading(alloc, OLD)?, reading(alloc, TWICE)?);
    let told = changes_of(alloc, &old, &twice)?;
    assert_same_at(
        &rt,
        told.as_str(),
        "holiday 2026-01-01: none -> yes\n",
        TWICE,
    );
    let back = changes_of(alloc, &twice, &old)?;
    assert_same_at(
        &rt,
        back.as_str(),
        "holiday 2026-01-01: yes -> none\n",
        TWICE,
    );
    Ok(())
}
