//! Which rows of a text name what is asked for, worked out by hand.
use super::notes::sheet_of;
use crate::tests::assert_same_at;
use fare_table::Key;
use std::test::Fail;
use table_check::Wanted;

/// A text with rows in each list, some of which name what an earlier one names.
const ROWS: &str = "station = [{id = 1}, {id = 2}, {id = 1}, {id = 1}]\n\
single = [{low = 1, high = 2}, {low = 1, high = 1}, {low = 1, high = 2}]\n\
pair = [{from = 2, to = 4}, {from = 4, to = 5}, {from = 4, to = 2}]\n\
cap = [{lo = 1, hi = 2, kind = \"anytime\"}, {lo = 1, hi = 2, kind = \"off-peak\"},\n\
{lo = 1, hi = 2, kind = \"off-peak\"}]\n\
interchange = [{a = 1, b = 5}, {a = 5, b = 1}]\n";

/// Stations, each with the key that names it first: of a pair, or else of an interchange.
const NAMING: [(u16, Option<Wanted>); 5] = [
    (2, Some(Wanted::Cell("pair", 1, "from"))),
    (4, Some(Wanted::Cell("pair", 1, "to"))),
    (5, Some(Wanted::Cell("pair", 2, "to"))),
    (1, Some(Wanted::Cell("interchange", 1, "a"))),
    (3, None),
];

#[test]
fn a_station_is_named_first_by_a_pair_or_else_by_an_interchange(
    rt: HostRuntime,
) -> Result<(), Fail> {
    let sheet = sheet_of(rt.alloc(), ROWS)?;
    for (station, want) in NAMING {
        assert_same_at(&rt, sheet.naming(station), want, station);
    }
    Ok(())
}

#[test]
fn a_pair_names_its_stations_in_either_order(rt: HostRuntime) -> Result<(), Fail> {
    let sheet = sheet_of(rt.alloc(), ROWS)?;
    for (from, to, want) in [
        (2, 4, true),
        (5, 4, true),
        (2, 5, false),
        (1, 5, false),
        (4, 4, false),
    ] {
        assert_same_at(&rt, sheet.has_pair(from, to), want, (from, to));
    }
    Ok(())
}

/// Rows, each with the first row before it that names the same.
const EARLIER: [(Key, usize, Option<usize>); 11] = [
    (Key::Station, 1, None),
    (Key::Station, 2, None),
    (Key::Station, 3, Some(1)),
    (Key::Station, 4, Some(1)),
    (Key::Station, 5, None),
    (Key::Single, 3, Some(1)),
    (Key::Pair, 2, None),
    (Key::Pair, 3, Some(1)),
    (Key::Cap, 2, None),
    (Key::Cap, 3, Some(2)),
    (Key::Interchange, 2, Some(1)),
];

#[test]
fn a_row_is_told_by_the_first_that_names_the_same(rt: HostRuntime) -> Result<(), Fail> {
    let sheet = sheet_of(rt.alloc(), ROWS)?;
    for (list, row, want) in EARLIER {
        assert_same_at(&rt, sheet.row_before(list, row), want, (list, row));
    }
    Ok(())
}
