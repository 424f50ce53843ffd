//! Names and zones at the ends of what a station may have.
use super::fares::assert_stations;
use super::{Change, table};
use fare_table::{EXAMPLE_TABLE, Zones};

/// A change of the example, and the station that it has then.
type Row = (Change, u16, &'static str, Zones);

/// Names of 1, 1, 64 and 64 bytes. The letters with accents have two bytes each.
const NAME_64: &str = "0123456789abcdef0123456789abcdef0123456789abcdef0123456789abcdef";

const ACCENTS_64: &str = "àèìòùéíóàèìòùéíóàèìòùéíóàèìòùéíó";

const ROWS: [Row; 8] = [
    (("Cedar", "x"), 3, "x", Zones::One(3)),
    (("Cedar", " "), 3, " ", Zones::One(3)),
    (("Cedar", NAME_64), 3, NAME_64, Zones::One(3)),
    (("Cedar", ACCENTS_64), 3, ACCENTS_64, Zones::One(3)),
    // One zone, or two in ascending order.
    (("[2, 3]", "[1]"), 5, "Elder", Zones::One(1)),
    (("[2, 3]", "[3]"), 5, "Elder", Zones::One(3)),
    (("[2, 3]", "[1, 2]"), 5, "Elder", Zones::Two(1, 2)),
    (("[2, 3]", "[1, 3]"), 5, "Elder", Zones::Two(1, 3)),
];

#[test]
fn a_station_has_a_name_of_1_to_64_bytes_and_one_zone_or_two(rt: HostRuntime) {
    for (change, id, name, zones) in ROWS.as_slice() {
        let fares = table(&rt, rt.alloc(), EXAMPLE_TABLE, &[*change]);
        assert_stations(&rt, &fares, &[(*id, *name, *zones)], *name);
    }
}
