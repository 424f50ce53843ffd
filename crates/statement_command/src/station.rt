//! How a statement names stations.

use fare_schedule::Schedule;
use std::alloc::{AllocError, Global};

/// The name of a station in the table in force on a fare day, if the table has the station.
pub(crate) fn name_of<'a>(schedule: &'a Schedule, day: i32, station: u16) -> Option<&'a str> {
    match schedule.on(day).station(station) {
        Some(found) => Some(found.name.as_str()),
        None => None,
    }
}

/// The station as a text names it: by its name, or by its number if the table doesn't have it.
pub(crate) fn shown_station(
    alloc: Global,
    schedule: &Schedule,
    day: i32,
    station: u16,
) -> Result<String, AllocError> {
    match name_of(schedule, day, station) {
        Some(name) => String::from_str(alloc, name),
        None => format!(in alloc; "station {station}"),
    }
}
