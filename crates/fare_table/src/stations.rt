//! The stations of a table, by number.
ghost use Rattle.std.specs.Prelude.{◌≡◌, ◌≢◌, ◌==◌, ◌++◌, List, [], map, length};
ghost use Rattle.std.specs.Prelude.{option_copied, option_map, Some, None, IfOk, IfErr};
ghost use Rattle.std.specs.List.{find, list_any, list_all};
ghost use Rattle.toml.specs.View.{view};
ghost use Rattle.indexmap.specs.IndexMap.{values};
ghost use Rattle.toml_reading.specs.First.{first};
ghost use Rattle.fare_table.specs.declared.station.Station.{Station};
ghost use Rattle.fare_table.specs.Faults.{is_known, unknown};
ghost use Rattle.fare_table.specs.Index.{IsIndexed};
ghost use Rattle.fare_table.specs.Repeats.{repeats};
ghost use Rattle.fare_table.specs.Content.{same_station, station_of, stations_of, zones_of_value};
ghost use Rattle.fare_table.specs.Zones.{has_zone};

use crate::fault::TableFault;
use crate::key::Key;
use crate::station::{Name, Station, Zones};
use crate::{rows, tree};
use indexmap::IndexMap;
use std::alloc::{AllocError, Global};
use std::marker::Model;
use toml::Value;
use toml_reading::text_in;

/// The stations of a table, by number. Contracts see them in their order.
pub struct Stations {
    rows: IndexMap<u16, Station>,
}

/// By hand, so that it is one call wherever one is dropped.
impl Drop for Stations {
    fn drop(self) {
        let Stations { rows: _ } = self;
    }
}

impl Model for Stations {
    ghost Value = { List Station };

    ghost view = { λ stations. values stations.rows };

    ghost invariant = { λ stations. IsIndexed (λ station. station.id) stations.rows.entries };
}

impl Stations {
    /// The stations of these rows. `Twice` names the first row with the number of an earlier one.
    pub fn read(alloc: Global, rows: &[Value]) -> Result<Stations, TableFault>
        ensures ok { IfOk result (λ stations. stations ≡ stations_of (map view rows.now)) }
        ensures no_fault { IfOk result
            (λ _. first (repeats same_station Key.Station [] 1
            (stations_of (map view rows.now))) ≡ None) }
        ensures fault { IfErr result (λ fault. fault ≢ TableFault.Memory
            → first (repeats same_station Key.Station [] 1
            (stations_of (map view rows.now))) ≡ Some fault) }
    {
        let mut index = IndexMap::new(alloc);
        for (place, row) in rows.iter().enumerate() {
            let station = station_of(alloc, row)?;
            let id = station.id;
            if index.contains_key(&id) {
                return Err(TableFault::Twice(Key::Station, place + 1));
            }
            index.insert(id, station)?;
        }
        Ok(Stations { rows: index })
    }

    /// The station of this number.
    pub fn find(&self, id: u16) -> Option<&Station>
        ensures { option_copied result ≡ find (λ station. id == station.id) self.now }
    {
        self.rows.get(&id)
    }

    /// Whether there is a station of this number.
    pub fn has(&self, id: u16) -> bool
        ensures { result ≡ is_known self.now id }
    {
        self.rows.contains_key(&id)
    }

    /// Whether each of the other stations is one of these, by its number.
    pub fn has_all(&self, other: &Stations) -> bool
        ensures { result ≡ list_all (λ station. is_known self.now station.id) other.now }
    {
        other.rows.values().all(|station| self.has(station.id))
    }

    /// Whether some station is in this zone.
    pub fn has_zone(&self, zone: u8) -> bool
        ensures { result ≡ list_any (λ station. has_zone zone station.zones) self.now }
    {
        self.rows.values().any(|station| station.zones.has(zone))
    }

    /// How many stations there are.
    pub fn len(&self) -> usize
        ensures { result ≡ length self.now }
    {
        self.rows.len()
    }
}

/// The fault of the first of two stations that is none of these.
pub fn unknown(stations: &Stations, one: u16, other: u16) -> Option<TableFault>
    ensures { result ≡ first (unknown stations.now one ++ unknown stations.now other) }
{
    if !stations.has(one) {
        Some(TableFault::UnknownStation(one))
    } else if !stations.has(other) {
        Some(TableFault::UnknownStation(other))
    } else {
        None
    }
}

/// The station of a row.
fn station_of(alloc: Global, row: &Value) -> Result<Station, AllocError>
    ensures { IfOk result (λ station. station ≡ station_of (view row.now)) }
{
    let name = Name::new(alloc, text_in(rows::value(row, Key::StationName)))?;
    Ok(Station {
        id: rows::station(row, Key::StationId),
        name,
        zones: zones_of(rows::value(row, Key::StationZones)).unwrap_or(Zones::One(0)),
    })
}

/// The zones of a value that may be there.
fn zones_of(value: Option<&Value>) -> Option<Zones>
    ensures { result ≡ zones_of_value (option_map (λ value. view value.now) value.entry) }
{
    match value {
        Some(value) => tree::zones_in(value),
        None => None,
    }
}
