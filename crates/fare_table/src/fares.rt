//! A fare table that was read, and what it is asked for.
ghost use Rattle.std.specs.Prelude.{◌≡◌, ◌≢◌, ◌≤◌, false, length, option_copied, None, Some, Ok};
ghost use Rattle.std.specs.Prelude.{IsSome, IfSome, IfOk, IfErr};
ghost use Rattle.std.specs.List.{All, Contains};
ghost use Rattle.std.proofs.Props.{props};
ghost use Rattle.fare_table.specs.Faults.{first_fault, fault_in};
ghost use Rattle.fare_table.specs.Limits.{is_maximum_low};
ghost use Rattle.fare_table.specs.Listed.{fares_of, band_of, HasSingles};
ghost use Rattle.fare_table.specs.Lists.{IsWithinLimits};
ghost use Rattle.fare_table.specs.declared.key.TheConstants.{HIGHEST_PRICE, HIGHEST_BALANCE};
ghost use Rattle.fare_table.specs.declared.key.TheConstants.{MOST_MINUTES, MOST_CAPS};

use crate::fare::{self, Fare};
use crate::fault::TableFault;
use crate::key::Key;
use crate::lists::{self, Lists};
use crate::rates::Rates;
use crate::rows::Cap;
use crate::station::{Station, Zones};
use crate::{document, times, tree};
use money_time::{Stamp, Window, Zone};
use sha2::{Digest, Sha256};
use std::alloc::{AllocError, Global};
use std::str;

/// A fare table that was read.
pub struct Fares {
    clock: Zone,
    zone_text: String,
    rates: Rates,
    holidays: Vec<i32>,
    lists: Lists,
    digest: station_limits::Digest,
    ghost within_maximum: { is_maximum_low rates lists.singles.items lists.pairs ≡ false },
    ghost within_limits: { IsWithinLimits rates lists } by { Prim.hlevel props },
    ghost has_singles: { HasSingles lists.stations lists.singles.items },
}

/// By hand, so that it is one call wherever one is dropped.
impl Drop for Fares {
    fn drop(self) {
        let Fares {
            clock: _,
            zone_text: _,
            rates: _,
            holidays: _,
            lists: _,
            digest: _,
        } = self;
    }
}

impl Fares {
    ghost use Rattle.fare_table.specs.Fares.{content_of, digest_of, zone_text_of};
    ghost use Rattle.fare_table.specs.Stations.{has_stations_of};
    ghost use Rattle.fare_table.specs.Table.{IsTableOf};
    ghost use Rattle.fare_table.specs.Fare.{station_at, zones_at, fare_of, maximum_of};
    ghost use Rattle.fare_table.specs.Fare.{leg_minutes_of, interchange_of};
    ghost use Rattle.fare_table.specs.Fare.{stamp_of};
    ghost use Rattle.money_time.specs.Stamp.{by_holidays};

    /// Reads a table's text, as TABLE.md says.
    ///
    /// It accepts exactly the valid tables, want of memory aside. A fault is of the first cause in
    /// their order that holds, at its first place. `Memory` comes where a growth was refused,
    /// before the causes that are looked for later. It allocates what the table keeps and the
    /// text's tree.
    pub fn read(alloc: Global, text: &str) -> Result<Fares, TableFault>
        ensures ok { IfOk result (IsTableOf text.now) }
        ensures no_fault { IfOk result (λ _. first_fault text.now ≡ None) }
        ensures fault { IfErr result (λ fault. fault ≢ TableFault.Memory
            → first_fault text.now ≡ Some fault) }
    {
        let tree = document::read(alloc, text)?;
        let lists = lists::read(alloc, &tree)?;
        let rates = Rates::of(&tree);
        if let Some(fault) = lists.first_fault(&rates) {
            return Err(fault);
        }
        let zone = times::zone_of(tree::text_at(&tree, Key::Zone))?;
        let holidays = times::days_of(alloc, tree::rows_at(&tree, Key::Holidays))?;
        let digest = Sha256::digest(text.as_bytes());
        let zone_text = document::zone_text(alloc, &tree)?;
        Ok(Fares {
            clock: zone,
            zone_text,
            rates,
            holidays,
            lists,
            digest,
        })
    }

    /// The table that bytes hold. Bytes that are no UTF-8 are no TOML document.
    ///
    /// `Memory` says nothing of the bytes. Any other fault is their first one (TABLE.md,
    /// "Faults").
    pub fn read_bytes(alloc: Global, bytes: &[u8]) -> Result<Fares, TableFault>
        ensures ok { IfOk result (IsTableOf bytes.now) }
        ensures no_fault { IfOk result (λ _. fault_in bytes.now ≡ None) }
        ensures fault { IfErr result (λ found. found ≢ TableFault.Memory
            → fault_in bytes.now ≡ Some found) }
    {
        match str::from_utf8(bytes) {
            Ok(text) => Fares::read(alloc, text),
            Err(_) => Err(TableFault::NotToml),
        }
    }

    /// The station of this number.
    pub fn station(&self, id: u16) -> Option<&Station>
        ensures { option_copied result ≡ station_at (content_of self.now) id }
    {
        self.lists.stations.find(id)
    }

    /// The fare of a journey that starts at one station in a window and ends at the other, both of
    /// which [`Fares::station`] finds.
    pub fn fare(&self, from: u16, to: u16, window: Window) -> Fare
        requires from_known { IsSome (station_at (content_of self.now) from) }
        requires to_known { IsSome (station_at (content_of self.now) to) }
        ensures value { result ≡ fare_of (content_of self.now) from to window }
        ensures bound { result.pence ≤ maximum_of (content_of self.now) window }
        ensures listed { Contains (fares_of (content_of self.now)
            (band_of (content_of self.now) from to window)) result }
    {
        self.find_fare(from, to, window)
    }

    /// The fare of a named pair, or else the cheapest single of the zones.
    fn find_fare(&self, from: u16, to: u16, window: Window) -> Fare
        requires from_known { IsSome (station_at (content_of self.now) from) }
        requires to_known { IsSome (station_at (content_of self.now) to) }
        ensures { result ≡ fare_of (content_of self.now) from to window }
    {
        let origin = self.zones(from);
        let destination = self.zones(to);
        let off_peak = fare::is_off_peak(self.rates.evening_rule, origin, destination, window);
        match self.lists.pairs.find(from, to) {
            Some(pair) => fare::pair_fare(off_peak, *pair),
            None => fare::cheapest(self.lists.singles.as_slice(), off_peak, origin, destination),
        }
    }

    /// The zones of a station that is known.
    fn zones(&self, id: u16) -> Zones
        requires { IsSome (station_at (content_of self.now) id) }
        ensures { result ≡ zones_at (content_of self.now) id }
    {
        let Some(station) = self.station(id) else {
            unreachable!()
        };
        station.zones
    }

    /// The minutes that a leg between two stations may take: those of their named pair, and where
    /// it has none, or there is none, those of the table.
    pub fn leg_minutes(&self, from: u16, to: u16) -> u32
        requires from_known { IsSome (station_at (content_of self.now) from) }
        requires to_known { IsSome (station_at (content_of self.now) to) }
        ensures value { result ≡ leg_minutes_of (content_of self.now) from to }
        ensures limit { result ≤ MOST_MINUTES }
    {
        match self.lists.pairs.find(from, to) {
            Some(pair) => pair.minutes.unwrap_or(self.rates.leg_minutes),
            None => self.rates.leg_minutes,
        }
    }

    /// The maximum charge in a window, in pence.
    pub fn maximum(&self, window: Window) -> u32
        ensures value { result ≡ maximum_of (content_of self.now) window }
        ensures limit { result ≤ HIGHEST_PRICE }
    {
        match window {
            Window::Off => self.rates.maximum_off_peak,
            Window::Early | Window::Evening => self.rates.maximum_peak,
        }
    }

    /// The minutes that an interchange between two stations may take, the same in both directions,
    /// where the table lists one.
    pub fn interchange(&self, from: u16, to: u16) -> Option<u32>
        ensures value { result ≡ interchange_of (content_of self.now) from to }
        ensures limit { IfSome result (λ minutes. minutes ≤ MOST_MINUTES) }
    {
        match self.lists.interchanges.find(from, to) {
            Some(interchange) => Some(interchange.minutes),
            None => None,
        }
    }

    /// The daily caps, in the table's order.
    pub fn caps(&self) -> &[Cap]
        ensures value { result.now ≡ (content_of self.now).caps }
        ensures limit { All (λ cap. cap.price ≤ HIGHEST_PRICE) result.now }
        ensures count { length result.now ≤ MOST_CAPS }
    {
        self.lists.caps.as_slice()
    }

    /// The balance in pence that a touch in needs.
    pub fn entry_minimum(&self) -> u32
        ensures value { result ≡ (content_of self.now).rates.entry_minimum }
        ensures limit { result ≤ HIGHEST_PRICE }
    {
        self.rates.entry_minimum
    }

    /// The highest balance in pence that a top-up may make.
    pub fn balance_limit(&self) -> u32
        ensures value { result ≡ (content_of self.now).rates.balance_limit }
        ensures limit { result ≤ HIGHEST_BALANCE }
    {
        self.rates.balance_limit
    }

    /// How many stations the table has.
    pub fn station_count(&self) -> usize
        ensures { result ≡ length (content_of self.now).stations }
    {
        self.lists.stations.len()
    }

    /// How many single fares the table has.
    pub fn single_count(&self) -> usize
        ensures { result ≡ length (content_of self.now).singles }
    {
        self.lists.singles.as_slice().len()
    }

    /// The text of the table's zone, as it stands in the table.
    pub fn zone_text(&self) -> &str
        ensures { result.now ≡ zone_text_of self.now }
    {
        self.zone_text.as_str()
    }

    /// Whether each station of the other table is a station of this one, by its number.
    pub fn has_stations_of(&self, other: &Fares) -> bool
        ensures { result ≡ has_stations_of (content_of self.now) (content_of other.now) }
    {
        self.lists.stations.has_all(&other.lists.stations)
    }

    /// The SHA-256 digest of the table's text.
    pub fn digest(&self) -> station_limits::Digest
        ensures { result ≡ digest_of self.now }
    {
        self.digest
    }

    /// The stamp of a moment, by the table's zone and holidays. It never fails: it takes no memory.
    pub fn stamp(&self, moment: u32) -> Result<Stamp, AllocError>
        ensures { result ≡ Ok (stamp_of (content_of self.now) moment) }
    {
        match self.clock.stamp(moment, self.holidays.as_slice()) {
            Ok(stamp) => Ok(stamp),
            Err(_) => Err(AllocError),
        }
    }

    /// The stamp of the same moment by this table's holidays, where `stamp` is by another table of
    /// the same zone.
    pub fn restamp(&self, stamp: Stamp) -> Stamp
        ensures { result ≡ by_holidays (content_of self.now).holidays stamp }
    {
        stamp.by_holidays(self.holidays.as_slice())
    }
}
