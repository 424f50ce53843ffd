//! Fare tables, and the fare days from which they count.

ghost use Rattle.std.specs.Prelude.{◌≡◌, ◌≤◌, ◌<◌, ◌∷◌, Ok, length};
ghost use Rattle.std.specs.List.{All};
ghost use Rattle.std.proofs.Props.{props};
ghost use Rattle.fare_schedule.specs.Places.{AreDistinct, place_from, table_at};
ghost use Rattle.fare_schedule.specs.Dated.{ArePlaced, AreAscending, revision_of};
ghost use Rattle.fare_schedule.specs.Stations.{HaveSameStations, have_same_stations};
ghost use Rattle.fare_schedule.specs.declared.schedule.TheConstants.{TABLE_LIMIT};

use crate::dated::{Dated, count_on, place_on};
use crate::digest::place_among;
use crate::fault::SupplyFault;
use crate::stations::have_same_stations;
use fare_table::{Digest, Fares};
use money_time::Stamp;
use std::alloc::{AllocError, Global};

/// The most tables that a schedule has, the first among them.
pub const TABLE_LIMIT: usize = 16;

/// Fare tables with the fare days from which they count. The first counts from the beginning.
///
/// In each value the days ascend, each place is that of a table, no two tables have the same
/// digest, all have the stations of the first, and they are no more than `TABLE_LIMIT`.
pub struct Schedule {
    first: Fares,
    supplied: Vec<Fares>,
    dated: Vec<Dated>,
    /// How many revisions count on the day that was turned to: whatever it is, no table goes by it.
    recent: usize,
    ghost ascending: { AreAscending dated.items },
    ghost placed: { ArePlaced (length supplied.items) dated.items },
    ghost distinct: { AreDistinct (first ∷ supplied.items) },
    ghost stations: { All (HaveSameStations first) supplied.items } by { Prim.hlevel props },
    ghost limited: { length supplied.items < TABLE_LIMIT },
}

/// By hand, so that it is one call wherever one is dropped.
impl Drop for Schedule {
    fn drop(self) {
        let Schedule {
            first: _,
            supplied: _,
            dated: _,
            recent: _,
        } = self;
    }
}

impl Schedule {
    ghost use Rattle.std.specs.Prelude.{◌≢◌, ◌<ℤ◌, ◌≤ℤ◌, ◌++◌, ◌↔◌, ℕ, ℤ, [], None, Some};
    ghost use Rattle.std.specs.Prelude.{is_some, IsTrue, IsOk, IsSome, IfOk, IfErr, IfSome, OnOk};
    ghost use Rattle.std.specs.Prelude.{OnErr, true, false, vec_capacity};
    ghost use Rattle.fare_table.specs.Fares.{digest_of};
    ghost use Rattle.fare_schedule.specs.InForce.{table_of};
    ghost use Rattle.fare_schedule.specs.Schedule.{tables_of, revisions_of, table_on, stamp_by};
    ghost use Rattle.fare_schedule.specs.Schedule.{digest_at, last_day_of, IsAfterLast, HasRoom};
    ghost use Rattle.fare_schedule.specs.Supply.{is_full, supply_fault};

    /// A schedule of one table and no revision. It never fails: it takes no memory.
    pub fn new(alloc: Global, first: Fares) -> Result<Schedule, AllocError>
        ensures ok { IsOk result }
        ensures tables { IfOk result (λ schedule. tables_of schedule ≡ first ∷ []) }
        ensures revisions { IfOk result (λ schedule. revisions_of schedule ≡ []) }
    {
        Ok(Schedule {
            first,
            supplied: Vec::new(alloc),
            dated: Vec::new(alloc),
            recent: 0,
        })
    }

    /// Whether there is a table of this digest.
    pub fn knows(&self, digest: &Digest) -> bool
        ensures { result ≡ is_some (table_of (tables_of self.now) digest.now) }
    {
        self.place_of(digest).is_some()
    }

    /// The place of the table of a digest, 0 for the first. By it `digest_at` gives the digest
    /// back.
    pub fn place(&self, digest: &Digest) -> Option<u8>
        ensures found { is_some result ≡ is_some (table_of (tables_of self.now) digest.now) }
        ensures back { IfSome result (λ place. digest_at self.now place ≡ digest.now) }
    {
        match self.place_of(digest) {
            Some(place) => Some(place as u8),
            None => None,
        }
    }

    /// The digest of the table at a place, 0 for the first. It is that of the first, too, where no
    /// table stands at the place.
    pub fn digest_at(&self, place: u8) -> Digest
        ensures { result ≡ digest_at self.now place }
    {
        // The first table stands before those that were supplied.
        match self.supplied.get((place as usize).wrapping_sub(1)) {
            Some(table) => table.digest(),
            None => self.first.digest(),
        }
    }

    /// The table in force on a fare day: that of the last revision whose day is at most it, and
    /// before the days of all revisions the first.
    ///
    /// On the day that [`Schedule::turn_to`] turned to, and on all with the same table, it is found
    /// at once, and on others by halving.
    pub fn on(&self, day: i32) -> &Fares
        ensures { result.now ≡ table_on self.now day }
    {
        self.table(place_on(self.dated.as_slice(), self.recent, day))
    }

    /// Turns to a fare day, which [`Schedule::on`] is likely to be asked for next. Tables,
    /// revisions and room stay, and so does the table in force on each day. It takes no memory.
    pub fn turn_to(&mut self, day: i32)
        ensures tables { tables_of self.new ≡ tables_of self.old }
        ensures revisions { revisions_of self.new ≡ revisions_of self.old }
        ensures room { HasRoom self.old → HasRoom self.new }
        ensures no_more_room { HasRoom self.new → HasRoom self.old }
        ensures on { (day : ℤ) → table_on self.new day ≡ table_on self.old day }
        ensures stamp { (moment : ℕ) → stamp_by self.new moment ≡ stamp_by self.old moment }
    {
        self.recent = count_on(self.dated.as_slice(), self.recent, day);
    }

    /// The stamp of a moment, by the first table's zone and the holidays of the table in force on
    /// the fare day. It never fails: it takes no memory.
    #[inline(always)]
    pub fn stamp(&self, moment: u32) -> Result<Stamp, AllocError>
        ensures { result ≡ Ok (stamp_by self.now moment) }
    {
        let by_first = self.first.stamp(moment)?;
        let place = place_on(self.dated.as_slice(), self.recent, by_first.day);
        if place == 0 {
            return Ok(by_first);
        }
        Ok(self.table(place).restamp(by_first))
    }

    /// The day of the last revision.
    pub fn last_day(&self) -> Option<i32>
        ensures { result ≡ last_day_of self.now }
    {
        match self.dated.as_slice().last() {
            Some(dated) => Some(dated.day),
            None => None,
        }
    }

    /// Whether one more revision can be made without memory. [`Schedule::ready`] makes the room.
    pub fn has_room(&self) -> bool
        ensures { IsTrue result ↔ HasRoom self.now }
    {
        self.dated.len() < self.dated.capacity()
    }

    /// Makes room for one more revision. An `Err` is want of memory. Tables and revisions stay,
    /// whatever it answers.
    pub fn ready(&mut self) -> Result<(), AllocError>
        ensures ok { OnOk result (HasRoom self.new) }
        ensures tables { tables_of self.new ≡ tables_of self.old }
        ensures revisions { revisions_of self.new ≡ revisions_of self.old }
    {
        self.dated.reserve(1)
    }

    /// Adds a table, which counts on no day before it is revised to.
    ///
    /// A fault is of the first cause in their order that holds, and leaves the tables. `Memory`
    /// comes where a growth was refused. Revisions stay, whatever it answers.
    pub fn supply(&mut self, table: Fares) -> Result<(), SupplyFault>
        ensures ok { OnOk result (supply_fault self.old table ≡ None) }
        ensures supplied { OnOk result (tables_of self.new ≡ tables_of self.old ++ table ∷ []) }
        ensures kept { OnErr result (tables_of self.new ≡ tables_of self.old) }
        ensures revisions { revisions_of self.new ≡ revisions_of self.old }
        ensures on { (day : ℤ) → table_on self.new day ≡ table_on self.old day }
        ensures fault { IfErr result (λ fault. fault ≢ SupplyFault.Memory
            → supply_fault self.old table ≡ Some fault) }
    {
        self.supplied.reserve(1)?;
        if let Some(fault) = self.supply_fault(&table) {
            return Err(fault);
        }
        self.push_table(table);
        Ok(())
    }

    /// Lets the table of this digest count from a fare day on.
    ///
    /// There has to be such a table, which [`Schedule::knows`] tells, and room, which
    /// [`Schedule::ready`] makes; and the day has to be above that of the last revision. It takes
    /// no memory.
    pub fn revise(&mut self, digest: &Digest, day: i32)
        requires known { IsSome (table_of (tables_of self.old) digest.now) }
        requires room { HasRoom self.old }
        requires later { IsAfterLast self.old day }
        ensures tables { tables_of self.new ≡ tables_of self.old }
        ensures revisions { revisions_of self.new
            ≡ revisions_of self.old ++ record { digest = digest.now; day = day } ∷ [] }
        ensures last { last_day_of self.new ≡ Some day }

        // The days before keep their tables, and from this day on the revised one is in force.
        ensures before { (earlier : ℤ) → earlier <ℤ day
            → table_on self.new earlier ≡ table_on self.old earlier }
        ensures revised { (later : ℤ) → day ≤ℤ later
            → table_of (tables_of self.old) digest.now ≡ Some (table_on self.new later) }
    {
        let Some(place) = self.place_of(digest) else {
            unreachable!()
        };
        self.push(Dated { place, day });
    }

    /// Puts a revision behind the others.
    fn push(&mut self, dated: Dated)
        requires room { HasRoom self.old }
        requires placed { dated.place ≤ length self.old.supplied.items }
        requires later { IsAfterLast self.old dated.day }
        ensures tables { tables_of self.new ≡ tables_of self.old }
        ensures revisions { revisions_of self.new ≡ revisions_of self.old
            ++ revision_of self.old.first self.old.supplied.items dated ∷ [] }
    {
        match self.dated.push(dated) {
            Ok(()) => {}
            Err(_) => unreachable!(),
        }
    }

    /// Puts a table of another digest and of the same stations behind the others.
    fn push_table(&mut self, table: Fares)
        requires room { length self.old.supplied.items < vec_capacity self.old.supplied }
        requires few { is_full self.old ≡ false }
        requires other { table_of (tables_of self.old) (digest_of table) ≡ None }
        requires stations { have_same_stations self.old.first table ≡ true }
        ensures tables { tables_of self.new ≡ tables_of self.old ++ table ∷ [] }
        ensures revisions { revisions_of self.new ≡ revisions_of self.old }
        ensures on { (day : ℤ) → table_on self.new day ≡ table_on self.old day }
    {
        match self.supplied.push(table) {
            Ok(()) => {}
            Err(_) => unreachable!(),
        }
    }

    /// Why a table isn't supplied, where it isn't.
    fn supply_fault(&self, table: &Fares) -> Option<SupplyFault>
        ensures { result ≡ supply_fault self.now table.now }
    {
        if self.knows(&table.digest()) {
            Some(SupplyFault::Twice)
        } else if self.first.zone_text() != table.zone_text() {
            Some(SupplyFault::OtherZone)
        } else if !have_same_stations(&self.first, table) {
            Some(SupplyFault::OtherStations)
        } else if self.supplied.len() + 1 >= TABLE_LIMIT {
            Some(SupplyFault::TooMany)
        } else {
            None
        }
    }

    /// The place of the table of this digest.
    fn place_of(&self, digest: &Digest) -> Option<usize>
        ensures value { result ≡ place_from 0 (tables_of self.now) digest.now }
        ensures placed { IfSome result (λ place. place ≤ length self.now.supplied.items) }
    {
        if self.first.digest() == *digest {
            return Some(0);
        }
        place_among(self.supplied.as_slice(), digest)
    }

    /// The table at a place.
    fn table(&self, place: usize) -> &Fares
        requires { place ≤ length self.now.supplied.items }
        ensures { result.now ≡ table_at self.now.first self.now.supplied.items place }
    {
        if place == 0 {
            &self.first
        } else {
            &self.supplied[place - 1]
        }
    }
}
