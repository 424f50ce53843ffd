//! A card's passages of the gates.

ghost use Rattle.std.specs.Prelude.{◌≡◌, ◌≤◌, is_some, true};
ghost use Rattle.fare_table.specs.Fare.{station_at};
ghost use Rattle.fare_table.specs.declared.key.TheConstants.{HIGHEST_PRICE};
ghost use Rattle.fare_table.specs.Fares.{content_of};
ghost use Rattle.fare_schedule.specs.Schedule.{table_on};
ghost use Rattle.oyster_account.specs.Scheme.{scheme_of};
ghost use Rattle.oyster_account.specs.Travel.{IsKnown};
ghost use Rattle.oyster_account.specs.Leg.{is_within_minutes, is_in_time};
ghost use Rattle.oyster_account.specs.Journey.{is_change};
ghost use Rattle.oyster_account.specs.Charge.{maximum_at};
ghost use Rattle.oyster_account.specs.Refusal.{is_before};

use fare_schedule::Schedule;
use fare_table::Fares;
use money_time::Stamp;

/// The seconds of a minute: legs and changes are limited in minutes, and moments are in seconds.
pub const SECONDS_PER_MINUTE: u32 = 60;

/// Where and when a card was touched in or out.
#[derive(Clone, Copy, Debug, PartialEq, Eq)]
pub struct Passage {
    pub station: u16,
    pub stamp: Stamp,
}

impl Passage {
    /// Whether a later passage comes at most these minutes after this one.
    fn is_within_minutes(self, minutes: u32, later: Passage) -> bool
        ensures { result ≡ is_within_minutes minutes self later }
    {
        let limit = u64::from(minutes) * u64::from(SECONDS_PER_MINUTE);
        u64::from(later.stamp.moment) <= u64::from(self.stamp.moment) + limit
    }

    /// Whether a touch out comes within the limit of a leg from this touch in. Both stations are
    /// known. The limit is that in force on the touch in's day.
    pub fn is_in_time(self, schedule: &Schedule, finish: Passage) -> bool
        requires start { IsKnown (scheme_of schedule.now) self }
        requires finish { IsKnown (scheme_of schedule.now) finish }
        ensures { result ≡ is_in_time (scheme_of schedule.now) self finish }
    {
        let fares = fares_for(schedule, self.stamp);
        let minutes = fares.leg_minutes(self.station, finish.station);
        self.is_within_minutes(minutes, finish)
    }

    /// Whether a touch in after this touch out is an interchange, by the table in force on the
    /// touch in's day.
    pub fn is_change(self, schedule: &Schedule, start: Passage) -> bool
        ensures { result ≡ is_change (scheme_of schedule.now) self start }
    {
        let fares = fares_for(schedule, start.stamp);
        match fares.interchange(self.station, start.station) {
            Some(minutes) => self.is_within_minutes(minutes, start),
            None => false,
        }
    }

    /// The maximum of the passage's window, in pence, by the table in force on its day.
    pub fn maximum(self, schedule: &Schedule) -> u32
        ensures value { result ≡ maximum_at (scheme_of schedule.now) self }
        ensures limit { result ≤ HIGHEST_PRICE }
    {
        fares_for(schedule, self.stamp).maximum(self.stamp.window)
    }

    /// Whether a later passage has a moment or a fare day below this one's.
    pub(crate) fn is_before(self, later: Passage) -> bool
        ensures { result ≡ is_before self later }
    {
        later.stamp.moment < self.stamp.moment || later.stamp.day < self.stamp.day
    }
}

/// The table in force on the fare day of a stamp.
#[inline(always)]
pub(crate) fn fares_for(schedule: &Schedule, stamp: Stamp) -> &Fares
    ensures value { result.now ≡ table_on schedule.now stamp.day }

    // It has the stations of the tables of all days.
    ensures known { (passage : Passage) → IsKnown (scheme_of schedule.now) passage
        → is_some (station_at (content_of result.now) passage.station) ≡ true }
{
    schedule.on(stamp.day)
}
