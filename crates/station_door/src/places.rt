//! How many connections of a rule are open, and the bucket with which the next one begins.
ghost use Rattle.std.specs.Prelude.{◌≡◌};
ghost use Rattle.station_door.specs.Places.{after_enter, after_leave, fresh_places, next_bucket};

use door_clerk::{Bucket, Rate};
use std::marker::Model;

/// What the lock of a rule guards. Whenever it is free, no more places are taken than there are.
#[derive(Drop)]
pub(crate) struct Places {
    /// How many places are taken: one for each open connection, and none without a limit.
    taken: u16,
    /// How many places there are: 0 without a limit.
    most: u16,
    /// What the connections that have ended left of the rule's bucket.
    bucket: Bucket,
}

impl Model for Places {
    ghost use Rattle.std.specs.Prelude.{◌≤◌};
    ghost use Rattle.station_door.specs.Places.{PlacesState};

    ghost Value = { PlacesState };

    ghost view = { λ p. record { taken = p.taken; most = p.most; bucket = p.bucket } };

    ghost invariant = { λ p. p.taken ≤ p.most };
}

impl Places {
    /// The places of a rule that no connection has entered by. The bucket is full at any ticks.
    pub(crate) fn new(connections: Option<u16>, rate: Option<Rate>) -> Places
        ensures { result ≡ fresh_places connections rate }
    {
        Places {
            taken: 0,
            most: connections.unwrap_or(0),
            bucket: Bucket::full(rate, 0),
        }
    }

    /// The bucket with which the next connection begins.
    pub(crate) fn bucket(&self) -> Bucket
        ensures { result ≡ self.now.bucket }
    {
        self.bucket
    }

    /// Takes a place for a connection. The value is the bucket with which it begins.
    ///
    /// `None` is returned exactly where all places are taken, and then nothing changes.
    pub(crate) fn take(&mut self) -> Option<Bucket>
        ensures value { result ≡ next_bucket self.old }
        ensures after { self.new ≡ after_enter self.old }
    {
        if self.taken >= self.most {
            return None;
        }
        self.taken += 1;
        Some(self.bucket)
    }

    /// Gives back the place of a connection that has ended, and left this bucket.
    ///
    /// Only a `Pass` gives a place back, and `StationDoor::enter` alone makes one: so at least one
    /// connection is open. The proof doesn't know this, and a count of 0 would stay at 0. It does
    /// stay there for a rule without a limit, whose connections aren't counted.
    pub(crate) fn give(&mut self, rate: Option<Rate>, bucket: &Bucket)
        ensures { self.new ≡ after_leave rate self.old bucket.now }
    {
        self.taken = self.taken.saturating_sub(1);
        self.bucket = self.bucket.merged(rate, bucket);
    }
}
