//! A token bucket: how many touches may come at once, and how fast they may come for long.
ghost use Rattle.std.specs.Prelude.{◌≡◌, ◌*◌};
ghost use Rattle.door_clerk.specs.Bucket.{bucket_after, burst_of, has_token, level_at};
ghost use Rattle.door_clerk.specs.Bucket.{merged_bucket, IsLowerOf};

use crate::rule::Rate;

/// How many ticks a second has: they are milliseconds. It is also what one touch takes of a bucket,
/// since a bucket gains one for each tick and each touch a second that its rate has.
pub const TICKS_PER_SECOND: u64 = 1_000;

/// How full a bucket was when a touch was last let through.
///
/// A name has one bucket. Where its next connection gets the bucket of the one before, a new
/// connection gains nothing.
#[derive(Clone, Copy, Debug, PartialEq, Eq)]
pub struct Bucket {
    /// What was in it then: `TICKS_PER_SECOND` for each touch that could follow at once.
    pub level: u64,
    /// The clock's ticks then.
    pub ticks: u64,
}

impl Bucket {
    /// A full bucket of this rate, at so many ticks. Without a rate it stays as it is for ever.
    pub fn full(rate: Option<Rate>, ticks: u64) -> Bucket
        ensures level { result.level ≡ burst_of rate }
        ensures ticks { result.ticks ≡ ticks }
    {
        let level = match rate {
            Some(rate) => burst_level(rate),
            None => 0,
        };
        Bucket { level, ticks }
    }

    /// Whether a touch may come at so many ticks. Without a rate it always may.
    pub fn has_token(&self, rate: Option<Rate>, ticks: u64) -> bool
        ensures { result ≡ has_token rate self.now ticks }
    {
        match rate {
            Some(rate) => TICKS_PER_SECOND <= self.level_at(rate, ticks),
            None => true,
        }
    }

    /// The bucket after a touch that was let through at so many ticks.
    pub fn after(&self, rate: Option<Rate>, ticks: u64) -> Bucket
        ensures { result ≡ bucket_after rate self.now ticks }
    {
        match rate {
            Some(rate) => Bucket {
                level: self.level_at(rate, ticks).saturating_sub(TICKS_PER_SECOND),
                ticks: self.ticks.max(ticks),
            },
            None => *self,
        }
    }

    /// One bucket for two that began as one, and of which each was used by a connection of its own.
    ///
    /// From the later of their ticks on it is as full as the emptier of the two. So a connection
    /// that sent nothing doesn't refill what another one took, whichever of them ends first.
    /// Without a rate it is the first of the two.
    pub fn merged(&self, rate: Option<Rate>, other: &Bucket) -> Bucket
        ensures value { result ≡ merged_bucket rate self.now other.now }
        ensures lower { IsLowerOf rate self.now other.now result }
    {
        match rate {
            Some(rate) => {
                let ticks = self.ticks.max(other.ticks);
                let level = self.level_at(rate, ticks).min(other.level_at(rate, ticks));
                Bucket { level, ticks }
            }
            None => *self,
        }
    }

    /// How full the bucket is at so many ticks. A clock that went back adds nothing.
    fn level_at(&self, rate: Rate, ticks: u64) -> u64
        ensures { result ≡ level_at rate self.now ticks }
    {
        let since = ticks.saturating_sub(self.ticks);
        let gained = since.saturating_mul(u64::from(rate.touches));
        self.level.saturating_add(gained).min(burst_level(rate))
    }
}

/// What is in a full bucket of this rate.
fn burst_level(rate: Rate) -> u64
    ensures { result ≡ rate.burst * TICKS_PER_SECOND }
{
    u64::from(rate.burst) * TICKS_PER_SECOND
}
