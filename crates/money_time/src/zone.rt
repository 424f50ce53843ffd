//! A zone: the rule by which its clock goes, and the stamp that it gives a moment.
ghost use Rattle.std.specs.Prelude.{◌≡◌, ◌-ℤ◌, ◌≤ℤ◌, pos, Ok, None, IfOk, IfErr, IfSome};
ghost use Rattle.std.specs.List.{All};
ghost use Rattle.std.proofs.Props.{props};
ghost use Rattle.jiff.specs.Words.{read_whole, offset_at, plain_zone, nanos_of_seconds};
ghost use Rattle.jiff.specs.Words.{IsOffsetSeconds, epoch_day};
ghost use Rattle.money_time.specs.Span.{IsSpanOf};

use crate::date::DAY_SECONDS;
use crate::fault::TimeFault;
use crate::span::Span;
use crate::spans::{self, SPANS, SPANS_A_YEAR};
use crate::stamp::{self, Stamp};
use jiff::Timestamp;
use jiff::civil::DateTime;
use jiff::tz::TimeZone;

/// The rule by which a zone's clock goes, summer time among it.
#[derive(Clone, Copy, Debug, PartialEq, Eq)]
pub struct Zone {
    rule: TimeZone<'static>,
    /// What is known of its clock: three spans for each year of all moments.
    spans: [Span; SPANS],
    ghost known: { All (IsSpanOf (plain_zone rule)) spans } by { Prim.hlevel props },
}

impl Zone {
    ghost use Rattle.std.specs.Prelude.{◌+◌, ◌*◌};
    ghost use Rattle.money_time.specs.Stamp.{stamp_of, window_of};
    ghost use Rattle.money_time.specs.Zone.{IsZoneOf, rule_of, civil_day, civil_minute};

    /// The zone of a POSIX TZ rule, as `GMT0BST,M3.5.0/1,M10.5.0`.
    ///
    /// `BadZone` comes where the text is no such rule, or more follows it. It takes no memory.
    pub fn read(text: &str) -> Result<Zone, TimeFault>
        ensures ok { IfOk result (IsZoneOf text.now) }
        ensures bad_zone { IfErr result
            (λ fault. (fault ≡ TimeFault.BadZone) × (read_whole text.now ≡ None)) }
    {
        match TimeZone::posix(text) {
            Ok(rule) => Ok(Zone {
                rule,
                spans: spans::spans_of(rule.to_plain()),
            }),
            Err(_) => Err(TimeFault::BadZone),
        }
    }

    /// The stamp of a moment, given in seconds since 1970-01-01 00:00:00 UTC.
    ///
    /// `holidays` are in days since 1970-01-01, in any order. It never fails: it takes no memory.
    pub fn stamp(&self, moment: u32, holidays: &[i32]) -> Result<Stamp, TimeFault>
        ensures value { result ≡ Ok (stamp_of (rule_of self.now) holidays.now moment) }

        // The window is that of the civil date, and looked up by the fare day it is the same.
        ensures same { IfOk result
            (λ stamp. stamp.window ≡ window_of holidays.now stamp.day stamp.minute) }
    {
        let (day, minute) = self.civil(moment);
        Ok(Stamp {
            moment,
            day: stamp::fare_day(day, minute),
            minute,
            window: stamp::window_on(day, minute, holidays),
        })
    }

    /// The civil date and time that the clock shows at a moment, as `jiff` itself converts it.
    ///
    /// `moment` is in seconds since 1970-01-01 00:00:00 UTC. Date and minute are those that a stamp
    /// rests on. It takes no memory, and searches the rule's changes: `stamp` is faster.
    pub fn datetime(&self, moment: u32) -> DateTime
        ensures day { epoch_day result.date ≡ civil_day (rule_of self.now) moment }
        ensures minute { result.time.hour * 60 + result.time.minute
            ≡ civil_minute (rule_of self.now) moment }
    {
        self.rule.to_datetime(instant_of(moment))
    }

    /// The civil date that the clock shows at a moment, in days since 1970-01-01, and the minute of
    /// that date.
    fn civil(&self, moment: u32) -> (i32, u16)
        ensures day { result.0 ≡ civil_day (rule_of self.now) moment }
        ensures minute { result.1 ≡ civil_minute (rule_of self.now) moment }
        ensures low { (pos 0 -ℤ pos 2) ≤ℤ result.0 }
    {
        let clock = i64::from(moment) + i64::from(self.offset(moment));
        let day = clock.div_euclid(i64::from(DAY_SECONDS)) as i32;
        let minute = (clock.rem_euclid(i64::from(DAY_SECONDS)) / 60) as u16;
        (day, minute)
    }

    /// How far the clock is ahead of UTC at a moment, in seconds.
    fn offset(&self, moment: u32) -> i32
        ensures value { result ≡ offset_at (rule_of self.now) (nanos_of_seconds (pos moment)) }
        ensures small { IsOffsetSeconds result }
    {
        let first = spans::first_of(moment);
        for place in first..first + SPANS_A_YEAR {
            if let Some(offset) = self.offset_in(place, moment) {
                return offset;
            }
        }
        self.rule.to_offset(instant_of(moment)).seconds()
    }

    /// The offset at a moment, where the span at a place has the moment.
    fn offset_in(&self, place: usize, moment: u32) -> Option<i32>
        ensures value { IfSome result
            (λ offset. offset ≡ offset_at (rule_of self.now) (nanos_of_seconds (pos moment))) }
        ensures small { IfSome result IsOffsetSeconds }
    {
        let span = self.spans.get(place)?;
        if span.from <= moment && moment < span.to {
            Some(span.offset)
        } else {
            None
        }
    }
}

/// The moment as `jiff` counts it.
fn instant_of(moment: u32) -> Timestamp
    ensures { result.nanosecond ≡ nanos_of_seconds (pos moment) }
{
    let Ok(instant) = Timestamp::from_second(i64::from(moment)) else {
        unreachable!()
    };
    instant
}
