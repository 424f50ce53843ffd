//! Spans of moments at which a zone's clock has one offset.

ghost use Rattle.std.specs.Prelude.{◌≡◌, ◌⊎◌, ◌≤ℤ◌, pos};
ghost use Rattle.jiff_core.specs.Calendar.{IsYear};
ghost use Rattle.jiff_core.specs.Timestamp.{IsOffsetSeconds, nanos_of_seconds};
ghost use Rattle.jiff_tz.specs.Year.{year_of_nanos};

use jiff_core::{Offset, Timestamp};
use jiff_tz::TimeZone;

/// Moments from one to before another, at all of which a clock has one offset.
#[derive(Clone, Copy, Debug, PartialEq, Eq)]
pub struct Span {
    /// The first moment.
    pub from: u32,
    /// The first moment after it.
    pub to: u32,
    /// How far the clock is ahead of UTC, in seconds.
    pub offset: i32,
    ghost small: { IsOffsetSeconds offset },
}

impl Span {
    ghost use Rattle.jiff_tz.specs.declared.timezone.TimeZone.{TimeZone};
    ghost use Rattle.money_time.specs.Span.{IsSpanOf};

    /// The span of no moment, at this one.
    pub fn none(at: u32) -> Span
        ensures { (rule : TimeZone) → IsSpanOf rule result }
    {
        Span {
            from: at,
            to: at,
            offset: 0,
        }
    }

    /// The span from a moment to the next change of a rule, or to an end that comes before it. It
    /// is of no moment where the two are of two years, as UTC counts them.
    pub fn of(rule: TimeZone<'_>, from: u32, end: u32) -> Span
        ensures { IsSpanOf rule.entry result }
    {
        let TimeZone::Posix(posix) = rule else {
            return Span::none(end);
        };
        let Some(change) = posix.next_transition(instant_of(from)) else {
            return Span::none(end);
        };
        let to = end_before(change.timestamp, end);
        if to <= from {
            return Span::none(to);
        }
        let first = year_at(from);
        let last = year_at(to - 1);
        if first < last || last < first {
            return Span::none(to);
        }
        Span {
            from,
            to,
            offset: posix.to_offset(instant_of(from)).seconds,
        }
    }
}

/// The moment as `jiff` counts it.
fn instant_of(moment: u32) -> Timestamp
    ensures { result.nanosecond ≡ nanos_of_seconds (pos moment) }
{
    Timestamp {
        nanosecond: i128::from(moment) * 1_000_000_000,
    }
}

/// The year of a moment, as UTC counts it.
fn year_at(moment: u32) -> i16
    ensures value { result ≡ year_of_nanos (nanos_of_seconds (pos moment)) }
    ensures bound { IsYear result }
{
    Offset::UTC.to_datetime(instant_of(moment)).date.year
}

/// A moment that comes neither behind an instant nor behind an end.
fn end_before(instant: Timestamp, end: u32) -> u32
    ensures instant { result ≡ 0 ⊎ (nanos_of_seconds (pos result) ≤ℤ instant.nanosecond) }
{
    let second = instant.floor_second();
    if second <= 0 {
        0
    } else if second < i64::from(end) {
        second as u32
    } else {
        end
    }
}
