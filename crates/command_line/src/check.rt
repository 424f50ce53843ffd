//! The check of a fare table or a door that the arguments of a command line ask for.

ghost use Rattle.std.specs.Prelude.{◌≤◌, IfSome};
ghost use Rattle.command_line.specs.Arguments.{IsJourneyAllowed, IsCheckAllowed};

use crate::number::short_in;
use clap::ArgMatches;
use money_time::{DAY_SECONDS, day_of};

/// What a check is asked for.
#[derive(Clone, Copy, Debug, PartialEq, Eq)]
pub enum Check<'a> {
    /// Whether the table in the file of this path is valid, and where `strict` that there is no
    /// note on it either.
    Report { table: &'a str, strict: bool },
    /// What a journey costs by the table in the file of this path.
    Fare { table: &'a str, journey: Journey },
    /// What the table in one file changes of that in another, and whether it may revise it.
    Changes { old: &'a str, new: &'a str },
    /// Whether the door in the file of this path is valid, and which rules it has.
    Door { door: &'a str },
}

/// A journey of which the fare is asked.
#[derive(Clone, Copy, Debug, PartialEq, Eq)]
pub struct Journey {
    /// The number of the station where it starts.
    pub from: u16,
    /// The number of the station where it ends.
    pub to: u16,
    /// When it starts, in seconds since 1970-01-01 00:00:00 UTC.
    pub moment: u32,
}

/// The check that the matches of its command ask for. `None` where the journey is none.
pub(crate) fn check_asked<'a>(matches: &ArgMatches<'a>) -> Option<Check<'a>>
    ensures { IfSome result IsCheckAllowed }
{
    match matches.get_str("door") {
        Some(door) => Some(Check::Door { door }),
        None => tables_check_asked(matches),
    }
}

/// The check of one table or of two that the matches of its command ask for.
fn tables_check_asked<'a>(matches: &ArgMatches<'a>) -> Option<Check<'a>>
    ensures { IfSome result IsCheckAllowed }
{
    match matches.get_strs("against") {
        Some([old, new]) => Some(Check::Changes { old, new }),
        Some(_) => None,
        None => table_check_asked(matches),
    }
}

/// The check of one table that the matches of its command ask for.
fn table_check_asked<'a>(matches: &ArgMatches<'a>) -> Option<Check<'a>>
    ensures { IfSome result IsCheckAllowed }
{
    let table = matches.get_str("table")?;
    match journey_asked(matches)? {
        Some(journey) => Some(Check::Fare { table, journey }),
        None => Some(Check::Report {
            table,
            strict: matches.get_flag("strict"),
        }),
    }
}

/// The journey that is asked for, where one is. `None` where it is written otherwise than by two
/// numbers of stations and a moment.
fn journey_asked(matches: &ArgMatches<'_>) -> Option<Option<Journey>>
    ensures { IfSome result (λ journey. IfSome journey IsJourneyAllowed) }
{
    match matches.get_strs("fare") {
        Some([from, to, moment]) => Some(Some(journey_in(from, to, moment)?)),
        Some(_) => None,
        None => Some(None),
    }
}

/// The journey from one station to another at a moment, as they are written.
fn journey_in(from: &str, to: &str, moment: &str) -> Option<Journey>
    ensures { IfSome result IsJourneyAllowed }
{
    let from = short_in(from, 1)?;
    let to = short_in(to, 1)?;
    let moment = moment_in(moment.as_bytes(), moment)?;
    Some(Journey { from, to, moment })
}

/// The moment of a date and a time of day in UTC, as 2025-01-07T08:30:00Z, in seconds since
/// 1970-01-01 00:00:00 UTC. `None` for any other text, and for what 32 bits don't hold.
fn moment_in(bytes: &[u8], text: &str) -> Option<u32> {
    let [
        _,
        _,
        _,
        _,
        _,
        _,
        _,
        _,
        _,
        _,
        b'T',
        h1,
        h2,
        b':',
        m1,
        m2,
        b':',
        s1,
        s2,
        b'Z',
    ] = bytes
    else {
        return None;
    };
    let day = day_of(text.get(..10)?).ok()?;
    let hour = below(*h1, *h2, 24)?;
    let minute = below(*m1, *m2, 60)?;
    let second = below(*s1, *s2, 60)?;
    let second_of_day = i64::from(hour) * 3_600 + i64::from(minute) * 60 + i64::from(second);
    let midnight = i64::from(day) * i64::from(DAY_SECONDS);
    u32::try_from(midnight.checked_add(second_of_day)?).ok()
}

/// The number that two decimal digits spell, where it is below a limit.
fn below(tens: u8, ones: u8, limit: u8) -> Option<u8>
    ensures { IfSome result (λ number. number ≤ 99) }
{
    if !tens.is_ascii_digit() || !ones.is_ascii_digit() {
        return None;
    }
    let number = (tens - b'0') * 10 + (ones - b'0');
    if number < limit { Some(number) } else { None }
}
