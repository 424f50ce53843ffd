//! The touches of a journal's history that the words of a command line ask for.

ghost use Rattle.std.specs.Prelude.{IfSome};
ghost use Rattle.command_line.specs.Arguments.{IsHistoryAllowed};

use clap::ArgMatches;
use money_time::day_of;
use program_options::number_given;
use station_limits::CARDS_LIMIT;

/// The words for the forms of a history.
pub(crate) const FORMATS: &[&str] = &["csv", "frames"];

/// As what a history is written.
#[derive(Clone, Copy, Debug, PartialEq, Eq)]
pub enum HistoryFormat {
    /// As comma-separated values, with a heading.
    Csv,
    /// As request frames in hexadecimal digits.
    Frames,
}

/// What the history of a journal is asked for.
#[derive(Debug, PartialEq, Eq, Drop)]
pub struct History<'a> {
    /// The path of the first fare table.
    pub table: &'a str,
    /// The path of the journal.
    pub journal: &'a str,
    /// The paths of further fare tables, in the order in which they were written.
    pub revisions: Vec<&'a str>,
    /// The card of the touches, where those of one card are asked for.
    pub card: Option<u32>,
    /// The fare day of the touches, in days since 1970-01-01, where those of one day are asked for.
    pub day: Option<i32>,
    /// As what they are written.
    pub format: HistoryFormat,
}

/// The history that the matches of its command ask for. `None` where the card's number isn't
/// written in decimal digits, or where the day is no date.
pub(crate) fn history_asked<'a>(
    matches: &ArgMatches<'a>,
    revisions: Vec<&'a str>,
) -> Option<History<'a>>
    ensures { IfSome result IsHistoryAllowed }
{
    let table = matches.get_str("table")?;
    let journal = matches.get_str("journal")?;
    let card = number_given(matches, "card", 1, CARDS_LIMIT)?;
    let day = day_asked(matches, "day")?;
    let format = format_asked(matches)?;
    Some(History {
        table,
        journal,
        revisions,
        card,
        day,
        format,
    })
}

/// The fare day of the option of this name, if it is given. `None` if it is no date.
pub(crate) fn day_asked(matches: &ArgMatches<'_>, name: &str) -> Option<Option<i32>> {
    match matches.get_str(name) {
        Some(text) => Some(Some(day_of(text).ok()?)),
        None => Some(None),
    }
}

/// The form that is asked for.
fn format_asked(matches: &ArgMatches<'_>) -> Option<HistoryFormat> {
    match matches.get_str("format") {
        Some("csv") | None => Some(HistoryFormat::Csv),
        Some("frames") => Some(HistoryFormat::Frames),
        Some(_) => None,
    }
}
