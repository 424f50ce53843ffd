//! The statement of a card that the arguments of a command line ask for.

ghost use Rattle.std.specs.Prelude.{◌≡◌, true, IfSome};
ghost use Rattle.station_limits.specs.declared.limits.TheConstants.{CARDS_LIMIT};
ghost use Rattle.command_line.specs.Arguments.{IsStatementAllowed, IsUpTo};

use crate::history::day_asked;
use crate::number::number_asked;
use clap::ArgMatches;
use station_limits::CARDS_LIMIT;

/// The words for the formats of a statement.
pub(crate) const STATEMENT_FORMATS: &[&str] = &["text", "csv", "json"];

/// The format in which a statement is printed.
#[derive(Clone, Copy, Debug, PartialEq, Eq)]
pub enum StatementFormat {
    /// As text for a customer, with amounts in pounds.
    Text,
    /// As comma-separated values, with a heading and amounts in pence.
    Csv,
    /// As a JSON object, with amounts in pence.
    Json,
}

/// The statement of a card that is asked for.
#[derive(Debug, PartialEq, Eq, Drop)]
pub struct Statement<'a> {
    /// The path of the first fare table.
    pub table: &'a str,
    /// The path of the journal.
    pub journal: &'a str,
    /// The paths of further fare tables, in the order in which they were written.
    pub revisions: Vec<&'a str>,
    /// The number of the card.
    pub card: u32,
    /// The first fare day that is printed, in days since 1970-01-01. `None` prints from the first.
    pub from: Option<i32>,
    /// The last fare day that is printed, in days since 1970-01-01. `None` prints up to the last.
    pub to: Option<i32>,
    /// The format.
    pub format: StatementFormat,
}

/// The statement that the matches of its command ask for. `None` if the card's number isn't from 1
/// to its limit in decimal digits, if a day is no date, or if the first day is after the last.
pub(crate) fn statement_asked<'a>(
    matches: &ArgMatches<'a>,
    revisions: Vec<&'a str>,
) -> Option<Statement<'a>>
    ensures { IfSome result IsStatementAllowed }
{
    let table = matches.get_str("table")?;
    let journal = matches.get_str("journal")?;
    let card = number_asked(matches, "card", CARDS_LIMIT)?;
    let from = day_asked(matches, "from")?;
    let to = day_asked(matches, "to")?;
    let format = format_asked(matches)?;
    if !is_up_to(from, to) {
        return None;
    }
    Some(Statement {
        table,
        journal,
        revisions,
        card,
        from,
        to,
        format,
    })
}

/// Whether the first day, if there is one, is not after the last, if there is one.
fn is_up_to(from: Option<i32>, to: Option<i32>) -> bool
    ensures { result ≡ true → IsUpTo from to }
{
    match (from, to) {
        (Some(from), Some(to)) => from <= to,
        (Some(_), None) => true,
        (None, _) => true,
    }
}

/// The format that is asked for: text if none is named.
fn format_asked(matches: &ArgMatches<'_>) -> Option<StatementFormat> {
    match matches.get_str("format") {
        Some("text") | None => Some(StatementFormat::Text),
        Some("csv") => Some(StatementFormat::Csv),
        Some("json") => Some(StatementFormat::Json),
        Some(_) => None,
    }
}
