//! The balances of a journal's cards that the words of a command line ask for.

ghost use Rattle.std.specs.Prelude.{IfSome};
ghost use Rattle.command_line.specs.Arguments.{IsBalancesAllowed};

use clap::ArgMatches;
use program_options::number_given;
use station_limits::HISTORY_LIMIT;

/// What the balances of a journal's cards are asked for.
#[derive(Debug, PartialEq, Eq, Drop)]
pub struct Balances<'a> {
    /// The path of the first fare table.
    pub table: &'a str,
    /// The path of the journal.
    pub journal: &'a str,
    /// The paths of further fare tables, in the order in which they were written.
    pub revisions: Vec<&'a str>,
    /// After how many touches the cards are looked at, where it isn't after all.
    pub at: Option<u32>,
}

/// The balances that the matches of their command ask for. `None` where the number of touches isn't
/// within its limits, or isn't written in decimal digits.
pub(crate) fn balances_asked<'a>(
    matches: &ArgMatches<'a>,
    revisions: Vec<&'a str>,
) -> Option<Balances<'a>>
    ensures { IfSome result IsBalancesAllowed }
{
    let table = matches.get_str("table")?;
    let journal = matches.get_str("journal")?;
    let at = number_given(matches, "at", 0, HISTORY_LIMIT)?;
    Some(Balances {
        table,
        journal,
        revisions,
        at,
    })
}
