//! The server that the arguments of a command line ask for.

ghost use Rattle.std.specs.Prelude.{IfSome};
ghost use Rattle.command_line.specs.Arguments.{IsServeAllowed};

use crate::arguments::{CONNECTIONS_LIMIT, IDLE_LIMIT, REPORT_LIMIT};
use crate::number::number_asked;
use clap::ArgMatches;
use program_options::number_given;
use station_limits::{CARDS_LIMIT, HISTORY_LIMIT, LINES_LIMIT};

/// What a server is asked for.
#[derive(Debug, PartialEq, Eq, Drop)]
pub struct Serve<'a> {
    /// The path of the first fare table.
    pub table: &'a str,
    /// The paths of further fare tables, in the order in which they were written.
    pub revisions: Vec<&'a str>,
    /// The path of the journal.
    pub journal: &'a str,
    /// How many cards there are.
    pub cards: u32,
    /// How many touches a journal has room for that is made now.
    pub capacity: u32,
    /// The address that gates connect to.
    pub listen: &'a str,
    /// How many gates are served at once.
    pub lines: u32,
    /// How many connections each line serves, one after the other, where it is ever done.
    pub connections: Option<u32>,
    /// After how many seconds without a byte a connection is ended, where it is ended so.
    pub idle: Option<u32>,
    /// After how many seconds it is told each time how the server stands, where it is told.
    pub report: Option<u32>,
    /// Whether it goes on when the journal's disk has failed.
    pub stay_halted: bool,
    /// Whether it makes no journal, and refuses one with open slots behind its end.
    pub strict: bool,
    /// Whether it waits for a journal that another server has.
    pub standby: bool,
    /// The path of the door's file. `None` allows each request of each connection.
    pub door: Option<&'a str>,
    /// Whether each connection begins with the header of a proxy, which names its certificate.
    pub proxy: bool,
}

/// The server that the matches of its command ask for. `None` if a number is missing, isn't within
/// its limits, or isn't written in decimal digits.
pub(crate) fn serve_asked<'a>(
    matches: &ArgMatches<'a>,
    revisions: Vec<&'a str>,
) -> Option<Serve<'a>>
    ensures { IfSome result IsServeAllowed }
{
    let table = matches.get_str("table")?;
    let journal = matches.get_str("journal")?;
    let listen = matches.get_str("listen")?;
    let cards = number_asked(matches, "cards", CARDS_LIMIT)?;
    let capacity = number_asked(matches, "capacity", HISTORY_LIMIT)?;
    let lines = number_asked(matches, "lines", LINES_LIMIT)?;
    let connections = number_given(matches, "connections", 1, CONNECTIONS_LIMIT)?;
    let idle = number_given(matches, "idle", 1, IDLE_LIMIT)?;
    let report = number_given(matches, "report", 1, REPORT_LIMIT)?;
    let stay_halted = matches.get_flag("stay-halted");
    let strict = matches.get_flag("strict");
    let standby = matches.get_flag("standby");
    let door = matches.get_str("door");
    let proxy = matches.get_flag("proxy");
    Some(Serve {
        table,
        revisions,
        journal,
        cards,
        capacity,
        listen,
        lines,
        connections,
        idle,
        report,
        stay_halted,
        strict,
        standby,
        door,
        proxy,
    })
}
