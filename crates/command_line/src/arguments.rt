//! What the words of a command line ask for.

ghost use Rattle.std.specs.Prelude.{◌≡◌, IfOk, IfSome};
ghost use Rattle.clap.specs.Values.{kind_of};
ghost use Rattle.clap.specs.declared.error.kind.ErrorKind.TheVariants.{InvalidSubcommand};
ghost use Rattle.clap.specs.declared.error.kind.ErrorKind.TheVariants.{InvalidValue};
ghost use Rattle.command_line.specs.Arguments.{IsAllowed};

use crate::balances::{Balances, balances_asked};
use crate::check::{Check, check_asked};
use crate::commands::{command, command_named, wrong_number};
use crate::history::{History, history_asked};
use crate::number::{number_asked, short_in};
use crate::seal::{Seal, seal_asked};
use crate::serve::{Serve, serve_asked};
use crate::statement::{Statement, statement_asked};
use clap::error::ErrorKind;
use clap::{ArgMatches, Command, Error};
use program_options::{NOT_DECIMAL, number_given};
use station_limits::{CARDS_LIMIT, HISTORY_LIMIT};
use std::alloc::{AllocError, Global};
use std::rt::Env;

/// The most connections of a line.
pub const CONNECTIONS_LIMIT: u32 = 1_000_000;
/// The most seconds that a connection may be silent before it is ended.
pub const IDLE_LIMIT: u32 = 1_000_000;

/// The most seconds that may lie between two reports of how a server stands.
pub const REPORT_LIMIT: u32 = 1_000_000;

/// What the program is asked to do. Revisions are the paths of further fare tables, in the order in
/// which they were written.
#[derive(Debug, PartialEq, Eq, Drop)]
pub enum Arguments<'a> {
    /// Answer the request lines of standard input, by the fare table in the file of this path or
    /// the example table and by revisions, with this many cards.
    Replay {
        table: Option<&'a str>,
        cards: u32,
        revisions: Vec<&'a str>,
    },
    /// Check a fare table or a door.
    Check(Check<'a>),
    /// Serve gates.
    Serve(Serve<'a>),
    /// Carry a journal of the first format over to a new file.
    Migrate(Migrate<'a>),
    /// Verify a journal, from its file alone.
    Verify(Verify<'a>),
    /// Write the history of a journal, from its file alone.
    History(History<'a>),
    /// Write the balances of a journal's cards, from its file alone.
    Balances(Balances<'a>),
    /// Print a card's statement, from a journal's file alone.
    Statement(Statement<'a>),
}

/// What the carrying over of a journal is asked for.
#[derive(Clone, Copy, Debug, PartialEq, Eq)]
pub struct Migrate<'a> {
    /// The path of the fare table by which the journal was made.
    pub table: &'a str,
    /// The path of the old journal.
    pub from: &'a str,
    /// The path of the new one.
    pub to: &'a str,
    /// With how many cards the journal was made.
    pub cards: u32,
}

/// What the verifying of a journal is asked for.
#[derive(Debug, PartialEq, Eq, Drop)]
pub struct Verify<'a> {
    /// The path of the journal.
    pub journal: &'a str,
    /// The path of the first fare table, where the journal is held against tables.
    pub table: Option<&'a str>,
    /// The paths of further fare tables, in the order in which they were written.
    pub revisions: Vec<&'a str>,
    /// The seal.
    pub seal: Seal,
    /// How many cards the journal has to be of, where that is asked for.
    pub expect_cards: Option<u32>,
    /// For how many touches the journal has to have room in all, where that is asked for.
    pub expect_capacity: Option<u32>,
    /// Of which gate it has to be the file, where the journal is a gate's. No table is named then.
    pub gate: Option<u16>,
}

/// What stands for a seal that is none, or a number that has a sign.
const NOT_A_SEAL: &str = "a number is written in the digits 0 to 9 alone, a gate's is from 0 to \
65535, and a seal is a number from 0 to 1000000 and 64 hexadecimal digits";

/// What stands for a card's number that has a sign, or a day that is no date.
const NOT_A_CARD_OR_DAY: &str =
    "a card's number is written in the digits 0 to 9 alone, and a day is a date, as 2025-01-07";

/// What is printed if a first or last day is no date, or if the first is after the last.
const NOT_DAYS: &str =
    "a first and a last day are dates, as 2025-01-07, and the first is not after the last";

/// What stands for a journey that is none.
const NOT_A_JOURNEY: &str = "a journey is the numbers of two stations, from 1 to 65535 in the \
digits 0 to 9 alone, and a moment in UTC, as 2025-01-07T08:30:00Z";

/// What stands for a number of touches that is none.
const NOT_A_COUNT: &str =
    "a number of touches is from 0 to 1000000, and is written in the digits 0 to 9 alone";

/// What is said where the program at hand has the commands over fare tables alone.
const NOT_HERE: &str =
    "this program has replay and check alone; scripts/bovtrila builds the one with all commands";

/// What the words of a command line ask for; the program's own name is the first of them.
///
/// The error says that help or the version was asked for, or what is wrong: no command or an
/// unknown one, a number that isn't within its limits or isn't written in decimal digits, a seal
/// or a day that is none, or no file. Its text and its status are `clap`'s.
pub fn arguments_of<'a>(alloc: Global, words: &'a [&'a str]) -> Result<Arguments<'a>, Error>
    ensures { IfOk result IsAllowed }
{
    let mut command = command(alloc)?;
    asked_of(alloc, &mut command, words)
}

/// What the words of a command line ask for, as this command reads them.
fn asked_of<'a>(
    alloc: Global,
    command: &mut Command<'a>,
    words: &'a [&'a str],
) -> Result<Arguments<'a>, Error>
    ensures { IfOk result IsAllowed }
{
    let matches = command.try_get_matches_from_mut(words)?;
    match asked(alloc, &matches)? {
        Some(asked) => Ok(asked),
        None => Err(refusal(alloc, &matches)?),
    }
}

/// The refusal of a command line whose values ask for nothing, with the usage of its command.
fn refusal(alloc: Global, matches: &ArgMatches<'_>) -> Result<Error, Error>
    ensures { IfOk result (λ error. kind_of error ≡ InvalidValue) }
{
    let (name, wrong) = match matches.subcommand() {
        Some((name, inner)) => (name, wrong_number(name, inner)),
        None => ("", None),
    };
    let mut command = command_named(alloc, name)?;
    match wrong {
        Some(wrong) => {
            let said = format!(in alloc; "{wrong}")?;
            Ok(command.error(ErrorKind::InvalidValue, &said)?)
        }
        None => Ok(command.error(ErrorKind::InvalidValue, refused_by(name))?),
    }
}

/// What is said of the command of this name whose values ask for nothing.
fn refused_by(name: &str) -> &'static str {
    match name {
        "check" => NOT_A_JOURNEY,
        "verify" => NOT_A_SEAL,
        "history" => NOT_A_CARD_OR_DAY,
        "balances" => NOT_A_COUNT,
        "statement" => NOT_DAYS,
        _ => NOT_DECIMAL,
    }
}

/// The words of the command line, the program's name first. One that isn't UTF-8 is refused as a
/// wrong command line.
pub fn words_of<R: AllocGlobal + Env>(rt: &R) -> Result<Vec<String>, Error> {
    program_options::words_of(rt, &mut command(rt.alloc())?)
}

/// The refusal of a command that the program at hand doesn't have, though `tap_server` has it.
pub fn refuse_command(alloc: Global) -> Result<Error, Error>
    ensures { IfOk result (λ error. kind_of error ≡ InvalidSubcommand) }
{
    Ok(command(alloc)?.error(ErrorKind::InvalidSubcommand, NOT_HERE)?)
}

/// What the matches ask for. `None` where a number isn't written in decimal digits, or where a seal
/// or a day is none.
fn asked<'a>(alloc: Global, matches: &ArgMatches<'a>) -> Result<Option<Arguments<'a>>, AllocError>
    ensures { IfOk result (λ asked. IfSome asked IsAllowed) }
{
    match matches.subcommand() {
        Some((name, inner)) => {
            let revisions = revisions_asked(alloc, inner)?;
            Ok(asked_by(name, inner, revisions))
        }
        None => Ok(None),
    }
}

/// What the matches of the command of this name ask for, with the paths of further fare tables that
/// they name. `None` as in `asked`.
fn asked_by<'a>(
    name: &str,
    inner: &ArgMatches<'a>,
    revisions: Vec<&'a str>,
) -> Option<Arguments<'a>>
    ensures { IfSome result IsAllowed }
{
    match name {
        "replay" => replay_asked(inner, revisions),
        "check" => check_of(inner),
        "serve" => serve_of(inner, revisions),
        "migrate" => migrate_asked(inner),
        "verify" => verify_asked(inner, revisions),
        "history" => history_of(inner, revisions),
        "balances" => balances_of(inner, revisions),
        "statement" => statement_of(inner, revisions),
        _ => None,
    }
}

/// The paths of further fare tables that the matches of a command name: none where it takes none.
fn revisions_asked<'a>(
    alloc: Global,
    matches: &ArgMatches<'a>,
) -> Result<Vec<&'a str>, AllocError> {
    match matches.get_strs("revisions") {
        Some(paths) => paths.to_vec(alloc),
        None => Ok(Vec::new(alloc)),
    }
}

/// The check that the matches of its command ask for.
fn check_of<'a>(matches: &ArgMatches<'a>) -> Option<Arguments<'a>>
    ensures { IfSome result IsAllowed }
{
    Some(Arguments::Check(check_asked(matches)?))
}

/// The replay that the matches of its command ask for.
fn replay_asked<'a>(matches: &ArgMatches<'a>, revisions: Vec<&'a str>) -> Option<Arguments<'a>>
    ensures { IfSome result IsAllowed }
{
    let table = matches.get_str("table");
    let cards = number_asked(matches, "cards", CARDS_LIMIT)?;
    Some(Arguments::Replay {
        table,
        cards,
        revisions,
    })
}

/// The server that the matches of its command ask for.
fn serve_of<'a>(matches: &ArgMatches<'a>, revisions: Vec<&'a str>) -> Option<Arguments<'a>>
    ensures { IfSome result IsAllowed }
{
    Some(Arguments::Serve(serve_asked(matches, revisions)?))
}

/// The carrying over of a journal that the matches of its command ask for.
fn migrate_asked<'a>(matches: &ArgMatches<'a>) -> Option<Arguments<'a>>
    ensures { IfSome result IsAllowed }
{
    let table = matches.get_str("table")?;
    let from = matches.get_str("from")?;
    let to = matches.get_str("to")?;
    let cards = number_asked(matches, "cards", CARDS_LIMIT)?;
    Some(Arguments::Migrate(Migrate {
        table,
        from,
        to,
        cards,
    }))
}

/// The verifying of a journal that the matches of its command ask for.
fn verify_asked<'a>(matches: &ArgMatches<'a>, revisions: Vec<&'a str>) -> Option<Arguments<'a>>
    ensures { IfSome result IsAllowed }
{
    let journal = matches.get_str("journal")?;
    let table = matches.get_str("table");
    let seal = seal_asked(matches)?;
    let expect_cards = number_given(matches, "expect-cards", 1, CARDS_LIMIT)?;
    let expect_capacity = number_given(matches, "expect-capacity", 1, HISTORY_LIMIT)?;
    let gate = gate_asked(matches)?;
    Some(Arguments::Verify(Verify {
        journal,
        table,
        revisions,
        seal,
        expect_cards,
        expect_capacity,
        gate,
    }))
}

/// The gate whose file is verified, where one is named. `None` where its number is none.
fn gate_asked(matches: &ArgMatches<'_>) -> Option<Option<u16>> {
    match matches.get_str("gate") {
        Some(text) => Some(Some(short_in(text, 0)?)),
        None => Some(None),
    }
}

/// The history that the matches of its command ask for.
fn history_of<'a>(matches: &ArgMatches<'a>, revisions: Vec<&'a str>) -> Option<Arguments<'a>>
    ensures { IfSome result IsAllowed }
{
    Some(Arguments::History(history_asked(matches, revisions)?))
}

/// The balances that the matches of their command ask for.
fn balances_of<'a>(matches: &ArgMatches<'a>, revisions: Vec<&'a str>) -> Option<Arguments<'a>>
    ensures { IfSome result IsAllowed }
{
    Some(Arguments::Balances(balances_asked(matches, revisions)?))
}

/// The statement that the matches of its command ask for.
fn statement_of<'a>(matches: &ArgMatches<'a>, revisions: Vec<&'a str>) -> Option<Arguments<'a>>
    ensures { IfSome result IsAllowed }
{
    Some(Arguments::Statement(statement_asked(matches, revisions)?))
}
