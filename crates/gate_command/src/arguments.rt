//! What the words of the command line ask for, as `clap` reads them.

ghost use Rattle.std.specs.Prelude.{IfOk, IfSome};
ghost use Rattle.gate_command.specs.Arguments.{IsAllowed};

use clap::error::ErrorKind;
use clap::{Arg, ArgAction, ArgMatches, Command, Error};
use program_options::{NOT_DECIMAL, VERSION, flag, number_given, option};
use station_limits::HISTORY_LIMIT;
use std::alloc::{AllocError, Global};
use std::rt::Env;

/// The program's name in its help.
const NAME: &str = "gate_send";

/// What the program does.
const ABOUT: &str =
    "Sends the touches of a gate to a station, each kept in the gate's file until it is answered";

/// How the program is called: the line that `clap` writes has no order of its own.
const USAGE: &str = "gate_send --gate <N> --file <FILE> [OPTIONS] <ADDR>...";

/// What is read and written, how the program is called, and how it ends.
const EXAMPLE: &str = "Each line of standard input asks for a touch: issue CARD, in CARD STATION,
out CARD STATION or top-up CARD PENCE, and in front of it at SECONDS, where its moment isn't the
clock's. Each reply is a line of standard output: gate, number, card, act, station, pence, verdict,
change and balance. A run begins with the last touch of the file, whose reply is the first line.
A line enquire CARD asks for a balance: the answer has no number, station, pence or change, and as
its verdict vacant (no card), outside or inside. Enquiries aren't stored in the file.
A line that asks for neither is reported on standard error, and the next one is read.

Example, gate 7 makes its file if there is none, and a card is issued and topped up:
  printf 'issue 3\\ntop-up 3 1000\\n' |
    gate_send --gate 7 --file gate7.touches --new 192.168.1.10:7040

Example, what waits from before, by two stations of one journal:
  gate_send --gate 7 --file gate7.touches --resend 192.168.1.10:7040 192.168.1.11:7040

Example, what waits is refused each time by a fault, and the station's staff agree to give it up:
  gate_send --gate 7 --file gate7.touches --give-up 192.168.1.10:7040

Statuses: 0 each line is answered, 1 a fault or a line that asks for nothing (reported on standard
error; a touch that was kept waits in the file), 2 a wrong command line";

/// What is said of the option `give-up`.
const GIVE_UP_HELP: &str = "Sends what waits from before alone, and reads no line. If the
answer is fault 2, 5, 6 or 7, gives it up: it is never sent again";

/// What is said of the option `tries`.
const TRIES_HELP: &str = "Ends after so many tries of a request, from 1 to 1000000;
without it none is given up";

/// What is said of the option `timeout`.
const TIMEOUT_HELP: &str = "How long a connection or an answer is waited for, from 1 to 3600000;
without it 2000";

/// What is said of the option `pause`.
const PAUSE_HELP: &str = "The pause if all addresses fail, from 1 to 30000, without it 200;
each further one is twice as long, up to 30000";

/// What is said of the station's addresses.
const ADDRESSES_HELP: &str =
    "The station's addresses and ports, as 192.168.1.10:7040: the next one is
taken after a fault";

/// The highest number of a gate.
const GATE_LIMIT: u32 = u16::MAX as u32;
/// The most tries of a request that can be asked for.
const TRIES_LIMIT: u32 = 1_000_000;
/// The most milliseconds that an answer can be waited for.
const TIMEOUT_LIMIT: u32 = 3_600_000;
/// How many milliseconds it is waited for where none are named (PROTOCOL.md, "When to repeat,
/// and how often").
const TIMEOUT: u32 = 2_000;
/// The longest pause between two tries, in milliseconds.
pub(crate) const LONGEST_PAUSE: u32 = 30_000;
/// How many milliseconds the first pause has where none are named.
const FIRST_PAUSE: u32 = 200;

/// What stands for an address that is none.
const NOT_AN_ADDRESS: &str = "an address is a host and a port, as 192.168.1.10:7040";

/// What the program is asked to do.
#[derive(Debug, Drop)]
pub struct Arguments<'a> {
    /// The number of the gate.
    pub gate: u16,
    /// The path of its file.
    pub file: &'a str,
    /// Whether the file is made.
    pub is_new: bool,
    /// How many touches a file has room for that is made.
    pub capacity: u32,
    /// Whether what waits is sent alone, and no line is read.
    pub resends: bool,
    /// Whether what waits is sent alone, given up where the answer is a fault that repeats don't
    /// change, and no line is read.
    pub gives_up: bool,
    /// How often a request is tried, where the tries ever end.
    pub tries: Option<u32>,
    /// How many milliseconds a connection, a read or a write may take.
    pub timeout: u32,
    /// How many milliseconds the first pause between two tries has.
    pub pause: u32,
    /// The station's addresses, in their order.
    pub addresses: Vec<&'a str>,
}

/// The words of the command line, the program's name first. One that isn't UTF-8 is refused as a
/// wrong command line.
pub fn words_of<R: AllocGlobal + Env>(rt: &R) -> Result<Vec<String>, Error> {
    program_options::words_of(rt, &mut command(rt.alloc())?)
}

/// What the words of the command line ask for; the program's own name is the first of them. The
/// error says that help or the version was asked for, or what is wrong. Its text and status are
/// `clap`'s.
pub fn arguments_of<'a>(alloc: Global, words: &'a [&'a str]) -> Result<Arguments<'a>, Error>
    ensures { IfOk result IsAllowed }
{
    let mut command = command(alloc)?;
    asked_of(alloc, &mut command, words)
}

/// What the words ask for, as this command reads them.
fn asked_of<'a>(
    alloc: Global,
    command: &mut Command<'a>,
    words: &'a [&'a str],
) -> Result<Arguments<'a>, Error>
    ensures { IfOk result IsAllowed }
{
    let matches = command.try_get_matches_from_mut(words)?;
    let addresses = match matches.get_strs("addresses") {
        Some(texts) => texts.to_vec(alloc)?,
        None => Vec::new(alloc),
    };
    if !addresses.iter().all(|address| is_address(address)) {
        return Err(command.error(ErrorKind::InvalidValue, NOT_AN_ADDRESS)?);
    }
    match asked(&matches, addresses) {
        Some(asked) => Ok(asked),
        None => Err(command.error(ErrorKind::InvalidValue, NOT_DECIMAL)?),
    }
}

/// What the matches ask for. `None` where a number isn't written in decimal digits.
fn asked<'a>(matches: &ArgMatches<'a>, addresses: Vec<&'a str>) -> Option<Arguments<'a>>
    ensures { IfSome result IsAllowed }
{
    let gate = number_given(matches, "gate", 0, GATE_LIMIT)??;
    let capacity = number_given(matches, "capacity", 1, HISTORY_LIMIT)?.unwrap_or(HISTORY_LIMIT);
    let tries = number_given(matches, "tries", 1, TRIES_LIMIT)?;
    let timeout = number_given(matches, "timeout", 1, TIMEOUT_LIMIT)?.unwrap_or(TIMEOUT);
    let pause = number_given(matches, "pause", 1, LONGEST_PAUSE)?.unwrap_or(FIRST_PAUSE);
    Some(Arguments {
        gate: gate as u16,
        file: matches.get_str("file")?,
        is_new: matches.get_flag("new"),
        capacity,
        resends: matches.get_flag("resend"),
        gives_up: matches.get_flag("give-up"),
        tries,
        timeout,
        pause,
        addresses,
    })
}

/// Whether a text is a host and a port.
fn is_address(text: &str) -> bool {
    match text.rsplit_once(':') {
        Some((host, port)) => !host.is_empty() && port.parse::<u16>().is_ok(),
        None => false,
    }
}

/// The command line of the program.
fn command<'a>(alloc: Global) -> Result<Command<'a>, Error> {
    let command = Command::new(alloc, NAME)
        .bin_name(NAME)?
        .version(VERSION)
        .about(ABOUT)
        .override_usage(USAGE)
        .after_help(EXAMPLE);
    let command = with_file(alloc, command)?;
    Ok(with_tries(alloc, command)?)
}

/// The command line with the options of the gate and its file.
fn with_file<'a>(alloc: Global, command: Command<'a>) -> Result<Command<'a>, AllocError> {
    let command = command.arg(
        number(alloc, "gate", 0, GATE_LIMIT)
            .value_name("N")
            .required(true)
            .help("The gate's number, from 0 to 65535"),
    )?;
    let command = command.arg(
        option(alloc, "file")
            .value_name("FILE")
            .required(true)
            .help("The gate's file, which no other gate and no server has"),
    )?;
    let command = command.arg(flag(alloc, "new").help(
        "Makes a file that is missing; without --new that is a fault",
    ))?;
    command.arg(
        number(alloc, "capacity", 1, HISTORY_LIMIT)
            .value_name("N")
            .help(
                "How many touches a new file has room for, from 1 to 1000000;\nwithout it 1000000",
            )
            .requires_arg("new")?,
    )
}

/// The command line with the options of the sending, and the addresses.
fn with_tries<'a>(alloc: Global, command: Command<'a>) -> Result<Command<'a>, AllocError> {
    let command = command.arg(flag(alloc, "resend").help(
        "Sends what waits from before alone, and reads no line",
    ))?;
    let command = command.arg(
        flag(alloc, "give-up")
            .help(GIVE_UP_HELP)
            .conflicts_with("resend")?,
    )?;
    let command = command.arg(
        number(alloc, "tries", 1, TRIES_LIMIT)
            .value_name("N")
            .help(TRIES_HELP),
    )?;
    let command = command.arg(
        number(alloc, "timeout", 1, TIMEOUT_LIMIT)
            .value_name("MILLISECONDS")
            .help(TIMEOUT_HELP),
    )?;
    let command = command.arg(
        number(alloc, "pause", 1, LONGEST_PAUSE)
            .value_name("MILLISECONDS")
            .help(PAUSE_HELP),
    )?;
    command.arg(
        Arg::new(alloc, "addresses")
            .value_name("ADDR")
            .num_args(1..)
            .action(ArgAction::Append)
            .required(true)
            .help(ADDRESSES_HELP),
    )
}

/// An option with a number within limits.
fn number<'a>(alloc: Global, name: &'a str, least: u32, limit: u32) -> Arg<'a> {
    let range = clap::value_parser!(u32).range(i64::from(least)..=i64::from(limit));
    option(alloc, name).value_parser(range)
}
