//! The commands at which gates are answered, and those for their tables and journals.

use super::{Described, Parameter, Rule, Takes};
use crate::arguments::{CONNECTIONS_LIMIT, IDLE_LIMIT, REPORT_LIMIT};
use station_limits::{CARDS_LIMIT, HISTORY_LIMIT, LINES_LIMIT};

/// What `replay` does.
const REPLAY_ABOUT: &str =
    "Answers each request line of standard input with a line on standard output";

/// How `replay` is called, and how it ends.
const REPLAY_EXAMPLE: &str = "Example, an issue of card 1:
  echo 000f0400070000000100000001677b8b28 | bovtrila replay --cards 10

Example, with a further table to which touches may revise fares:
  bovtrila replay --cards 10 --table fares.toml fares-2026.toml < lines

Statuses: 0 all lines are answered, 1 a fault (on standard error),
2 a wrong command line";

/// What `check` does.
const CHECK_ABOUT: &str =
    "Checks a fare table or a door, and prints what it contains or its first fault";

/// What a check is asked for: of one table, with at most one of two options, of two, or of a door.
const CHECK_USAGE: &str = "bovtrila check --table <FILE> [--strict | --fare <FROM> <TO> <MOMENT>]
       bovtrila check --against <OLD> <NEW>
       bovtrila check --door <FILE>";

/// How `check` is called, and how it ends.
const CHECK_EXAMPLE: &str = "Example:
  bovtrila check --table fares.toml

Example, the fare of a journey from station 1 to station 3 that starts at this moment:
  bovtrila check --table fares.toml --fare 1 3 2025-01-07T08:30:00Z

Example, the changes in a new table, and whether fares may be revised to it:
  bovtrila check --against fares.toml fares-2026.toml

Example, the rules of a door:
  bovtrila check --door door.toml

Statuses: 0 the file is valid, or with --against fares may be revised to the new table;
1 it isn't valid, fares may not be revised, there was a fault, or with --strict a note;
2 a wrong command line";

/// What a journey is, as it is written.
const JOURNEY_VALUES: [&str; 3] = ["FROM", "TO", "MOMENT"];

/// What tables are compared, as they are written.
const AGAINST_VALUES: [&str; 2] = ["OLD", "NEW"];

/// What `serve` does.
const SERVE_ABOUT: &str = "Serves gates over TCP, and stores each touch in a journal";

/// What a server needs and may be given, in two lines: the one that `clap` writes is too long.
const SERVE_USAGE: &str =
    "bovtrila serve [OPTIONS] --table <FILE> --journal <FILE> --listen <ADDR> --cards <N>
         --capacity <N> --lines <N> [REVISION]...";

/// How `serve` is called, and how it ends.
const SERVE_EXAMPLE: &str =
    "Example, the first start of a station of 8 gates, which makes its journal:
  bovtrila serve --table fares.toml --journal station.journal --cards 1000 \\
    --capacity 1000000 --listen 127.0.0.1:4014 --lines 8

Each later start has --strict, so that the server makes no new journal by mistake. The last
arguments are further tables, and all that the journal names are needed:
  bovtrila serve --table fares.toml --journal station.journal --cards 1000 \\
    --capacity 1000000 --listen 127.0.0.1:4014 --lines 8 --strict fares-2026.toml

Example, with a door, and HAProxy on the same machine, which verifies the gates' certificates:
  bovtrila serve --table fares.toml --journal station.journal --cards 1000 \\
    --capacity 1000000 --listen 127.0.0.1:4014 --lines 8 --strict --door door.toml --proxy

Statuses: 0 all lines have ended and the journal is closed, 1 a fault (on standard error) or a
failed disk, 2 a wrong command line";

/// What `migrate` does.
const MIGRATE_ABOUT: &str = "Converts a journal of the first format into a new file";

/// How `migrate` is called, and how it ends.
const MIGRATE_EXAMPLE: &str = "Example:
  bovtrila migrate --table fares.toml --from station.journal --to new.journal --cards 1000

The command only reads the old journal.

Statuses: 0 the new journal is whole, 1 a fault (on standard error),
2 a wrong command line, 141 nobody reads the output";

/// The command `replay`.
pub(super) const REPLAY: Described = Described {
    name: "replay",
    about: REPLAY_ABOUT,
    usage: None,
    example: REPLAY_EXAMPLE,
    parameters: &[REPLAY_TABLE, REPLAY_CARDS, REVISIONS],
};

/// The command `check`.
pub(super) const CHECK: Described = Described {
    name: "check",
    about: CHECK_ABOUT,
    usage: Some(CHECK_USAGE),
    example: CHECK_EXAMPLE,
    parameters: &[CHECKED, STRICT_TABLE, FARE, AGAINST, CHECKED_DOOR],
};

/// The command `serve`.
pub(super) const SERVE: Described = Described {
    name: "serve",
    about: SERVE_ABOUT,
    usage: Some(SERVE_USAGE),
    example: SERVE_EXAMPLE,
    parameters: &[
        FIRST,
        JOURNAL,
        LISTEN,
        SERVE_CARDS,
        CAPACITY,
        LINES,
        CONNECTIONS,
        IDLE,
        REPORT,
        STAY_HALTED,
        STRICT_JOURNAL,
        STANDBY,
        DOOR,
        PROXY,
        REVISIONS,
    ],
};

/// The command `migrate`.
pub(super) const MIGRATE: Described = Described {
    name: "migrate",
    about: MIGRATE_ABOUT,
    usage: None,
    example: MIGRATE_EXAMPLE,
    parameters: &[MADE_BY, FROM, TO, MADE_WITH],
};

/// The file of the fare table that is checked.
const CHECKED: Parameter = Parameter {
    name: "table",
    takes: Takes::Text("FILE"),
    rule: Rule::Unless(&["against", "door"]),
    help: "The file of the fare table, in TOML",
};

/// The file of a station's first fare table.
const FIRST: Parameter = Parameter {
    name: "table",
    takes: Takes::Text("FILE"),
    rule: Rule::Required,
    help: "The file of the station's first fare table, in TOML",
};

/// Whether notes count as faults.
const STRICT_TABLE: Parameter = Parameter {
    name: "strict",
    takes: Takes::Flag,
    rule: Rule::Without(&["fare"]),
    help: "Returns status 1 if there is a note on a valid table:
an unknown or misplaced key, prices that may be pounds,
or a cap below a single fare that it covers; not with --fare",
};

/// The journey of which the fare is asked.
const FARE: Parameter = Parameter {
    name: "fare",
    takes: Takes::Three(&JOURNEY_VALUES),
    rule: Rule::Optional,
    help: "Prints the fare of a journey between two stations that starts
at a moment in UTC, as 2025-01-07T08:30:00Z, and the reason,
instead of the report; not with --strict",
};

/// The tables that are compared.
const AGAINST: Parameter = Parameter {
    name: "against",
    takes: Takes::Pair(&AGAINST_VALUES),
    rule: Rule::Without(&["table", "strict", "fare"]),
    help: "Prints the changes from the table in the first file to that in
the second, and whether fares may be revised to it;
instead of --table, and with no other option",
};

/// The file of the door that is checked.
const CHECKED_DOOR: Parameter = Parameter {
    name: "door",
    takes: Takes::Text("FILE"),
    rule: Rule::Without(&["table", "strict", "fare", "against"]),
    help: "The file of a door, in TOML: prints a line for each of its rules;
instead of --table, and with no other option",
};

/// The file of the fare table by which a replay answers.
const REPLAY_TABLE: Parameter = Parameter {
    name: "table",
    takes: Takes::Text("FILE"),
    rule: Rule::Optional,
    help: "The file of the fare table, in TOML; the default is the example table",
};

/// How many cards a replay has.
const REPLAY_CARDS: Parameter = Parameter {
    name: "cards",
    takes: Takes::Number("N", CARDS_LIMIT),
    rule: Rule::Required,
    help: "The number of cards, from 1 to 100000",
};

/// The files of further fare tables.
const REVISIONS: Parameter = Parameter {
    name: "revisions",
    takes: Takes::Revisions,
    rule: Rule::Optional,
    help: "Files of further fare tables, to which touches may revise fares",
};

/// The journal of a server.
const JOURNAL: Parameter = Parameter {
    name: "journal",
    takes: Takes::Text("FILE"),
    rule: Rule::Required,
    help: "The journal's file; if it is missing or empty, the server makes
the journal, except with --strict",
};

/// Where gates connect.
const LISTEN: Parameter = Parameter {
    name: "listen",
    takes: Takes::Text("ADDR"),
    rule: Rule::Required,
    help: "The address and port that gates connect to; port 0 takes a free one",
};

/// How many cards a server has.
const SERVE_CARDS: Parameter = Parameter {
    name: "cards",
    takes: Takes::Number("N", CARDS_LIMIT),
    rule: Rule::Required,
    help: "The number of cards, from 1 to 100000; an existing journal
must have the same number",
};

/// How many touches a new journal has room for.
const CAPACITY: Parameter = Parameter {
    name: "capacity",
    takes: Takes::Number("N", HISTORY_LIMIT),
    rule: Rule::Required,
    help: "The number of touches that a new journal has room for, from 1 to 1000000",
};

/// How many lines a server has.
const LINES: Parameter = Parameter {
    name: "lines",
    takes: Takes::Number("N", LINES_LIMIT),
    rule: Rule::Required,
    help: "The number of gates that are served at once, from 1 to 64",
};

/// How many connections a line of a server gives its gates.
const CONNECTIONS: Parameter = Parameter {
    name: "connections",
    takes: Takes::Number("N", CONNECTIONS_LIMIT),
    rule: Rule::Optional,
    help: "The number of connections that each line serves before it ends,
from 1 to 1000000; by default a line serves without end",
};

/// After how many seconds a silent connection is ended.
const IDLE: Parameter = Parameter {
    name: "idle",
    takes: Takes::Number("SECONDS", IDLE_LIMIT),
    rule: Rule::Optional,
    help: "Closes the connection of a gate that sends nothing, reads no answer,
or leaves a request unfinished for this many seconds, from 1
to 1000000; by default none is closed",
};

/// How often it is told how a server stands.
const REPORT: Parameter = Parameter {
    name: "report",
    takes: Takes::Number("SECONDS", REPORT_LIMIT),
    rule: Rule::Optional,
    help: "Prints the server's numbers on standard error at this interval in
seconds, from 1 to 1000000; by default it prints none",
};

/// What a server does whose journal's disk has failed.
const STAY_HALTED: Parameter = Parameter {
    name: "stay-halted",
    takes: Takes::Flag,
    rule: Rule::Optional,
    help: "Continues after a failure of the journal's disk, and answers enquiries;
without it the server ends, to be started again",
};

/// What a server refuses of a journal.
const STRICT_JOURNAL: Parameter = Parameter {
    name: "strict",
    takes: Takes::Flag,
    rule: Rule::Optional,
    help: "Makes no journal: refuses one that is missing or empty, that has more
than two valid slots after its end, or whose slots after the end can't
be counted; without it the server makes a journal, and prints a note
on such slots",
};

/// What a server does whose journal another one has.
const STANDBY: Parameter = Parameter {
    name: "standby",
    takes: Takes::Flag,
    rule: Rule::Optional,
    help: "While another server or run has locked the journal, waits for its
end, and then serves; without it such a lock is a fault",
};

/// The file of a server's door.
const DOOR: Parameter = Parameter {
    name: "door",
    takes: Takes::Text("FILE"),
    rule: Rule::Optional,
    help: "The file of the door, in TOML: rules for which requests each connection
may send; by default each connection may send every request",
};

/// Whether a proxy names the certificate of each connection.
const PROXY: Parameter = Parameter {
    name: "proxy",
    takes: Takes::Flag,
    rule: Rule::Optional,
    help: "Reads HAProxy's header (PROXY protocol, version 2) at the start of each
connection, which names the gate's certificate; only if --listen has a
loopback address; by default connections have no header and no name",
};

/// The fare table by which an old journal was made.
const MADE_BY: Parameter = Parameter {
    name: "table",
    takes: Takes::Text("FILE"),
    rule: Rule::Required,
    help: "The file of the fare table that the journal was made with, in TOML",
};

/// The old journal.
const FROM: Parameter = Parameter {
    name: "from",
    takes: Takes::Text("FILE"),
    rule: Rule::Required,
    help: "The file of the old journal",
};

/// The new journal.
const TO: Parameter = Parameter {
    name: "to",
    takes: Takes::Text("FILE"),
    rule: Rule::Required,
    help: "The new journal's file, which the command makes if it is missing;
otherwise it has to be empty",
};

/// How many cards an old journal was made with.
const MADE_WITH: Parameter = Parameter {
    name: "cards",
    takes: Takes::Number("N", CARDS_LIMIT),
    rule: Rule::Required,
    help: "The number of cards that the journal was made with, from 1 to 100000",
};
