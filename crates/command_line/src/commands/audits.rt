//! The commands that only read a journal.

use super::{Described, Parameter, Rule, Takes};
use crate::history::FORMATS;
use crate::statement::STATEMENT_FORMATS;
use station_limits::{CARDS_LIMIT, HISTORY_LIMIT};

/// What `verify` does.
const VERIFY_ABOUT: &str = "Checks a journal, and prints what it contains or its first fault";

/// How `verify` is called, and how it ends.
const VERIFY_EXAMPLE: &str = "Example:
  bovtrila verify --journal station.journal

Example, with the tables that the journal names, and with a seal of its touches:
  bovtrila verify --journal station.journal --table fares.toml --seal fares-2026.toml

Example, with the numbers of the station's documents:
  bovtrila verify --journal station.journal --expect-cards 1000 --expect-capacity 1000000

Example, the file of a gate:
  bovtrila verify --journal gate-7.journal --gate 7

The command only reads the journal, without a lock. A server may run meanwhile.

Statuses: 0 the journal is sound, 1 a fault (on standard error),
2 a wrong command line, 3 sound, but more than two slots after its end are valid,
141 nobody reads the output";

/// What `history` does.
const HISTORY_ABOUT: &str = "Prints each touch of a journal with its reply, oldest first";

/// How `history` is called, and how it ends.
const HISTORY_EXAMPLE: &str = "Example:
  bovtrila history --table fares.toml --journal station.journal > history.csv

Example, a card's touches of one fare day, with a further table that the journal names:
  bovtrila history --table fares.toml --journal station.journal --card 17 \\
    --day 2025-01-07 fares-2026.toml

Example, a replay of the journal:
  bovtrila history --table fares.toml --journal station.journal --format frames |
    bovtrila replay --table fares.toml --cards 1000

The command only reads the journal, without a lock. A server may run meanwhile.

Statuses: 0 the history is printed, 1 a fault (on standard error),
2 a wrong command line, 141 nobody reads the output";

/// What `balances` does.
const BALANCES_ABOUT: &str = "Prints the balance of each issued card of a journal";

/// How `balances` is called, and how it ends.
const BALANCES_EXAMPLE: &str = "Example:
  bovtrila balances --table fares.toml --journal station.journal > balances.csv

Example, after the first 5000 touches:
  bovtrila balances --table fares.toml --journal station.journal --at 5000

Standard error has the sums over all cards. The command only reads the journal, without a lock. A
server may run meanwhile.

Statuses: 0 the balances are printed, and each is what was paid in less what was charged,
1 a fault (on standard error), 2 a wrong command line, 141 nobody reads the output";

/// What `statement` does.
const STATEMENT_ABOUT: &str =
    "Prints a card's statement: its charges for each day, and the reasons";

/// How `statement` is called, and how it ends.
const STATEMENT_EXAMPLE: &str = "Example:
  bovtrila statement --table fares.toml --journal station.journal --card 17

Example, one week, as comma-separated values, with a further table that the journal names:
  bovtrila statement --table fares.toml --journal station.journal --card 17 \\
    --from 2025-01-06 --to 2025-01-12 --format csv fares-2026.toml

Amounts are in pounds in text, and in pence in csv and json. The command only reads the journal,
without a lock. A server may run meanwhile.

Statuses: 0 the statement is printed, 1 a fault (on standard error),
2 a wrong command line, 141 nobody reads the output";

/// The parts of a seal on a command line.
const SEAL_VALUES: [&str; 2] = ["N", "DIGEST"];

/// The command `verify`.
pub(super) const VERIFY: Described = Described {
    name: "verify",
    about: VERIFY_ABOUT,
    usage: None,
    example: VERIFY_EXAMPLE,
    parameters: &[
        JOURNAL,
        HELD_AGAINST,
        SEAL,
        SEALED,
        EXPECT_CARDS,
        EXPECT_CAPACITY,
        GATE,
        NAMED_BESIDE,
    ],
};

/// The command `history`.
pub(super) const HISTORY: Described = Described {
    name: "history",
    about: HISTORY_ABOUT,
    usage: None,
    example: HISTORY_EXAMPLE,
    parameters: &[MADE_BY, JOURNAL, CARD, DAY, FORMAT, NAMED],
};

/// The command `balances`.
pub(super) const BALANCES: Described = Described {
    name: "balances",
    about: BALANCES_ABOUT,
    usage: None,
    example: BALANCES_EXAMPLE,
    parameters: &[MADE_BY, JOURNAL, AT, NAMED],
};

/// The command `statement`.
pub(super) const STATEMENT: Described = Described {
    name: "statement",
    about: STATEMENT_ABOUT,
    usage: None,
    example: STATEMENT_EXAMPLE,
    parameters: &[MADE_BY, JOURNAL, OF_CARD, FROM, TO, STATEMENT_FORMAT, NAMED],
};

/// The journal that is read.
const JOURNAL: Parameter = Parameter {
    name: "journal",
    takes: Takes::Text("FILE"),
    rule: Rule::Required,
    help: "The journal's file, of either format",
};

/// The first table that the journal was made with.
const MADE_BY: Parameter = Parameter {
    name: "table",
    takes: Takes::Text("FILE"),
    rule: Rule::Required,
    help: "The file of the first fare table that the journal was made with",
};

/// The first table that a journal is compared with, if one is named.
const HELD_AGAINST: Parameter = Parameter {
    name: "table",
    takes: Takes::Text("FILE"),
    rule: Rule::Optional,
    help: "The file of the first fare table that the journal was made with;
without it the command reads no table",
};

/// The tables that a journal's revisions name.
const NAMED: Parameter = Parameter {
    name: "revisions",
    takes: Takes::Revisions,
    rule: Rule::Optional,
    help: "Files of further fare tables: all that the journal names",
};

/// The tables that a journal's revisions name, beside the first one.
const NAMED_BESIDE: Parameter = Parameter {
    name: "revisions",
    takes: Takes::Revisions,
    rule: Rule::With("table"),
    help: "Files of further fare tables, with --table: all that the journal names",
};

/// Whether a seal is printed.
const SEAL: Parameter = Parameter {
    name: "seal",
    takes: Takes::Flag,
    rule: Rule::Optional,
    help: "Prints a seal of the journal's touches: their number and a digest",
};

/// The seal that a journal is compared with.
const SEALED: Parameter = Parameter {
    name: "sealed",
    takes: Takes::Pair(&SEAL_VALUES),
    rule: Rule::Optional,
    help: "Checks that the journal's first N touches are still those of a seal:
N from 0 to 1000000, and 64 hexadecimal digits; with --seal
the new seal is made from the same bytes",
};

/// The number of cards that a journal has to have.
const EXPECT_CARDS: Parameter = Parameter {
    name: "expect-cards",
    takes: Takes::Number("N", CARDS_LIMIT),
    rule: Rule::Optional,
    help: "Refuses a journal with another number of cards; N from 1 to 100000",
};

/// The capacity that a journal has to have.
const EXPECT_CAPACITY: Parameter = Parameter {
    name: "expect-capacity",
    takes: Takes::Number("N", HISTORY_LIMIT),
    rule: Rule::Optional,
    help: "Refuses a journal with another capacity; N from 1 to 1000000",
};

/// The gate whose file the journal is.
const GATE: Parameter = Parameter {
    name: "gate",
    takes: Takes::Text("N"),
    rule: Rule::Without(&["table", "revisions"]),
    help: "Checks that the file is that of the gate with this number, from 0
to 65535; not with --table: a gate has no fares",
};

/// The card whose touches are printed.
const CARD: Parameter = Parameter {
    name: "card",
    takes: Takes::Number("N", CARDS_LIMIT),
    rule: Rule::Optional,
    help: "Prints only the touches of this card, from 1 to 100000",
};

/// The day whose touches are printed.
const DAY: Parameter = Parameter {
    name: "day",
    takes: Takes::Text("DATE"),
    rule: Rule::Optional,
    help: "Prints only the touches of this fare day, a date as 2025-01-07",
};

/// The format of a history.
const FORMAT: Parameter = Parameter {
    name: "format",
    takes: Takes::Word("FORMAT", FORMATS),
    rule: Rule::Optional,
    help: "The output format: csv, with a heading, or frames, the request lines
that replay reads; the default is csv",
};

/// The number of touches after which balances are printed.
const AT: Parameter = Parameter {
    name: "at",
    takes: Takes::Text("N"),
    rule: Rule::Optional,
    help: "Prints the balances after the first N touches, from 0 to 1000000;
by default after all",
};

/// The card of a statement.
const OF_CARD: Parameter = Parameter {
    name: "card",
    takes: Takes::Number("N", CARDS_LIMIT),
    rule: Rule::Required,
    help: "The number of the card, from 1 to 100000",
};

/// The first fare day of a statement.
const FROM: Parameter = Parameter {
    name: "from",
    takes: Takes::Text("DATE"),
    rule: Rule::Optional,
    help: "The first fare day that is printed, a date as 2025-01-07; two sums
replace all days before it",
};

/// The last fare day of a statement.
const TO: Parameter = Parameter {
    name: "to",
    takes: Takes::Text("DATE"),
    rule: Rule::Optional,
    help: "The last fare day that is printed, not before that of --from",
};

/// The format of a statement.
const STATEMENT_FORMAT: Parameter = Parameter {
    name: "format",
    takes: Takes::Word("FORMAT", STATEMENT_FORMATS),
    rule: Rule::Optional,
    help: "The output format: text, csv or json; the default is text",
};
