//! The second line of a journal's fault: what was found beside its cause, or which file it is.

ghost use Rattle.std.specs.Prelude.{◌≡◌, string_bytes, IfOk};
ghost use Rattle.journal_audit.specs.Differing.{other_table, other_cards, missing_table};
ghost use Rattle.journal_audit.specs.Told.{told_fault};

use crate::commands::fault::CommandFault;
use crate::history::date::printed_day;
use console::Detail;
use fare_table::Digest;
use std::alloc::{AllocError, Global};
use tap_journal::{Discrepancy, JournalFault, MigrateCause, Refused};

/// The fault of a command, with its second line where it is of the journal in this file: of
/// `WrongTable` and `WrongCards` what the journal has and what was given, of `MissingTable` which
/// table it is, the day of its revision, and whether that was accepted, and of `NotAJournal`,
/// `WrongVersion`, `BadLimit` and `Damaged` which file it is. Its line stays, and any other fault
/// stays as it is.
///
/// `table` is the path of the first fare table, where one was named. Without memory there is no
/// second line.
pub fn explained(
    alloc: Global,
    journal: &str,
    table: Option<&str>,
    fault: CommandFault,
) -> CommandFault
    ensures { told_fault result ≡ told_fault fault }
{
    let Some(refused) = refused_by(&fault) else {
        return fault;
    };
    match detail_of(alloc, journal, table, refused) {
        Some(detail) => fault.with(detail),
        None => fault,
    }
}

/// Why a journal was refused, and what was found beside the cause, where a fault is of one.
fn refused_by(fault: &CommandFault) -> Option<Refused> {
    match fault {
        CommandFault::Journal(refused, _) => Some(*refused),
        CommandFault::Migrate(refused, _) => match refused.cause {
            MigrateCause::Old(cause) => Some(Refused {
                cause,
                found: refused.found,
            }),
            _ => None,
        },
        _ => None,
    }
}

/// The second line of this fault of the journal in a file, where there is more to tell.
fn detail_of(
    alloc: Global,
    journal: &str,
    table: Option<&str>,
    refused: Refused,
) -> Option<Detail> {
    if is_of_file(refused.cause) {
        return Some(Detail::of_file(alloc, journal));
    }
    let said = words_of(alloc, table, refused.found?)?;
    Some(Detail::of(alloc, journal, &said))
}

/// Whether a journal is refused for what its file alone holds, whatever was given.
fn is_of_file(cause: JournalFault) -> bool {
    matches!(
        cause,
        JournalFault::NotAJournal
            | JournalFault::WrongVersion
            | JournalFault::BadLimit
            | JournalFault::Damaged(_)
    )
}

/// What was found beside a cause, in words.
fn words_of(alloc: Global, table: Option<&str>, found: Discrepancy) -> Option<String> {
    match found {
        Discrepancy::Table { made, given } => table_words(alloc, &made, table?, &given).ok(),
        Discrepancy::Cards { made, given } => cards_words(alloc, made, given).ok(),
        Discrepancy::Revision {
            day,
            is_accepted,
            digest,
        } => {
            let day = printed_day(day);
            missing_words(alloc, &digest, day.as_str(), is_accepted).ok()
        }
    }
}

/// Both tables, in words.
fn table_words(
    alloc: Global,
    made: &Digest,
    file: &str,
    given: &Digest,
) -> Result<String, AllocError>
    ensures { IfOk result (λ text. string_bytes text ≡ other_table made.now file.now given.now) }
{
    let made = hex::encode(alloc, *made)?;
    let given = hex::encode(alloc, *given)?;
    format!(in alloc; "made with the table {made}, and {file} is {given}")
}

/// Both numbers of cards, in words.
fn cards_words(alloc: Global, made: u32, given: u32) -> Result<String, AllocError>
    ensures { IfOk result (λ text. string_bytes text ≡ other_cards made given) }
{
    format!(in alloc; "made with {made} cards, not {given}")
}

/// The table that no file has, in words.
fn missing_words(
    alloc: Global,
    digest: &Digest,
    day: &str,
    is_accepted: bool,
) -> Result<String, AllocError>
    ensures { IfOk result (λ text. string_bytes text
        ≡ missing_table digest.now day.now is_accepted) }
{
    let digest = hex::encode(alloc, *digest)?;
    if is_accepted {
        format!(in alloc; "no file has the table {digest}; its revision from {day} was accepted")
    } else {
        format!(in alloc; "no file has the table {digest}; its revision from {day} was refused")
    }
}
