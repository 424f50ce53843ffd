//! The command, with files made by hand: the text that it writes, and the lines of a fault.

ghost use Rattle.console.specs.Files.{IsAnyReading};

use super::days::TUESDAY_CSV;
use super::worked::{TEXT, monday};
use super::*;
use command_line::Statement;
use console::{Detail, TrialFault, WholeFiles};
use statement_command::{explained_statement, tell_statement};
use std::process::ExitCode;
use text_io::RunFault;

/// The path of the example table.
const TABLE: &str = "example.toml";
/// The path of the journal.
const JOURNAL: &str = "monday.journal";
/// The path of an empty file.
const EMPTY: &str = "empty.journal";

/// The example table, a journal and an empty file, by their paths. There is no other file.
#[derive(Clone, Copy)]
struct GivenFiles<'a> {
    journal: &'a [u8],
}

impl GivenFiles<'_> {
    /// The bytes of the file of this path.
    fn found(&self, path: &str) -> Option<&[u8]> {
        if path == TABLE {
            Some(EXAMPLE_TABLE.as_bytes())
        } else if path == JOURNAL {
            Some(self.journal)
        } else if path == EMPTY {
            Some(&[])
        } else {
            None
        }
    }
}

impl WholeFiles for GivenFiles<'_> {
    ghost gave = { λ _ path bytes. IsAnyReading path bytes };

    fn bytes_in(&self, alloc: Global, path: &str) -> Result<Vec<u8>, TrialFault> {
        let Some(bytes) = self.found(path) else {
            return Err(TrialFault::File(Detail::none()));
        };
        match bytes.to_vec(alloc) {
            Ok(bytes) => Ok(bytes),
            Err(_) => Err(TrialFault::Run(RunFault::Memory)),
        }
    }
}

/// The arguments that ask for the text of a card's whole statement.
fn asked<'a>(alloc: Global, table: &'a str, journal: &'a str, card: u32) -> Statement<'a> {
    Statement {
        table,
        journal,
        revisions: Vec::new(alloc),
        card,
        from: None,
        to: None,
        format: StatementFormat::Text,
    }
}

/// `ok`, or the line of the fault with the second line.
fn answered(alloc: Global, answer: Result<ExitCode, CommandFault>) -> Result<String, AllocError> {
    match answer {
        Ok(status) if status == ExitCode::SUCCESS => String::from_str(alloc, "ok"),
        Ok(_) => String::from_str(alloc, "another status"),
        Err(fault) => {
            let second = fault.detail().unwrap_or("");
            format!(in alloc; "{fault}{second}")
        }
    }
}

/// The command writes this text from these files, and its fault has these lines. The second line is
/// only that of `explained_statement`.
fn assert_answered<R: Abort + AllocGlobal + Eprint>(
    rt: &R,
    files: &GivenFiles<'_>,
    asked: &Statement<'_>,
    (first, second): (&str, &str),
    text: &str,
) -> Result<(), Fail> {
    let alloc = rt.alloc();
    let mut written = Vec::new(alloc);
    let line = answered(
        alloc,
        tell_statement(rt, NameHashing::fixed(), files, asked, &mut written),
    )?;
    assert_same(rt, line.as_str(), first);
    assert_same(rt, written.as_slice(), text.as_bytes());
    let mut written = Vec::new(alloc);
    let line = answered(
        alloc,
        explained_statement(rt, NameHashing::fixed(), files, asked, &mut written),
    )?;
    let both = format!(in alloc; "{first}{second}")?;
    assert_same(rt, line.as_str(), both.as_str());
    assert_same(rt, written.as_slice(), text.as_bytes());
    Ok(())
}

#[test]
fn a_command_prints_the_statement_in_its_files(rt: HostRuntime) -> Result<(), Fail> {
    let alloc = rt.alloc();
    let bytes = journal(alloc, &monday()).ok_or("a journal")?;
    let files = GivenFiles { journal: &bytes };
    for (table, path, card, lines, text) in [
        (TABLE, JOURNAL, CARD, ("ok", ""), TEXT),
        (TABLE, JOURNAL, 18, ("fault card 18 not issued", ""), ""),
        ("none.toml", JOURNAL, CARD, ("fault file", ""), ""),
        (TABLE, "none.journal", CARD, ("fault file", ""), ""),
        (
            TABLE,
            EMPTY,
            CARD,
            ("fault journal 3 NotAJournal", "  empty.journal"),
            "",
        ),
    ] {
        let asked = asked(alloc, table, path, card);
        assert_answered(&rt, &files, &asked, lines, text)?;
    }
    Ok(())
}

#[test]
fn a_command_prints_the_days_and_the_format_that_are_asked_for(
    rt: HostRuntime,
) -> Result<(), Fail> {
    let alloc = rt.alloc();
    let bytes = journal(alloc, &monday()).ok_or("a journal")?;
    let files = GivenFiles { journal: &bytes };
    let mut asked = asked(alloc, TABLE, JOURNAL, CARD);
    asked.from = Some(20_095);
    asked.format = StatementFormat::Csv;
    assert_answered(&rt, &files, &asked, ("ok", ""), TUESDAY_CSV)
}
