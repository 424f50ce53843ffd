//! What command lines ask for. Each is written as one text, with a space between its words.
mod journals;
mod serve;
mod usage;
mod verify;

use super::{assert_same, assert_same_at};
use clap::error::ErrorKind;
use command_line::{arguments_of, refuse_command};
use std::alloc::Global;
use std::process::Abort;
use std::test::Fail;

/// Adds the program's name, and behind it the words of a command line.
fn add_words<'a>(words: &mut Vec<&'a str>, line: &'a str) -> Option<()> {
    words.push("bovtrila").ok()?;
    for word in line.split(' ') {
        words.push(word).ok()?;
    }
    Some(())
}

/// The words of a command line, behind the program's name.
fn words_of<'a>(alloc: Global, line: &'a str) -> Option<Vec<&'a str>> {
    let mut words = Vec::new(alloc);
    add_words(&mut words, line)?;
    Some(words)
}

/// The status that a command line ends with which is answered by an error, or by a help text.
fn status_of(alloc: Global, words: &[&str]) -> Option<i32> {
    let error = arguments_of(alloc, words).err()?;
    Some(error.exit_code())
}

/// What a command line asks for, with all its values, where it asks for something.
fn asked(alloc: Global, line: &str) -> Option<String> {
    let words = words_of(alloc, line)?;
    let arguments = arguments_of(alloc, words.as_slice()).ok()?;
    format!(in alloc; "{arguments:?}").ok()
}

/// Each of these command lines asks for this.
fn assert_asked(rt: &impl Abort, alloc: Global, rows: &[(&str, &str)]) {
    for (line, wanted) in rows {
        let told = asked(alloc, line).expect(rt, "a command");
        assert_same_at(rt, told.as_str(), *wanted, *line);
    }
}

/// Each of these command lines is refused.
fn assert_refused(rt: &impl Abort, alloc: Global, lines: &[&str]) {
    for line in lines {
        let words = words_of(alloc, line).expect(rt, "words");
        assert_same_at(rt, status_of(alloc, words.as_slice()), Some(2), *line);
    }
}

/// The help of each command: how the command is used, and a part of its examples.
const HELPS: [(&str, &str, &str); 7] = [
    (
        "replay",
        "[OPTIONS] --cards <N> [REVISION]...\n",
        "| bovtrila replay --cards 10\n",
    ),
    (
        "check",
        "--table <FILE> [--strict | --fare <FROM> <TO> <MOMENT>]\n       \
         bovtrila check --against <OLD> <NEW>\n       bovtrila check --door <FILE>\n",
        "  bovtrila check --door door.toml\n",
    ),
    (
        "serve",
        "[OPTIONS] --table <FILE> --journal <FILE> --listen <ADDR> --cards <N>\n         \
         --capacity <N> --lines <N> [REVISION]...\n",
        "  bovtrila serve --table fares.toml --journal station.journal",
    ),
    (
        "migrate",
        "--table <FILE> --from <FILE> --to <FILE> --cards <N>\n",
        "  bovtrila migrate --table fares.toml --from station.journal",
    ),
    (
        "verify",
        "[OPTIONS] --journal <FILE> [REVISION]...\n",
        "  bovtrila verify --journal station.journal --table fares.toml --seal",
    ),
    (
        "history",
        "[OPTIONS] --table <FILE> --journal <FILE> [REVISION]...\n",
        "  bovtrila history --table fares.toml --journal station.journal",
    ),
    (
        "balances",
        "[OPTIONS] --table <FILE> --journal <FILE> [REVISION]...\n",
        "  bovtrila balances --table fares.toml --journal station.journal --at 5000",
    ),
];

/// The help of a command, where help is what it is answered by.
fn help_of(alloc: Global, command: &str) -> Option<String> {
    // The file that the program is started from has another name.
    let words = ["out/tap_server", command, "--help"];
    let help = arguments_of(alloc, &words).err()?;
    if help.kind() == ErrorKind::DisplayHelp {
        format!(in alloc; "{help}").ok()
    } else {
        None
    }
}

/// This text tells how a command is used by the program's own name, and has this example.
/// None of its lines has more than a hundred columns.
fn assert_shows(rt: &impl Abort, text: &str, used: &str, example: &str) {
    let is_told = text.contains(used) && text.contains(example);
    assert_same_at(rt, is_told && !text.contains("tap_server"), true, text);
    for line in text.lines() {
        assert_same_at(rt, line.chars().count() <= 100, true, line);
    }
}

/// The help of this command tells how it is used by the program's own name, and has this example.
/// None of its lines has more than a hundred columns.
fn assert_help(rt: &impl Abort, alloc: Global, command: &str, usage: &str, example: &str) {
    let help = help_of(alloc, command).expect(rt, "a help");
    let used = format!(in alloc; "\nUsage: bovtrila {command} {usage}").expect(rt, "a usage");
    assert_shows(rt, help.as_str(), used.as_str(), example);
}

#[test]
fn a_replay_has_a_number_of_cards(rt: HostRuntime) {
    let rows = [
        (
            "replay --cards 1",
            "Replay { table: None, cards: 1, revisions: [] }",
        ),
        (
            "replay --cards 10",
            "Replay { table: None, cards: 10, revisions: [] }",
        ),
        (
            "replay --cards 100000",
            "Replay { table: None, cards: 100000, revisions: [] }",
        ),
    ];
    assert_asked(&rt, rt.alloc(), &rows);
}

#[test]
fn a_table_is_named_by_its_file(rt: HostRuntime) {
    let rows = [
        (
            "check --table fares.toml",
            "Check(Report { table: \"fares.toml\", strict: false })",
        ),
        (
            "check --strict --table fares.toml",
            "Check(Report { table: \"fares.toml\", strict: true })",
        ),
        (
            "check --table fares.toml --fare 1 65535 1970-01-02T01:01:01Z",
            "Check(Fare { table: \"fares.toml\", \
             journey: Journey { from: 1, to: 65535, moment: 90061 } })",
        ),
        (
            "check --against old.toml new.toml",
            "Check(Changes { old: \"old.toml\", new: \"new.toml\" })",
        ),
        (
            "check --door door.toml",
            "Check(Door { door: \"door.toml\" })",
        ),
        (
            "replay --cards 10 --table fares.toml",
            "Replay { table: Some(\"fares.toml\"), cards: 10, revisions: [] }",
        ),
    ];
    assert_asked(&rt, rt.alloc(), &rows);
}

#[test]
fn any_other_command_line_is_refused(rt: HostRuntime) {
    let alloc = rt.alloc();
    let refused = [
        "reply --cards 10",
        "replay",
        "replay --cards",
        "replay --cards 0",
        "replay --cards 100001",
        "replay --cards x",
        "replay --cards +10",
        "replay --cards 10 --cards 10",
        "--cards 10 replay",
        "check",
        "check --table",
        "check fares.toml",
        "check --table fares.toml --cards 10",
        "check --table fares.toml --fare 1 3",
        "check --table fares.toml --fare 0 3 2025-01-07T08:30:00Z",
        "check --table fares.toml --fare 1 65536 2025-01-07T08:30:00Z",
        "check --table fares.toml --fare 1 +3 2025-01-07T08:30:00Z",
        "check --table fares.toml --fare 1 3 2025-01-07T24:00:00Z",
        "check --table fares.toml --fare 1 3 2025-02-29T08:30:00Z",
        "check --table fares.toml --fare 1 3 1969-12-31T23:59:59Z",
        "check --table fares.toml --strict --fare 1 3 2025-01-07T08:30:00Z",
        "check --against old.toml",
        "check --against old.toml new.toml third.toml",
        "check --against old.toml new.toml --table fares.toml",
        "check --against old.toml new.toml --strict",
        "check --against old.toml new.toml --fare 1 3 2025-01-07T08:30:00Z",
        "check --door",
        "check --door door.toml --table fares.toml",
        "check --door door.toml --strict",
        "check --door door.toml --fare 1 3 2025-01-07T08:30:00Z",
        "check --door door.toml --against old.toml new.toml",
        "check --door door.toml --door other.toml",
        "check --strict",
    ];
    assert_refused(&rt, alloc, &refused);
    assert_same(&rt, status_of(alloc, &["bovtrila"]), Some(2));
    for command in ["replay", "check"] {
        let words = ["bovtrila", command, "--help"];
        assert_same_at(&rt, status_of(alloc, &words), Some(0), command);
    }
}

#[test]
fn the_version_names_the_toolchain_that_proved_it(rt: HostRuntime) -> Result<(), Fail> {
    let alloc = rt.alloc();
    let words = ["bovtrila", "--version"];
    let shown = arguments_of(alloc, &words).err().ok_or("a version")?;
    assert_same(&rt, shown.kind(), ErrorKind::DisplayVersion);
    assert_same(&rt, shown.exit_code(), 0);
    assert_same(&rt, shown.use_stderr(), false);
    let text = format!(in alloc; "{shown}")?;
    assert_same(
        &rt,
        text.as_str(),
        "bovtrila 1.0.0\nproved by Rattle, logic dac8208d650f15bf\n",
    );
    Ok(())
}

#[test]
fn help_names_the_program_and_fits_a_hundred_columns(rt: HostRuntime) {
    for (command, usage, example) in &HELPS {
        assert_help(&rt, rt.alloc(), command, usage, example);
    }
}

#[test]
fn further_tables_are_the_last_words(rt: HostRuntime) {
    let rows = [
        (
            "replay --cards 10 a.toml b.toml a.toml",
            "Replay { table: None, cards: 10, revisions: [\"a.toml\", \"b.toml\", \"a.toml\"] }",
        ),
        (
            "serve --table fares.toml --journal station.journal --cards 10 --capacity 100 \
             --listen 127.0.0.1:0 --lines 64 --connections 2 b.toml a.toml",
            "Serve(Serve { table: \"fares.toml\", revisions: [\"b.toml\", \"a.toml\"], \
             journal: \"station.journal\", cards: 10, capacity: 100, listen: \"127.0.0.1:0\", \
             lines: 64, connections: Some(2), idle: None, report: None, stay_halted: false, \
             strict: false, standby: false, \
             door: None, proxy: false })",
        ),
    ];
    assert_asked(&rt, rt.alloc(), &rows);
}

#[test]
fn a_migration_needs_all_its_options(rt: HostRuntime) {
    let rows = [(
        "migrate --table fares.toml --from old.journal --to new.journal --cards 10",
        "Migrate(Migrate { table: \"fares.toml\", from: \"old.journal\", to: \"new.journal\", \
         cards: 10 })",
    )];
    assert_asked(&rt, rt.alloc(), &rows);
    let refused = [
        "migrate --table fares.toml --from old.journal --to new.journal --cards 10 b.toml",
        "migrate --table fares.toml --from old.journal --to new.journal",
    ];
    assert_refused(&rt, rt.alloc(), &refused);
}

#[test]
fn a_command_that_the_program_has_not_is_a_wrong_command_line(rt: HostRuntime) -> Result<(), Fail> {
    assert_eq!(rt; refuse_command(rt.alloc())?.exit_code(), 2);
    Ok(())
}
