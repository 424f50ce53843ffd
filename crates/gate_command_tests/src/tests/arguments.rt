//! What command lines ask for. Each is written as one text, with a space between its words.

use super::*;
use clap::error::ErrorKind;
use gate_command::{arguments_of, words_of};

/// Adds the program's name, and behind it the words of a command line.
fn add_words<'a>(words: &mut Vec<&'a str>, line: &'a str) -> Option<()> {
    words.push("gate_send").ok()?;
    for word in line.split(' ') {
        words.push(word).ok()?;
    }
    Some(())
}

/// What a command line asks for, with all its values, where it asks for something.
fn asked_by(alloc: Global, line: &str) -> Option<String> {
    let mut words = Vec::new(alloc);
    add_words(&mut words, line)?;
    let arguments = arguments_of(alloc, words.as_slice()).ok()?;
    format!(in alloc; "{arguments:?}").ok()
}

/// Why a command line asks for nothing.
fn refusal_of(alloc: Global, line: &str) -> Option<ErrorKind> {
    let mut words = Vec::new(alloc);
    add_words(&mut words, line)?;
    let error = arguments_of(alloc, words.as_slice()).err()?;
    Some(error.kind())
}

#[test]
fn a_command_line_asks_for_a_run(rt: HostRuntime) {
    let rows = [
        (
            "--gate 7 --file f a:1",
            "Arguments { gate: 7, file: \"f\", is_new: false, capacity: 1000000, resends: false, \
             gives_up: false, tries: None, timeout: 2000, pause: 200, addresses: [\"a:1\"] }",
        ),
        (
            "--gate 0 --file f --new --resend a:0",
            "Arguments { gate: 0, file: \"f\", is_new: true, capacity: 1000000, resends: true, \
             gives_up: false, tries: None, timeout: 2000, pause: 200, addresses: [\"a:0\"] }",
        ),
        (
            "--gate 65535 --file f --new --capacity 1 --tries 1 --timeout 1 --pause 1 a:1 b:65535",
            "Arguments { gate: 65535, file: \"f\", is_new: true, capacity: 1, resends: false, \
             gives_up: false, tries: Some(1), timeout: 1, pause: 1, \
             addresses: [\"a:1\", \"b:65535\"] }",
        ),
        (
            "--gate 7 --file f --new --capacity 1000000 --tries 1000000 --timeout 3600000 \
             --pause 30000 --give-up ::1:7040",
            "Arguments { gate: 7, file: \"f\", is_new: true, capacity: 1000000, resends: false, \
             gives_up: true, tries: Some(1000000), timeout: 3600000, pause: 30000, \
             addresses: [\"::1:7040\"] }",
        ),
    ];
    for (line, want) in rows {
        let found = asked_by(rt.alloc(), line).expect(&rt, "a run");
        assert_same_at(&rt, found.as_str(), want, line);
    }
}

#[test]
fn a_number_is_within_its_limits(rt: HostRuntime) {
    for (line, kind) in [
        ("--gate 65536 --file f a:1", ErrorKind::ValueValidation),
        ("--gate x --file f a:1", ErrorKind::ValueValidation),
        ("--gate +7 --file f a:1", ErrorKind::InvalidValue),
        (
            "--gate 7 --file f --new --capacity 0 a:1",
            ErrorKind::ValueValidation,
        ),
        (
            "--gate 7 --file f --new --capacity 1000001 a:1",
            ErrorKind::ValueValidation,
        ),
        (
            "--gate 7 --file f --tries 0 a:1",
            ErrorKind::ValueValidation,
        ),
        (
            "--gate 7 --file f --tries 1000001 a:1",
            ErrorKind::ValueValidation,
        ),
        ("--gate 7 --file f --tries +1 a:1", ErrorKind::InvalidValue),
        (
            "--gate 7 --file f --timeout 0 a:1",
            ErrorKind::ValueValidation,
        ),
        (
            "--gate 7 --file f --timeout 3600001 a:1",
            ErrorKind::ValueValidation,
        ),
        (
            "--gate 7 --file f --pause 0 a:1",
            ErrorKind::ValueValidation,
        ),
        (
            "--gate 7 --file f --pause 30001 a:1",
            ErrorKind::ValueValidation,
        ),
    ] {
        assert_same_at(&rt, refusal_of(rt.alloc(), line), Some(kind), line);
    }
}

#[test]
fn a_command_line_names_a_gate_a_file_and_addresses(rt: HostRuntime) {
    for (line, kind) in [
        ("--file f a:1", ErrorKind::MissingRequiredArgument),
        ("--gate 7 a:1", ErrorKind::MissingRequiredArgument),
        ("--gate 7 --file f", ErrorKind::MissingRequiredArgument),
        (
            "--gate 7 --file f --capacity 5 a:1",
            ErrorKind::MissingRequiredArgument,
        ),
        (
            "--gate 7 --file f --resend --give-up a:1",
            ErrorKind::ArgumentConflict,
        ),
        ("--gate 7 --file f --other a:1", ErrorKind::UnknownArgument),
        ("--gate 7 --file f a", ErrorKind::InvalidValue),
        ("--gate 7 --file f a:1 b", ErrorKind::InvalidValue),
        ("--gate 7 --file f :1", ErrorKind::InvalidValue),
        ("--gate 7 --file f a:", ErrorKind::InvalidValue),
        ("--gate 7 --file f a:65536", ErrorKind::InvalidValue),
        ("--help", ErrorKind::DisplayHelp),
        ("--version", ErrorKind::DisplayVersion),
    ] {
        assert_same_at(&rt, refusal_of(rt.alloc(), line), Some(kind), line);
    }
}

#[test]
fn a_command_line_has_a_word(rt: HostRuntime) -> Result<(), Fail> {
    let words = words_of(&rt)?;
    assert_same(&rt, words.is_empty(), false);
    Ok(())
}
