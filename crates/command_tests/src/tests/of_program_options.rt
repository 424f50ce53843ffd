//! The words of a command line, and what a number of an option is.
use super::assert_same_at;
use clap::Command;
use program_options::{number_in, refuse_bytes};
use std::test::Fail;

#[test]
fn a_number_has_decimal_digits_alone_and_is_within_its_limits(rt: HostRuntime) {
    let rows = [
        ("1", Some(1)),
        ("64", Some(64)),
        ("007", Some(7)),
        ("0", None),
        ("65", None),
        ("+1", None),
        ("-1", None),
        ("", None),
        ("4294967297", None),
        ("0x1", None),
    ];
    for (text, number) in rows {
        assert_same_at(&rt, number_in(text, 1, 64), number, text);
    }
}

#[test]
fn a_word_that_is_no_text_is_a_wrong_command_line(rt: HostRuntime) -> Result<(), Fail> {
    let mut command = Command::new(rt.alloc(), "bovtrila");
    assert_eq!(rt; refuse_bytes(&mut command)?.exit_code(), 2);
    Ok(())
}

#[test]
fn a_program_has_a_word_of_its_command_line(rt: HostRuntime) -> Result<(), Fail> {
    let mut command = Command::new(rt.alloc(), "bovtrila");
    let words = program_options::words_of(&rt, &mut command)?;
    assert_eq!(rt; words.is_empty(), false);
    Ok(())
}
