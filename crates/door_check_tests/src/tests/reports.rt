//! What is written of doors, worked out by hand.
use super::fakes::OneFile;
use console::TrialFault;
use door_check::{check_door, door_of};
use std::alloc::Global;
use std::fmt::Debug;
use std::process::{Abort, ExitCode};
use std::test::Fail;
use test_streams::Taker;

/// A rule with each key, and two that leave out what they can.
pub const DOOR: &str = "[[rule]]\nname = \"gate-7\"\ngates = [7, [100, 120]]\n\
kinds = [\"enquiry\", \"in\", \"out\"]\nahead = 300\nrate = 5\nburst = 20\nreserved = 1000\n\
connections = 2\n\n[[rule]]\nname = \"desk\"\ngates = [9]\n\
kinds = [\"top-up\", \"issue\", \"revise\"]\nrate = 1\n\n[[rule]]\nname = \"*\"\n\
kinds = [\"enquiry\"]\n";

/// Its lines.
pub const LINES: &str =
    "rule 1 gate-7: gates 7 100-120; in out enquiry; ahead 300; rate 5 burst 20; \
reserved 1000; connections 2\nrule 2 desk: gates 9; top-up issue revise; rate 1 burst 1\n\
rule 3 *: enquiry\nrules 3\n";

/// A door with a name of other letters, of which one is a line feed.
const ODD: &str = "rule = [{name = \"M\u{fc}\\n\", kinds = [\"enquiry\"], ahead = 0}]\n";

/// What a check answers: its status, or the line of its fault.
pub fn answered(alloc: Global, answer: Result<ExitCode, TrialFault>) -> Result<String, Fail> {
    match answer {
        Ok(status) if status == ExitCode::SUCCESS => Ok(String::from_str(alloc, "0")?),
        Ok(status) if status == ExitCode::FAILURE => Ok(String::from_str(alloc, "1")?),
        Ok(_) => Err("another status".into()),
        Err(fault) => Ok(format!(in alloc; "{fault}")?),
    }
}

/// These are equal, in this case.
pub fn assert_same_at<T: PartialEq + Debug + Copy>(rt: &impl Abort, found: T, want: T, at: &str) {
    assert_eq!(rt; found, want, "{at}");
}

/// A check of this text answers this, and writes these lines.
pub fn assert_checked<R: Abort + AllocGlobal + Eprint>(
    rt: &R,
    text: &[u8],
    want: &str,
    lines: &str,
) -> Result<(), Fail> {
    let alloc = rt.alloc();
    let files = OneFile {
        path: "door.toml",
        text,
    };
    let mut written = Vec::new(alloc);
    let answer = check_door(rt, &files, "door.toml", &mut written);
    assert_same_at(rt, answered(alloc, answer)?.as_str(), want, lines);
    assert_same_at(rt, written.as_slice(), lines.as_bytes(), lines);
    Ok(())
}

#[test]
fn a_door_has_a_line_for_each_rule(rt: HostRuntime) -> Result<(), Fail> {
    assert_checked(&rt, DOOR.as_bytes(), "0", LINES)
}

#[test]
fn a_control_character_of_a_name_is_a_question_mark(rt: HostRuntime) -> Result<(), Fail> {
    let lines = "rule 1 M\u{fc}?: enquiry; ahead 0\nrules 1\n";
    assert_checked(&rt, ODD.as_bytes(), "0", lines)
}

#[test]
fn a_missing_file_is_a_fault_and_writes_nothing(rt: HostRuntime) -> Result<(), Fail> {
    let alloc = rt.alloc();
    let files = OneFile {
        path: "door.toml",
        text: b"",
    };
    let mut written = Vec::new(alloc);
    let answer = check_door(&rt, &files, "none.toml", &mut written);
    assert_same_at(&rt, answered(alloc, answer)?.as_str(), "fault file", "none");
    assert_same_at(&rt, written.is_empty(), true, "none");
    Ok(())
}

#[test]
fn a_writer_that_fails_has_a_beginning_of_the_report(rt: HostRuntime) -> Result<(), Fail> {
    let files = OneFile {
        path: "door.toml",
        text: DOOR.as_bytes(),
    };
    let mut writer = Taker {
        taken: Vec::new(rt.alloc()),
        size: 10,
        left: 20,
        fails: true,
        holds: false,
    };
    let answer = check_door(&rt, &files, "door.toml", &mut writer);
    let told = answered(rt.alloc(), answer)?;
    assert_same_at(&rt, told.as_str(), "fault run 3 Write", "write");
    assert_same_at(
        &rt,
        writer.taken.as_slice(),
        &LINES.as_bytes()[..20],
        "written",
    );
    Ok(())
}

#[test]
fn a_door_is_that_of_its_file(rt: HostRuntime) -> Result<(), Fail> {
    let files = OneFile {
        path: "door.toml",
        text: DOOR.as_bytes(),
    };
    let door = door_of(rt.alloc(), &files, "door.toml")
        .ok()
        .ok_or("a door")?;
    let rule = door.rule_for(Some("desk")).ok_or("a rule")?;
    assert_same_at(&rt, rule.name.as_str(), "desk", "name");
    assert_same_at(&rt, door.rules().len(), 3, "rules");
    Ok(())
}
