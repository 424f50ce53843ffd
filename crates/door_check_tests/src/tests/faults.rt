//! Files that are no doors: the line of each fault, and the line that follows it.
use super::fakes::OneFile;
use super::reports::{assert_checked, assert_same_at};
use door_check::{NoDoor, door_of};
use door_file::MOST_BYTES;
use std::alloc::Global;
use std::process::Abort;
use std::test::Fail;

/// Texts that are no doors, each with the line of its fault and the line that follows.
const REFUSED: [(&str, &str, &str); 18] = [
    (
        "[[rule]]\nname = \"a\"\nkinds = [\"in\"\n",
        "fault door 3 NotToml",
        "  door.toml: line 4, column 1: ",
    ),
    (
        "",
        "fault door 4 Missing rule 0",
        "  door.toml: no rule; a list of 1 to 1000 rules",
    ),
    (
        "rule = 5\n",
        "fault door 5 WrongType rule 0",
        "  door.toml: line 1: rule: 5; a list of 1 to 1000 rules",
    ),
    (
        "\nrule = []\n",
        "fault door 6 Range rule 0",
        "  door.toml: line 2: rule: a list of 0; a list of 1 to 1000 rules",
    ),
    (
        "rule = [\n7]\n",
        "fault door 5 WrongType rule 1",
        "  door.toml: line 2: rule 1: 7; a table",
    ),
    (
        "[[rule]]\nkinds = [\"enquiry\"]\n",
        "fault door 4 Missing name 1",
        "  door.toml: line 1: rule 1: no name; a text of 1 to 64 bytes",
    ),
    (
        "[[rule]]\nname = \"\"\nkinds = [\"enquiry\"]\n",
        "fault door 6 Range name 1",
        "  door.toml: line 2: rule 1: name: \"\"; a text of 1 to 64 bytes",
    ),
    (
        "[[rule]]\nname = \"a\"\nkinds = [\"enquiry\"]\n\
         [[rule]]\nname = \"a\"\nkinds = [\"enquiry\"]\n",
        "fault door 7 Twice name 2",
        "  door.toml: line 5: rule 2: name: \"a\"; a name that no earlier rule has",
    ),
    (
        "[[rule]]\nname = \"a\"\nkinds = [\"in\"]\n",
        "fault door 4 Missing gates 1",
        "  door.toml: line 1: rule 1: no gates; gate numbers from 1 to 65535 \
         or ranges as [100, 120]; enquiries alone need none",
    ),
    (
        "[[rule]]\nname = \"a\"\ngates = [7, 70000]\nkinds = [\"in\"]\n",
        "fault door 6 Range gates 1",
        "  door.toml: line 3: rule 1: gates: 70000; gate numbers from 1 to 65535 \
         or ranges as [100, 120]; enquiries alone need none",
    ),
    (
        "[[rule]]\nname = \"a\"\ngates = [[100, 120], [9, 8]]\nkinds = [\"in\"]\n",
        "fault door 6 Range gates 1",
        "  door.toml: line 3: rule 1: gates: a list of 2; gate numbers from 1 to 65535 \
         or ranges as [100, 120]; enquiries alone need none",
    ),
    (
        "[[rule]]\nname = \"a\"\ngates = [7]\nkinds = [\"in\", \"enter\"]\n",
        "fault door 6 Range kinds 1",
        "  door.toml: line 4: rule 1: kinds: \"enter\"; one or more of \"in\", \"out\", \
         \"top-up\", \"issue\", \"revise\" and \"enquiry\"",
    ),
    (
        "[[rule]]\nname = \"a\"\ngates = [7]\nkinds = [\"in\", \"out\", \"in\"]\n",
        "fault door 7 Twice kinds 1",
        "  door.toml: line 4: rule 1: kinds: \"in\"; each kind once",
    ),
    (
        "[[rule]]\nname = \"a\"\nkinds = [\"enquiry\"]\nahead = 86401\n",
        "fault door 6 Range ahead 1",
        "  door.toml: line 4: rule 1: ahead: 86401; a whole number from 0 to 86400",
    ),
    (
        "[[rule]]\nname = \"a\"\nkinds = [\"enquiry\"]\nburst = 3\n",
        "fault door 4 Missing rate 1",
        "  door.toml: line 1: rule 1: no rate; a whole number from 1 to 1000",
    ),
    (
        "[[rule]]\nname = \"a\"\nkinds = [\"enquiry\"]\nconnections = \"2\"\n",
        "fault door 5 WrongType connections 1",
        "  door.toml: line 4: rule 1: connections: \"2\"; a whole number from 1 to 65535",
    ),
    (
        "[[rule]]\nname = \"a\"\nkinds = [\"enquiry\"]\nreservd = 3\n",
        "fault door 8 UnknownKey 1",
        "  door.toml: line 1: rule 1: unknown key reservd; the keys of a rule are name, gates, \
         kinds, ahead, rate, burst, reserved and connections",
    ),
    (
        "rules = 1\n[[rule]]\nname = \"a\"\nkinds = [\"enquiry\"]\n",
        "fault door 8 UnknownKey 0",
        "  door.toml: unknown key rules; the file has the list rule alone",
    ),
];

/// The lines that are told of the door in a file: the fault's, and the one that follows it.
fn told(alloc: Global, text: &[u8], path: &str) -> Result<(String, String), Fail> {
    let files = OneFile {
        path: "door.toml",
        text,
    };
    let fault = door_of(alloc, &files, path).err().ok_or("a fault")?;
    lines_of(alloc, &fault)
}

/// The lines of a fault.
fn lines_of(alloc: Global, fault: &NoDoor) -> Result<(String, String), Fail> {
    let first = format!(in alloc; "{fault}")?;
    let second = String::from_str(alloc, fault.detail().unwrap_or(""))?;
    Ok((first, second))
}

/// The fault of this text has these lines, of which the second goes on after its last word where
/// the reason is that of the reader of TOML.
fn assert_told<R: Abort + AllocGlobal>(
    rt: &R,
    text: &[u8],
    line: &str,
    follows: &str,
) -> Result<(), Fail> {
    let (first, second) = told(rt.alloc(), text, "door.toml")?;
    assert_same_at(rt, first.as_str(), line, line);
    if line == "fault door 3 NotToml" {
        assert_same_at(rt, second.starts_with(follows), true, second.as_str());
    } else {
        assert_same_at(rt, second.as_str(), follows, line);
    }
    Ok(())
}

#[test]
fn each_fault_has_its_line_and_its_place(rt: HostRuntime) -> Result<(), Fail> {
    for (text, line, follows) in REFUSED {
        assert_told(&rt, text.as_bytes(), line, follows)?;
    }
    Ok(())
}

#[test]
fn a_check_writes_the_line_of_a_fault(rt: HostRuntime) -> Result<(), Fail> {
    for (text, line, _) in REFUSED {
        let lines = format!(in rt.alloc(); "{line}\n")?;
        assert_checked(&rt, text.as_bytes(), "1", &lines)?;
    }
    Ok(())
}

#[test]
fn a_file_that_is_too_long_is_told_by_the_most_bytes(rt: HostRuntime) -> Result<(), Fail> {
    let alloc = rt.alloc();
    let mut text = Vec::new(alloc);
    text.resize(MOST_BYTES + 2, b' ')?;
    let follows = "  door.toml: more than 1048576 bytes";
    assert_told(&rt, &text, "fault door 2 TooLong", follows)?;
    assert_checked(&rt, &text, "1", "fault door 2 TooLong\n")
}

#[test]
fn a_file_that_is_missing_is_no_door(rt: HostRuntime) -> Result<(), Fail> {
    let (first, second) = told(rt.alloc(), b"", "none.toml")?;
    assert_same_at(&rt, first.as_str(), "fault file", "first");
    assert_same_at(&rt, second.as_str(), "", "second");
    Ok(())
}
