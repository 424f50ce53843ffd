//! The line of each fault.
use super::{assert_same, assert_same_at};
use door_file::{Door, DoorFault, MOST_BYTES};
use std::alloc::Global;
use std::process::Abort;
use std::test::Fail;

/// The fault of bytes.
fn fault_of(alloc: Global, bytes: &[u8]) -> Result<DoorFault, Fail> {
    Ok(Door::read_bytes(alloc, bytes).err().ok_or("a door")?)
}

/// The line of the fault of bytes.
fn line_of(alloc: Global, bytes: &[u8]) -> Result<String, Fail> {
    let fault = fault_of(alloc, bytes)?;
    Ok(format!(in alloc; "{fault}")?)
}

/// Each of these texts has the line of its fault.
fn assert_lines(rt: &impl Abort, alloc: Global, rows: &[(&str, &str)]) -> Result<(), Fail> {
    for (text, want) in rows {
        let line = line_of(alloc, text.as_bytes())?;
        assert_same_at(rt, line.as_str(), *want, *text);
    }
    Ok(())
}

/// Each of these texts of one rule has the line of its fault.
fn assert_rules(rt: &impl Abort, alloc: Global, rows: &[(&str, &str)]) -> Result<(), Fail> {
    for (keys, want) in rows {
        let text = format!(in alloc; "[[rule]]\n{keys}\n")?;
        let line = line_of(alloc, text.as_bytes())?;
        assert_same_at(rt, line.as_str(), *want, *keys);
    }
    Ok(())
}

const FILES: [(&str, &str); 9] = [
    ("", "fault door 4 Missing rule 0"),
    ("rule =", "fault door 3 NotToml"),
    ("rule = 1", "fault door 5 WrongType rule 0"),
    ("rule = []", "fault door 6 Range rule 0"),
    ("rule = [1]", "fault door 5 WrongType rule 1"),
    ("rule = []\nrules = 1", "fault door 6 Range rule 0"),
    ("rule = [{}]\nrules = 1", "fault door 8 UnknownKey 0"),
    (
        "rule = [{name = 'a', kinds = ['enquiry']}, {name = 'a'}]",
        "fault door 7 Twice name 2",
    ),
    (
        "rule = [{name = 'a', kinds = ['enquiry']}, 1]",
        "fault door 5 WrongType rule 2",
    ),
];

#[test]
fn a_file_that_is_no_door_has_its_fault(rt: HostRuntime) -> Result<(), Fail> {
    assert_lines(&rt, rt.alloc(), &FILES)
}

const RULES: [(&str, &str); 32] = [
    ("", "fault door 4 Missing name 1"),
    ("name = 1", "fault door 5 WrongType name 1"),
    ("name = ''", "fault door 6 Range name 1"),
    (
        "name = '0123456789abcdef0123456789abcdef0123456789abcdef0123456789abcdef0'",
        "fault door 6 Range name 1",
    ),
    ("name = 'a'", "fault door 4 Missing kinds 1"),
    ("name = 'a'\nkinds = ['in']", "fault door 4 Missing gates 1"),
    ("name = 'a'\ngates = 7", "fault door 5 WrongType gates 1"),
    (
        "name = 'a'\ngates = ['7']",
        "fault door 5 WrongType gates 1",
    ),
    (
        "name = 'a'\ngates = [[7, '8']]",
        "fault door 5 WrongType gates 1",
    ),
    ("name = 'a'\ngates = [0]", "fault door 6 Range gates 1"),
    ("name = 'a'\ngates = [65536]", "fault door 6 Range gates 1"),
    ("name = 'a'\ngates = [[9, 8]]", "fault door 6 Range gates 1"),
    ("name = 'a'\ngates = [[7]]", "fault door 6 Range gates 1"),
    (
        "name = 'a'\ngates = [[7, 8, 9]]",
        "fault door 6 Range gates 1",
    ),
    (
        "name = 'a'\ngates = []\nkinds = ['enquiry', 'out']",
        "fault door 6 Range gates 1",
    ),
    (
        "name = 'a'\nkinds = 'enquiry'",
        "fault door 5 WrongType kinds 1",
    ),
    ("name = 'a'\nkinds = []", "fault door 6 Range kinds 1"),
    (
        "name = 'a'\ngates = [7]\nkinds = ['enter']",
        "fault door 6 Range kinds 1",
    ),
    (
        "name = 'a'\nkinds = ['enquiry', 'enquiry']",
        "fault door 7 Twice kinds 1",
    ),
    (
        "name = 'a'\nkinds = ['enquiry']\nahead = '300'",
        "fault door 5 WrongType ahead 1",
    ),
    (
        "name = 'a'\nkinds = ['enquiry']\nahead = 86401",
        "fault door 6 Range ahead 1",
    ),
    (
        "name = 'a'\nkinds = ['enquiry']\nrate = 0",
        "fault door 6 Range rate 1",
    ),
    (
        "name = 'a'\nkinds = ['enquiry']\nrate = 1001",
        "fault door 6 Range rate 1",
    ),
    (
        "name = 'a'\nkinds = ['enquiry']\nburst = 1",
        "fault door 4 Missing rate 1",
    ),
    (
        "name = 'a'\nkinds = ['enquiry']\nrate = 1\nburst = 0",
        "fault door 6 Range burst 1",
    ),
    (
        "name = 'a'\nkinds = ['enquiry']\nrate = 1\nburst = 10001",
        "fault door 6 Range burst 1",
    ),
    (
        "name = 'a'\nkinds = ['enquiry']\nreserved = -1",
        "fault door 6 Range reserved 1",
    ),
    (
        "name = 'a'\nkinds = ['enquiry']\nreserved = 1000001",
        "fault door 6 Range reserved 1",
    ),
    (
        "name = 'a'\nkinds = ['enquiry']\nconnections = 0",
        "fault door 6 Range connections 1",
    ),
    (
        "name = 'a'\nkinds = ['enquiry']\nconnections = 65536",
        "fault door 6 Range connections 1",
    ),
    (
        "name = 'a'\nkinds = ['enquiry']\nreserve = 1",
        "fault door 8 UnknownKey 1",
    ),
    (
        "a = 1\nname = 'a'\nkinds = ['enquiry']\nconnections = 0",
        "fault door 6 Range connections 1",
    ),
];

#[test]
fn a_rule_has_the_fault_of_its_first_wrong_key(rt: HostRuntime) -> Result<(), Fail> {
    assert_rules(&rt, rt.alloc(), &RULES)
}

/// The key that no door has, of bytes that have one.
fn unknown_in(alloc: Global, bytes: &[u8]) -> Result<String, Fail> {
    match fault_of(alloc, bytes)? {
        DoorFault::UnknownKey(name, _) => Ok(String::from_str(alloc, name.as_str())?),
        _ => Err(Fail::from("another fault")),
    }
}

#[test]
fn the_first_key_that_no_door_has_is_named(rt: HostRuntime) -> Result<(), Fail> {
    let text = b"[[rule]]\nname = 'a'\nkinds = ['enquiry']\nreserve = 1\nburts = 1";
    let name = unknown_in(rt.alloc(), text)?;
    assert_same(&rt, name.as_str(), "burts");
    Ok(())
}

#[test]
fn bytes_that_are_no_text_are_refused(rt: HostRuntime) -> Result<(), Fail> {
    let line = line_of(rt.alloc(), b"# \xff")?;
    assert_same(&rt, line.as_str(), "fault door 3 NotToml");
    Ok(())
}

/// The line of the fault of a comment of so many bytes.
fn line_of_comment(alloc: Global, size: usize) -> Result<String, Fail> {
    let comment = vec![in alloc; b'#'; size]?;
    line_of(alloc, comment.as_slice())
}

#[test]
fn a_file_has_at_most_a_mebibyte(rt: HostRuntime) -> Result<(), Fail> {
    let alloc = rt.alloc();
    let line = line_of_comment(alloc, MOST_BYTES + 1)?;
    assert_same(&rt, line.as_str(), "fault door 2 TooLong");
    let line = line_of_comment(alloc, MOST_BYTES)?;
    assert_same(&rt, line.as_str(), "fault door 4 Missing rule 0");
    Ok(())
}

#[test]
fn want_of_memory_has_its_line(rt: HostRuntime) -> Result<(), Fail> {
    let line = format!(in rt.alloc(); "{}", DoorFault::Memory)?;
    assert_same(&rt, line.as_str(), "fault door 1 Memory");
    Ok(())
}
