//! A check and a reading that are made again where memory was refused.
use super::fakes::OneFile;
use super::reports::{DOOR, LINES, answered, assert_same_at};
use console::TrialFault;
use door_check::{NoDoor, check_door, door_of};
use std::alloc::Global;
use std::process::Abort;
use std::test::Fail;
use text_io::RunFault;

/// The file of the door.
fn file() -> OneFile<'static> {
    OneFile {
        path: "door.toml",
        text: DOOR.as_bytes(),
    }
}

/// A check whose fault is a lack of memory has written nothing, and is made again.
fn assert_checked_again<R: Abort + AllocGlobal + Eprint>(
    rt: &R,
    written: &mut Vec<u8>,
) -> Result<(), Fail> {
    let alloc = rt.alloc();
    let answer = check_door(rt, &file(), "door.toml", written);
    if let Err(TrialFault::Run(RunFault::Memory)) = answer {
        assert_same_at(rt, written.is_empty(), true, "refused");
        let again = check_door(rt, &file(), "door.toml", written);
        assert_same_at(rt, answered(alloc, again)?.as_str(), "0", "again");
    }
    Ok(())
}

/// How many rules the door has, or none where memory was refused.
fn rules_read(alloc: Global) -> Result<Option<usize>, Fail> {
    match door_of(alloc, &file(), "door.toml") {
        Ok(door) => Ok(Some(door.rules().len())),
        Err(NoDoor::Trial(TrialFault::Run(RunFault::Memory))) => Ok(None),
        Err(_) => Err("another fault".into()),
    }
}

/// What a check writes to, with room for all its lines: a writer without room would fail in place
/// of the check.
fn writer(alloc: Global) -> Result<Vec<u8>, Fail> {
    match Vec::with_capacity(alloc, 1_000) {
        Ok(room) => Ok(room),
        Err(_) => Ok(Vec::with_capacity(alloc, 1_000)?),
    }
}

#[test]
fn a_door_is_checked_again_where_memory_was_refused(rt: HostRuntime) -> Result<(), Fail> {
    let mut written = writer(rt.alloc())?;
    assert_checked_again(&rt, &mut written)?;
    assert_same_at(&rt, written.as_slice(), LINES.as_bytes(), "lines");
    Ok(())
}

#[test]
fn a_door_is_opened_again_where_memory_was_refused(rt: HostRuntime) -> Result<(), Fail> {
    let count = match rules_read(rt.alloc())? {
        Some(count) => Some(count),
        None => rules_read(rt.alloc())?,
    };
    assert_same_at(&rt, count, Some(3), "rules");
    Ok(())
}
