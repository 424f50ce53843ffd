//! The gate's file: made, opened, made anew and refused.

use super::*;
use gate_command::gate_file;
use oyster_account::Act;
use std::fs::{self, File};
use std::rt::Files;

/// The file of gate 7 with room for 3 touches, of which none was asked for: the header, and the
/// closed mark of the first slot.
const EMPTY: &[u8] = b"\xa5OYSTERJ2\x00\x00\x00\x03\x00\x00\x00\x01\
    touches of one gate, by number\x00\x07\
    \x00\x00\x00\x00\x00\x00\x00\x00\x00\x00\x00\x00\x00\x00\x00\
    \x00";

/// What is asked for at a path, with `--new` or without it.
fn asked_at<'a>(alloc: Global, path: &'a str, is_new: bool) -> Result<Arguments<'a>, AllocError> {
    let mut asked = asked(path, vec![in alloc; STATION]?);
    asked.is_new = is_new;
    Ok(asked)
}

/// What comes of the file: the number of the touch that waits, 0 where none does, or the lines of
/// the fault.
fn found<R: AllocGlobal + Files<File = File>>(
    rt: &R,
    asked: &Arguments<'_>,
) -> Result<String, AllocError> {
    match gate_file(rt, asked) {
        Ok(client) => {
            let number = client.waiting().map_or(0, |touch| touch.number);
            format!(in rt.alloc(); "waits {number}")
        }
        Err(fault) => {
            let second = fault.detail().unwrap_or("");
            format!(in rt.alloc(); "{fault}{second}")
        }
    }
}

/// This comes of the file.
fn assert_found<R: Abort + AllocGlobal + Files<File = File>>(
    rt: &R,
    asked: &Arguments<'_>,
    want: &str,
) -> Result<(), Fail> {
    let text = found(rt, asked)?;
    assert_same(rt, text.as_str(), want);
    Ok(())
}

/// The file has these bytes.
fn assert_content<R: Abort + AllocGlobal + Files<File = File>>(
    rt: &R,
    path: &str,
    want: &[u8],
) -> Result<(), Fail> {
    let bytes = fs::read(rt, path)?;
    assert_same(rt, bytes.as_slice(), want);
    Ok(())
}

#[test]
fn a_file_that_is_missing_is_made_where_that_is_asked_for(rt: HostRuntime) -> Result<(), Fail> {
    let folder = "gate_command_making";
    let path = "gate_command_making/touches";
    let _ = fs::remove_dir_all(&rt, folder);
    fs::create_dir(&rt, folder)?;
    let opened = asked_at(rt.alloc(), path, false)?;
    let mut new = asked_at(rt.alloc(), path, true)?;
    let none = "fault file  gate_command_making/touches: No such file or directory (os error 2)";
    assert_found(&rt, &opened, none)?;
    assert_same(&rt, fs::read(&rt, path).is_err(), true);
    assert_found(&rt, &new, "waits 0")?;
    assert_content(&rt, path, EMPTY)?;
    // Its own room stays.
    new.capacity = 10;
    for asked in [&opened, &new] {
        assert_found(&rt, asked, "waits 0")?;
        assert_content(&rt, path, EMPTY)?;
    }
    fs::remove_dir_all(&rt, folder)?;
    Ok(())
}

/// Asks for a touch by the file, which no other run can open meanwhile.
fn ask<R: Abort + AllocGlobal + Files<File = File>>(
    rt: &R,
    asked: &Arguments<'_>,
) -> Result<(), Fail> {
    let mut client = gate_file(rt, asked).ok().ok_or("a client")?;
    let held = found(rt, asked)?;
    let locked = "fault file  gate_command_opening/touches: another run or a server has it";
    assert_same(rt, held.as_str(), locked);
    let number = client.ask(1, Act::Issue { moment: 5 })?.number;
    drop(client);
    assert_same(rt, number, 1);
    Ok(())
}

#[test]
fn a_file_is_opened_with_its_last_touch(rt: HostRuntime) -> Result<(), Fail> {
    let folder = "gate_command_opening";
    let path = "gate_command_opening/touches";
    let _ = fs::remove_dir_all(&rt, folder);
    fs::create_dir(&rt, folder)?;
    let mut asked = asked_at(rt.alloc(), path, true)?;
    ask(&rt, &asked)?;
    let refused = "fault gate-file 6 AnotherFile  gate_command_opening/touches";
    for is_new in [true, false] {
        asked.is_new = is_new;
        for (gate, want) in [(GATE, "waits 1"), (8, refused)] {
            asked.gate = gate;
            assert_found(&rt, &asked, want)?;
        }
    }
    fs::remove_dir_all(&rt, folder)?;
    Ok(())
}

#[test]
fn a_file_is_made_anew_only_if_its_making_was_cut_off(rt: HostRuntime) -> Result<(), Fail> {
    let folder = "gate_command_anew";
    let path = "gate_command_anew/touches";
    let _ = fs::remove_dir_all(&rt, folder);
    fs::create_dir(&rt, folder)?;
    let refused = "fault gate-file 5 NoFile  gate_command_anew/touches";
    let rows: [(&[u8], bool); 8] = [
        (b"", true),
        (b"\x00", true),
        (b"\x00OYS\x00\x00RJ", true),
        (&[0; 65], true),
        (b"x", false),
        (b"\x01OYSTERJ2", false),
        (b"\x00oysterj2", false),
        (&[0; 66], false),
    ];
    let opened = asked_at(rt.alloc(), path, false)?;
    let new = asked_at(rt.alloc(), path, true)?;
    for (content, is_made) in rows {
        fs::write(&rt, path, content)?;
        assert_found(&rt, &opened, refused)?;
        assert_content(&rt, path, content)?;
        let (want, left) = if is_made {
            ("waits 0", EMPTY)
        } else {
            (refused, content)
        };
        assert_found(&rt, &new, want)?;
        assert_content(&rt, path, left)?;
    }
    fs::remove_dir_all(&rt, folder)?;
    Ok(())
}

#[test]
fn what_is_no_file_is_refused(rt: HostRuntime) -> Result<(), Fail> {
    for (path, is_new, want) in [
        (
            "/dev/null",
            false,
            "fault file  /dev/null: a device or a pipe",
        ),
        (
            "/dev/null",
            true,
            "fault file  /dev/null: a device or a pipe",
        ),
        (
            "/dev",
            true,
            "fault file  /dev: Is a directory (os error 21)",
        ),
        (
            "/dev/none/touches",
            true,
            "fault file  /dev/none/touches: No such file or directory (os error 2)",
        ),
    ] {
        let asked = asked_at(rt.alloc(), path, is_new)?;
        assert_found(&rt, &asked, want)?;
    }
    Ok(())
}
