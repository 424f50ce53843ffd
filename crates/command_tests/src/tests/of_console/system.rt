//! The files of the system, and what is said of one that isn't had.
use super::told;
use crate::tests::assert_same_at;
use console::{Detail, LimitedFiles, SystemFiles, SystemRefusal, WholeFiles, open_refusal};
use std::io;
use std::test::Fail;

#[test]
fn a_file_of_the_system_is_read_to_its_end(rt: HostRuntime) -> Result<(), Fail> {
    let files = SystemFiles::new(&rt);
    let bytes = files.bytes_in(rt.alloc(), "/dev/null")?;
    assert_same_at(&rt, bytes.len(), 0, "/dev/null");
    let rows = [
        ("/dev", "fault file  /dev: is a folder"),
        ("/dev/none", "fault file  /dev/none: no such file"),
        (
            "/dev/none/none",
            "fault file  /dev/none/none: no such folder",
        ),
    ];
    for (path, wanted) in rows {
        let fault = files.bytes_in(rt.alloc(), path).err().ok_or("a file")?;
        assert_same_at(&rt, told(rt.alloc(), &fault)?.as_str(), wanted, path);
    }
    Ok(())
}

// The device has no end, so no more than the limit may be read of it.
#[test]
fn a_file_of_the_system_is_read_up_to_a_limit(rt: HostRuntime) -> Result<(), Fail> {
    let files = SystemFiles::new(&rt);
    for (path, most, count) in [
        ("/dev/zero", 3, 3),
        ("/dev/zero", 2_000, 2_000),
        ("/dev/null", 3, 0),
    ] {
        let bytes = files.first_bytes_in(rt.alloc(), path, most)?;
        assert_same_at(&rt, bytes.len(), count, path);
    }
    let fault = files
        .first_bytes_in(rt.alloc(), "/dev", 3)
        .err()
        .ok_or("a file")?;
    let wanted = "fault file  /dev: is a folder";
    assert_same_at(&rt, told(rt.alloc(), &fault)?.as_str(), wanted, "/dev");
    Ok(())
}

// The numbers are those of errno.h.
#[test]
fn an_error_of_the_system_is_told_by_its_number(rt: HostRuntime) -> Result<(), Fail> {
    let rows = [
        (2, "no such file"),
        (13, "Permission denied"),
        (24, "too many open files"),
        (28, "no room on the disk"),
        (98, "address in use"),
        (5, "error 5 of the system"),
    ];
    for (number, wanted) in rows {
        let refusal = SystemRefusal::of(&io::Error::from_raw_os_error(number));
        assert_same_at(&rt, refusal.to_string(rt.alloc())?.as_str(), wanted, wanted);
    }
    let error = io::Error::from_raw_os_error(2);
    let found = open_refusal(&rt, "/none/none", &error);
    assert_same_at(&rt, found, SystemRefusal::NoFolder, "/none/none");
    Ok(())
}

#[test]
fn what_is_told_names_its_file(rt: HostRuntime) -> Result<(), Fail> {
    assert_same_at(&rt, Detail::none().line(), None, "nothing");
    let detail = Detail::of(rt.alloc(), "a.toml", &"why");
    assert_same_at(&rt, detail.line(), Some("  a.toml: why"), "a file");
    Ok(())
}
