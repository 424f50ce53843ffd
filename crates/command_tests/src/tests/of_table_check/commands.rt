//! The command `check`, over files by hand, and with what is written worked out by hand.
use crate::tests::assert_same_at;
use crate::tests::of_console::{FILES, answered};
use command_line::Journey;
use std::test::Fail;
use table_check::{check_file, tell_changes, tell_fare};

#[test]
fn a_check_tells_of_the_file_that_it_names(rt: HostRuntime) -> Result<(), Fail> {
    let alloc = rt.alloc();
    let rows = [
        ("old.toml", true, "0", "stations 2\n"),
        ("noted.toml", false, "0", "stations 2\n"),
        ("noted.toml", true, "1", "stations 2\n"),
        ("bad.toml", false, "1", "fault table 2 NotToml\n"),
        ("none.toml", false, "fault file", ""),
    ];
    for (path, notes_count, status, begins) in rows {
        let mut written = Vec::new(alloc);
        let answer = check_file(&rt, &FILES, path, notes_count, &mut written);
        assert_same_at(&rt, answered(alloc, answer)?.as_str(), status, path);
        assert_same_at(&rt, written.starts_with(begins.as_bytes()), true, path);
    }
    Ok(())
}

#[test]
fn a_journey_is_told_by_the_table_in_its_file(rt: HostRuntime) -> Result<(), Fail> {
    let alloc = rt.alloc();
    // 2025-01-07 at 08:30, a Tuesday.
    let moment = 1_736_238_600;
    let rows = [
        ("old.toml", 2, "0", "charge 300\n"),
        ("new.toml", 2, "0", "charge 320\n"),
        ("old.toml", 9, "fault station 9", ""),
        ("none.toml", 2, "fault file", ""),
    ];
    for (path, to, status, begins) in rows {
        let mut written = Vec::new(alloc);
        let journey = Journey {
            from: 1,
            to,
            moment,
        };
        let answer = tell_fare(alloc, &FILES, path, journey, &mut written);
        assert_same_at(&rt, answered(alloc, answer)?.as_str(), status, path);
        assert_same_at(&rt, written.starts_with(begins.as_bytes()), true, path);
    }
    Ok(())
}

#[test]
fn a_comparison_tells_what_changes_and_whether_it_may(rt: HostRuntime) -> Result<(), Fail> {
    let alloc = rt.alloc();
    let changes = "single of zones 1 to 1: peak 300, off_peak 250 -> peak 320, off_peak 250\n\
may revise\n";
    let same = "nothing changes\nmay not revise: it is the same table\n";
    let bad = "fault table 2 NotToml  bad.toml: line 1, column 8: ";
    let rows = [
        ("old.toml", "new.toml", "0", changes),
        (
            "old.toml",
            "noted.toml",
            "0",
            "nothing changes\nmay revise\n",
        ),
        ("old.toml", "old.toml", "1", same),
        ("bad.toml", "none.toml", bad, ""),
        ("old.toml", "bad.toml", bad, ""),
        ("old.toml", "none.toml", "fault file", ""),
    ];
    for (old, new, status, lines) in rows {
        let mut written = Vec::new(alloc);
        let answer = tell_changes(alloc, &FILES, old, new, &mut written);
        assert_same_at(&rt, answered(alloc, answer)?.starts_with(status), true, old);
        assert_same_at(&rt, written.as_slice(), lines.as_bytes(), new);
    }
    Ok(())
}
