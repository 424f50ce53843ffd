//! The tables that words name.
use crate::tests::assert_same_at;
use crate::tests::of_console::{FILES, told};
use console::TrialFault;
use fare_schedule::Schedule;
use std::alloc::Global;
use std::test::Fail;
use table_check::{first_table, schedule_of, tables_in};

/// The fault of tables that aren't had.
fn fault_of(alloc: Global, answer: Result<Schedule, TrialFault>) -> Result<String, Fail> {
    let fault = answer.err().ok_or("tables")?;
    told(alloc, &fault)
}

#[test]
fn the_first_table_is_that_in_the_file_or_the_example(rt: HostRuntime) -> Result<(), Fail> {
    let alloc = rt.alloc();
    let rows = [(None, 5), (Some("old.toml"), 2), (Some("new.toml"), 2)];
    for (path, stations) in rows {
        let table = first_table(alloc, &FILES, path)?;
        assert_same_at(
            &rt,
            table.station_count(),
            stations,
            path.unwrap_or("example"),
        );
    }
    let rows = [
        ("none.toml", "fault file"),
        ("bad.toml", "fault table 2 NotToml  bad.toml: "),
    ];
    for (path, fault) in rows {
        let found = first_table(alloc, &FILES, Some(path))
            .err()
            .ok_or("a table")?;
        assert_same_at(&rt, told(alloc, &found)?.starts_with(fault), true, path);
    }
    Ok(())
}

#[test]
fn further_tables_stand_behind_the_first(rt: HostRuntime) -> Result<(), Fail> {
    let alloc = rt.alloc();
    let digest = first_table(alloc, &FILES, Some("new.toml"))?.digest();
    let alone = tables_in(alloc, &FILES, Some("old.toml"), &[])?;
    assert_same_at(&rt, alone.knows(&digest), false, "one table");
    let both = tables_in(alloc, &FILES, Some("old.toml"), &["new.toml"])?;
    assert_same_at(&rt, both.place(&digest), Some(1), "two tables");
    let first = first_table(alloc, &FILES, Some("old.toml"))?;
    let both = schedule_of(alloc, &FILES, first, &["noted.toml", "new.toml"])?;
    assert_same_at(&rt, both.place(&digest), Some(2), "three tables");
    Ok(())
}

#[test]
fn a_further_table_that_is_refused_is_told(rt: HostRuntime) -> Result<(), Fail> {
    let alloc = rt.alloc();
    let twice = tables_in(alloc, &FILES, Some("old.toml"), &["new.toml", "old.toml"]);
    let told = fault_of(alloc, twice)?;
    assert_same_at(
        &rt,
        told.as_str(),
        "fault supply 2 Twice 2  old.toml",
        "the first again",
    );
    let none = tables_in(alloc, &FILES, Some("old.toml"), &["new.toml", "none.toml"]);
    assert_same_at(
        &rt,
        fault_of(alloc, none)?.as_str(),
        "fault file",
        "no file",
    );
    // The example has another clock.
    let example = first_table(alloc, &FILES, None)?;
    let other = schedule_of(alloc, &FILES, example, &["old.toml"]);
    let told = fault_of(alloc, other)?;
    assert_same_at(
        &rt,
        told.as_str(),
        "fault supply 3 OtherZone 1  old.toml",
        "another zone",
    );
    Ok(())
}
