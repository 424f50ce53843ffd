//! What the commands on a journal are asked for.
use crate::tests::of_command_line::{assert_asked, assert_refused};

#[test]
fn a_history_needs_a_table_and_a_journal(rt: HostRuntime) {
    let rows = [(
        "history --table a.toml --journal a.journal b.toml c.toml",
        "History(History { table: \"a.toml\", journal: \"a.journal\", \
         revisions: [\"b.toml\", \"c.toml\"], card: None, day: None, format: Csv })",
    )];
    assert_asked(&rt, rt.alloc(), &rows);
    assert_refused(&rt, rt.alloc(), &["history", "history --table a.toml"]);
}

// 1970-01-02 is day 1, and 2025-01-07 is 55 years with 14 leap days and 6 days more.
#[test]
fn a_history_is_of_a_card_and_a_day(rt: HostRuntime) {
    let rows = [
        (
            "history --table a --journal b --card 1",
            "History(History { table: \"a\", journal: \"b\", revisions: [], card: Some(1), \
             day: None, format: Csv })",
        ),
        (
            "history --table a --journal b --card 100000",
            "History(History { table: \"a\", journal: \"b\", revisions: [], card: Some(100000), \
             day: None, format: Csv })",
        ),
        (
            "history --table a --journal b --day 1970-01-02",
            "History(History { table: \"a\", journal: \"b\", revisions: [], card: None, \
             day: Some(1), format: Csv })",
        ),
        (
            "history --table a --journal b --day 1969-12-31",
            "History(History { table: \"a\", journal: \"b\", revisions: [], card: None, \
             day: Some(-1), format: Csv })",
        ),
        (
            "history --table a --journal b --day 2025-01-07",
            "History(History { table: \"a\", journal: \"b\", revisions: [], card: None, \
             day: Some(20095), format: Csv })",
        ),
        (
            "history --table a --journal b --format csv",
            "History(History { table: \"a\", journal: \"b\", revisions: [], card: None, \
             day: None, format: Csv })",
        ),
        (
            "history --table a --journal b --format frames",
            "History(History { table: \"a\", journal: \"b\", revisions: [], card: None, \
             day: None, format: Frames })",
        ),
    ];
    assert_asked(&rt, rt.alloc(), &rows);
    let refused = [
        "history --table a --journal b --card 0",
        "history --table a --journal b --card 100001",
        "history --table a --journal b --card +7",
        "history --table a --journal b --card x",
        "history --table a --journal b --day 2025-02-29",
        "history --table a --journal b --day 2025-1-7",
        "history --table a --journal b --day 20095",
        "history --table a --journal b --format json",
        "history --table a --journal b --format Csv",
        "history --table a --journal b --at 7",
    ];
    assert_refused(&rt, rt.alloc(), &refused);
}

#[test]
fn balances_are_told_after_so_many_touches(rt: HostRuntime) {
    let rows = [
        (
            "balances --table a.toml --journal a.journal b.toml c.toml",
            "Balances(Balances { table: \"a.toml\", journal: \"a.journal\", \
             revisions: [\"b.toml\", \"c.toml\"], at: None })",
        ),
        (
            "balances --table a --journal b --at 0",
            "Balances(Balances { table: \"a\", journal: \"b\", revisions: [], at: Some(0) })",
        ),
        (
            "balances --table a --journal b --at 17",
            "Balances(Balances { table: \"a\", journal: \"b\", revisions: [], at: Some(17) })",
        ),
        (
            "balances --table a --journal b --at 1000000",
            "Balances(Balances { table: \"a\", journal: \"b\", revisions: [], at: Some(1000000) })",
        ),
    ];
    assert_asked(&rt, rt.alloc(), &rows);
    let refused = [
        "balances --table a --journal b --at 1000001",
        "balances --table a --journal b --at +1",
        "balances --table a --journal b --at -1",
        "balances --table a --journal b --at x",
        "balances --table a --journal b --at ",
    ];
    assert_refused(&rt, rt.alloc(), &refused);
}
