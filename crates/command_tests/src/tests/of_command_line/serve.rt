//! What command lines of `serve` ask for.
use crate::tests::of_command_line::{assert_asked, assert_refused};

#[test]
fn a_line_is_never_done_where_no_number_of_connections_is_named(rt: HostRuntime) {
    let rows = [
        (
            "serve --table a.toml --journal b --cards 10 --capacity 100 --listen c --lines 64",
            "Serve(Serve { table: \"a.toml\", revisions: [], journal: \"b\", cards: 10, \
             capacity: 100, listen: \"c\", lines: 64, connections: None, idle: None, \
             report: None, stay_halted: false, strict: false, standby: false, \
             door: None, proxy: false })",
        ),
        (
            "serve --table a.toml --journal b --cards 10 --capacity 100 --listen c --lines 64 \
             --connections 1",
            "Serve(Serve { table: \"a.toml\", revisions: [], journal: \"b\", cards: 10, \
             capacity: 100, listen: \"c\", lines: 64, connections: Some(1), idle: None, \
             report: None, stay_halted: false, strict: false, standby: false, \
             door: None, proxy: false })",
        ),
        (
            "serve --table a.toml --journal b --cards 10 --capacity 100 --listen c --lines 64 \
             --connections 1000000",
            "Serve(Serve { table: \"a.toml\", revisions: [], journal: \"b\", cards: 10, \
             capacity: 100, listen: \"c\", lines: 64, connections: Some(1000000), idle: None, \
             report: None, stay_halted: false, strict: false, standby: false, \
             door: None, proxy: false })",
        ),
    ];
    assert_asked(&rt, rt.alloc(), &rows);
    let refused = [
        "serve --table a --journal b --cards 10 --capacity 9 --listen c --lines 64 --connections 0",
        "serve --table a --journal b --cards 10 --capacity 9 --listen c --lines 64 \
         --connections 1000001",
        "serve --table a --journal b --cards 10 --capacity 9 --listen c --lines 64 --connections x",
        "serve --table a --journal b --cards 10 --capacity 9 --listen c --lines 64 \
         --connections +5",
    ];
    assert_refused(&rt, rt.alloc(), &refused);
}

#[test]
fn a_server_needs_its_tables_its_journal_and_its_numbers(rt: HostRuntime) {
    let rows = [
        (
            "serve --table fares.toml --journal station.journal --cards 10 --capacity 100 \
             --listen 127.0.0.1:0 --lines 64 --connections 2",
            "Serve(Serve { table: \"fares.toml\", revisions: [], journal: \"station.journal\", \
             cards: 10, capacity: 100, listen: \"127.0.0.1:0\", lines: 64, connections: Some(2), \
             idle: None, report: None, stay_halted: false, strict: false, standby: false, \
             door: None, proxy: false })",
        ),
        (
            "serve --table fares.toml --journal station.journal --cards 10 --capacity 100 \
             --listen 127.0.0.1:0 --lines 64 --connections 2 --idle 600 --report 3600 \
             --stay-halted",
            "Serve(Serve { table: \"fares.toml\", revisions: [], journal: \"station.journal\", \
             cards: 10, capacity: 100, listen: \"127.0.0.1:0\", lines: 64, connections: Some(2), \
             idle: Some(600), report: Some(3600), stay_halted: true, strict: false, \
             standby: false, \
             door: None, proxy: false })",
        ),
        (
            "serve --table a.toml --journal b --cards 10 --capacity 100 --listen c --lines 64 \
             --strict d.toml",
            "Serve(Serve { table: \"a.toml\", revisions: [\"d.toml\"], journal: \"b\", cards: 10, \
             capacity: 100, listen: \"c\", lines: 64, connections: None, idle: None, \
             report: None, stay_halted: false, strict: true, standby: false, \
             door: None, proxy: false })",
        ),
        (
            "serve --standby --table a.toml --journal b --cards 10 --capacity 100 --listen c \
             --lines 64",
            "Serve(Serve { table: \"a.toml\", revisions: [], journal: \"b\", cards: 10, \
             capacity: 100, listen: \"c\", lines: 64, connections: None, idle: None, \
             report: None, stay_halted: false, strict: false, standby: true, \
             door: None, proxy: false })",
        ),
    ];
    assert_asked(&rt, rt.alloc(), &rows);
    let refused = [
        "serve --table a --journal b --cards 10 --capacity 9 --listen c --lines 0",
        "serve --table a --journal b --cards 10 --capacity 9 --listen c --lines 65",
        "serve --table a --journal b --cards 10 --capacity 9 --listen c --lines +2",
        "serve --table a --journal b --cards 10 --capacity 9 --listen c --lines -1",
        "serve --table a --journal b --cards 10 --capacity 9 --listen c --lines x",
        "serve --table a --journal b --cards 10 --capacity 9 --listen c --lines 2 --report 0",
        "serve --table a --journal b --cards 10 --capacity 9 --listen c --lines 2 --report 1000001",
        "serve --table a --journal b --cards 10 --capacity 9 --listen c",
    ];
    assert_refused(&rt, rt.alloc(), &refused);
}

#[test]
fn a_server_has_a_door_and_a_proxy_where_they_are_named(rt: HostRuntime) {
    let rows = [
        (
            "serve --table a.toml --journal b --cards 10 --capacity 100 --listen c --lines 64 \
             --door door.toml",
            "Serve(Serve { table: \"a.toml\", revisions: [], journal: \"b\", cards: 10, \
             capacity: 100, listen: \"c\", lines: 64, connections: None, idle: None, \
             report: None, stay_halted: false, strict: false, standby: false, \
             door: Some(\"door.toml\"), proxy: false })",
        ),
        (
            "serve --table a.toml --journal b --cards 10 --capacity 100 --listen c --lines 64 \
             --proxy --door door.toml d.toml",
            "Serve(Serve { table: \"a.toml\", revisions: [\"d.toml\"], journal: \"b\", cards: 10, \
             capacity: 100, listen: \"c\", lines: 64, connections: None, idle: None, \
             report: None, stay_halted: false, strict: false, standby: false, \
             door: Some(\"door.toml\"), proxy: true })",
        ),
    ];
    assert_asked(&rt, rt.alloc(), &rows);
    let refused = [
        "serve --table a --journal b --cards 10 --capacity 9 --listen c --lines 64 --door",
        "serve --table a --journal b --cards 10 --capacity 9 --listen c --lines 64 --proxy=yes",
        "serve --table a --journal b --cards 10 --capacity 9 --listen c --lines 64 --proxy --proxy",
    ];
    assert_refused(&rt, rt.alloc(), &refused);
}
