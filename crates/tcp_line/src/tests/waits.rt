//! How long a gate is waited for, by a clock of the tests.

mod world;

use crate::reader::GateReader;
use crate::tests::waits::world::{Gate, Step, new_world};
use crate::writer::GateWriter;
use std::io::{Read, Write};
use std::process::Abort;
use std::sync::atomic::Ordering;
use std::time::{Clock, Duration};

/// How a gate is read.
#[derive(Clone, Copy)]
struct Reading {
    /// For how many seconds it may be waited for.
    idle: Option<u64>,
    /// Whether the server's lines are ended before.
    ended: bool,
    /// How many reads are made at most.
    reads: u32,
    /// For how many milliseconds the server is busy after each read.
    busy: u64,
    /// Whether the clock fails.
    clock_fails: bool,
}

/// A gate is read to its end by a server that does nothing else.
fn to_the_end(idle: Option<u64>) -> Reading {
    Reading {
        idle,
        ended: false,
        reads: 100,
        busy: 0,
        clock_fails: false,
    }
}

/// What came of a connection: how many bytes, after how many milliseconds, whether its end was its
/// gate's own, how often the server hung up, and how often a clock was asked.
#[derive(Clone, Copy, Debug, PartialEq, Eq)]
struct Heard {
    bytes: usize,
    waited: u64,
    closed: bool,
    hung_up: u64,
    asked: u64,
}

/// Reads what a gate sends.
fn hear(steps: &[Step], reading: Reading) -> Heard {
    let world = new_world(reading.ended, reading.clock_fails);
    let gate = Gate {
        world: &world,
        steps,
        next: 0,
        sent: 0,
    };
    let idle = reading.idle.map(Duration::from_secs);
    let mut reader = GateReader::new(&world.clock, gate, &world.ended, idle);
    let mut bytes: usize = 0;
    let mut closed = false;
    for _ in 0..reading.reads {
        match reader.read(&mut [0; 512]) {
            Ok(0) => {
                closed = true;
                break;
            }
            Ok(size) => bytes = bytes.saturating_add(size),
            Err(_) => break,
        }
        world.clock.sleep(Duration::from_millis(reading.busy));
    }
    drop(reader);
    Heard {
        bytes,
        waited: world.clock.milliseconds.load(Ordering::Relaxed),
        closed,
        hung_up: world.hung_up.load(Ordering::Relaxed),
        asked: world.clock.asked.load(Ordering::Relaxed),
    }
}

/// So many bytes come of these steps, after so many milliseconds, and then the gate closes, or the
/// server does.
fn assert_read<R: Abort>(rt: &R, steps: &[Step], reading: Reading, wanted: (usize, u64, bool)) {
    let heard = hear(steps, reading);
    let found = (heard.bytes, heard.waited, heard.closed);
    assert_eq!(rt; (found, heard.hung_up), (wanted, 0));
}

/// The same of a server that does nothing else, where the gate may be waited for so many seconds.
fn assert_heard<R: Abort>(rt: &R, steps: &[Step], idle: Option<u64>, wanted: (usize, u64, bool)) {
    assert_read(rt, steps, to_the_end(idle), wanted);
}

#[test]
fn a_silent_gate_is_given_up_after_its_time_and_never_without_one(rt: HostRuntime) {
    let silent = [Step::Tick; 5];
    assert_heard(&rt, &silent, Some(1), (0, 1_000, false));
    assert_heard(&rt, &silent, Some(3), (0, 3_000, false));
    assert_heard(&rt, &silent, None, (0, 5_000, true));
    let then = [
        Step::Moves(0, 7),
        Step::Tick,
        Step::Moves(0, 7),
        Step::Tick,
        Step::Tick,
    ];
    assert_heard(&rt, &then, Some(2), (14, 3_000, false));
}

#[test]
fn a_request_that_is_not_whole_in_time_ends_its_connection(rt: HostRuntime) {
    // The rest is waited for from 0.9 s on, so the request is late from 2.9 s on: the fourth byte
    // shows it.
    let slow = [Step::Moves(900, 1); 7];
    assert_heard(&rt, &slow, Some(2), (3, 3_600, false));
    assert_heard(&rt, &slow, Some(4), (5, 5_400, false));
    // A request that is whole is served.
    assert_heard(&rt, &slow, Some(5), (7, 6_300, true));
    assert_heard(&rt, &slow, None, (7, 6_300, true));
    // A frame's first byte that comes with the end of the one before begins its own time.
    let next = [
        Step::Moves(0, 1),
        Step::Moves(1_900, 7),
        Step::Moves(1_900, 5),
        Step::Moves(0, 1),
    ];
    assert_heard(&rt, &next, Some(2), (14, 3_800, true));
    let cut = [Step::Moves(0, 3), Step::Tick, Step::Tick, Step::Tick];
    assert_heard(&rt, &cut, Some(2), (3, 2_000, false));
    // Silence before a request is none of its time.
    let silent = [Step::Tick, Step::Moves(0, 1), Step::Tick, Step::Moves(0, 6)];
    assert_heard(&rt, &silent, Some(2), (7, 2_000, true));
}

#[test]
fn what_is_there_when_the_server_reads_is_never_late(rt: HostRuntime) {
    let busy = Reading {
        busy: 5_000,
        ..to_the_end(Some(2))
    };
    let at_once = [Step::Moves(0, 10), Step::Moves(0, 4)];
    assert_read(&rt, &at_once, busy, (14, 10_000, true));
    let in_pieces = [
        Step::Moves(0, 10),
        Step::Moves(0, 1),
        Step::Moves(0, 1),
        Step::Moves(0, 2),
    ];
    assert_read(&rt, &in_pieces, busy, (14, 20_000, true));
    // What the server waits for the rest counts, and adds up.
    let silent = [
        Step::Moves(0, 10),
        Step::Moves(0, 1),
        Step::Tick,
        Step::Tick,
    ];
    assert_read(&rt, &silent, busy, (11, 12_000, false));
    let slow = [
        Step::Moves(0, 10),
        Step::Moves(900, 1),
        Step::Moves(900, 1),
        Step::Moves(900, 1),
    ];
    assert_read(&rt, &slow, busy, (12, 17_700, false));
    let slow_and_silent = [
        Step::Moves(0, 10),
        Step::Moves(900, 1),
        Step::Tick,
        Step::Tick,
    ];
    assert_read(&rt, &slow_and_silent, busy, (11, 12_900, false));
}

#[test]
fn a_clock_that_fails_ends_no_session(rt: HostRuntime) {
    let failing = Reading {
        clock_fails: true,
        ..to_the_end(Some(2))
    };
    assert_read(&rt, &[Step::Tick; 5], failing, (0, 5_000, true));
    assert_read(&rt, &[Step::Moves(900, 1); 7], failing, (7, 6_300, true));
    let cut = [Step::Moves(0, 3), Step::Tick, Step::Tick, Step::Tick];
    assert_read(&rt, &cut, failing, (3, 3_000, true));
}

/// Where the gate may be waited for so many seconds, a clock is asked so often.
fn assert_asked<R: Abort>(rt: &R, steps: &[Step], idle: Option<u64>, wanted: u64) {
    assert_eq!(rt; hear(steps, to_the_end(idle)).asked, wanted);
}

#[test]
fn a_clock_is_asked_inside_a_request_alone(rt: HostRuntime) {
    let pieces = [Step::Moves(0, 7), Step::Moves(500, 7)];
    let halves = [Step::Moves(0, 3), Step::Moves(500, 4)];
    assert_asked(&rt, &pieces, Some(2), 0);
    assert_asked(&rt, &halves, None, 0);
    // As the second half is waited for.
    assert_asked(&rt, &halves, Some(2), 1);
}

#[test]
fn a_gate_is_read_no_further_once_the_lines_are_ended(rt: HostRuntime) {
    let reading = Reading {
        ended: true,
        ..to_the_end(None)
    };
    let ended = hear(&[Step::Moves(0, 7)], reading);
    assert_eq!(rt; (ended.bytes, ended.waited, ended.closed), (0, 0, false));
    let ending = [Step::Moves(0, 7), Step::Tick, Step::Ending, Step::Tick];
    assert_heard(&rt, &ending, None, (7, 2_000, false));
}

#[test]
fn a_gate_may_take_its_answer_where_the_server_hangs_up(rt: HostRuntime) {
    let sends = [Step::Moves(0, 7), Step::Moves(0, 7)];
    let once = Reading {
        reads: 1,
        ..to_the_end(None)
    };
    let read = hear(&sends, to_the_end(None));
    assert_eq!(rt; (hear(&sends, once).hung_up, read.hung_up), (1, 0));
    // What comes is read for a second, and no longer.
    let floods = [Step::Moves(300, 14); 100];
    assert_eq!(rt; hear(&floods, once).waited, 300 + 1_200);
}

#[test]
fn a_gate_that_takes_nothing_is_given_up(rt: HostRuntime) {
    for (steps, idle, taken, waited) in [
        (
            [Step::Tick, Step::Tick, Step::Moves(0, 22)],
            Some(2),
            None,
            2_000,
        ),
        (
            [Step::Tick, Step::Tick, Step::Moves(0, 22)],
            Some(3),
            Some(22),
            2_000,
        ),
        (
            [Step::Tick, Step::Ending, Step::Moves(0, 22)],
            None,
            None,
            2_000,
        ),
        (
            [Step::Tick, Step::Tick, Step::Moves(0, 5)],
            None,
            Some(5),
            2_000,
        ),
    ] {
        let world = new_world(false, false);
        let gate = Gate {
            world: &world,
            steps: &steps,
            next: 0,
            sent: 0,
        };
        let idle = idle.map(Duration::from_secs);
        let mut writer = GateWriter::new(&world.clock, gate, &world.ended, idle);
        let given = writer.write(&[0; 22]).ok();
        let passed = world.clock.milliseconds.load(Ordering::Relaxed);
        assert_eq!(rt; (given, passed), (taken, waited));
    }
}
