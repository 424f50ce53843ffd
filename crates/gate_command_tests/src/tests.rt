//! What no clause says of the command of a gate: what it asks for, sends and prints, each fault's
//! lines, its file, and its turns and pauses.
//!
//! The frames and the answers are a card's first morning, of PROTOCOL.md, "Requests and their
//! answers".

mod arguments;
mod fakes;
mod faults;
mod files;
mod lines;
mod memory;
mod stations;
mod waiting;

use self::fakes::{Gate, MOMENT, Script, TIMEOUT, Try, World};
use gate_client::Client;
use gate_command::{Arguments, SendFault, Sent, send_lines, tell_fault};
use std::alloc::{AllocError, Global};
use std::cell::Cell;
use std::fmt::Debug;
use std::process::{Abort, ExitCode};
use std::test::Fail;
use std::time::Duration;
use tap_disk::MemoryDisk;

/// The gate of the tests.
const GATE: u16 = 7;

/// The path of its file, as it is told.
const FILE: &str = "gate7.touches";

/// The address of its station.
const STATION: &str = "10.0.0.1:7040";

/// The frame of the issue of card 1 as touch 1 of gate 7, and its reply.
const ISSUE: &[u8] = b"\x00\x0f\x04\x00\x07\x00\x00\x00\x01\x00\x00\x00\x01\x67\x7b\x8b\x28";

const ISSUED: &[u8] = b"\x00\x14\x81\x00\x07\x00\x00\x00\x01\x08\x00\x00\x00\x00\
    \x00\x00\x00\x00\x00\x00\x00\x00";

/// The line that asks for it, and the line of its reply.
const ISSUE_LINE: &[u8] = b"at 1736149800 issue 1\n";

const ISSUED_LINE: &str = "7,1,1,issue,,,Issued,0,0\n";

/// What a run ends by.
#[derive(Clone, Copy)]
struct Ended<'a> {
    /// Its status.
    status: u8,
    /// What standard output gets.
    printed: &'a str,
    /// What standard error gets.
    told: &'a str,
    /// What is sent.
    sent: &'a [u8],
    /// For how many milliseconds is waited.
    waited: u64,
}

/// Asserts that both values are equal.
fn assert_same<T: PartialEq + Debug + Copy>(rt: &impl Abort, found: T, want: T) {
    assert_eq!(rt; found, want);
}

/// Asserts that both values are equal in the case `at`, which a failure prints.
fn assert_same_at<T: PartialEq + Debug + Copy, C: Debug + Copy>(
    rt: &impl Abort,
    found: T,
    want: T,
    at: C,
) {
    assert_eq!(rt; found, want, "{at:?}");
}

/// What a run is asked for with no options, by these addresses.
fn asked<'a>(file: &'a str, addresses: Vec<&'a str>) -> Arguments<'a> {
    Arguments {
        gate: GATE,
        file,
        is_new: false,
        capacity: 3,
        resends: false,
        gives_up: false,
        tries: None,
        timeout: TIMEOUT,
        pause: 200,
        addresses,
    }
}

/// What a run is asked for with no options, by the one address of the tests.
fn asked_of_one<'a>(alloc: Global) -> Result<Arguments<'a>, AllocError> {
    Ok(asked(FILE, vec![in alloc; STATION]?))
}

/// The lines of a run whose clock shows the moment of the issue, by these stations.
fn script<'a>(input: &'a [&'a [u8]], tries: &'a [Try<'a>]) -> Script<'a> {
    Script {
        input,
        failure: None,
        room: 10,
        tries,
        now: Some(Duration::from_secs(u64::from(MOMENT))),
    }
}

/// A client with room for so many touches, none of which was asked for.
fn new_client(alloc: Global, capacity: u32) -> Option<Client<MemoryDisk>> {
    let disk = MemoryDisk::new(alloc).ok()?;
    Client::create(disk, GATE, capacity).ok()
}

/// The status of a program after a run, which tells a fault.
fn status_of(gate: &Gate<'_, '_>, ended: Result<Sent, SendFault>) -> ExitCode {
    match ended {
        Ok(Sent::All) => ExitCode::SUCCESS,
        Ok(Sent::ButBadLines) => ExitCode::from(1),
        Err(fault) => tell_fault(gate, fault).unwrap_or(ExitCode::from(9)),
    }
}

/// The text is this.
fn assert_text<R: Abort + AllocGlobal>(rt: &R, text: &Cell<String>, want: &str) {
    let text = text.replace(String::new(rt.alloc()));
    assert_same(rt, text.as_str(), want);
}

/// What came of a run is this.
fn assert_ended<R: Abort + AllocGlobal>(rt: &R, world: &World<'_>, want: &Ended<'_>) {
    assert_text(rt, &world.told, want.told);
    assert_text(rt, &world.printed, want.printed);
    let sent = world.sent.replace(Vec::new(rt.alloc()));
    assert_same_at(rt, sent.as_slice(), want.sent, want.told);
    assert_same_at(rt, world.waited.get(), want.waited, want.told);
}

/// A run of the client by the script ends by this.
fn assert_run<R: Abort + AllocGlobal>(
    rt: &R,
    client: Option<Client<MemoryDisk>>,
    asked: &Arguments<'_>,
    script: Script<'_>,
    want: &Ended<'_>,
) -> Result<(), Fail> {
    let mut client = client.ok_or("a client")?;
    let world = World::new(rt.alloc(), script);
    let gate = Gate { world: &world };
    let status = status_of(&gate, send_lines(&gate, &mut client, asked));
    let is_wanted = status == ExitCode::from(want.status);
    assert_same_at(rt, is_wanted, true, want.told);
    assert_ended(rt, &world, want);
    Ok(())
}

/// A run by the script, of a client with room for so many touches of which none was asked for, ends
/// by this.
fn assert_first_run<R: Abort + AllocGlobal>(
    rt: &R,
    capacity: u32,
    script: Script<'_>,
    want: &Ended<'_>,
) -> Result<(), Fail> {
    let asked = asked_of_one(rt.alloc())?;
    assert_run(rt, new_client(rt.alloc(), capacity), &asked, script, want)
}
