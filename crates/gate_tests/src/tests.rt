//! A module for each library, of its public names alone.

mod of_gate_client;
mod of_gate_law;
mod of_station_calls;

use gate_client::Client;
use oyster_account::{Act, Reply, Touch};
use std::alloc::Global;
use std::fmt::Debug;
use std::process::Abort;
use tap_disk::MemoryDisk;

/// The gate of the tests.
const GATE: u16 = 7;

/// A touch that the gate is asked for, its frame, and the frame of its reply.
#[derive(Clone, Copy, Debug)]
struct Row {
    touch: Touch,
    frame: &'static [u8],
    answer: &'static [u8],
    reply: Reply,
}

/// A card's first morning, of PROTOCOL.md, "Requests and their answers": issued, topped up by
/// 2000 pence, in at station 2.
const ROWS: [Row; 3] = [
    Row {
        touch: Touch {
            gate: GATE,
            number: 1,
            card: 1,
            act: Act::Issue {
                moment: 1_736_149_800,
            },
        },
        frame: b"\x00\x0f\x04\x00\x07\x00\x00\x00\x01\x00\x00\x00\x01\x67\x7b\x8b\x28",
        answer: b"\x00\x14\x81\x00\x07\x00\x00\x00\x01\x08\x00\x00\x00\x00\
            \x00\x00\x00\x00\x00\x00\x00\x00",
        reply: Reply {
            verdict: 8,
            change: 0,
            balance: 0,
        },
    },
    Row {
        touch: Touch {
            gate: GATE,
            number: 2,
            card: 1,
            act: Act::TopUp {
                pence: 2000,
                moment: 1_736_150_100,
            },
        },
        frame: b"\x00\x13\x03\x00\x07\x00\x00\x00\x02\x00\x00\x00\x01\
            \x00\x00\x07\xd0\x67\x7b\x8c\x54",
        answer: b"\x00\x14\x81\x00\x07\x00\x00\x00\x02\x07\x00\x00\x07\xd0\
            \x00\x00\x00\x00\x00\x00\x07\xd0",
        reply: Reply {
            verdict: 7,
            change: 2000,
            balance: 2000,
        },
    },
    Row {
        touch: Touch {
            gate: GATE,
            number: 3,
            card: 1,
            act: Act::Enter {
                station: 2,
                moment: 1_736_150_400,
            },
        },
        frame: b"\x00\x11\x01\x00\x07\x00\x00\x00\x03\x00\x00\x00\x01\x00\x02\x67\x7b\x8d\x80",
        answer: b"\x00\x14\x81\x00\x07\x00\x00\x00\x03\x01\xff\xff\xfc\x7c\
            \x00\x00\x00\x00\x00\x00\x04\x4c",
        reply: Reply {
            verdict: 1,
            change: -900,
            balance: 1100,
        },
    },
];

/// Asserts that both values are equal.
fn assert_same<T: PartialEq + Debug + Copy>(rt: &impl Abort, found: T, want: T) {
    assert_eq!(rt; found, want);
}

/// Asserts that both values are equal in the case `at`, which a failure prints.
fn assert_same_at<T: PartialEq + Debug + Copy, C: Debug + Copy>(
    rt: &impl Abort,
    found: T,
    want: T,
    at: C,
) {
    assert_eq!(rt; found, want, "{at:?}");
}

/// A disk in memory that holds nothing.
fn new_disk(rt: &impl Abort, alloc: Global) -> MemoryDisk {
    MemoryDisk::new(alloc).expect(rt, "no memory for a disk")
}

/// A client of the gate, with its file on a disk of its own.
fn new_client(rt: &impl Abort, alloc: Global, capacity: u32) -> Client<MemoryDisk> {
    match Client::create(new_disk(rt, alloc), GATE, capacity) {
        Ok(client) => client,
        Err(fault) => panic!(rt; "not made: {:?}", fault.cause),
    }
}

/// The client whose file is on a disk.
fn open(rt: &impl Abort, alloc: Global, disk: MemoryDisk) -> Client<MemoryDisk> {
    match Client::open(alloc, disk, GATE) {
        Ok(client) => client,
        Err(fault) => panic!(rt; "not opened: {:?}", fault.cause),
    }
}
