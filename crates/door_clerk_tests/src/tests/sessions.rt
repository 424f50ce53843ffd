//! A session through a door.

use super::*;
use door_clerk::{DoorRefusal, serve_at_door};
use gate_session::{End, Served};
use test_streams::{Pieces, Taker};

/// A touch in of gate 7, a top-up of gate 7, a touch in of gate 21, and an enquiry.
const ASKED: &[u8] = b"\x00\x11\x01\x00\x07\x00\x00\x00\x01\x00\x00\x00\x08\x00\x03\x67\x7b\x8d\x80\
    \x00\x13\x03\x00\x07\x00\x00\x00\x02\x00\x00\x00\x08\x00\x00\x07\xd0\x67\x7b\x8d\x80\
    \x00\x11\x01\x00\x15\x00\x00\x00\x03\x00\x00\x00\x08\x00\x03\x67\x7b\x8d\x80\
    \x00\x05\x05\x00\x00\x00\x08";

/// The clerk's reply, fault 7 twice, and what the card holds.
const ANSWERED: &[u8] =
    b"\x00\x14\x81\x00\x07\x00\x00\x00\x01\x01\xff\xff\xfc\x7c\x00\x00\x00\x00\x00\x00\x04\x4c\
    \x00\x08\xff\x07\x00\x07\x00\x00\x00\x02\
    \x00\x08\xff\x07\x00\x15\x00\x00\x00\x03\
    \x00\x0e\x85\x02\x00\x00\x00\x00\x00\x00\x04\x4c\x00\x00\x00\x03";

#[test]
fn a_session_goes_on_after_fault_7(rt: HostRuntime) {
    let alloc = rt.alloc();
    let Ok(rule) = barrier(alloc) else {
        return;
    };
    let mut door = door(&rule, NOW, NEW);
    let mut reader = Pieces {
        rest: ASKED,
        size: 10,
        fails: false,
    };
    let mut writer = Taker {
        taken: Vec::new(alloc),
        size: 512,
        left: 512,
        fails: false,
        holds: false,
    };
    let served = serve_at_door(&rt, alloc, &mut reader, &mut writer, &mut door, 1_000);
    if served.end == End::Memory {
        return;
    }
    let whole = Served {
        requests: 4,
        answers: 4,
        end: End::Closed,
    };
    assert_same(&rt, served, whole);
    assert_same(&rt, writer.taken.as_slice(), ANSWERED);
    assert_same(&rt, (door.behind.touches, door.behind.enquiries), (1, 1));
    assert_same(&rt, door.last, None::<DoorRefusal>);
}
