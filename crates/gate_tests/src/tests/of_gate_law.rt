//! A gate and a station over lines that lose what the tests say, with the values of
//! PROTOCOL.md.
//!
//! A client or station is let go of by a call of `drop`: a function in which one goes out of scope
//! takes longer to prove.
mod books;
mod giving_up;
mod rounds;
mod station;

ghost use Rattle.std.specs.Prelude.{◌≡◌, []};
ghost use Rattle.fare_schedule.specs.Schedule.{revisions_of};

use super::{GATE, ROWS, Row, assert_same, assert_same_at, new_client, open};
use fare_schedule::Schedule;
use fare_table::{EXAMPLE_TABLE, Fares};
use gate_client::{AskFault, Client, HearFault};
use gate_law::{Carried, NoReplyFault, TouchFault, ask_and_settle, settle_in_memory};
use gate_session::{Answer, Clerk, FaultCode};
use oyster_account::{Reply, Touch};
use station::Script;
use std::alloc::Global;
use std::process::Abort;
use std::sync::Wait;
use tap_disk::MemoryDisk;

/// No answer came, or a part of one.
const NONE: NoReplyFault = NoReplyFault::Unheard(HearFault::NoAnswer);

/// A line that loses nothing.
const WHOLE: Carried = Carried {
    to_station: 100,
    to_gate: 100,
};

/// The schedule of the example's table.
pub(super) fn new_schedule(rt: &impl Abort, alloc: Global) -> Schedule
    ensures { revisions_of result ≡ [] }
{
    let table = Fares::read(alloc, EXAMPLE_TABLE)
        .ok()
        .expect(rt, "no table");
    match Schedule::new(alloc, table) {
        Ok(schedule) => schedule,
        Err(_) => panic!(rt; "no memory for a schedule"),
    }
}

/// The client that opens the file of another one again.
pub(super) fn opened_again(
    rt: &impl Abort,
    alloc: Global,
    client: Client<MemoryDisk>,
) -> Client<MemoryDisk> {
    open(rt, alloc, client.close())
}

/// What comes of the touch that waits.
fn settled<R: Abort + Wait, C: Clerk>(
    rt: &R,
    alloc: Global,
    client: &mut Client<MemoryDisk>,
    station: &mut C,
    carried: Carried,
) -> Result<Reply, NoReplyFault> {
    let waits = client.waiting().is_some();
    assert!(rt; waits);
    settle_in_memory(rt, alloc, client, station, carried)
}

/// What comes of the row's touch.
fn asked<R: Abort + Wait>(
    rt: &R,
    alloc: Global,
    client: &mut Client<MemoryDisk>,
    station: &mut Script,
    row: &Row,
    carried: Carried,
) -> Result<Reply, TouchFault> {
    let Touch { card, act, .. } = row.touch;
    ask_and_settle(rt, alloc, client, station, card, act, carried)
}

/// That the station has entered as many of the rows, and repeated as many replies.
fn assert_station(rt: &impl Abort, station: &Script, entered: usize, repeated: usize) {
    assert_same(rt, (station.entered, station.repeated), (entered, repeated));
}
