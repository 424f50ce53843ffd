//! Touches that are given up, and calls of the disk that stop or fail meanwhile.
use super::sending::assert_printed;
use super::*;
use gate_client::{GivenUpTold, SettleFault};

/// How many disk calls an opening of a small file makes.
const OPENING: u64 = 4;

/// A client with room for so many touches, whose second one waits.
fn of_two(rt: &impl Abort, alloc: Global, capacity: u32) -> Client<MemoryDisk> {
    let mut client = new_client(rt, alloc, capacity);
    assert_ask(rt, &mut client, &ROWS[0], Ok(()));
    assert_answered(rt, &mut client, &ROWS[0]);
    assert_ask(rt, &mut client, &ROWS[1], Ok(()));
    client
}

/// That a touch waits, and giving it up ends so.
fn assert_gives_up(rt: &impl Abort, client: &mut Client<MemoryDisk>, want: Result<(), AskFault>) {
    let waits = client.waiting().is_some();
    assert!(rt; waits);
    assert_same(rt, client.give_up(), want);
}

#[test]
fn what_was_given_up_waits_no_more(rt: HostRuntime) {
    let mut client = of_two(&rt, rt.alloc(), 4);
    assert_gives_up(&rt, &mut client, Ok(()));
    assert_waits(&rt, &client, None);
    let disk = client.close();
    // Seven of the making, and four of each touch and of the giving up.
    assert_calls(&rt, &disk, 7 + 3 * 4, 0);
    let mut client = open(&rt, rt.alloc(), disk);
    assert_waits(&rt, &client, None);
    // The number 3 is used up.
    let next = Touch {
        number: 4,
        ..ROWS[2].touch
    };
    assert_same(&rt, client.ask(1, ROWS[2].touch.act), Ok(next));
    assert_waits(&rt, &client, Some(next));
    drop(client);
}

#[test]
fn the_touch_stands_behind_itself(rt: HostRuntime) {
    let mut client = new_client(&rt, rt.alloc(), 3);
    assert_ask(&rt, &mut client, &ROWS[0], Ok(()));
    assert_gives_up(&rt, &mut client, Ok(()));
    let mut disk = client.close();
    let mut bytes = [1; 194];
    assert_same(&rt, disk.read(0, &mut bytes), Ok(193));
    assert_same(&rt, bytes.get(..128), FILE.get(..128));
    assert_same(&rt, bytes.get(128..193), FILE.get(64..));
    drop(disk);
}

#[test]
fn a_full_file_gives_up_nothing(rt: HostRuntime) {
    let mut client = of_two(&rt, rt.alloc(), 2);
    assert_gives_up(&rt, &mut client, Err(AskFault::Full));
    // It waits on, and may still be answered.
    assert_answered(&rt, &mut client, &ROWS[1]);
    drop(client);
}

/// A disk with the file of two touches, on which no call was counted.
fn disk_of_two(rt: &impl Abort, alloc: Global) -> MemoryDisk {
    settled(rt, of_two(rt, alloc, 4).close())
}

/// That the client, whose disk fails, gives up nothing for sure: none waits in it, and it asks for
/// none.
fn assert_stops(rt: &impl Abort, client: &mut Client<MemoryDisk>) {
    assert_gives_up(rt, client, Err(AskFault::Device));
    assert_waits(rt, client, None);
    assert_ask(rt, client, &ROWS[2], Err(AskFault::Stopped));
}

/// The disk of a client whose second touch is given up, after so many calls of it pass, and how
/// many were made.
fn assert_stop(rt: &impl Abort, alloc: Global, calls: u32, made: u32) -> MemoryDisk {
    let mut disk = disk_of_two(rt, alloc);
    disk.stop_after(OPENING + u64::from(calls));
    let mut client = open(rt, alloc, disk);
    if calls == 4 {
        assert_gives_up(rt, &mut client, Ok(()));
    } else {
        assert_stops(rt, &mut client);
    }
    let disk = client.close();
    assert_calls(rt, &disk, OPENING + u64::from(made), u64::from(calls < 4));
    disk
}

#[test]
fn a_stop_in_a_giving_up_leaves_the_touch_waiting_or_not(rt: HostRuntime) {
    // After so many calls: how many were made, which touch waits after each choice, and on the disk
    // itself.
    for (calls, made, left, here) in [
        (0, 1, [Ok(2); 4], Ok(2)),
        (1, 2, [Ok(2); 4], Ok(2)),
        (2, 3, [Ok(2); 4], Ok(2)),
        (3, 4, [Ok(2), Ok(0), Ok(2), Ok(0)], Ok(0)),
        (4, 4, [Ok(0); 4], Ok(0)),
    ] {
        let disk = assert_stop(&rt, rt.alloc(), calls, made);
        assert_left(&rt, rt.alloc(), &disk, &left, &calls);
        drop(assert_found(&rt, rt.alloc(), mended(disk), here, &calls));
    }
}

/// The disk of a client whose second touch is given up, of which this call fails.
fn assert_failure(rt: &impl Abort, alloc: Global, call: u32) -> MemoryDisk {
    let mut disk = disk_of_two(rt, alloc);
    let failing = OPENING + u64::from(call);
    disk.fail_at(failing);
    let mut client = open(rt, alloc, disk);
    assert_stops(rt, &mut client);
    let disk = client.close();
    assert_calls(rt, &disk, failing, 1);
    disk
}

#[test]
fn a_failure_in_a_giving_up_leaves_the_touch_waiting_or_not(rt: HostRuntime) {
    // The call that fails: which touch waits after each choice, and on the disk itself.
    for (call, left, here) in [
        (1, [Ok(2); 4], Ok(2)),
        (2, [Ok(2); 4], Ok(2)),
        (3, [Ok(2), Ok(0), Ok(2), Ok(0)], Ok(2)),
        (4, [Ok(2), Ok(0), Ok(2), Ok(0)], Ok(0)),
    ] {
        let disk = assert_failure(&rt, rt.alloc(), call);
        assert_left(&rt, rt.alloc(), &disk, &left, &call);
        drop(assert_found(&rt, rt.alloc(), mended(disk), here, &call));
    }
}

#[test]
fn what_was_given_up_prints_as_its_line(rt: HostRuntime) {
    for (row, want) in ROWS.iter().zip([
        "7,1,1,issue,,,given-up,,",
        "7,2,1,top-up,,2000,given-up,,",
        "7,3,1,in,2,,given-up,,",
    ]) {
        assert_printed(&rt, rt.alloc(), &GivenUpTold { touch: row.touch }, want);
    }
}

#[test]
fn only_an_answer_of_the_station_lets_a_touch_be_given_up(rt: HostRuntime) {
    for (fault, want) in [
        (SettleFault::Conflict, true),
        (SettleFault::Full, true),
        (SettleFault::UnknownTable, true),
        (SettleFault::NotAllowed, true),
        (SettleFault::Tries(0), false),
        (SettleFault::Tries(3), false),
    ] {
        assert_same_at(&rt, fault.is_answer(), want, &fault);
    }
}
