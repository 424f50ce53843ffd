//! Touches that are asked, lost, sent again and answered.
use super::*;

#[test]
fn each_touch_gets_its_reply(rt: HostRuntime) {
    let mut client = new_client(&rt, rt.alloc(), 3);
    let mut station = Script::new();
    for row in &ROWS {
        let reply = asked(&rt, rt.alloc(), &mut client, &mut station, row, WHOLE);
        assert_same_at(&rt, reply, Ok(row.reply), row);
    }
    assert_station(&rt, &station, 3, 0);
    let full = asked(&rt, rt.alloc(), &mut client, &mut station, &ROWS[0], WHOLE);
    assert_same(&rt, full, Err(TouchFault::Unasked(AskFault::Full)));
    assert_station(&rt, &station, 3, 0);
    drop(client);
    drop(station);
}

/// That a line which loses this gives no reply, that the touch waits on, and that sent again it
/// gets its reply. By then the station had the touch or not.
fn assert_lost<R: Abort + Wait>(rt: &R, alloc: Global, carried: Carried, had: usize) {
    let row = &ROWS[0];
    let mut client = new_client(rt, alloc, 3);
    let mut station = Script::new();
    let first = asked(rt, alloc, &mut client, &mut station, row, carried);
    assert_same_at(rt, first, Err(TouchFault::Unsettled(NONE)), &carried);
    assert_station(rt, &station, had, 0);
    let other = asked(rt, alloc, &mut client, &mut station, &ROWS[1], WHOLE);
    assert_same(rt, other, Err(TouchFault::Unasked(AskFault::Waiting)));
    assert_station(rt, &station, had, 0);
    let reply = settled(rt, alloc, &mut client, &mut station, WHOLE);
    assert_same_at(rt, reply, Ok(row.reply), &carried);
    assert_station(rt, &station, 1, had);
    let next = asked(rt, alloc, &mut client, &mut station, &ROWS[1], WHOLE);
    assert_same_at(rt, next, Ok(ROWS[1].reply), &carried);
    assert_station(rt, &station, 2, had);
    drop(client);
    drop(station);
}

#[test]
fn a_lost_request_is_sent_again(rt: HostRuntime) {
    for to_station in [0, 1, 2, 16] {
        let carried = Carried {
            to_station,
            ..WHOLE
        };
        assert_lost(&rt, rt.alloc(), carried, 0);
    }
}

#[test]
fn a_lost_answer_is_repeated_by_the_first_reply(rt: HostRuntime) {
    for to_gate in [0, 1, 2, 21] {
        let carried = Carried { to_gate, ..WHOLE };
        assert_lost(&rt, rt.alloc(), carried, 1);
    }
}

#[test]
fn a_gate_that_is_opened_again_settles_its_last_touch(rt: HostRuntime) {
    let lost = Carried {
        to_gate: 21,
        ..WHOLE
    };
    let mut client = new_client(&rt, rt.alloc(), 3);
    let mut station = Script::new();
    let reply = asked(&rt, rt.alloc(), &mut client, &mut station, &ROWS[0], WHOLE);
    assert_same(&rt, reply, Ok(ROWS[0].reply));
    let none = asked(&rt, rt.alloc(), &mut client, &mut station, &ROWS[1], lost);
    assert_same(&rt, none, Err(TouchFault::Unsettled(NONE)));
    let mut client = opened_again(&rt, rt.alloc(), client);
    let reply = settled(&rt, rt.alloc(), &mut client, &mut station, WHOLE);
    assert_same(&rt, reply, Ok(ROWS[1].reply));
    assert_station(&rt, &station, 2, 1);
    let mut client = opened_again(&rt, rt.alloc(), client);
    let reply = settled(&rt, rt.alloc(), &mut client, &mut station, WHOLE);
    assert_same(&rt, reply, Ok(ROWS[1].reply));
    assert_station(&rt, &station, 2, 2);
    let reply = asked(&rt, rt.alloc(), &mut client, &mut station, &ROWS[2], WHOLE);
    assert_same(&rt, reply, Ok(ROWS[2].reply));
    assert_station(&rt, &station, 3, 2);
    drop(client);
    drop(station);
}

#[test]
fn a_touch_that_is_refused_waits_on(rt: HostRuntime) {
    for (fault, code) in [
        (FaultCode::Conflict, 2),
        (FaultCode::Halted, 3),
        (FaultCode::Memory, 4),
        (FaultCode::Full, 5),
        (FaultCode::UnknownTable, 6),
    ] {
        let mut client = new_client(&rt, rt.alloc(), 3);
        let mut station = Script {
            fault: Some(fault),
            ..Script::new()
        };
        let refused = NoReplyFault::Unheard(HearFault::Refused(code));
        let none = asked(&rt, rt.alloc(), &mut client, &mut station, &ROWS[0], WHOLE);
        assert_same(&rt, none, Err(TouchFault::Unsettled(refused)));
        assert_station(&rt, &station, 0, 0);
        station.fault = None;
        let reply = settled(&rt, rt.alloc(), &mut client, &mut station, WHOLE);
        assert_same(&rt, reply, Ok(ROWS[0].reply));
        assert_station(&rt, &station, 1, 0);
        drop(client);
        drop(station);
    }
}
