//! Frames that are written to an array, and answers that are heard from bytes.
use super::*;
use gate_session::REQUEST_SIZE;

/// What the touch that waits is answered by these bytes.
fn hear_in(
    rt: &impl Abort,
    client: &mut Client<MemoryDisk>,
    bytes: &[u8],
) -> Result<Reply, HearFault> {
    let waits = client.waiting().is_some();
    assert!(rt; waits);
    client.hear_in(bytes)
}

/// That the touch that waits is the row's, and that its frame is the row's.
fn assert_frame(rt: &impl Abort, client: &Client<MemoryDisk>, row: &Row) {
    let waits = client.waiting().is_some();
    assert!(rt; waits);
    let mut frame = [0; REQUEST_SIZE];
    let size = client.frame_into(&mut frame);
    let is = &frame[..size] == row.frame;
    assert_same_at(rt, is, true, row);
}

/// What the touch that waits is answered by as many of these bytes.
fn hear_of(
    rt: &impl Abort,
    client: &mut Client<MemoryDisk>,
    bytes: &[u8],
    size: usize,
) -> Result<Reply, HearFault> {
    match bytes.get(..size) {
        Some(front) => hear_in(rt, client, front),
        None => panic!(rt; "fewer bytes"),
    }
}

/// That of the row's answer nothing is heard where it is cut, and then the reply, with bytes behind
/// the answer or none.
fn assert_heard(rt: &impl Abort, client: &mut Client<MemoryDisk>, row: &Row, more: usize) {
    let mut bytes = [0xff; 30];
    for (to, from) in bytes.iter_mut().zip(row.answer.iter()) {
        *to = *from;
    }
    let size = row.answer.len();
    for cut in 0..size {
        let none = hear_of(rt, client, &bytes, cut);
        assert_same_at(rt, none, Err(HearFault::NoAnswer), row);
    }
    let reply = hear_of(rt, client, &bytes, size.saturating_add(more));
    assert_same_at(rt, reply, Ok(row.reply), row);
    assert_waits(rt, client, None);
}

#[test]
fn an_answer_that_is_there_whole_is_heard(rt: HostRuntime) {
    for more in [0, 1, 8] {
        let mut client = new_client(&rt, rt.alloc(), 3);
        for row in &ROWS {
            assert_ask(&rt, &mut client, row, Ok(()));
            assert_frame(&rt, &client, row);
            assert_heard(&rt, &mut client, row, more);
        }
        drop(client);
    }
}

#[test]
fn a_fault_that_is_there_whole_is_told(rt: HostRuntime) {
    let mut client = new_client(&rt, rt.alloc(), 3);
    assert_ask(&rt, &mut client, &ROWS[0], Ok(()));
    for (bytes, want) in [
        (
            b"\x00\x08\xff\x05\x00\x07\x00\x00\x00\x01",
            HearFault::Refused(5),
        ),
        (
            b"\x00\x08\xff\xff\x00\x07\x00\x00\x00\x01",
            HearFault::Refused(255),
        ),
        (
            b"\x00\x08\xff\x05\x00\x07\x00\x00\x00\x02",
            HearFault::Stray,
        ),
        (
            b"\x00\x08\xff\x05\x00\x06\x00\x00\x00\x01",
            HearFault::Stray,
        ),
        (
            b"\x00\x08\x85\x05\x00\x07\x00\x00\x00\x01",
            HearFault::NoAnswer,
        ),
    ] {
        let fault = hear_in(&rt, &mut client, bytes);
        assert_same_at(&rt, fault, Err(want), bytes);
        assert_waits(&rt, &client, Some(ROWS[0].touch));
    }
    drop(client);
}
