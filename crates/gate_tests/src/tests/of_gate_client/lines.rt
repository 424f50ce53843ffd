//! Touches that are sent, and answers that are read, over lines that fail.
use super::*;
use gate_client::LineFault;
use std::io::{Read, Write};
use test_streams::{Pieces, Taker};

/// A client that was asked for the row's touch, as after an opening: it waits.
fn asked(rt: &impl Abort, alloc: Global) -> Client<MemoryDisk> {
    open(rt, alloc, holding(rt, alloc, &FILE))
}

/// What comes of the sending of the touch that waits.
fn send<W: Write>(
    rt: &impl Abort,
    client: &Client<MemoryDisk>,
    writer: &mut W,
) -> Result<(), LineFault> {
    let waits = client.waiting().is_some();
    assert!(rt; waits);
    client.send(writer)
}

/// That so much of the frame of the first row is written to a line that takes no more, and the
/// touch waits on.
fn assert_cut(
    rt: &impl Abort,
    alloc: Global,
    client: &Client<MemoryDisk>,
    left: usize,
    fails: bool,
) {
    let frame = ROWS[0].frame;
    let mut taker = Taker {
        taken: Vec::new(alloc),
        size: 1,
        left,
        fails,
        holds: false,
    };
    let want = if left < frame.len() {
        Err(LineFault)
    } else {
        Ok(())
    };
    assert_same_at(rt, send(rt, client, &mut taker), want, &left);
    assert_same_at(
        rt,
        Some(taker.taken.as_slice()),
        frame.get(..left.min(frame.len())),
        &left,
    );
    assert_waits(rt, client, Some(ROWS[0].touch));
    drop(taker);
}

#[test]
fn a_line_that_fails_has_a_beginning_of_the_frame(rt: HostRuntime) {
    let client = asked(&rt, rt.alloc());
    for left in 0..=18 {
        assert_cut(&rt, rt.alloc(), &client, left, left % 2 == 0);
    }
    drop(client);
}

/// That the frame of the row's touch is written, in one write.
fn assert_sent(rt: &impl Abort, alloc: Global, row: &Row) {
    let mut client = new_client(rt, alloc, 3);
    for earlier in ROWS
        .iter()
        .take(row.touch.number.saturating_sub(1) as usize)
    {
        assert_ask(rt, &mut client, earlier, Ok(()));
        assert_answered(rt, &mut client, earlier);
    }
    assert_ask(rt, &mut client, row, Ok(()));
    let mut written = Vec::new(alloc);
    assert_same(rt, send(rt, &client, &mut written), Ok(()));
    assert_same(rt, written.as_slice(), row.frame);
    drop(written);
    drop(client);
}

#[test]
fn a_touch_is_sent_as_its_frame(rt: HostRuntime) {
    for row in &ROWS {
        assert_sent(&rt, rt.alloc(), row);
    }
}

/// What comes of an answer that is read byte by byte.
fn heard<R: Read>(
    rt: &impl Abort,
    client: &mut Client<MemoryDisk>,
    reader: &mut R,
) -> Result<Reply, HearFault> {
    let waits = client.waiting().is_some();
    assert!(rt; waits);
    client.hear(reader)
}

/// That an answer which ends or fails after so many bytes is none, and the touch waits on.
fn assert_short(rt: &impl Abort, client: &mut Client<MemoryDisk>, size: usize, fails: bool) {
    let mut giver = Pieces {
        rest: ROWS[0].answer.get(..size).unwrap_or(&[]),
        size: 1,
        fails,
    };
    assert_same_at(
        rt,
        heard(rt, client, &mut giver),
        Err(HearFault::NoAnswer),
        &size,
    );
    assert_waits(rt, client, Some(ROWS[0].touch));
    drop(giver);
}

#[test]
fn an_answer_that_is_cut_is_none(rt: HostRuntime) {
    let mut client = asked(&rt, rt.alloc());
    for size in 0..22 {
        assert_short(&rt, &mut client, size, size % 2 == 0);
    }
    let mut giver = Pieces {
        rest: ROWS[0].answer,
        size: 1,
        fails: true,
    };
    assert_same(&rt, heard(&rt, &mut client, &mut giver), Ok(ROWS[0].reply));
    assert_waits(&rt, &client, None);
    drop(giver);
    drop(client);
}

/// Answers that are no reply to the first row's touch, and what is told of each.
const ANSWERS: [(&[u8], HearFault); 12] = [
    // Another number, another gate.
    (
        b"\x00\x14\x81\x00\x07\x00\x00\x00\x02\x07\x00\x00\x07\xd0\x00\x00\x00\x00\x00\x00\x07\xd0",
        HearFault::Stray,
    ),
    (
        b"\x00\x14\x81\x00\x08\x00\x00\x00\x01\x08\x00\x00\x00\x00\x00\x00\x00\x00\x00\x00\x00\x00",
        HearFault::Stray,
    ),
    // Faults of the touch.
    (
        b"\x00\x08\xff\x02\x00\x07\x00\x00\x00\x01",
        HearFault::Refused(2),
    ),
    (
        b"\x00\x08\xff\x05\x00\x07\x00\x00\x00\x01",
        HearFault::Refused(5),
    ),
    (
        b"\x00\x08\xff\xff\x00\x07\x00\x00\x00\x01",
        HearFault::Refused(255),
    ),
    // Faults of another touch, and of bytes that are no request.
    (
        b"\x00\x08\xff\x02\x00\x07\x00\x00\x00\x02",
        HearFault::Stray,
    ),
    (
        b"\x00\x08\xff\x01\x00\x00\x00\x00\x00\x00",
        HearFault::Stray,
    ),
    // What a card holds.
    (
        b"\x00\x0e\x85\x01\x00\x00\x00\x00\x00\x00\x06\x72\x00\x00\x00\x04",
        HearFault::NoAnswer,
    ),
    // Another kind, another length, and lengths of none.
    (
        b"\x00\x14\x82\x00\x07\x00\x00\x00\x01\x08\x00\x00\x00\x00\x00\x00\x00\x00\x00\x00\x00\x00",
        HearFault::NoAnswer,
    ),
    (
        b"\x00\x15\x81\x00\x07\x00\x00\x00\x01\x08\x00\x00\x00\x00\x00\x00\x00\x00\x00\
            \x00\x00\x00\x00",
        HearFault::NoAnswer,
    ),
    (b"\x00\x00", HearFault::NoAnswer),
    (b"\xff\xff\x81", HearFault::NoAnswer),
];

#[test]
fn what_is_no_reply_to_the_touch_is_told(rt: HostRuntime) {
    let mut client = asked(&rt, rt.alloc());
    for (answer, want) in &ANSWERS {
        assert_same_at(&rt, hear(&rt, &mut client, answer), Err(*want), answer);
        assert_waits(&rt, &client, Some(ROWS[0].touch));
    }
    assert_answered(&rt, &mut client, &ROWS[0]);
    drop(client);
}
