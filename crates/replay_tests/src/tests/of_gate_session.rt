//! Frames worked out by hand, and a feed that is given them in pieces.

mod fakes;
mod sessions;
mod vectors;

use super::{assert_same, assert_same_at};
use gate_session::{Answer, FaultCode, Feed, FirstFrame, Request, Step, first_frame};
use oyster_account::{CardState, CardView, Reply};
use std::alloc::{AllocError, Global};
use std::process::Abort;
use std::test::Fail;
use vectors::{ANSWERS, BAD_FRAME, FRAMES, requests};

/// The reply to touch number 5 of gate 7: in, change -900, balance -710.
const BELOW_ZERO: &[u8] =
    b"\x00\x14\x81\x00\x07\x00\x00\x00\x05\x01\xff\xff\xfc\x7c\xff\xff\xff\xff\xff\xff\xfd\x3a";

/// What is told after four entries of a card that wasn't issued, and of one inside with 1100 pence.
const VACANT: &[u8] = b"\x00\x0e\x85\x00\x00\x00\x00\x00\x00\x00\x00\x00\x00\x00\x00\x04";

const INSIDE: &[u8] = b"\x00\x0e\x85\x02\x00\x00\x00\x00\x00\x00\x04\x4c\x00\x00\x00\x04";

/// These bytes, one behind the other.
fn joined(alloc: Global, parts: &[&[u8]]) -> Result<Vec<u8>, AllocError> {
    let mut bytes = Vec::new(alloc);
    for part in parts {
        bytes.extend_from_slice(part)?;
    }
    Ok(bytes)
}

#[test]
fn a_beginning_wants_more_and_a_frame_is_its_request(rt: HostRuntime) -> Result<(), Fail> {
    let requests = requests();
    for (frame, request) in FRAMES.iter().zip(&requests) {
        let mut feed = Feed::new(rt.alloc());
        for byte in frame.iter() {
            assert_same(&rt, feed.next(), Step::More);
            feed.push(&[*byte])?;
        }
        assert_same(&rt, feed.next(), Step::Request(*request));
        assert_same(&rt, feed.next(), Step::More);
        assert_same(&rt, Request::read(frame), Some((*request, frame.len())));
        assert_same(&rt, Request::read_whole(frame), Some(*request));
        let whole = FirstFrame::Whole(*request, frame.len());
        assert_same(&rt, first_frame(frame), whole);
    }
    Ok(())
}

#[test]
fn bytes_that_begin_no_request_are_bad_from_then_on(rt: HostRuntime) -> Result<(), Fail> {
    let cases: [(&[u8], Step); 17] = [
        (b"", Step::More),
        (b"\x00", Step::More),
        (b"\x01", Step::Bad),
        (b"\x00\x00", Step::Bad),
        (b"\xff\xff", Step::Bad),
        (b"\x00\x11", Step::More),
        (b"\x00\x12", Step::Bad),
        (b"\x00\x11\x02", Step::More),
        (b"\x00\x11\x06", Step::Bad),
        (b"\x00\x11\x04", Step::Bad),
        (b"\x00\x0f\x05", Step::Bad),
        (b"\x00\x14\x81", Step::Bad),
        (b"\x00\x33", Step::More),
        (b"\x00\x32", Step::Bad),
        (b"\x00\x33\x06", Step::More),
        (b"\x00\x33\x03", Step::Bad),
        (b"\x00\x33\x07", Step::Bad),
    ];
    for (bytes, want) in cases {
        let mut feed = Feed::new(rt.alloc());
        feed.push(bytes)?;
        assert_same_at(&rt, feed.next(), want, bytes);
        if want == Step::Bad {
            feed.push(FRAMES[0])?;
            assert_same_at(&rt, feed.next(), Step::Bad, bytes);
        }
    }
    Ok(())
}

/// Takes requests while there are any, and answers the place of the next in `want`.
fn take_all(rt: &impl Abort, feed: &mut Feed, want: &[Request], place: usize) -> usize {
    let mut place = place;
    for _ in 0..want.len() {
        let Step::Request(request) = feed.next() else {
            return place;
        };
        assert_same(rt, want.get(place).copied(), Some(request));
        place = place.saturating_add(1);
    }
    place
}

#[test]
fn a_stream_cut_anywhere_has_the_same_requests(rt: HostRuntime) -> Result<(), Fail> {
    let want = requests();
    let stream = joined(rt.alloc(), &FRAMES)?;
    assert_eq!(rt; stream.len(), 136);
    for cut in 0..=136usize {
        let (first, second) = stream.split_at(cut);
        let mut feed = Feed::new(rt.alloc());
        feed.push(first)?;
        let taken = take_all(&rt, &mut feed, &want, 0);
        feed.push(second)?;
        let taken = take_all(&rt, &mut feed, &want, taken);
        assert_same_at(&rt, (taken, feed.next()), (6, Step::More), cut);
    }
    Ok(())
}

#[test]
fn bytes_behind_a_frame_are_left(rt: HostRuntime) {
    let bytes = b"\x00\x05\x05\x00\x00\x00\x01\x00";
    assert_same(&rt, Request::read(bytes), Some((Request::Enquire(1), 7)));
    assert_same(&rt, Request::read_whole(bytes), None);
    let longer = b"\x00\x06\x05\x00\x00\x00\x01\x00";
    assert_same(&rt, Request::read(longer), None);
}

/// Faults, each with the gate and the number of its touch.
const FAULTS: [(FaultCode, u16, u32, &[u8]); 8] = [
    (FaultCode::BadFrame, 0, 0, BAD_FRAME),
    (
        FaultCode::Conflict,
        7,
        4,
        b"\x00\x08\xff\x02\x00\x07\x00\x00\x00\x04",
    ),
    (
        FaultCode::Halted,
        7,
        4,
        b"\x00\x08\xff\x03\x00\x07\x00\x00\x00\x04",
    ),
    (
        FaultCode::Memory,
        7,
        4,
        b"\x00\x08\xff\x04\x00\x07\x00\x00\x00\x04",
    ),
    (
        FaultCode::Full,
        7,
        3,
        b"\x00\x08\xff\x05\x00\x07\x00\x00\x00\x03",
    ),
    (
        FaultCode::UnknownTable,
        7,
        6,
        b"\x00\x08\xff\x06\x00\x07\x00\x00\x00\x06",
    ),
    (
        FaultCode::NotAllowed,
        7,
        4,
        b"\x00\x08\xff\x07\x00\x07\x00\x00\x00\x04",
    ),
    (
        FaultCode::NotAllowed,
        0,
        0,
        b"\x00\x08\xff\x07\x00\x00\x00\x00\x00\x00",
    ),
];

/// The answer has these bytes, which begin no request.
fn assert_answer(rt: &impl Abort, answer: Answer, bytes: &[u8]) {
    let mut out = [0; 22];
    let size = answer.write_into(&mut out);
    assert_same_at(rt, out.get(..size), Some(bytes), answer);
    assert_same(rt, first_frame(bytes), FirstFrame::Bad);
}

#[test]
fn answers_are_these_bytes(rt: HostRuntime) {
    // Replies: the number, the verdict, the change and the balance.
    let replies = [
        (1, 8, 0, 0, ANSWERS[0]),
        (2, 7, 2000, 2000, ANSWERS[1]),
        (3, 1, -900, 1100, ANSWERS[2]),
        (4, 4, 550, 1650, ANSWERS[3]),
        (5, 1, -900, -710, BELOW_ZERO),
    ];
    for (number, verdict, change, balance, bytes) in replies {
        let reply = Reply {
            verdict,
            change,
            balance,
        };
        let answer = Answer::Reply {
            gate: 7,
            number,
            reply,
        };
        assert_answer(&rt, answer, bytes);
    }
    // What cards hold: the state and the balance.
    let holdings = [
        (CardState::Outside, 1650, ANSWERS[4]),
        (CardState::Vacant, 0, VACANT),
        (CardState::Inside, 1100, INSIDE),
    ];
    for (state, balance, bytes) in holdings {
        let view = CardView { state, balance };
        assert_answer(&rt, Answer::Holding { view, front: 4 }, bytes);
    }
    for (fault, gate, number, bytes) in FAULTS {
        let answer = Answer::Fault {
            code: fault.code(),
            gate,
            number,
        };
        assert_answer(&rt, answer, bytes);
    }
}
