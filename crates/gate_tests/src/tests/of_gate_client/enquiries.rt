//! Enquiries: lines that ask for one, what is written and read, lines that fail, and what is
//! printed. The frames are those of PROTOCOL.md, "Requests and their answers".
use super::sending::{Script, assert_printed, line_of};
use super::*;
use gate_client::{EnquireFault, Holding, HoldingTold, TryFault, ask_after, enquire, enquired_by};
use oyster_account::{CardState, CardView};
use test_streams::{Pieces, Taker};

/// The enquiry of card 1.
const ENQUIRY: &[u8] = b"\x00\x05\x05\x00\x00\x00\x01";

/// Its answer: state 1, balance 1650, and four touches in the history.
const ANSWER: &[u8] = b"\x00\x0e\x85\x01\x00\x00\x00\x00\x00\x00\x06\x72\x00\x00\x00\x04";

/// What the answer says.
const HOLDING: Holding = Holding {
    view: CardView {
        state: CardState::Outside,
        balance: 1650,
    },
    front: 4,
};

/// A holding.
fn holding_by(state: CardState, balance: i64, front: u32) -> Holding {
    Holding {
        view: CardView { state, balance },
        front,
    }
}

#[test]
fn lines_ask_for_enquiries(rt: HostRuntime) {
    for (line, card) in [
        ("enquire 3", 3),
        ("enquire 0", 0),
        ("enquire 0007", 7),
        ("enquire 4294967295", 4_294_967_295),
    ] {
        assert_same_at(&rt, enquired_by(line), Some(card), &line);
    }
    for line in [
        "",
        "enquire",
        "enquire ",
        "enquire x",
        "enquire 3 ",
        " enquire 3",
        "enquire  3",
        "enquire +3",
        "enquire -3",
        "enquire 4294967296",
        "Enquire 3",
        "enquire 3 4",
        "issue 3",
        "at 5 enquire 3",
    ] {
        assert_same_at(&rt, enquired_by(line), None, &line);
    }
}

/// What comes of an enquiry of card 1 where this is read, and what was written then.
fn enquired(rt: &impl Abort, alloc: Global, answer: &[u8]) -> Result<Holding, TryFault> {
    let mut written = Vec::new(alloc);
    let mut giver = Pieces {
        rest: answer,
        size: 1,
        fails: false,
    };
    let found = enquire(1, &mut giver, &mut written);
    assert_same(rt, written.as_slice(), ENQUIRY);
    drop(written);
    drop(giver);
    found
}

#[test]
fn an_enquiry_is_answered_by_what_the_card_holds(rt: HostRuntime) {
    assert_same(&rt, enquired(&rt, rt.alloc(), ANSWER), Ok(HOLDING));
    for (state, balance, front, answer) in [
        (
            CardState::Vacant,
            0,
            0,
            b"\x00\x0e\x85\x00\x00\x00\x00\x00\x00\x00\x00\x00\x00\x00\x00\x00",
        ),
        (
            CardState::Inside,
            -1,
            4_294_967_295,
            b"\x00\x0e\x85\x02\xff\xff\xff\xff\xff\xff\xff\xff\xff\xff\xff\xff",
        ),
    ] {
        let want = Ok(holding_by(state, balance, front));
        assert_same(&rt, enquired(&rt, rt.alloc(), answer), want);
    }
}

#[test]
fn other_answers_are_no_holding(rt: HostRuntime) {
    let none = Err(TryFault::Unheard(HearFault::NoAnswer));
    for size in 0..ANSWER.len() {
        assert_same_at(&rt, enquired(&rt, rt.alloc(), &ANSWER[..size]), none, &size);
    }
    for answer in [
        // Another kind, another length, a state that is none, and the reply to a touch.
        b"\x00\x0e\x84\x01\x00\x00\x00\x00\x00\x00\x06\x72\x00\x00\x00\x04".as_slice(),
        b"\x00\x0f\x85\x01\x00\x00\x00\x00\x00\x00\x06\x72\x00\x00\x00\x04\x00",
        b"\x00\x0e\x85\x03\x00\x00\x00\x00\x00\x00\x06\x72\x00\x00\x00\x04",
        b"\x00\x15\x85\x01\x00\x00\x00\x00\x00\x00\x06\x72\x00\x00\x00\x04",
        ROWS[0].answer,
    ] {
        assert_same_at(&rt, enquired(&rt, rt.alloc(), answer), none, &answer);
    }
    let halted = b"\x00\x08\xff\x03\x00\x00\x00\x00\x00\x00";
    let refused = Err(TryFault::Unheard(HearFault::Refused(3)));
    assert_same(&rt, enquired(&rt, rt.alloc(), halted), refused);
    let of_a_touch = b"\x00\x08\xff\x03\x00\x07\x00\x00\x00\x01";
    let stray = Err(TryFault::Unheard(HearFault::Stray));
    assert_same(&rt, enquired(&rt, rt.alloc(), of_a_touch), stray);
}

#[test]
fn nothing_is_read_behind_a_cut_enquiry(rt: HostRuntime) {
    for left in 0..ENQUIRY.len() {
        let mut taker = Taker {
            taken: Vec::new(rt.alloc()),
            size: 1,
            left,
            fails: left % 2 == 0,
            holds: false,
        };
        let mut giver = Pieces {
            rest: ANSWER,
            size: 1,
            fails: false,
        };
        let found = enquire(1, &mut giver, &mut taker);
        assert_same_at(&rt, found, Err(TryFault::Cut), &left);
        assert_same_at(&rt, giver.rest, ANSWER, &left);
        assert_same_at(&rt, taker.taken.as_slice(), &ENQUIRY[..left], &left);
        drop(taker);
        drop(giver);
    }
}

/// What comes of asking after card 1 by lines with these answers, behind one with the first answer,
/// where there is one; how many lines were asked for, and how many faults were told.
fn asked_after<'a>(
    rt: &impl Abort,
    alloc: Global,
    first: Option<&'a [u8]>,
    answers: &'a [Option<&'a [u8]>],
    tries: u32,
) -> (Result<Holding, EnquireFault>, usize, usize) {
    let mut station = Script {
        alloc,
        answers,
        asked: 0,
        failed: 0,
    };
    let line = first.map(|answer| line_of(alloc, answer));
    let done = match ask_after(1, &mut station, line, tries) {
        Ok((holding, line)) => {
            assert_same(rt, line.writer.as_slice(), ENQUIRY);
            drop(line);
            Ok(holding)
        }
        Err(fault) => Err(fault),
    };
    (done, station.asked, station.failed)
}

#[test]
fn an_enquiry_goes_on_over_the_next_line(rt: HostRuntime) {
    let answers: [Option<&[u8]>; 4] = [None, Some(b""), Some(&ANSWER[..15]), Some(ANSWER)];
    let found = asked_after(&rt, rt.alloc(), None, &answers, 3);
    assert_same(&rt, found, (Err(EnquireFault::Tries(3)), 3, 3));
    let found = asked_after(&rt, rt.alloc(), None, &answers, 4);
    assert_same(&rt, found, (Ok(HOLDING), 4, 3));
    let found = asked_after(&rt, rt.alloc(), Some(ANSWER), &[], 1);
    assert_same(&rt, found, (Ok(HOLDING), 0, 0));
}

#[test]
fn only_what_is_not_allowed_ends_an_enquiry(rt: HostRuntime) {
    for code in 0..=8 {
        let fault = [0, 8, 0xff, code, 0, 0, 0, 0, 0, 0];
        let answers: [Option<&[u8]>; 2] = [Some(&fault), Some(ANSWER)];
        let found = asked_after(&rt, rt.alloc(), None, &answers, 2);
        let want = if code == 7 {
            (Err(EnquireFault::NotAllowed), 1, 0)
        } else {
            (Ok(HOLDING), 2, 1)
        };
        assert_same_at(&rt, found, want, &code);
    }
}

#[test]
fn faults_of_enquiries_print_their_names(rt: HostRuntime) {
    let alloc = rt.alloc();
    assert_printed(&rt, alloc, &EnquireFault::NotAllowed, "answer 7 NotAllowed");
    assert_printed(&rt, alloc, &EnquireFault::Tries(10), "tries 10");
}

#[test]
fn holdings_print_as_their_lines(rt: HostRuntime) {
    for (holding, want) in [
        (HOLDING, "7,,1,enquiry,,,outside,,1650"),
        (
            holding_by(CardState::Vacant, 0, 0),
            "7,,1,enquiry,,,vacant,,0",
        ),
        (
            holding_by(CardState::Inside, -90, 1),
            "7,,1,enquiry,,,inside,,-90",
        ),
    ] {
        let told = HoldingTold {
            gate: GATE,
            card: 1,
            holding,
        };
        assert_printed(&rt, rt.alloc(), &told, want);
    }
}
