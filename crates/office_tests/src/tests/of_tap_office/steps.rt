//! Offices that are worked through one step after the other.
ghost use Rattle.tap_office.specs.Name.{IsNameOf};
ghost use Rattle.tap_office.specs.Opening.{opened_of};

use super::*;
use std::fmt::Display;
use std::marker::Brand;
use std::sync::Wait;
use tap_office::{Desk, Filed, Named, Office, Receipt, Seat, SubmitRefusal};

/// How an office of two seats was worked through.
#[derive(Clone, Copy, Debug, PartialEq, Eq)]
pub struct Outcome {
    /// How many touches were found at the opening.
    pub opened: u32,
    /// The first step that wasn't answered as it was to be, counted from 0, and its answer.
    pub stray: Option<(u32, Answer)>,
    /// What a desk that learnt nothing answered of card 1 at the end, before the closing.
    pub asked: Option<Enquiry>,
    /// What it answered after the closing.
    pub asked_late: Option<Enquiry>,
    pub end: End,
}

/// The outcome of an office that found so many touches, answered each step as it was to be, and was
/// closed with so many entries. Card 1 is outside with this balance then.
pub fn worked(opened: u32, balance: i64, entries: u32) -> Outcome {
    Outcome {
        opened,
        stray: None,
        asked: outside(balance, entries),
        asked_late: None,
        end: End {
            cause: None,
            halted: false,
            entries,
        },
    }
}

/// Has a desk learn a receipt: it is answered of more entries than the touch's place.
pub fn learn<N: Named>(rt: &impl Abort, desk: &mut Desk<N>, receipt: Receipt<N>) -> Answer {
    let place = receipt.place;
    let answer = if receipt.fresh {
        Answer::First(place, receipt.reply)
    } else {
        Answer::Again(place, receipt.reply)
    };
    desk.learn(receipt);
    let enquiry = desk.enquire(1).expect(rt, "a desk had no answer");
    assert_that(rt, place < enquiry.front);
    answer
}

/// Has a desk learn what a touch was answered.
fn learn_answer<N: Named>(
    rt: &impl Abort,
    desk: &mut Desk<N>,
    answer: Result<Receipt<N>, SubmitRefusal<N>>,
) -> Answer {
    match answer {
        Ok(receipt) => learn(rt, desk, receipt),
        Err(refusal) => {
            let fault = refusal.fault;
            desk.learn_refusal(refusal);
            Answer::Fault(fault)
        }
    }
}

/// Submits a touch, and once more where memory was refused: it wasn't committed then. The desk
/// learns each answer.
fn submit_again<N: Named, R: Wait + Abort>(
    rt: &R,
    office: &Office<N, MemoryDisk>,
    seat: &mut Seat<N>,
    desk: &mut Desk<N>,
    touch: Touch,
) -> Answer {
    let answer = learn_answer(rt, desk, office.submit(rt, seat, touch));
    if answer == Answer::Fault(SubmitFault::Memory) {
        return learn_answer(rt, desk, office.submit(rt, seat, touch));
    }
    answer
}

/// A seat's last receipt is that of a new touch which was answered here.
fn assert_filed<N: Named>(rt: &impl Abort, seat: &Seat<N>, touch: Touch, answer: Answer) {
    if let Answer::First(place, reply) = answer {
        let filed = Filed {
            place,
            touch,
            reply,
        };
        assert_same(rt, seat.receipts().last().copied(), Some(filed));
    }
}

/// Submits the touches until one isn't answered as it is to be, and tells which. The desk learns
/// each answer.
fn submit_steps<N: Named, R: Wait + Abort>(
    rt: &R,
    office: &Office<N, MemoryDisk>,
    seats: &mut [Seat<N>],
    desk: &mut Desk<N>,
    steps: &[Step],
) -> Option<(u32, Answer)> {
    let mut row = 0u32;
    for step in steps {
        assert!(rt; step.seat < seats.len());
        let seat = &mut seats[step.seat];
        let before = seat.seen();
        let answer = submit_again(rt, office, seat, desk, step.touch);
        assert_same_at(rt, before <= seat.seen(), true, ("step", row));
        assert_filed(rt, seat, step.touch, answer);
        if answer != step.want {
            return Some((row, answer));
        }
        row = row.saturating_add(1);
    }
    None
}

/// The first desk, which is to learn answers.
fn learner_of<'a, N: Named>(rt: &impl Abort, desks: &'a mut [Desk<N>]) -> &'a mut Desk<N> {
    desks.first_mut().expect(rt, "no desk was made")
}

/// What the last desk is answered of card 1: it learns nothing.
fn asked_last<N: Named>(rt: &impl Abort, desks: &mut [Desk<N>]) -> Option<Enquiry> {
    desks.last_mut().expect(rt, "no desk was made").enquire(1)
}

/// Closes an office with as many of its seats as are not kept back, and against these desks. The
/// first answers no more.
fn close<N: Named, R: Wait + Abort>(
    rt: &R,
    office: Office<N, MemoryDisk>,
    seats: Vec<Seat<N>>,
    kept_back: usize,
    desks: &mut [Desk<N>],
) -> (End, MemoryDisk) {
    let mut seats = seats;
    for _ in 0..kept_back {
        let _kept = seats.pop();
    }
    let closed = office.close(rt, seats, desks);
    assert_same(rt, learner_of(rt, desks).enquire(1), None);
    end_of(closed)
}

/// Makes an office of two seats, submits the touches, asks for card 1, and closes with as many
/// seats as are not kept back. Gives the disk.
fn work_through<N: Named, R: Wait + Abort>(
    rt: &R,
    alloc: Global,
    opening: Opening<MemoryDisk>,
    steps: &[Step],
    kept_back: usize,
) -> Result<(Outcome, MemoryDisk), OpenFault<MemoryDisk>>
    requires { IsNameOf N.opened N.name N.parts N.commit_log N.table (opened_of opening) }
{
    let (office, mut seats, mut desks) = opening.office::<N, R>(rt, alloc)?;
    let learner = learner_of(rt, desks.as_mut_slice());
    let stray = submit_steps(rt, &office, seats.as_mut_slice(), learner, steps);
    let opened = office.opened();
    let asked = asked_last(rt, desks.as_mut_slice());
    let (end, disk) = close(rt, office, seats, kept_back, desks.as_mut_slice());
    let outcome = Outcome {
        opened,
        stray,
        asked,
        asked_late: asked_last(rt, desks.as_mut_slice()),
        end,
    };
    Ok((outcome, disk))
}

/// The same by a name of its own.
pub fn try_work<R: Wait + Abort>(
    rt: &R,
    alloc: Global,
    opening: Opening<MemoryDisk>,
    steps: &[Step],
    kept_back: usize,
) -> Result<(Outcome, MemoryDisk), OpenFault<MemoryDisk>> {
    work_through::<Brand, R>(rt, alloc, opening, steps, kept_back)
}

/// The same on a disk that is opened with these tables, where there is memory.
fn work_but<R: Wait + Abort>(
    rt: &R,
    alloc: Global,
    disk: MemoryDisk,
    given: Given,
    steps: &[Step],
    kept_back: usize,
) -> (Outcome, MemoryDisk) {
    let opening = read_with(rt, alloc, disk, given, CARDS, 2)
        .ok()
        .expect(rt, "the disk wasn't opened");
    try_work(rt, alloc, opening, steps, kept_back)
        .ok()
        .expect(rt, "no office was made")
}

/// The same with all seats at the closing.
pub fn work_with<R: Wait + Abort>(
    rt: &R,
    alloc: Global,
    disk: MemoryDisk,
    given: Given,
    steps: &[Step],
) -> (Outcome, MemoryDisk) {
    work_but(rt, alloc, disk, given, steps, 0)
}

/// The same with the example table alone.
pub fn work<R: Wait + Abort>(
    rt: &R,
    alloc: Global,
    disk: MemoryDisk,
    steps: &[Step],
) -> (Outcome, MemoryDisk) {
    work_with(rt, alloc, disk, Given::Example, steps)
}

/// The outcome alone.
pub fn outcome_of<R: Wait + Abort>(
    rt: &R,
    alloc: Global,
    disk: MemoryDisk,
    steps: &[Step],
) -> Outcome {
    work(rt, alloc, disk, steps).0
}

/// The touches of a gate to a journal of two, and their answers: it is full at the third.
pub fn full_steps() -> [Step; 4] {
    [
        from_first(ISSUE, Answer::First(0, REPLIES[0])),
        from_first(TOP_UP, Answer::First(1, REPLIES[1])),
        from_first(ENTER, Answer::Fault(SubmitFault::Full)),
        from_first(ISSUE, Answer::Again(0, REPLIES[0])),
    ]
}

#[test]
fn a_full_journal_still_answers_repeats(rt: HostRuntime) {
    let alloc = rt.alloc();
    let disk = disk_of(&rt, alloc, 2, &[]);
    let outcome = outcome_of(&rt, alloc, disk, &full_steps());
    assert_same(&rt, outcome, worked(0, 2000, 2));
}

#[test]
fn another_touch_under_a_used_number_is_a_conflict(rt: HostRuntime) {
    let alloc = rt.alloc();
    let disk = disk_of(&rt, alloc, 5, &[ISSUE, TOP_UP, ENTER]);
    let other = Touch {
        act: Act::Leave {
            station: 3,
            moment: 1_736_151_900,
        },
        ..LEAVE
    };
    let steps = [
        from_first(LEAVE, Answer::First(3, REPLIES[3])),
        from_first(other, Answer::Fault(SubmitFault::Conflict)),
        Step {
            seat: 1,
            touch: LEAVE,
            want: Answer::Again(3, REPLIES[3]),
        },
        from_first(TOP_UP, Answer::Again(1, REPLIES[1])),
    ];
    let outcome = outcome_of(&rt, alloc, disk, &steps);
    assert_same(&rt, outcome, worked(3, 1650, 4));
}

#[test]
fn a_repeat_after_closing_and_opening_gets_its_first_reply(rt: HostRuntime) {
    let alloc = rt.alloc();
    let disk = disk_of(&rt, alloc, 5, &[]);
    let steps = [
        from_first(ISSUE, Answer::First(0, REPLIES[0])),
        from_first(TOP_UP, Answer::First(1, REPLIES[1])),
        from_first(ENTER, Answer::First(2, REPLIES[2])),
        from_first(LEAVE, Answer::First(3, REPLIES[3])),
    ];
    let (outcome, disk) = work(&rt, alloc, disk, &steps);
    assert_same(&rt, outcome, worked(0, 1650, 4));
    let steps = [
        from_first(LEAVE, Answer::Again(3, REPLIES[3])),
        from_first(ENTER, Answer::Again(2, REPLIES[2])),
    ];
    let outcome = outcome_of(&rt, alloc, disk, &steps);
    assert_same(&rt, outcome, worked(4, 1650, 4));
}

#[test]
fn a_seat_that_is_missing_is_told(rt: HostRuntime) {
    let alloc = rt.alloc();
    let disk = disk_of(&rt, alloc, 5, &[]);
    let steps = [from_first(ISSUE, Answer::First(0, REPLIES[0]))];
    let (outcome, disk) = work_but(&rt, alloc, disk, Given::Example, &steps, 1);
    let end = End {
        cause: Some(CloseCause::SeatMissing),
        halted: false,
        entries: 1,
    };
    let want = Outcome {
        end,
        ..worked(0, 0, 1)
    };
    assert_same(&rt, outcome, want);
    let steps = [from_first(ISSUE, Answer::Again(0, REPLIES[0]))];
    let outcome = outcome_of(&rt, alloc, disk, &steps);
    assert_same(&rt, outcome, worked(1, 0, 1));
}

/// What is printed of a value is this text.
fn assert_printed(rt: &impl Abort, alloc: Global, value: &impl Display, text: &str) {
    let printed = format!(in alloc; "{value}").ok().expect(rt, "memory");
    assert_same(rt, printed.as_str(), text);
}

#[test]
fn a_fault_says_its_cause(rt: HostRuntime) {
    let alloc = rt.alloc();
    let rows = [
        (SubmitFault::Conflict, "the number stands for another touch"),
        (SubmitFault::Halted, "the office is halted"),
        (SubmitFault::Memory, "out of memory"),
        (SubmitFault::Full, "the journal is full"),
        (SubmitFault::UnknownTable, "the table is not supplied"),
    ];
    for (fault, text) in rows {
        assert_printed(&rt, alloc, &fault, text);
    }
    assert_printed(&rt, alloc, &CloseCause::SeatMissing, "a seat is missing");
}
