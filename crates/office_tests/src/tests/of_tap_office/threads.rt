//! Seats on threads of their own.
ghost use Rattle.std.specs.Prelude.{◌<◌, length};
ghost use Rattle.std.specs.Thread.{IsSync};
ghost use Rattle.tap_office.specs.Name.{IsNameOf};
ghost use Rattle.tap_office.specs.Opening.{opened_of};

use super::*;
use std::marker::Brand;
use std::sync::Wait;
use std::thread;
use std::thread::Threads;
use tap_office::{Desk, Named, Office, Seat};

/// A gate with its seat and desk, and how many of its touches were answered.
#[derive(Drop)]
struct Gate<N: Named> {
    number: u16,
    seat: Seat<N>,
    desk: Desk<N>,
    /// Whether the desk learns the receipts.
    learns: bool,
    answered: u32,
}

/// Submits three top-ups from one gate.
fn submit_three<N: Named, R: Wait>(rt: &R, office: &Office<N, MemoryDisk>, gate: &mut Gate<N>) {
    for number in [1, 2, 3] {
        let touch = top_up(gate.number, number, 100);
        if let Ok(receipt) = office.submit(rt, &mut gate.seat, touch) {
            gate.answered = gate.answered.saturating_add(1);
            if gate.learns {
                gate.desk.learn(receipt);
            }
        }
    }
}

/// Submits three top-ups from each gate, each in a thread of its own where one can be made.
fn submit_all<N: Named + Send + Sync, R: Threads + Wait + Sync>(
    rt: &R,
    office: &Office<N, MemoryDisk>,
    gates: &mut [Gate<N>],
)
    requires { 0 < length gates.old }
{
    let threads = gates.len();
    thread::for_each_mut(
        rt,
        gates,
        threads,
        &|_, gate: &mut Gate<N>|
            requires { IsSync R.row }
        { submit_three(rt, office, gate) },
    );
}

/// The gates 1 and 2, of which the first learns its receipts.
fn make_gates<N: Named>(
    rt: &impl Abort,
    alloc: Global,
    seats: Vec<Seat<N>>,
    desks: Vec<Desk<N>>,
) -> Vec<Gate<N>> {
    let mut gates = Vec::new(alloc);
    let mut desks = desks;
    let mut number: u16 = 0;
    for seat in seats {
        number = number.saturating_add(1);
        let gate = Gate {
            number,
            seat,
            desk: desks.pop().expect(rt, "a desk is missing"),
            learns: number == 1,
            answered: 0,
        };
        gates.push(gate).ok().expect(rt, "memory");
    }
    gates
}

/// A gate has a receipt for each of its three top-ups, whose places it adds to these, and its desk
/// answers of all that its seat has seen.
fn take_places<N: Named, R: Abort>(
    rt: &R,
    gate: &mut Gate<N>,
    places: &mut Vec<u32>,
) -> Option<Enquiry> {
    assert_same(rt, gate.answered, 3);
    assert_same(rt, gate.seat.receipts().len(), 3);
    let mut submitted = 1;
    for filed in gate.seat.receipts() {
        assert_same(rt, filed.touch, top_up(gate.number, submitted, 100));
        submitted = submitted.saturating_add(1);
        places.push(filed.place).ok().expect(rt, "memory");
    }
    let answer = gate.desk.enquire(1).expect(rt, "a desk had no answer");
    assert_that(rt, gate.seat.seen() <= answer.front);
    Some(answer)
}

/// The gates' touches have the places 1 to 6. It tells what the last gate's desk answered.
fn take_all<N: Named, R: Abort>(rt: &R, alloc: Global, gates: &mut [Gate<N>]) -> Option<Enquiry> {
    let mut places = Vec::new(alloc);
    let mut asked = None;
    for gate in gates {
        asked = take_places(rt, gate, &mut places);
    }
    for place in [1, 2, 3, 4, 5, 6] {
        assert_same(rt, places.iter().filter(|p| **p == place).count(), 1);
    }
    asked
}

/// The gates' seats and desks.
fn left_by<N: Named>(
    rt: &impl Abort,
    alloc: Global,
    gates: Vec<Gate<N>>,
) -> (Vec<Seat<N>>, Vec<Desk<N>>) {
    let mut seats = Vec::new(alloc);
    let mut desks = Vec::new(alloc);
    for gate in gates {
        seats.push(gate.seat).ok().expect(rt, "memory");
        desks.push(gate.desk).ok().expect(rt, "memory");
    }
    (seats, desks)
}

/// What came of an office for two gates.
#[derive(Clone, Copy, Debug, PartialEq, Eq)]
struct Shared {
    /// How many touches were found at the opening.
    opened: u32,
    /// What the desk that learnt nothing answered of card 1, before the closing.
    asked: Option<Enquiry>,
    halted: bool,
    /// How many entries the book has.
    entries: u32,
    /// The seat of the first.
    first_seat: Option<u16>,
}

/// None of the desks answers any more.
fn assert_silent<N: Named>(rt: &impl Abort, desks: Vec<Desk<N>>) {
    for mut desk in desks {
        assert_same(rt, desk.enquire(1), None);
    }
}

/// Closes the office against the gates' seats.
fn close_gates<N: Named, R: Wait + Abort>(
    rt: &R,
    alloc: Global,
    office: Office<N, MemoryDisk>,
    gates: Vec<Gate<N>>,
) -> Closed<MemoryDisk> {
    let (seats, desks) = left_by(rt, alloc, gates);
    let closed = office
        .close(rt, seats, &desks)
        .ok()
        .expect(rt, "the office wasn't closed");
    assert_silent(rt, desks);
    closed
}

/// Makes an office for two gates that submit three top-ups each side by side, and closes it.
fn two_gates<N: Named + Send + Sync, R: Threads + Wait + Sync + Abort>(
    rt: &R,
    alloc: Global,
    opening: Opening<MemoryDisk>,
) -> Shared
    requires { IsNameOf N.opened N.name N.parts N.commit_log N.table (opened_of opening) }
{
    let (office, seats, desks) = opening
        .office::<N, R>(rt, alloc)
        .ok()
        .expect(rt, "no office was made");
    let mut gates = make_gates(rt, alloc, seats, desks);
    assert!(rt; !gates.is_empty());
    submit_all(rt, &office, gates.as_mut_slice());
    let asked = take_all(rt, alloc, gates.as_mut_slice());
    let opened = office.opened();
    let closed = close_gates(rt, alloc, office, gates);
    Shared {
        opened,
        asked,
        halted: closed.halted,
        entries: closed.book.len(),
        first_seat: closed.book.entry(0).map(|entry| entry.seat),
    }
}

#[test]
fn two_seats_on_two_threads_share_one_book(rt: HostRuntime) {
    let alloc = rt.alloc();
    let opening = read(&rt, alloc, disk_of(&rt, alloc, 10, &[ISSUE]), CARDS, 2)
        .ok()
        .expect(&rt, "the disk wasn't opened");
    let want = Shared {
        opened: 1,
        asked: outside(600, 7),
        halted: false,
        entries: 7,
        first_seat: Some(0),
    };
    let shared = two_gates::<Brand, HostRuntime>(&rt, alloc, opening);
    assert_same(&rt, shared, want);
}
