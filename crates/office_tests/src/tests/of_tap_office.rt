//! What no clause says of an office: replies in pence, each stopped and failed disk call with each
//! crash, each refused allocation, seats on threads, and that it answers at all.
mod crashes;
mod desks;
mod keepers;
mod memory;
mod migration;
mod openings;
mod orders;
mod revisions;
mod room;
mod rounds;
mod steps;
mod threads;
mod turns;

ghost use Rattle.std.specs.Prelude.{◌≡◌, [], IfSome};
ghost use Rattle.fare_schedule.specs.Schedule.{revisions_of};

use super::assert_same;
use fare_schedule::Schedule;
use fare_table::{EXAMPLE_TABLE, Fares};
use oyster_account::{Act, CardState, CardView, Reply, Touch};
use reply_book::{Book, NameHashing};
use std::alloc::Global;
use std::fmt::Debug;
use std::process::Abort;
use tap_desk::Enquiry;
use tap_disk::{Choice, MemoryDisk};
use tap_journal::{Journal, OpenFault};
use tap_office::{CloseCause, CloseFault, Closed, Opening, SubmitFault};

/// These are equal, in this case.
fn assert_same_at<T: PartialEq + Debug + Copy, C: Debug + Copy>(
    rt: &impl Abort,
    found: T,
    want: T,
    at: C,
) {
    assert_eq!(rt; found, want, "{at:?}");
}

/// This holds.
fn assert_that(rt: &impl Abort, holds: bool) {
    assert!(rt; holds);
}

/// How many cards each office of these tests has.
const CARDS: u32 = 10;

/// Card 1 is issued, at 07:50 on Monday, 6 January 2025.
const ISSUE: Touch = Touch {
    gate: 7,
    number: 1,
    card: 1,
    act: Act::Issue {
        moment: 1_736_149_800,
    },
};

/// It is topped up by 20 pounds, at 07:55.
const TOP_UP: Touch = Touch {
    gate: 7,
    number: 2,
    card: 1,
    act: Act::TopUp {
        pence: 2000,
        moment: 1_736_150_100,
    },
};

/// It is touched in at station 2, at 08:00.
const ENTER: Touch = Touch {
    gate: 7,
    number: 3,
    card: 1,
    act: Act::Enter {
        station: 2,
        moment: 1_736_150_400,
    },
};

/// It is touched out at station 1, at 08:25.
const LEAVE: Touch = Touch {
    gate: 7,
    number: 4,
    card: 1,
    act: Act::Leave {
        station: 1,
        moment: 1_736_151_900,
    },
};

/// A gate's top-up of card 1, at 07:55.
const fn top_up(gate: u16, number: u32, pence: u32) -> Touch {
    Touch {
        gate,
        number,
        card: 1,
        act: Act::TopUp {
            pence,
            moment: 1_736_150_100,
        },
    }
}

/// The replies to the four, by PROTOCOL.md.
const REPLIES: [Reply; 4] = [
    Reply {
        verdict: 8,
        change: 0,
        balance: 0,
    },
    Reply {
        verdict: 7,
        change: 2000,
        balance: 2000,
    },
    Reply {
        verdict: 1,
        change: -900,
        balance: 1100,
    },
    Reply {
        verdict: 4,
        change: 550,
        balance: 1650,
    },
];

/// The choices of a crash that each row tries.
const CHOICES: [Choice; 4] = [Choice::Old, Choice::New, Choice::Torn(0), Choice::Torn(165)];

/// The example table.
fn table(alloc: Global) -> Option<Fares> {
    Fares::read(alloc, EXAMPLE_TABLE).ok()
}

/// Which tables an office is opened with.
#[derive(Clone, Copy, Debug, PartialEq, Eq)]
enum Given {
    /// The example table alone.
    Example,
    /// The example table, and the revised one supplied.
    Revised,
}

/// A schedule of these tables, without a revision.
fn schedule(alloc: Global, given: Given) -> Option<Schedule>
    ensures { IfSome result (λ schedule. revisions_of schedule ≡ []) }
{
    let Ok(mut schedule) = Schedule::new(alloc, table(alloc)?) else {
        return None;
    };
    if given == Given::Example {
        return Some(schedule);
    }
    match schedule.supply(revisions::table(alloc)?) {
        Ok(()) => Some(schedule),
        Err(_) => None,
    }
}

/// A journal of no touches.
fn new_journal(alloc: Global, capacity: u32) -> Option<Journal<MemoryDisk>> {
    let digest = table(alloc)?.digest();
    let disk = MemoryDisk::new(alloc).ok()?;
    Journal::create(disk, capacity, CARDS, &digest).ok()
}

/// A disk with a journal of these touches, on which no call was counted.
fn journal_of(alloc: Global, capacity: u32, touches: &[Touch]) -> Option<MemoryDisk> {
    let mut journal = new_journal(alloc, capacity)?;
    for touch in touches {
        journal.append(touch).ok()?;
    }
    journal.close().crash(Choice::New).ok()
}

/// The same where there is memory.
fn disk_of(rt: &impl Abort, alloc: Global, capacity: u32, touches: &[Touch]) -> MemoryDisk {
    journal_of(alloc, capacity, touches).expect(rt, "no journal was made")
}

/// What such a crash leaves of a disk.
fn crashed(rt: &impl Abort, disk: &MemoryDisk, choice: Choice) -> MemoryDisk {
    disk.crash(choice).ok().expect(rt, "no disk was left")
}

/// An opening of the disk, or why there is none.
type Read = Result<Opening<MemoryDisk>, OpenFault<MemoryDisk>>;

/// Reads the disk, by these tables.
fn read_with(
    rt: &impl Abort,
    alloc: Global,
    disk: MemoryDisk,
    given: Given,
    cards: u32,
    seats: u16,
) -> Read {
    let schedule = schedule(alloc, given).expect(rt, "the tables weren't read");
    Opening::read(alloc, NameHashing::fixed(), disk, schedule, cards, seats)
}

/// Reads the disk, by the example table.
fn read(rt: &impl Abort, alloc: Global, disk: MemoryDisk, cards: u32, seats: u16) -> Read {
    read_with(rt, alloc, disk, Given::Example, cards, seats)
}

/// How an office ended.
#[derive(Clone, Copy, Debug, PartialEq, Eq)]
struct End {
    /// Why it wasn't closed.
    cause: Option<CloseCause>,
    halted: bool,
    /// How many entries its book has.
    entries: u32,
}

/// The end of an office with this book.
fn end_with(cause: Option<CloseCause>, halted: bool, book: Book) -> End {
    End {
        cause,
        halted,
        entries: book.len(),
    }
}

/// How an office ended that was closed like this, and its disk.
fn end_of(closed: Result<Closed<MemoryDisk>, CloseFault<MemoryDisk>>) -> (End, MemoryDisk) {
    match closed {
        Ok(closed) => (end_with(None, closed.halted, closed.book), closed.disk),
        Err(fault) => {
            let cause = Some(fault.cause);
            (end_with(cause, fault.halted, fault.book), fault.disk)
        }
    }
}

/// What a touch is answered.
#[derive(Clone, Copy, Debug, PartialEq, Eq)]
enum Answer {
    /// It is new, with this place and reply.
    First(u32, Reply),
    /// It is a repeat, with its place and first reply.
    Again(u32, Reply),
    /// It is refused.
    Fault(SubmitFault),
}

/// A touch from a seat, and what it is to be answered.
#[derive(Clone, Copy)]
struct Step {
    seat: usize,
    touch: Touch,
    want: Answer,
}

/// The step of a touch from the first seat.
const fn from_first(touch: Touch, want: Answer) -> Step {
    Step {
        seat: 0,
        touch,
        want,
    }
}

/// What is seen of card 1 outside with this balance, and how many entries there are.
const fn outside(balance: i64, front: u32) -> Option<Enquiry> {
    Some(Enquiry {
        view: CardView {
            state: CardState::Outside,
            balance,
        },
        front,
    })
}
