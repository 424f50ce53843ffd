//! Gates that commit side by side on a disk that they wait for: they take turns.
ghost use Rattle.std.specs.Prelude.{◌<◌, length};
ghost use Rattle.std.specs.Thread.{IsSync};
ghost use Rattle.tap_office.specs.Name.{IsNameOf};
ghost use Rattle.tap_office.specs.Opening.{opened_of};

use super::openings::opening_calls;
use super::*;
use libc::types::timespec;
use std::marker::Brand;
use std::sync::Wait;
use std::thread;
use std::thread::Threads;
use tap_disk::{Device, Disk, SystemError};
use tap_office::{Named, Office, Seat};

/// How many gates commit side by side.
const GATES: u16 = 4;

/// How many touches each of them commits.
const EACH: u32 = 12;

/// How long a sync takes, in nanoseconds.
const PAUSE: i64 = 5_000_000;

/// A disk on which a sync takes as long as on one that turns.
struct PausedDisk<D: Disk> {
    disk: D,
}

/// By hand, so that it is one call wherever one is dropped.
impl<D: Disk> Drop for PausedDisk<D> {
    fn drop(self) {
        let PausedDisk { disk: _ } = self;
    }
}

impl<D: Disk> Disk for PausedDisk<D> {
    ghost content = { λ paused. D.content paused.disk };

    ghost outcome = { λ paused. D.outcome paused.disk };

    ghost moment = { λ paused. D.moment paused.disk };

    ghost outcome_since = { λ paused. D.outcome_since paused.disk };

    ghost failed_calls = { λ paused. D.failed_calls paused.disk };

    ghost first_said = { λ paused. D.first_said paused.disk };

    ghost honest = { λ paused. D.honest paused.disk };

    ghost content_is_outcome = { λ paused. D.content_is_outcome paused.disk };

    ghost counts_now = { λ paused. D.counts_now paused.disk };

    ghost only_now = { λ paused. D.only_now paused.disk };

    fn read(&mut self, at: u64, into: &mut [u8]) -> Result<usize, Device> {
        self.disk.read(at, into)
    }

    fn write_at(&mut self, at: u64, from: &[u8]) -> Result<(), Device> {
        self.disk.write_at(at, from)
    }

    fn sync(&mut self) -> Result<(), Device> {
        pause();
        self.disk.sync()
    }

    fn len(&mut self) -> Result<u64, Device> {
        self.disk.len()
    }

    fn error(&self) -> Option<SystemError> {
        self.disk.error()
    }

    fn failures(&self) -> u64 {
        self.disk.failures()
    }
}

/// Waits as long as a sync of a slow disk takes.
fn pause() {
    let asked = timespec {
        tv_sec: 0,
        tv_nsec: PAUSE,
    };
    let mut left = timespec {
        tv_sec: 0,
        tv_nsec: 0,
    };
    libc::nanosleep(&asked, &mut left);
}

/// An office that gates on threads of their own have.
type Shared<N> = Office<N, PausedDisk<MemoryDisk>>;

/// A gate with its seat, and how many of its touches were answered.
#[derive(Drop)]
struct Gate<N: Named> {
    number: u16,
    seat: Seat<N>,
    answered: u32,
}

/// The gates of these seats, numbered from 1.
fn make_gates<N: Named>(rt: &impl Abort, alloc: Global, seats: Vec<Seat<N>>) -> Vec<Gate<N>> {
    let mut gates = Vec::new(alloc);
    let mut number: u16 = 0;
    for seat in seats {
        number = number.saturating_add(1);
        let gate = Gate {
            number,
            seat,
            answered: 0,
        };
        gates.push(gate).ok().expect(rt, "memory");
    }
    gates
}

/// Submits a gate's touches, one after the other.
fn submit_each<N: Named, R: Wait>(rt: &R, office: &Shared<N>, gate: &mut Gate<N>) {
    for number in 1..=EACH {
        let touch = top_up(gate.number, number, 100);
        if office.submit(rt, &mut gate.seat, touch).is_ok() {
            gate.answered = gate.answered.saturating_add(1);
        }
    }
}

/// Submits the touches of each gate, each in a thread of its own where one can be made.
fn submit_all<N: Named + Send + Sync, R: Threads + Wait + Sync>(
    rt: &R,
    office: &Shared<N>,
    gates: &mut [Gate<N>],
)
    requires { 0 < length gates.old }
{
    let threads = gates.len();
    thread::for_each_mut(
        rt,
        gates,
        threads,
        &|_, gate: &mut Gate<N>|
            requires { IsSync R.row }
        { submit_each(rt, office, gate) },
    );
}

/// The gates' seats. Each touch of theirs was answered.
fn seats_of<N: Named>(rt: &impl Abort, alloc: Global, gates: Vec<Gate<N>>) -> Vec<Seat<N>> {
    let mut seats = Vec::new(alloc);
    for gate in gates {
        assert_same(rt, gate.answered, EACH);
        seats.push(gate.seat).ok().expect(rt, "memory");
    }
    seats
}

/// What came of an office that was closed.
#[derive(Clone, Copy, Debug, PartialEq, Eq)]
struct Ended {
    /// How many entries its book has.
    entries: u32,
    /// How many calls its disk had.
    calls: u64,
}

/// Makes an office whose gates submit their touches side by side, and closes it. The book has each
/// touch once, for an office closes with no other.
fn work_side_by_side<N: Named + Send + Sync, R: Threads + Wait + Sync + Abort>(
    rt: &R,
    alloc: Global,
    opening: Opening<PausedDisk<MemoryDisk>>,
) -> Ended
    requires { IsNameOf N.opened N.name N.parts N.commit_log N.table (opened_of opening) }
{
    let (office, seats, desks) = opening
        .office::<N, R>(rt, alloc)
        .ok()
        .expect(rt, "no office was made");
    let mut gates = make_gates(rt, alloc, seats);
    assert!(rt; !gates.is_empty());
    submit_all(rt, &office, gates.as_mut_slice());
    let closed = office
        .close(rt, seats_of(rt, alloc, gates), &desks)
        .ok()
        .expect(rt, "the office wasn't closed");
    Ended {
        entries: closed.book.len(),
        calls: closed.disk.disk.calls(),
    }
}

/// How many calls the commits of so many gates make. Each of their touches is in the book.
fn commit_calls<R: Threads + Wait + Sync + Abort>(rt: &R, alloc: Global, gates: u16) -> u64 {
    let base = disk_of(rt, alloc, 100, &[]);
    let before = opening_calls(rt, alloc, &base);
    let disk = PausedDisk {
        disk: crashed(rt, &base, Choice::New),
    };
    let schedule = schedule(alloc, Given::Example).expect(rt, "the table wasn't read");
    let opening = Opening::read(alloc, NameHashing::fixed(), disk, schedule, CARDS, gates)
        .ok()
        .expect(rt, "the disk wasn't opened");
    let ended = work_side_by_side::<Brand, R>(rt, alloc, opening);
    assert_same(rt, ended.entries, u32::from(gates) * EACH);
    ended.calls.saturating_sub(before)
}

/// A touch whose body was written ahead has one sync in place of two, so three calls and not four.
/// How many are depends on the threads: of these 48 touches some 40 are, and with no turns none.
#[test]
fn gates_that_wait_for_their_disk_share_syncs(rt: HostRuntime) {
    let alloc = rt.alloc();
    let calls = commit_calls(&rt, alloc, GATES);
    assert_that(&rt, calls <= 4 * u64::from(GATES) * u64::from(EACH) - 8);
}

/// Two writes and two syncs for each touch: there is nobody whose touch could be written ahead.
#[test]
fn a_gate_that_is_alone_makes_the_calls_of_each_touch(rt: HostRuntime) {
    let alloc = rt.alloc();
    let calls = commit_calls(&rt, alloc, 1);
    assert_same(&rt, calls, 4 * u64::from(EACH));
}
