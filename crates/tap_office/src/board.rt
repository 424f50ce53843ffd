//! Who waits to commit: the turns of an office, and the touches of those that have one.
use crate::sync_times::SyncTimes;
use oyster_account::Touch;
use station_limits::LINES_LIMIT;
use std::alloc::Global;
use std::sync::{Condvar, Mutex, Wait};

/// The touches of how many turns are kept: one for each seat.
const PLACES: usize = LINES_LIMIT as usize;

/// Which turn it is, and the touches of those that come. Turns are counted from 0 on.
#[derive(Drop)]
struct Turns {
    /// The turn that it is.
    now: u64,
    /// The turn of who comes next.
    free: u64,
    /// What is to be committed at each turn, by the turn's remainder.
    touches: [Option<Touch>; PLACES],
}

impl Turns {
    /// Takes a turn, to commit this touch.
    fn take(&mut self, touch: &Touch) -> u64 {
        let turn = self.free;
        self.touches[(turn % PLACES as u64) as usize] = Some(*touch);
        self.free = turn.wrapping_add(1);
        turn
    }

    /// What is to be committed at the next turn, where someone has it.
    fn next(&self) -> Option<Touch> {
        let next = self.now.wrapping_add(1);
        if next == self.free {
            return None;
        }
        self.touches[(next % PLACES as u64) as usize]
    }

    /// Ends this turn, and answers the next one, where someone has it.
    fn pass(&mut self) -> Option<u64> {
        self.now = self.now.wrapping_add(1);
        if self.now == self.free {
            return None;
        }
        Some(self.now)
    }
}

/// The turns in which an office's touches are committed, in the order in which they came. They are
/// taken while the disk is one that commits wait for.
///
/// No promise rests on it: the lock behind it keeps the book. A touch that it tells of is what will
/// likely be committed next, and nothing more. Who has taken a turn has to pass it on.
#[derive(Drop)]
pub(crate) struct Board {
    turns: Mutex<Turns>,
    /// Where those that have a turn sleep, by the turn's remainder: one for each seat, so that each
    /// is woken alone.
    called: Vec<Condvar>,
    /// How long the last commits took.
    pub(crate) times: SyncTimes,
}

impl Board {
    /// The board of an office of so many seats. Where memory is refused fewer sleep apart, and with
    /// none nobody waits for a turn.
    pub(crate) fn new(alloc: Global, seats: u16) -> Board {
        let mut called = Vec::new(alloc);
        for _ in 0..seats {
            if called.push(Condvar::new()).is_err() {
                break;
            }
        }
        let turns = Turns {
            now: 0,
            free: 0,
            touches: [None; PLACES],
        };
        Board {
            turns: Mutex::new(turns),
            called,
            times: SyncTimes::new(),
        }
    }

    /// Takes a turn to commit this touch, and waits until it has come. None where turns don't pay:
    /// then the lock alone decides who comes next.
    pub(crate) fn wait<R: Wait>(&self, rt: &R, touch: &Touch) -> Option<u64> {
        if !self.times.are_long() || self.called.is_empty() {
            return None;
        }
        let mut turns = self.turns.lock(rt);
        let turn = turns.take(touch);
        let called = self.place(turn)?;
        for _ in rt.forever() {
            if turns.now == turn {
                return Some(turn);
            }
            turns = called.wait(rt, turns);
        }
        None
    }

    /// Who can be asked what comes behind this turn.
    pub(crate) fn behind<'a, R: Wait>(&'a self, rt: &'a R, turn: Option<u64>) -> Behind<'a, R> {
        Behind {
            board: self,
            rt,
            turn,
        }
    }

    /// Ends this turn, and wakes who has the next one.
    pub(crate) fn pass<R: Wait>(&self, rt: &R, turn: Option<u64>) {
        if turn.is_none() {
            return;
        }
        let next = self.turns.lock(rt).pass();
        let called = match next {
            Some(turn) => self.place(turn),
            None => None,
        };
        if let Some(called) = called {
            called.notify_all();
        }
    }

    /// Where who has this turn sleeps.
    fn place(&self, turn: u64) -> Option<&Condvar> {
        let seats = self.called.len() as u64;
        if seats == 0 {
            return None;
        }
        self.called.get((turn % seats) as usize)
    }
}

/// What comes behind a turn.
#[derive(Drop)]
pub(crate) struct Behind<'a, R> {
    board: &'a Board,
    rt: &'a R,
    /// The turn, where one was taken.
    turn: Option<u64>,
}

impl<R: Wait> Behind<'_, R> {
    /// What is to be committed at the next turn, where someone waits for it.
    pub(crate) fn touch(self) -> Option<Touch> {
        let _turn = self.turn?;
        self.board.turns.lock(self.rt).next()
    }
}
