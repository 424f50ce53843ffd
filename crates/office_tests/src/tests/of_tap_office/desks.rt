//! Desks that ask without pause beside seats that commit.
ghost use Rattle.std.specs.Prelude.{◌<◌, length};
ghost use Rattle.std.specs.Thread.{IsSync};
ghost use Rattle.tap_office.specs.Name.{IsNameOf};
ghost use Rattle.tap_office.specs.Opening.{opened_of};

use super::*;
use std::marker::Brand;
use std::sync::Wait;
use std::thread;
use std::thread::Threads;
use tap_office::{Desk, Named, Office, Seat};

/// How many touches each gate commits.
const TOUCHES: u32 = 20;

/// How often a desk that commits nothing asks.
const ENQUIRIES: u32 = 3000;

/// What a desk was answered about card 1.
#[derive(Drop)]
struct Log {
    /// The answers that were of more entries than the one before.
    answered: Vec<Enquiry>,
    /// How many answers there were.
    answers: u32,
    /// How many answers were of less than there had been, or were none.
    wrong: u32,
}

impl Log {
    /// Counts an answer that was wrong.
    fn blame(&mut self) {
        self.wrong = self.wrong.saturating_add(1);
    }

    /// Enters an answer, where there have to be so many entries at least.
    fn enter(&mut self, answer: Option<Enquiry>, least: u32) {
        let Some(answer) = answer else {
            self.blame();
            return;
        };
        self.answers = self.answers.saturating_add(1);
        let last = match self.answered.last() {
            Some(last) => last.front,
            None => 0,
        };
        if answer.front < last || answer.front < least {
            self.blame();
        }
        if answer.front > last && self.answered.push(answer).is_err() {
            self.blame();
        }
    }
}

/// A worker with a thread of its own: it commits, or it asks.
#[derive(Drop)]
struct Worker<N: Named> {
    number: u16,
    seat: Seat<N>,
    desk: Desk<N>,
    commits: bool,
    log: Log,
}

impl<N: Named> Worker<N> {
    /// Commits a gate's top-ups of card 1, and asks after each. They are of as many pence as no
    /// other sum of them would come to by chance.
    fn commit<R: Wait>(&mut self, rt: &R, office: &Office<N, MemoryDisk>) {
        let pence = if self.number == 1 { 100 } else { 1 };
        for number in 0..TOUCHES {
            let touch = top_up(self.number, number, pence);
            match commit_one(rt, office, &mut self.seat, &mut self.desk, touch) {
                Some(place) => self
                    .log
                    .enter(self.desk.enquire(1), place.saturating_add(1)),
                None => self.log.blame(),
            }
        }
    }

    /// Does its work.
    fn work<R: Wait>(&mut self, rt: &R, office: &Office<N, MemoryDisk>) {
        if self.commits {
            self.commit(rt, office);
            return;
        }
        for _ in 0..ENQUIRIES {
            self.log.enter(self.desk.enquire(1), 0);
        }
    }
}

/// Commits a touch, and has the desk learn its receipt. It answers the touch's place.
fn commit_one<N: Named, R: Wait>(
    rt: &R,
    office: &Office<N, MemoryDisk>,
    seat: &mut Seat<N>,
    desk: &mut Desk<N>,
    touch: Touch,
) -> Option<u32> {
    match office.submit(rt, seat, touch) {
        Ok(receipt) => {
            let place = receipt.place;
            desk.learn(receipt);
            Some(place)
        }
        Err(_) => None,
    }
}

/// Has each worker do its work, in a thread of its own where one can be made.
fn work_all<N: Named + Send + Sync, R: Threads + Wait + Sync>(
    rt: &R,
    office: &Office<N, MemoryDisk>,
    workers: &mut [Worker<N>],
)
    requires { 0 < length workers.old }
{
    let threads = workers.len();
    thread::for_each_mut(
        rt,
        workers,
        threads,
        &|_, worker: &mut Worker<N>|
            requires { IsSync R.row }
        { worker.work(rt, office) },
    );
}

/// A worker on each of these seats, with a desk. The first two commit.
fn workers_of<N: Named>(
    rt: &impl Abort,
    alloc: Global,
    seats: Vec<Seat<N>>,
    desks: Vec<Desk<N>>,
) -> Vec<Worker<N>> {
    let mut workers = Vec::new(alloc);
    let mut desks = desks;
    let mut number: u16 = 0;
    for seat in seats {
        number = number.saturating_add(1);
        let worker = Worker {
            number,
            seat,
            desk: desks.pop().expect(rt, "a desk is missing"),
            commits: number <= 2,
            log: Log {
                answered: Vec::new(alloc),
                answers: 0,
                wrong: 0,
            },
        };
        workers.push(worker).ok().expect(rt, "memory");
    }
    workers
}

/// A worker had each answer, and none was wrong.
fn assert_answered<N: Named>(rt: &impl Abort, worker: &Worker<N>) {
    let answers = if worker.commits { TOUCHES } else { ENQUIRIES };
    assert_same(rt, worker.log.wrong, 0);
    assert_same(rt, worker.log.answers, answers);
}

/// The workers' seats and desks, and what each worker was answered.
fn left_by<N: Named>(
    rt: &impl Abort,
    alloc: Global,
    workers: Vec<Worker<N>>,
) -> (Vec<Seat<N>>, Vec<Desk<N>>, Vec<Vec<Enquiry>>) {
    let mut seats = Vec::new(alloc);
    let mut desks = Vec::new(alloc);
    let mut answered = Vec::new(alloc);
    for worker in workers {
        assert_answered(rt, &worker);
        let Worker {
            seat,
            desk,
            log,
            ..
        } = worker;
        seats.push(seat).ok().expect(rt, "memory");
        desks.push(desk).ok().expect(rt, "memory");
        answered.push(log.answered).ok().expect(rt, "memory");
    }
    (seats, desks, answered)
}

/// The touches of a book, oldest first.
fn touches_in(alloc: Global, book: &Book) -> Option<Vec<Touch>> {
    let mut touches = Vec::new(alloc);
    for place in 0..book.len() {
        touches.push(book.entry(place)?.touch).ok()?;
    }
    Some(touches)
}

/// Two gates commit beside two desks that ask. It answers the touches of the history at the end,
/// and what each desk was answered.
fn commit_and_ask<N: Named + Send + Sync, R: Threads + Wait + Sync + Abort>(
    rt: &R,
    alloc: Global,
    opening: Opening<MemoryDisk>,
) -> (Vec<Touch>, Vec<Vec<Enquiry>>)
    requires { IsNameOf N.opened N.name N.parts N.commit_log N.table (opened_of opening) }
{
    let (office, seats, desks) = opening
        .office::<N, R>(rt, alloc)
        .ok()
        .expect(rt, "no office was made");
    let mut workers = workers_of(rt, alloc, seats, desks);
    assert!(rt; !workers.is_empty());
    work_all(rt, &office, workers.as_mut_slice());
    let (seats, desks, answered) = left_by(rt, alloc, workers);
    let closed = office
        .close(rt, seats, &desks)
        .ok()
        .expect(rt, "the office wasn't closed");
    let touches = touches_in(alloc, &closed.book).expect(rt, "an entry is missing");
    (touches, answered)
}

/// What is seen of card 1 after these touches, of which a book can hold a million.
fn view_after(alloc: Global, touches: &[Touch]) -> Option<CardView> {
    if touches.len() > 1_000_000 {
        return None;
    }
    let schedule = schedule(alloc, Given::Example)?;
    let book = Book::replay(alloc, NameHashing::fixed(), CARDS, schedule, touches).ok()?;
    Some(book.view(1))
}

/// Each answer is the view of card 1 after as many touches of the history as it was of.
fn compare(rt: &impl Abort, alloc: Global, touches: &[Touch], answers: &[Enquiry]) {
    assert_that(rt, !answers.is_empty());
    for answer in answers {
        let front = answer.front as usize;
        assert!(rt; front <= touches.len());
        let view = view_after(alloc, &touches[..front]);
        assert_same_at(rt, Some(answer.view), view, ("front", front));
    }
}

/// What each desk was answered is so.
fn compare_all(rt: &impl Abort, alloc: Global, touches: &[Touch], answered: &[Vec<Enquiry>]) {
    for answers in answered {
        compare(rt, alloc, touches, answers);
    }
}

#[test]
fn desks_answer_from_beginnings_of_the_history(rt: HostRuntime) {
    let alloc = rt.alloc();
    let disk = disk_of(&rt, alloc, 100, &[ISSUE]);
    let opening = read(&rt, alloc, disk, CARDS, 4)
        .ok()
        .expect(&rt, "the disk wasn't opened");
    let (touches, answered) = commit_and_ask::<Brand, HostRuntime>(&rt, alloc, opening);
    assert_same(&rt, touches.len(), 41);
    compare_all(&rt, alloc, &touches, &answered);
}
