//! Calls that are refused memory and made again. A script of `scripts/tests` runs these with each
//! of their allocations refused in turn: every other answer is that of ample memory.
ghost use Rattle.std.specs.Prelude.{◌≡◌, []};
ghost use Rattle.fare_schedule.specs.Schedule.{revisions_of};

use super::revisions::{BAD_DAY, REVISE, REVISED_REPLY, TRAVELLED, missing_touches, new_prices};
use super::steps::{Outcome, full_steps, try_work, work_with, worked};
use super::*;
use std::sync::Wait;
use tap_disk::Disk;
use tap_journal::JournalFault;

/// How often an office is opened again for want of memory or of a desk.
const TRIES: u32 = 8;

/// The schedule, made again where memory was refused.
fn schedule_again(rt: &impl Abort, alloc: Global, given: Given) -> Schedule
    ensures { revisions_of result ≡ [] }
{
    match schedule(alloc, given) {
        Some(schedule) => schedule,
        None => schedule(alloc, given).expect(rt, "the tables weren't read"),
    }
}

/// A disk with a journal of these touches, made again where memory was refused.
fn disk_again(rt: &impl Abort, alloc: Global, capacity: u32, touches: &[Touch]) -> MemoryDisk {
    match journal_of(alloc, capacity, touches) {
        Some(disk) => disk,
        None => disk_of(rt, alloc, capacity, touches),
    }
}

/// What comes of a disk that is opened by these tables with so many cards for two seats. Where
/// memory was refused, of which the disk says that it failed, it is opened again.
fn read_again(rt: &impl Abort, alloc: Global, disk: MemoryDisk, given: Given, cards: u32) -> Read {
    match Opening::read(
        alloc,
        NameHashing::fixed(),
        disk,
        schedule_again(rt, alloc, given),
        cards,
        2,
    ) {
        Err(
            OpenFault {
                disk,
                cause: JournalFault::Memory | JournalFault::Device,
                found: _,
            },
        ) => Opening::read(
            alloc,
            NameHashing::fixed(),
            disk,
            schedule_again(rt, alloc, given),
            cards,
            2,
        ),
        read => read,
    }
}

/// Works through the steps on an office of the disk by these tables, which is opened again where
/// memory or a desk was refused. Gives the disk.
fn work_again<R: Wait + Abort>(
    rt: &R,
    alloc: Global,
    disk: MemoryDisk,
    given: Given,
    steps: &[Step],
) -> Option<(Outcome, MemoryDisk)> {
    let mut disk = disk;
    for _ in 0..TRIES {
        let opening = read_again(rt, alloc, disk, given, CARDS)
            .ok()
            .expect(rt, "the disk wasn't opened");
        match try_work(rt, alloc, opening, steps, 0) {
            Ok(done) => return Some(done),
            Err(fault) => {
                let short = matches!(fault.cause, JournalFault::Memory | JournalFault::NoDesk);
                assert_that(rt, short);
                disk = fault.disk;
            }
        }
    }
    None
}

/// A disk that failed at a touch for want of memory halted its office, which ended so. The disk has
/// what was answered, with that touch or without.
fn assert_halted<R: Wait + Abort>(rt: &R, alloc: Global, disk: MemoryDisk, given: Given, end: End) {
    assert_that(rt, end.halted);
    assert_same(rt, disk.failures(), 1);
    let found = work_with(rt, alloc, disk, given, &[]).0.opened;
    assert_that(
        rt,
        found == end.entries || found == end.entries.saturating_add(1),
    );
}

/// Works through the steps as with ample memory, up to a touch at which the disk failed for want of
/// it.
fn assert_worked<R: Wait + Abort>(
    rt: &R,
    alloc: Global,
    disk: MemoryDisk,
    given: Given,
    steps: &[Step],
    want: Outcome,
) {
    let (outcome, disk) = work_again(rt, alloc, disk, given, steps).expect(
        rt,
        "no office was made",
    );
    if let Some((row, answer)) = outcome.stray {
        assert_same_at(
            rt,
            answer,
            Answer::Fault(SubmitFault::Halted),
            ("step", row),
        );
        assert_halted(rt, alloc, disk, given, outcome.end);
    } else {
        assert_same(rt, outcome, want);
    }
}

#[test]
fn a_full_journal_answers_the_same_where_memory_was_refused(rt: HostRuntime) {
    let alloc = rt.alloc();
    let disk = disk_again(&rt, alloc, 2, &[]);
    assert_worked(
        &rt,
        alloc,
        disk,
        Given::Example,
        &full_steps(),
        worked(0, 2000, 2),
    );
}

/// A gate's top-up by 100 pence from the seat of this place, which is answered by this place in the
/// history: card 1 has had so many top-ups then.
const fn topped_up(seat: usize, gate: u16, number: u32, place: u32) -> Step {
    Step {
        seat,
        touch: top_up(gate, number, 100),
        want: Answer::First(
            place,
            Reply {
                verdict: 7,
                change: 100,
                balance: 100 * place as i64,
            },
        ),
    }
}

#[test]
fn two_seats_are_answered_the_same_where_memory_was_refused(rt: HostRuntime) {
    let alloc = rt.alloc();
    let disk = disk_again(&rt, alloc, 10, &[ISSUE]);
    let steps = [
        topped_up(0, 1, 1, 1),
        topped_up(1, 2, 1, 2),
        topped_up(0, 1, 2, 3),
        topped_up(1, 2, 2, 4),
        topped_up(0, 1, 3, 5),
        topped_up(1, 2, 3, 6),
    ];
    assert_worked(&rt, alloc, disk, Given::Example, &steps, worked(1, 600, 7));
}

/// A disk that holds 64 zero bytes.
fn zeros(alloc: Global) -> Option<MemoryDisk> {
    let mut disk = MemoryDisk::new(alloc).ok()?;
    disk.write_at(0, &[0; 64]).ok()?;
    Some(disk)
}

/// A disk with a journal of the issue, of which the byte at this place is another.
fn changed(alloc: Global, at: u64, byte: u8) -> Option<MemoryDisk> {
    let mut disk = journal_of(alloc, 5, &[ISSUE])?;
    if at > disk.len().ok()? {
        return None;
    }
    disk.write_at(at, &[byte]).ok()?;
    Some(disk)
}

/// The disk isn't opened with so many cards, for this cause, also where memory was refused before.
fn assert_refused(
    rt: &impl Abort,
    alloc: Global,
    disk: MemoryDisk,
    cards: u32,
    want: JournalFault,
) {
    let fault = read_again(rt, alloc, disk, Given::Example, cards)
        .err()
        .expect(rt, "the disk was opened");
    assert_same(rt, fault.cause, want);
}

#[test]
fn an_opening_has_the_same_cause_where_memory_was_refused(rt: HostRuntime) {
    let alloc = rt.alloc();
    let disk = zeros(alloc)
        .or_else(|| zeros(alloc))
        .expect(&rt, "no disk was made");
    assert_refused(&rt, alloc, disk, CARDS, JournalFault::NotAJournal);
    // A byte of a journal, what it is set to, with how many cards it is opened, and the fault: the
    // version, the table's digest, the number of cards, and the kind of the first touch.
    for (at, byte, cards, want) in [
        (8, b'9', CARDS, JournalFault::WrongVersion),
        (48, 0, CARDS, JournalFault::WrongTable),
        (0, 165, 11, JournalFault::WrongCards),
        (65, 9, CARDS, JournalFault::Damaged(0)),
    ] {
        let disk = changed(alloc, at, byte)
            .or_else(|| changed(alloc, at, byte))
            .expect(&rt, "no disk was made");
        assert_refused(&rt, alloc, disk, cards, want);
    }
}

#[test]
fn revisions_are_answered_the_same_where_memory_was_refused(rt: HostRuntime) {
    let alloc = rt.alloc();
    let disk = disk_again(&rt, alloc, 10, &[ISSUE, TOP_UP, ENTER, LEAVE]);
    let steps = [
        from_first(TRAVELLED, Answer::First(4, BAD_DAY)),
        from_first(REVISE, Answer::First(5, REVISED_REPLY)),
    ];
    assert_worked(&rt, alloc, disk, Given::Revised, &steps, worked(4, 1650, 6));
    let disk = disk_again(&rt, alloc, 10, &missing_touches());
    assert_worked(
        &rt,
        alloc,
        disk,
        Given::Revised,
        &new_prices(),
        worked(6, 980, 10),
    );
}

#[test]
fn a_missing_table_is_told_the_same_where_memory_was_refused(rt: HostRuntime) {
    let alloc = rt.alloc();
    let disk = disk_again(&rt, alloc, 5, &[ISSUE]);
    let steps = [from_first(REVISE, Answer::Fault(SubmitFault::UnknownTable))];
    assert_worked(&rt, alloc, disk, Given::Example, &steps, worked(1, 0, 1));
    let disk = disk_again(&rt, alloc, 10, &missing_touches());
    assert_refused(&rt, alloc, disk, CARDS, JournalFault::MissingTable(4));
}
