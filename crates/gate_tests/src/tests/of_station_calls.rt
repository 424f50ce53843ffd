//! Rounds of a gate and a station with a journal, whose disks fail and crash.
ghost use Rattle.tap_office.specs.Name.{IsNameOf};
ghost use Rattle.tap_office.specs.Opening.{opened_of};

use super::of_gate_law::{new_schedule, opened_again};
use super::{GATE, ROWS, Row, assert_same, assert_same_at, new_client, new_disk, open};
use fare_table::{EXAMPLE_TABLE, Fares};
use gate_client::{AskFault, Client, HearFault};
use gate_law::{NoReplyFault, ask_in_steps, crash_in_steps};
use oyster_account::Reply;
use reply_book::NameHashing;
use station_calls::{Plan, Round, keeper_in_steps, round_in_steps, settle_in_steps};
use std::alloc::Global;
use std::marker::Brand;
use std::process::Abort;
use std::sync::Wait;
use tap_disk::{Choice, MemoryDisk};
use tap_journal::Journal;
use tap_office::{Named, Opening};

/// How many calls an append makes, of each of which a failure stops a journal (JOURNAL.md,
/// "The steps of an append").
const APPEND_CALLS: u64 = 4;

/// What a crash leaves.
const CHOICES: [Choice; 3] = [Choice::Old, Choice::New, Choice::Torn(0)];

/// The station's disk failed at this touch, or at one before.
const HALTED: NoReplyFault = NoReplyFault::Unheard(HearFault::Refused(3));

/// Another touch stands under the gate and number.
const CONFLICT: NoReplyFault = NoReplyFault::Unheard(HearFault::Refused(2));

/// A gate, and its station before or behind a round.
#[derive(Drop)]
struct Both {
    client: Client<MemoryDisk>,
    opening: Opening<MemoryDisk>,
}

/// A round in which the row's touch is asked, and each crash leaves what the choice says.
fn plan_of(row: &Row, choice: Choice) -> Plan {
    Plan {
        card: row.touch.card,
        act: row.touch.act,
        gate: choice,
        station: choice,
    }
}

/// A disk with a new journal for ten touches of ten cards.
fn new_journal(rt: &impl Abort, alloc: Global) -> MemoryDisk {
    let table = Fares::read(alloc, EXAMPLE_TABLE)
        .ok()
        .expect(rt, "no table");
    match Journal::create(new_disk(rt, alloc), 10, 10, &table.digest()) {
        Ok(journal) => journal.close(),
        Err(fault) => panic!(rt; "not made: {:?}", fault.cause),
    }
}

/// The opening of the journal on a disk.
fn opened(rt: &impl Abort, alloc: Global, disk: MemoryDisk) -> Opening<MemoryDisk> {
    match Opening::read(
        alloc,
        NameHashing::fixed(),
        disk,
        new_schedule(rt, alloc),
        10,
        1,
    ) {
        Ok(opening) => opening,
        Err(fault) => panic!(rt; "not opened: {:?}", fault.cause),
    }
}

/// A gate and a station whose disks don't fail.
fn new_both(rt: &impl Abort, alloc: Global) -> Both {
    Both {
        client: new_client(rt, alloc, 3),
        opening: opened(rt, alloc, new_journal(rt, alloc)),
    }
}

/// Has a disk, which made so many calls before its last opening, fail at this call behind the next
/// one, from 1 on, and at none for 0.
fn fail_behind_opening(disk: &mut MemoryDisk, before: u64, call: u64) {
    let opening = disk.calls().saturating_sub(before);
    if call > 0 {
        disk.fail_at(opening.saturating_add(call));
    }
}

/// A client whose disk fails at this call of its first touch.
fn failing_client(rt: &impl Abort, alloc: Global, call: u64) -> Client<MemoryDisk> {
    let made = new_client(rt, alloc, 3).close();
    let before = made.calls();
    let mut disk = open(rt, alloc, made).close();
    fail_behind_opening(&mut disk, before, call);
    open(rt, alloc, disk)
}

/// The disk of a keeper that was made and closed.
fn closed_disk<N: Named, R: Wait>(
    rt: &R,
    alloc: Global,
    opening: Opening<MemoryDisk>,
) -> Option<MemoryDisk>
    requires { IsNameOf N.opened N.name N.parts N.commit_log N.table (opened_of opening) }
{
    let (keeper, seats, desks) = keeper_in_steps::<N, MemoryDisk, R>(rt, alloc, opening).ok()?;
    Some(keeper.close(rt, seats, &desks).ok()?.disk)
}

/// The opening of a new journal whose disk fails at this call of its first touch.
fn failing_opening<R: Abort + Wait>(rt: &R, alloc: Global, call: u64) -> Opening<MemoryDisk> {
    let made = new_journal(rt, alloc);
    let before = made.calls();
    let opening = opened(rt, alloc, made);
    let mut disk = closed_disk::<Brand, R>(rt, alloc, opening).expect(rt, "not closed");
    fail_behind_opening(&mut disk, before, call);
    opened(rt, alloc, disk)
}

/// What is heard in a round, before the gate crashes and after it, and what is left.
fn rounded<R: Abort + Wait>(rt: &R, alloc: Global, both: Both, plan: &Plan) -> Round {
    let Both { client, opening } = both;
    let schedule = new_schedule(rt, alloc);
    round_in_steps::<Brand, R>(rt, alloc, opening, client, GATE, schedule, 10, 1, plan).expect(
        rt,
        "no round was made",
    )
}

/// That this is heard twice in a round.
fn assert_round<R: Abort + Wait>(
    rt: &R,
    alloc: Global,
    both: Both,
    plan: &Plan,
    want: Result<Reply, NoReplyFault>,
) -> Both {
    let Round {
        client,
        opening,
        heard,
    } = rounded(rt, alloc, both, plan);
    assert_same_at(rt, heard, [want, want], plan);
    Both { client, opening }
}

/// What a gate hears whose touch waits, and how many entries the station has then.
fn settled_by<N: Named, R: Abort + Wait>(
    rt: &R,
    alloc: Global,
    opening: Opening<MemoryDisk>,
    client: &mut Client<MemoryDisk>,
) -> Option<(Result<Reply, NoReplyFault>, u32)>
    requires { IsNameOf N.opened N.name N.parts N.commit_log N.table (opened_of opening) }
{
    let (keeper, seats, desks) = keeper_in_steps::<N, MemoryDisk, R>(rt, alloc, opening).ok()?;
    let mut keeper = keeper;
    let mut seats = seats;
    let waits = client.waiting().is_some();
    assert!(rt; waits);
    let seat = seats.first_mut()?;
    let heard = settle_in_steps(rt, alloc, client, &mut keeper, seat);
    let closed = keeper.close(rt, seats, &desks).ok()?;
    Some((heard, closed.book.len()))
}

/// That a gate which is opened once more hears this of its last touch, and that the station has so
/// many entries.
fn assert_end<R: Abort + Wait>(
    rt: &R,
    alloc: Global,
    both: Both,
    want: Result<Reply, NoReplyFault>,
    entries: u32,
) {
    let Both { client, opening } = both;
    let mut client = opened_again(rt, alloc, client);
    let found = settled_by::<Brand, R>(rt, alloc, opening, &mut client);
    assert_same(rt, found, Some((want, entries)));
    drop(client);
}

#[test]
fn each_reply_is_repeated_behind_each_crash(rt: HostRuntime) {
    for choice in CHOICES {
        let mut both = new_both(&rt, rt.alloc());
        for row in &ROWS {
            let plan = plan_of(row, choice);
            both = assert_round(&rt, rt.alloc(), both, &plan, Ok(row.reply));
        }
        assert_end(&rt, rt.alloc(), both, Ok(ROWS[2].reply), 3);
    }
}

#[test]
fn another_touch_under_a_used_number_is_heard_as_a_conflict(rt: HostRuntime) {
    let both = new_both(&rt, rt.alloc());
    let first = plan_of(&ROWS[0], Choice::New);
    let Both { client, opening } = assert_round(&rt, rt.alloc(), both, &first, Ok(ROWS[0].reply));
    drop(client);
    // a second file for the gate, which counts from 1 again
    let both = Both {
        client: new_client(&rt, rt.alloc(), 3),
        opening,
    };
    let other = plan_of(&ROWS[1], Choice::New);
    let both = assert_round(&rt, rt.alloc(), both, &other, Err(CONFLICT));
    assert_end(&rt, rt.alloc(), both, Err(CONFLICT), 1);
}

/// The gate that asked for the first touch, or that was opened again where its disk failed.
fn gate_behind(
    rt: &impl Abort,
    alloc: Global,
    client: Client<MemoryDisk>,
    plan: &Plan,
    fails: bool,
) -> Client<MemoryDisk> {
    let mut client = client;
    let asked = ask_in_steps(&mut client, plan.card, plan.act);
    if fails {
        assert_same_at(rt, asked, Err(AskFault::Device), plan);
        crash_in_steps(alloc, client, GATE, plan.gate).expect(rt, "not opened")
    } else {
        assert_same_at(rt, asked, Ok(ROWS[0].touch), plan);
        client
    }
}

/// That the first touch gets its reply and stands once, where the gate's disk fails at one call of
/// it, and the station's at another: from 1 on, and at none for 0.
fn assert_once<R: Abort + Wait>(rt: &R, alloc: Global, calls: (u64, u64), choice: Choice) {
    let plan = plan_of(&ROWS[0], choice);
    let opening = failing_opening(rt, alloc, calls.1);
    let client = failing_client(rt, alloc, calls.0);
    let client = gate_behind(rt, alloc, client, &plan, calls.0 > 0);
    let mut both = Both { client, opening };
    if calls.1 > 0 {
        both = assert_round(rt, alloc, both, &plan, Err(HALTED));
    }
    both = assert_round(rt, alloc, both, &plan, Ok(ROWS[0].reply));
    assert_end(rt, alloc, both, Ok(ROWS[0].reply), 1);
}

#[test]
fn a_touch_stands_once_whichever_call_of_a_disk_fails(rt: HostRuntime) {
    for choice in CHOICES {
        for call in 1..=APPEND_CALLS {
            assert_once(&rt, rt.alloc(), (call, 0), choice);
            assert_once(&rt, rt.alloc(), (0, call), choice);
        }
    }
}

#[test]
fn a_touch_stands_once_where_both_disks_fail(rt: HostRuntime) {
    for choice in CHOICES {
        for call in 1..=APPEND_CALLS {
            assert_once(&rt, rt.alloc(), (call, APPEND_CALLS + 1 - call), choice);
        }
    }
}
