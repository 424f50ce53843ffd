//! A gate and a station whose disks crash between any two calls.
ghost use Rattle.std.specs.Prelude.{◌≡◌, ℕ, Bool, [], IfSome};
ghost use Rattle.fare_schedule.specs.Schedule.{revisions_of};
ghost use Rattle.reply_book.specs.Tables.{Tables, tables_in};
ghost use Rattle.tap_office.specs.Given.{IsGiven};
ghost use Rattle.tap_office.specs.Name.{IsNameOf};
ghost use Rattle.tap_office.specs.Opening.{IsOpeningOf, opened_of};
ghost use Rattle.gate_law.specs.Whole.{Whole};
ghost use Rattle.station_calls.specs.Shown.{IsShownBy};
ghost use Rattle.station_calls.specs.Openings.{AreOfFiles, IsOpeningRun};
ghost use Rattle.station_calls.specs.Reached.{IsReached, IsReachedOpen};

use crate::opening::{keeper_in_steps, read_in_steps};
use crate::settling::settle_in_steps;
use fare_schedule::Schedule;
use gate_client::Client;
use gate_law::{NoReplyFault, ask_in_steps, crash_in_steps};
use oyster_account::{Act, Reply};
use reply_book::NameHashing;
use std::alloc::Global;
use std::sync::Wait;
use tap_disk::{Choice, Disk, MemoryDisk};
use tap_office::{CloseFault, Closed, Keeper, Named, Opening, Seat, the_lock_keeps};

/// A round: the touch that the gate is asked for, and what the two disks are left with where their
/// power fails.
#[derive(Clone, Copy, Debug, PartialEq, Eq)]
pub struct Plan {
    /// The card of the touch.
    pub card: u32,
    /// What it does.
    pub act: Act,
    /// Which content is left of the gate's disk, behind the first try to settle the touch.
    pub gate: Choice,
    /// Which content is left of the station's disk, behind the second.
    pub station: Choice,
}

/// What is left of a gate and its station after a round.
#[derive(Drop)]
pub struct Round {
    /// The gate, opened again.
    pub client: Client<MemoryDisk>,
    /// The station, opened again.
    pub opening: Opening<MemoryDisk>,
    /// What the gate heard before its power failed, and after it.
    pub heard: [Result<Reply, NoReplyFault>; 2],
}

/// The station's power fails between two calls, and what the crash leaves of its disk, by this
/// choice, is opened again by the tables of the schedule: the station stops, and is opened.
///
/// None comes where memory was refused, or where `Opening::read` has a fault.
pub fn reopen_in_steps<N: Named, R: Wait>(
    rt: &R,
    alloc: Global,
    keeper: Keeper<N, MemoryDisk>,
    seats: Vec<Seat<N>>,
    schedule: Schedule,
    cards: u32,
    count: u16,
    choice: Choice,
) -> Option<Opening<MemoryDisk>>
    requires unrevised { revisions_of schedule ≡ [] }
    ensures opening { IfSome result (IsOpeningOf (tables_in schedule) cards count) }
    ensures steps { (alone : ℕ → Bool) (whole : Whole)
        → IsShownBy ⟦<MemoryDisk as Disk>⟧.honest ⟦<MemoryDisk as Disk>⟧.outcome N.opened keeper
        whole → AreOfFiles whole.station.tables (tables_in schedule)
        → IfSome result (λ o. IsOpeningRun alone N.opened.header.cards whole o) }
{
    the_lock_keeps(&keeper);
    let disk = disk_of(rt, keeper, seats);
    let Ok(left) = disk.crash(choice) else {
        return None;
    };
    match read_in_steps(alloc, NameHashing::fixed(), left, schedule, cards, count) {
        Ok(opening) => Some(opening),
        Err(_) => None,
    }
}

/// One round of a gate and its station, whose disks are in memory: the keeper of the opening is
/// made, the gate is asked for the plan's touch and settles what waits, the gate's power fails and
/// it is opened and settles again, and the station's power fails and it is opened by the tables of
/// the schedule. `gate` is the client's number.
///
/// From any first state of all gates: where a run of steps leads to where gate and station were, a
/// run leads to where they are then. So it is after any number of rounds. None comes where no touch
/// waits, where memory was refused, or where one of the two couldn't be opened again.
pub fn round_in_steps<N: Named, R: Wait>(
    rt: &R,
    alloc: Global,
    opening: Opening<MemoryDisk>,
    client: Client<MemoryDisk>,
    gate: u16,
    schedule: Schedule,
    cards: u32,
    count: u16,
    plan: &Plan,
) -> Option<Round>
    requires name { IsNameOf N.opened N.name N.parts N.commit_log N.table (opened_of opening) }
    requires unrevised { revisions_of schedule ≡ [] }
    ensures { (alone : ℕ → Bool) (first : Whole)
        → IsReachedOpen alone cards gate first client opening
        → AreOfFiles opening.tables (tables_in schedule)
        → IfSome result (λ r. IsReachedOpen alone cards gate first r.client r.opening) }
{
    match keeper_in_steps::<N, MemoryDisk, R>(rt, alloc, opening) {
        Ok((keeper, seats, _desks)) => going(
            rt, alloc, keeper, seats, client, gate, schedule, cards, count, plan,
        ),
        Err(_) => None,
    }
}

/// A round, once there is a keeper.
fn going<N: Named, R: Wait>(
    rt: &R,
    alloc: Global,
    keeper: Keeper<N, MemoryDisk>,
    seats: Vec<Seat<N>>,
    client: Client<MemoryDisk>,
    gate: u16,
    schedule: Schedule,
    cards: u32,
    count: u16,
    plan: &Plan,
) -> Option<Round>
    requires unrevised { revisions_of schedule ≡ [] }
    ensures { (alone : ℕ → Bool) (first : Whole) (tables : Tables)
        → IsReached ⟦<MemoryDisk as Disk>⟧.honest ⟦<MemoryDisk as Disk>⟧.outcome alone N.opened
        gate first client keeper → IsGiven N.opened tables
        → N.opened.header.cards ≡ cards → AreOfFiles tables (tables_in schedule)
        → IfSome result (λ r. IsReachedOpen alone cards gate first r.client r.opening) }
{
    let mut keeper = keeper;
    let mut seats = seats;
    let mut client = client;
    let _ = ask_in_steps(&mut client, plan.card, plan.act);
    let before = settled(rt, alloc, &mut client, &mut keeper, &mut seats)?;
    let mut opened = crash_in_steps(alloc, client, gate, plan.gate)?;
    let after = settled(rt, alloc, &mut opened, &mut keeper, &mut seats)?;
    let opening = reopen_in_steps(
        rt,
        alloc,
        keeper,
        seats,
        schedule,
        cards,
        count,
        plan.station,
    )?;
    Some(Round {
        client: opened,
        opening,
        heard: [before, after],
    })
}

/// What comes of the touch that waits, from the first seat. None where none waits.
fn settled<N: Named, R: Wait>(
    rt: &R,
    alloc: Global,
    client: &mut Client<MemoryDisk>,
    keeper: &mut Keeper<N, MemoryDisk>,
    seats: &mut Vec<Seat<N>>,
) -> Option<Result<Reply, NoReplyFault>>
    ensures { (alone : ℕ → Bool) (number : ℕ) (first : Whole)
        → IsReached ⟦<MemoryDisk as Disk>⟧.honest ⟦<MemoryDisk as Disk>⟧.outcome alone N.opened
        number first client.old keeper.old
        → IsReached ⟦<MemoryDisk as Disk>⟧.honest ⟦<MemoryDisk as Disk>⟧.outcome alone N.opened
        number first client.new keeper.new }
{
    if client.waiting().is_none() {
        return None;
    }
    match seats.first_mut() {
        Some(seat) => Some(settle_in_steps(rt, alloc, client, keeper, seat)),
        None => None,
    }
}

/// The disk of a keeper that is closed, as it stands.
fn disk_of<N: Named, R: Wait>(
    rt: &R,
    keeper: Keeper<N, MemoryDisk>,
    seats: Vec<Seat<N>>,
) -> MemoryDisk
    ensures { result ≡ keeper.disk }
{
    match keeper.close(rt, seats, &[]) {
        Ok(closed) => {
            let Closed {
                book: _,
                disk,
                halted: _,
            } = closed;
            disk
        }
        Err(fault) => {
            let CloseFault {
                cause: _,
                book: _,
                disk,
                halted: _,
            } = fault;
            disk
        }
    }
}
