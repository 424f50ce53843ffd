//! The session of one connection: at the office itself, or behind the server's door.

ghost use Rattle.std.specs.Prelude.{◌≡◌, ◌≤◌, ◌*◌};
ghost use Rattle.gate_session.specs.Session.{HasCounted};
ghost use Rattle.gate_session.specs.declared.session.TheConstants.{PIECE_SIZE};
ghost use Rattle.office_lines.specs.Behind.{HasAnsweredSome};
ghost use Rattle.office_lines.specs.Clerk.{GoesOn, DeskGoesOn};

use crate::clerk::OfficeClerk;
use crate::connection::Connection;
use crate::lent::Lent;
use crate::notice::Watch;
use crate::post::Service;
use crate::rounds::Rounds;
use crate::watched_door::WatchedDoor;
use door_clerk::{Bucket, DoorClerk, Surroundings};
use gate_session::{Clerk, End, Served, serve};
use proxy_header::Name;
use station_door::{Pass, StationDoor};
use std::alloc::Global;
use std::io::{Read, Write};
use std::sync::Wait;
use std::time::Clock;
use tap_disk::Disk;
use tap_office::{Desk, Named, Seat};

/// How many reads a session makes at most.
const TURNS: u32 = 1_000_000;

/// Serves one connection, at a seat and a desk of the office: behind the server's door, if it has
/// one.
pub(crate) fn serve_connection<I: Read, O: Write, N: Named, D: Disk, T: Watch, R: Wait + Clock>(
    rt: &R,
    alloc: Global,
    service: &Service<'_, N, D, T>,
    seat: &mut Seat<N>,
    desk: &mut Desk<N>,
    connection: &mut Connection<I, O>,
) -> Served
    ensures seat { GoesOn result.requests seat.old seat.new }
    ensures desk { DeskGoesOn result.requests desk.old desk.new }
    ensures counts { HasCounted result.end result.requests result.answers }
    ensures few { result.requests ≤ PIECE_SIZE * TURNS }
{
    let mut clerk = OfficeClerk {
        office: &service.office,
        watch: service.watch,
        seat,
        desk,
    };
    match service.door {
        Some(door) => enter_and_serve(rt, alloc, service, door, &mut clerk, connection),
        None => serve_clerk(rt, alloc, &mut clerk, connection),
    }
}

/// Serves one connection by its clerk, who keeps the same seat and desk.
fn serve_clerk<I: Read, O: Write, N: Named, D: Disk, T: Watch, R: Wait>(
    rt: &R,
    alloc: Global,
    clerk: &mut OfficeClerk<'_, N, D, T>,
    connection: &mut Connection<I, O>,
) -> Served
    ensures same_seat { clerk.new.seat.ghost_name ≡ clerk.old.seat.ghost_name }
    ensures same_desk { clerk.new.desk.ghost_name ≡ clerk.old.desk.ghost_name }
    ensures seat { GoesOn result.requests clerk.old.seat.now clerk.new.seat.now }
    ensures desk { DeskGoesOn result.requests clerk.old.desk.now clerk.new.desk.now }
    ensures counts { HasCounted result.end result.requests result.answers }
    ensures few { result.requests ≤ PIECE_SIZE * TURNS }
{
    serve(
        rt,
        alloc,
        &mut connection.reader,
        &mut connection.writer,
        clerk,
        TURNS,
    )
}

/// Serves one connection at a door, by the rule of its name. One for which there is no rule, or no
/// place, is shown to the watch and isn't served.
fn enter_and_serve<'a, I: Read, O: Write, N: Named, D: Disk, T: Watch, R: Wait + Clock>(
    rt: &R,
    alloc: Global,
    service: &Service<'_, N, D, T>,
    door: &StationDoor,
    clerk: &mut OfficeClerk<'a, N, D, T>,
    connection: &mut Connection<I, O>,
) -> Served
    ensures same_seat { clerk.new.seat.ghost_name ≡ clerk.old.seat.ghost_name }
    ensures same_desk { clerk.new.desk.ghost_name ≡ clerk.old.desk.ghost_name }
    ensures seat { GoesOn result.requests clerk.old.seat.now clerk.new.seat.now }
    ensures desk { DeskGoesOn result.requests clerk.old.desk.now clerk.new.desk.now }
    ensures counts { HasCounted result.end result.requests result.answers }
    ensures few { result.requests ≤ PIECE_SIZE * TURNS }
{
    let name = connection.name;
    match door.enter(rt, text_of(&name)) {
        Ok(pass) => serve_passed(rt, alloc, service, pass, clerk, connection),
        Err(shut) => {
            service.watch.shut_out(rt, shut, name);
            unserved()
        }
    }
}

/// Serves one connection that has passed the door, and gives its place back.
fn serve_passed<'a, I: Read, O: Write, N: Named, D: Disk, T: Watch, R: Wait + Clock>(
    rt: &R,
    alloc: Global,
    service: &Service<'_, N, D, T>,
    pass: Pass<'_>,
    clerk: &mut OfficeClerk<'a, N, D, T>,
    connection: &mut Connection<I, O>,
) -> Served
    ensures same_seat { clerk.new.seat.ghost_name ≡ clerk.old.seat.ghost_name }
    ensures same_desk { clerk.new.desk.ghost_name ≡ clerk.old.desk.ghost_name }
    ensures seat { GoesOn result.requests clerk.old.seat.now clerk.new.seat.now }
    ensures desk { DeskGoesOn result.requests clerk.old.desk.now clerk.new.desk.now }
    ensures counts { HasCounted result.end result.requests result.answers }
    ensures few { result.requests ≤ PIECE_SIZE * TURNS }
{
    let rounds = Rounds {
        rt,
        office: &service.office,
    };
    let (served, bucket) = serve_behind(rt, alloc, &pass, rounds, service.watch, clerk, connection);
    pass.leave(rt, bucket);
    served
}

/// Serves one connection by a clerk behind the rule of a pass: the clerk answers what the rule
/// allows. The second value is the bucket that the connection leaves.
fn serve_behind<'x, I: Read, O: Write, N: Named, D: Disk, C: Clerk, T: Watch, R: Wait + Clock>(
    rt: &R,
    alloc: Global,
    pass: &'x Pass<'x>,
    rounds: Rounds<'_, N, D, R>,
    watch: &'x T,
    clerk: &mut C,
    connection: &mut Connection<I, O>,
) -> (Served, Bucket)
    ensures run { HasAnsweredSome C.gives clerk.old clerk.new result.0.requests }
    ensures counts { HasCounted result.0.end result.0.requests result.0.answers }
    ensures few { result.0.requests ≤ PIECE_SIZE * TURNS }
{
    let behind = Lent { clerk };
    let door = DoorClerk {
        rule: &pass.rule.rule,
        bucket: pass.bucket,
        last: None,
        surroundings: rounds,
        behind,
    };
    let mut watched = WatchedDoor {
        door,
        watch,
        place: pass.place,
    };
    let served = serve_door(rt, alloc, &mut watched, connection);
    (served, watched.door.bucket)
}

/// Serves one connection at a door, whose clerk stays the one that was lent.
fn serve_door<'a, I: Read, O: Write, C: Clerk, S: Surroundings, T: Watch, R: Wait>(
    rt: &R,
    alloc: Global,
    door: &mut WatchedDoor<'a, Lent<'a, C>, S, T>,
    connection: &mut Connection<I, O>,
) -> Served
    ensures same { door.new.door.behind.clerk.ghost_name ≡ door.old.door.behind.clerk.ghost_name }
    ensures run { HasAnsweredSome C.gives door.old.door.behind.clerk.now
        door.new.door.behind.clerk.now result.requests }
    ensures counts { HasCounted result.end result.requests result.answers }
    ensures few { result.requests ≤ PIECE_SIZE * TURNS }
{
    serve(
        rt,
        alloc,
        &mut connection.reader,
        &mut connection.writer,
        door,
        TURNS,
    )
}

/// What a connection came to that wasn't served.
fn unserved() -> Served
    ensures requests { result.requests ≡ 0 }
    ensures counts { HasCounted result.end result.requests result.answers }
{
    Served {
        requests: 0,
        answers: 0,
        end: End::Closed,
    }
}

/// The text of a name, if there is one.
fn text_of(name: &Option<Name>) -> Option<&str> {
    match name {
        Some(name) => Some(name.as_str()),
        None => None,
    }
}
