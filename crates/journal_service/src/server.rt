//! The command `serve`: the office of a journal, served to gates over TCP.

ghost use Rattle.tap_office.specs.Name.{IsNameOf};
ghost use Rattle.fare_schedule.specs.Schedule.{revisions_of};
ghost use Rattle.tap_office.specs.Opening.{opened_of};
ghost use Rattle.command_line.specs.Arguments.{IsServeAllowed};
ghost use Rattle.journal_audit.specs.Behind.{HasFewBehind};
ghost use Rattle.std.specs.Prelude.{◌≡◌, [], true, IfOk};
ghost use Rattle.journal_service.specs.Serve.{serve_fault};

use crate::journal::{device_fault, journal_disk};
use crate::proxy::{Headers, check_proxy};
use crate::refusal::{door_fault, listen_fault};
use crate::station_line::station_posts;
use crate::system::System;
use command_line::Serve;
use console::{Detail, LimitedFiles, SystemFiles};
use door_check::door_of;
use fare_schedule::Schedule;
use journal_audit::{CommandFault, explained, look_behind, tell_behind};
use money_time::Zone;
use office_lines::{
    GateLine, Lines, Notices, Post, ServeFault, Service, TcpLines, Watch, Watched, serve_office,
};
use reply_book::NameHashing;
use station_door::StationDoor;
use std::alloc::Global;
use std::fs::File;
use std::io;
use std::io::{BufWriter, Write};
use std::marker::Brand;
use std::net::{Net, TcpListener, TcpStream};
use std::process::ExitCode;
use std::rt::Files;
use std::time::Duration;
use table_check::{first_table, schedule_of};
use tap_disk::{Disk, FileDisk, SystemError};
use tap_journal::{OpenFault, Refused};
use tap_office::{CloseCause, Desk, Named, Office, Opening, Seat};
use tcp_line::TcpLine;
use text_io::RunFault;

/// An office that is open, with a seat and a desk for each of its lines.
#[derive(Drop)]
struct OpenOffice<N: Named, D: Disk> {
    /// The office.
    office: Office<N, D>,
    /// What touches are committed from.
    seats: Vec<Seat<N>>,
    /// What balances are asked for from.
    desks: Vec<Desk<N>>,
}

/// What a server has beside its journal.
#[derive(Drop)]
struct Setting {
    /// The zone by which fare days are, where it can be had.
    zone: Option<Zone>,
    /// The door that requests have to pass, where one is asked for.
    door: Option<StationDoor>,
}

/// How an office is served, and what is told of it.
#[derive(Clone, Copy)]
struct Terms<'a> {
    /// What is watched over.
    watched: Watched<'a>,
    /// The line that tells where gates can connect.
    listening: &'a str,
    /// How many connections each line serves.
    connections: u64,
    /// For how long a gate is waited for, where one is ever given up.
    idle: Option<Duration>,
}

/// Opens the office of a journal, serves gates until all lines are done, closes the office and
/// writes the report. The tables and the door are looked at before the journal, which is made where
/// its file is empty, and open slots behind its end are told of.
///
/// A server that is strict makes no journal, and serves none with more than two open slots behind
/// its end. One on standby waits for a journal that another server has.
pub fn serve_gates<
    R: System + Files<File = File> + Net<Listener = TcpListener, Stream = TcpStream>,
>(rt: &R, hashing: NameHashing, asked: &Serve<'_>) -> Result<ExitCode, CommandFault>
    requires { IsServeAllowed asked.now }
{
    check_proxy(rt.alloc(), asked.listen, asked.proxy)?;
    let files = SystemFiles::new(rt);
    let first = first_table(rt.alloc(), &files, Some(asked.table))?;
    let digest = first.digest();
    let zone = Zone::read(first.zone_text()).ok();
    let schedule = schedule_of(rt.alloc(), &files, first, asked.revisions.as_slice())?;
    let door = door_asked(rt.alloc(), &files, asked.door)?;
    let disk = journal_disk(rt, &digest, asked)?;
    serve_journal(rt, hashing, disk, schedule, &Setting { zone, door }, asked)
}

/// The door in the file of this path, where one is asked for.
fn door_asked<F: LimitedFiles>(
    alloc: Global,
    files: &F,
    path: Option<&str>,
) -> Result<Option<StationDoor>, CommandFault> {
    let Some(path) = path else {
        return Ok(None);
    };
    match door_of(alloc, files, path) {
        Ok(door) => Ok(Some(StationDoor::new(alloc, door)?)),
        Err(fault) => Err(door_fault(fault)),
    }
}

/// Opens the office of the journal on a disk, by a schedule without a revision, and serves it.
fn serve_journal<R: System + Files<File = File> + Net<Listener = TcpListener, Stream = TcpStream>>(
    rt: &R,
    hashing: NameHashing,
    disk: FileDisk,
    schedule: Schedule,
    setting: &Setting,
    asked: &Serve<'_>,
) -> Result<ExitCode, CommandFault>
    requires unrevised { revisions_of schedule ≡ [] }
    requires allowed { IsServeAllowed asked.now }
{
    match read_opening(rt, hashing, disk, schedule, asked) {
        Ok(opening) => serve_opening::<Brand, FileDisk, R>(rt, opening, setting, asked),
        Err(fault) => Err(fault),
    }
}

/// Reads the journal on a disk, by a schedule without a revision, where a server may go on with it:
/// one that is strict goes on where at most two open slots stand behind the journal's end.
fn read_opening<D: Disk + Drop, R: AllocGlobal + Files>(
    rt: &R,
    hashing: NameHashing,
    disk: D,
    schedule: Schedule,
    asked: &Serve<'_>,
) -> Result<Opening<D>, CommandFault>
    requires unrevised { revisions_of schedule ≡ [] }
    requires allowed { IsServeAllowed asked.now }
    ensures { asked.now.strict ≡ true → IfOk result (λ opening. D.honest opening.disk
        → HasFewBehind (D.content disk)) }
{
    let seats = asked.lines as u16;
    match Opening::read(rt.alloc(), hashing, disk, schedule, asked.cards, seats) {
        Ok(opening) => {
            look_behind(rt.alloc(), asked.journal, opening.behind(), asked.strict)?;
            Ok(opening)
        }
        Err(OpenFault { disk, cause, found }) => {
            let refused = Refused { cause, found };
            Err(unopened_fault(rt.alloc(), asked, refused, disk.error()))
        }
    }
}

/// The fault of a journal that isn't opened, with its second line.
fn unopened_fault(
    alloc: Global,
    asked: &Serve<'_>,
    refused: Refused,
    said: Option<SystemError>,
) -> CommandFault {
    let fault = device_fault(alloc, asked, refused.into(), said);
    explained(alloc, asked.journal, Some(asked.table), fault)
}

/// Makes the office of an opening, by its name, listens, and serves it.
fn serve_opening<
    N: Named + Send + Sync,
    D: Disk + Drop + Send,
    R: System + Files<File = File> + Net<Listener = TcpListener, Stream = TcpStream>,
>(
    rt: &R,
    opening: Opening<D>,
    setting: &Setting,
    asked: &Serve<'_>,
) -> Result<ExitCode, CommandFault>
    requires name { IsNameOf N.opened N.name N.parts N.commit_log N.table (opened_of opening) }
    requires allowed { IsServeAllowed asked.now }
{
    let alloc = rt.alloc();
    let capacity = opening.capacity();
    let behind = opening.behind();
    let (office, seats, desks) = match opening.office::<N, R>(rt, alloc) {
        Ok(made) => made,
        Err(fault) => return Err(fault.cause.into()),
    };
    let open = OpenOffice {
        office,
        seats,
        desks,
    };
    tell_behind(rt, behind);
    let watched = watched_by(asked, capacity, open.office.opened(), setting);
    let listener = match TcpListener::bind(rt, asked.listen) {
        Ok(listener) => listener,
        Err(error) => return Err(listen_fault(alloc, asked.listen, &error)),
    };
    let halted = serve_listener(rt, open, &listener, watched, asked)?;
    Ok(status_of(halted))
}

/// Serves an office to the gates of a listener, and answers whether the journal's disk has failed.
fn serve_listener<N: Named + Send + Sync, D: Disk + Drop + Send, R: System>(
    rt: &R,
    open: OpenOffice<N, D>,
    listener: &TcpListener,
    watched: Watched<'_>,
    asked: &Serve<'_>,
) -> Result<bool, CommandFault> {
    let alloc = rt.alloc();
    let listening = listening_line(alloc, listener)?;
    let mut output = output_of(alloc, io::writer(rt))?;
    let lines = TcpLines::new(listener);
    let terms = Terms {
        watched,
        listening: &listening,
        connections: connections_of(asked),
        idle: idle_of(asked),
    };
    let headers = Headers::new(rt, asked.proxy);
    match serve_over(rt, open, &lines, &headers, terms, &mut output) {
        Ok(halted) => Ok(halted),
        Err(fault) => Err(fault_of(fault)),
    }
}

/// Serves an office over these lines, and writes the report. It answers whether the journal's disk
/// has failed. The lines and the watch over them have one lifetime.
fn serve_over<'a, N: Named + Send + Sync, D: Disk + Drop + Send, R: System, W: Write>(
    rt: &'a R,
    open: OpenOffice<N, D>,
    lines: &'a TcpLines<'a>,
    headers: &'a Headers<'a, R>,
    terms: Terms<'_>,
    output: &mut W,
) -> Result<bool, ServeFault> {
    let OpenOffice {
        office,
        seats,
        desks,
    } = open;
    let line = TcpLine::new(rt, lines, &lines.short, &lines.ended, terms.idle);
    let posts = station_posts(rt.alloc(), &line, headers, seats, desks)?;
    serve_told(rt, office, posts, lines, terms, output)
}

/// The same over these posts, with the notices about their lines.
fn serve_told<
    L: GateLine + Drop + Send,
    K: Lines + Sync,
    N: Named + Send + Sync,
    D: Disk + Drop + Send,
    R: System,
    W: Write,
>(
    rt: &R,
    office: Office<N, D>,
    posts: Vec<Post<L, N>>,
    lines: &K,
    terms: Terms<'_>,
    output: &mut W,
) -> Result<bool, ServeFault> {
    let watch = Notices::new(rt.alloc(), rt, lines, terms.watched)?;
    serve_posts(rt, office, posts, &watch, terms, output)
}

/// The same over these posts, with this watch over them.
fn serve_posts<
    L: GateLine + Drop + Send,
    N: Named + Send + Sync,
    D: Disk + Drop + Send,
    T: Watch + Sync,
    R: System,
    W: Write,
>(
    rt: &R,
    office: Office<N, D>,
    posts: Vec<Post<L, N>>,
    watch: &T,
    terms: Terms<'_>,
    output: &mut W,
) -> Result<bool, ServeFault> {
    let service = Service {
        office,
        watch,
        connections: terms.connections,
        door: terms.watched.door,
    };
    serve_office(rt, service, posts, terms.listening, output)
}

/// The command's fault where serving has failed: for want of memory and a failed write it is the
/// run's.
fn fault_of(fault: ServeFault) -> CommandFault
    ensures { result ≡ serve_fault fault }
{
    match fault {
        ServeFault::Memory => RunFault::Memory.into(),
        ServeFault::Write => RunFault::Write.into(),
        ServeFault::Close(CloseCause::SeatMissing) => CommandFault::SeatMissing,
        ServeFault::Close(CloseCause::Mismatch) => CommandFault::Mismatch,
        ServeFault::Close(CloseCause::DeskMismatch) => CommandFault::DeskMismatch,
    }
}

/// The status of a server that has ended: 1 where the journal's disk has failed.
fn status_of(halted: bool) -> ExitCode {
    if halted {
        ExitCode::from(1)
    } else {
        ExitCode::SUCCESS
    }
}

/// What is watched over at a server, whose journal has this capacity and had so many touches.
fn watched_by<'a>(
    asked: &'a Serve<'_>,
    capacity: u32,
    opened: u32,
    setting: &'a Setting,
) -> Watched<'a> {
    Watched {
        journal: asked.journal,
        ends: !asked.stay_halted,
        asked: asked.lines,
        capacity,
        opened,
        report: asked
            .report
            .map(|seconds| Duration::from_secs(u64::from(seconds))),
        zone: setting.zone,
        door: setting.door.as_ref(),
    }
}

/// For how long a gate is waited for, where one is ever given up.
fn idle_of(asked: &Serve<'_>) -> Option<Duration> {
    asked
        .idle
        .map(|seconds| Duration::from_secs(u64::from(seconds)))
}

/// How many connections each line serves: as many as come where no number is asked for. No line
/// uses 2^64 up.
fn connections_of(asked: &Serve<'_>) -> u64 {
    match asked.connections {
        Some(number) => u64::from(number),
        None => u64::MAX,
    }
}

/// The line that tells where gates can connect.
fn listening_line(alloc: Global, listener: &TcpListener) -> Result<String, CommandFault> {
    let address = match listener.local_addr() {
        Ok(address) => address,
        Err(_) => return Err(CommandFault::Listen(Detail::none())),
    };
    Ok(format!(in alloc; "listening {address}")?)
}

/// A writer to standard output that has its memory already.
fn output_of<W: Write + Drop>(alloc: Global, writer: W) -> Result<BufWriter<W>, RunFault> {
    BufWriter::new(alloc, writer).map_err(|_| RunFault::Memory)
}
