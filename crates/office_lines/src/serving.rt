//! An office that is served to its end: all its posts at once, then its closing and the report.

ghost use Rattle.std.specs.Prelude.{◌≡◌, ◌≤◌, [], length, vec_capacity, IfOk};
ghost use Rattle.std.specs.Thread.{IsSync};
ghost use Rattle.office_lines.specs.Report.{IsTold};

use crate::beside::{Over, look_around};
use crate::fault::ServeFault;
use crate::gate_line::GateLine;
use crate::notice::Watch;
use crate::post::{Post, Service, serve_all};
use crate::posts::{seats_and_desks, tallies_of};
use crate::report::{write_opened, write_report};
use crate::tally::Tally;
use std::alloc::{AllocError, Global};
use std::io::Write;
use std::sync::Wait;
use std::thread;
use std::thread::Threads;
use std::time::Clock;
use tap_disk::Disk;
use tap_office::{Desk, Named, Office, Seat};

/// An office with the posts that serve from it, and with the memory that its end needs.
#[derive(Drop)]
struct Ready<'a, L, N: Named, D: Disk, T> {
    /// What the posts serve from.
    service: Service<'a, N, D, T>,
    /// The posts.
    posts: Vec<Post<L, N>>,
    /// Where the seats are put, at the end.
    seats: Vec<Seat<N>>,
    /// Where the desks are put.
    desks: Vec<Desk<N>>,
    /// Where the tallies are put.
    tallies: Vec<Tally>,
}

/// What came of an office that was served and closed.
#[derive(Drop)]
struct Ended {
    /// What each line's sessions came to.
    tallies: Vec<Tally>,
    /// Whether the journal's disk has failed.
    halted: bool,
    /// How many entries the history has.
    entries: u32,
}

/// Serves an office's posts, closes it, and writes the report. From the first connection on it
/// takes no memory of its own. It answers whether the journal's disk has failed.
///
/// Each post serves up to as many connections as the service says, until its line has no more.
/// Standard error may be closed: the line that tells of the listening is lost then. At Memory no
/// gate was served. At Write the first line or the report wasn't written, and at Close the office
/// couldn't be closed: then the journal has each touch that was answered.
pub fn serve_office<
    L: GateLine + Drop + Send,
    N: Named + Send + Sync,
    D: Disk + Drop + Send,
    T: Watch + Sync,
    W: Write,
    R: AllocGlobal + Threads + Wait + Clock + Sync + Eprint,
>(
    rt: &R,
    service: Service<'_, N, D, T>,
    posts: Vec<Post<L, N>>,
    listening: &str,
    output: &mut W,
) -> Result<bool, ServeFault>
    ensures { IfOk result (λ halted. IsTold (length N.opened.recovered) halted
        (W.contents output.old) (W.contents output.new)) }
{
    let alloc = rt.alloc();
    let ready = ready_for(alloc, service, posts)?;
    let _ = rt.eprintln(listening);
    write_opened(output, ready.service.office.opened())?;
    let ended = serve_watched(rt, alloc, ready)?;
    write_report(output, &ended.tallies, ended.halted, ended.entries)?;
    Ok(ended.halted)
}

/// The office with the memory that its end needs, for a seat and a tally of each post.
fn ready_for<'a, L: Drop, N: Named, D: Disk + Drop, T>(
    alloc: Global,
    service: Service<'a, N, D, T>,
    posts: Vec<Post<L, N>>,
) -> Result<Ready<'a, L, N, D, T>, AllocError>
    ensures posts { IfOk result (λ ready. ready.posts.items ≡ posts.items) }
    ensures no_seats { IfOk result (λ ready. ready.seats.items ≡ []) }
    ensures no_tallies { IfOk result (λ ready. ready.tallies.items ≡ []) }
    ensures no_desks { IfOk result (λ ready. ready.desks.items ≡ []) }
    ensures seats { IfOk result (λ ready. length posts.items ≤ vec_capacity ready.seats) }
    ensures desks { IfOk result (λ ready. length posts.items ≤ vec_capacity ready.desks) }
    ensures tallies { IfOk result (λ ready. length posts.items ≤ vec_capacity ready.tallies) }
{
    let seats = Vec::with_capacity(alloc, posts.len())?;
    let desks = Vec::with_capacity(alloc, posts.len())?;
    let tallies = Vec::with_capacity(alloc, posts.len())?;
    Ok(Ready {
        service,
        posts,
        seats,
        desks,
        tallies,
    })
}

/// Serves the posts of an office, and closes it. Beside them a thread looks around, where one can
/// be made.
fn serve_watched<
    L: GateLine + Drop + Send,
    N: Named + Send + Sync,
    D: Disk + Drop + Send,
    T: Watch + Sync,
    R: Threads + Wait + Clock + Sync,
>(rt: &R, alloc: Global, ready: Ready<'_, L, N, D, T>) -> Result<Ended, ServeFault>
    requires no_seats { ready.seats.items ≡ [] }
    requires no_tallies { ready.tallies.items ≡ [] }
    requires seats { length ready.posts.items ≤ vec_capacity ready.seats }
    requires no_desks { ready.desks.items ≡ [] }
    requires desks { length ready.posts.items ≤ vec_capacity ready.desks }
    requires tallies { length ready.posts.items ≤ vec_capacity ready.tallies }
{
    let over = Over::new();
    let watch = ready.service.watch;
    // Where no thread can be made the first one runs last, and ends at once.
    let (_, ended) = thread::join(
        rt,
        || look_around(rt, watch, &over),
        ||
            requires sync { IsSync R.row }
            requires no_seats { ready.seats.items ≡ [] }
            requires no_tallies { ready.tallies.items ≡ [] }
            requires seats { length ready.posts.items ≤ vec_capacity ready.seats }
            requires no_desks { ready.desks.items ≡ [] }
            requires desks { length ready.posts.items ≤ vec_capacity ready.desks }
            requires tallies { length ready.posts.items ≤ vec_capacity ready.tallies }
        { serve_ready(rt, alloc, ready, &over) },
    );
    ended
}

/// Serves the posts of an office, and closes it. It takes no memory of its own, and says when the
/// lines have served all.
fn serve_ready<
    L: GateLine + Drop + Send,
    N: Named + Send + Sync,
    D: Disk + Drop + Send,
    T: Watch + Sync,
    R: Threads + Wait + Clock + Sync,
>(rt: &R, alloc: Global, ready: Ready<'_, L, N, D, T>, over: &Over) -> Result<Ended, ServeFault>
    requires no_seats { ready.seats.items ≡ [] }
    requires no_tallies { ready.tallies.items ≡ [] }
    requires seats { length ready.posts.items ≤ vec_capacity ready.seats }
    requires no_desks { ready.desks.items ≡ [] }
    requires desks { length ready.posts.items ≤ vec_capacity ready.desks }
    requires tallies { length ready.posts.items ≤ vec_capacity ready.tallies }
{
    let Ready {
        service,
        posts,
        seats,
        desks,
        tallies,
    } = ready;
    let mut posts = posts;
    serve_all(rt, alloc, &service, posts.as_mut_slice());
    over.set();
    let tallies = tallies_of(posts.as_slice(), tallies);
    let (seats, desks) = seats_and_desks(posts, seats, desks);
    let (halted, entries) = close_office(rt, service.office, seats, &desks)?;
    Ok(Ended {
        tallies,
        halted,
        entries,
    })
}

/// Closes an office: whether the journal's disk has failed, and how many entries the history has.
fn close_office<N: Named, D: Disk + Drop, R: Wait>(
    rt: &R,
    office: Office<N, D>,
    seats: Vec<Seat<N>>,
    desks: &[Desk<N>],
) -> Result<(bool, u32), ServeFault> {
    match office.close(rt, seats, desks) {
        Ok(closed) => Ok((closed.halted, closed.book.len())),
        Err(fault) => Err(ServeFault::Close(fault.cause)),
    }
}
