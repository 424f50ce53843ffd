//! The posts of a server: each serves the connections of one line, one after the other, at a seat
//! of the office.

ghost use Rattle.std.specs.Prelude.{◌<◌, ℕ, length, slice_index_or};
ghost use Rattle.std.specs.Thread.{IsSync};
ghost use Rattle.office_lines.specs.Post.{HasServed};

use crate::gate_line::GateLine;
use crate::notice::Watch;
use crate::sessions::serve_connection;
use crate::tally::Tally;
use station_door::StationDoor;
use std::alloc::Global;
use std::sync::Wait;
use std::thread;
use std::thread::Threads;
use std::time::Clock;
use tap_disk::Disk;
use tap_office::{Desk, Named, Office, Seat};

/// A line, with the seat and the desk from which its gates are answered, and what came of it so
/// far.
#[derive(Drop)]
pub struct Post<L, N: Named> {
    /// The line.
    pub line: L,
    /// Where its touches are committed.
    pub seat: Seat<N>,
    /// Where its balances are asked for.
    pub desk: Desk<N>,
    /// What its sessions came to.
    pub tally: Tally,
}

/// What all posts of a server serve from, and how long.
#[derive(Drop)]
pub struct Service<'a, N: Named, D: Disk, T> {
    /// The office, which commits touches and tells balances.
    pub office: Office<N, D>,
    /// Who is shown what comes of it.
    pub watch: &'a T,
    /// How many connections each post serves at most.
    pub connections: u64,
    /// The door that requests have to pass before the office, where the server has one.
    pub door: Option<&'a StationDoor>,
}

/// Serves all posts, each in a thread of its own where one can be made, and the others one after
/// the other. Each serves up to as many connections as the service says, by a million reads each at
/// most, until its line has no more, or one of its counts is above 2^62.
///
/// It waits for gates.
pub fn serve_all<
    L: GateLine + Send,
    N: Named + Send + Sync,
    D: Disk + Drop + Send,
    T: Watch + Sync,
    R: Threads + Wait + Clock + Sync,
>(rt: &R, alloc: Global, service: &Service<'_, N, D, T>, posts: &mut [Post<L, N>])
    ensures { (place : ℕ) (other : _) → place < length posts.old
        → HasServed service.now.connections
        (L.given (slice_index_or posts.old place other).line)
        (L.given (slice_index_or posts.new place other).line)
        (slice_index_or posts.old place other).tally (slice_index_or posts.new place other).tally
        (slice_index_or posts.old place other).seat (slice_index_or posts.new place other).seat
        (slice_index_or posts.old place other).desk (slice_index_or posts.new place other).desk }
{
    let threads = posts.len().max(1);
    thread::for_each_mut(
        rt,
        posts,
        threads,
        &|_, post: &mut Post<L, N>|
            requires sync { IsSync R.row }
            ensures { HasServed service.entry.now.connections (L.given post.entry.now.line)
                (L.given post.exit.now.line) post.entry.now.tally post.exit.now.tally
                post.entry.now.seat post.exit.now.seat post.entry.now.desk post.exit.now.desk }
        { serve_post(rt, alloc, service, post) },
    );
}

/// Serves the connections of a post, one after the other.
fn serve_post<L: GateLine, N: Named, D: Disk, T: Watch, R: Wait + Clock>(
    rt: &R,
    alloc: Global,
    service: &Service<'_, N, D, T>,
    post: &mut Post<L, N>,
)
    ensures { HasServed service.now.connections (L.given post.old.line) (L.given post.new.line)
        post.old.tally post.new.tally post.old.seat post.new.seat post.old.desk post.new.desk }
{
    let Post {
        line,
        seat,
        desk,
        tally,
    } = post;
    service.watch.begun();
    for _ in 0..service.connections {
        if !tally.has_room() {
            return;
        }
        let Some(mut connection) = line.connect() else {
            return;
        };
        service.watch.connected();
        let served = serve_connection(rt, alloc, service, seat, desk, &mut connection);
        tally.count(&served);
    }
}
