//! The program's lines: each of all its loans for one lifetime.

ghost use Rattle.std.specs.Prelude.{IfOk};
ghost use Rattle.std.specs.List.{All};
ghost use Rattle.office_lines.specs.Tally.{IsEmpty};

use crate::proxy::{Headers, connection_of};
use office_lines::{Connection, GateLine, Post, TcpLines, new_post};
use std::alloc::{AllocError, Global};
use std::net::TcpStream;
use std::time::Clock;
use tap_office::{Desk, Named, Seat};
use tcp_line::{GateReader, GateWriter, TcpLine};

/// A line over TCP whose listener is lent to it for as long as what it waits by.
#[derive(Drop)]
pub(crate) struct StationLine<'a, R> {
    /// The line.
    line: TcpLine<'a, R, TcpLines<'a>>,
    /// What is read before a connection's requests.
    headers: &'a Headers<'a, R>,
}

impl<'a, R: Clock + Eprint> StationLine<'a, R> {
    /// This line.
    pub(crate) fn over(
        line: TcpLine<'a, R, TcpLines<'a>>,
        headers: &'a Headers<'a, R>,
    ) -> StationLine<'a, R> {
        StationLine { line, headers }
    }
}

impl<'a, R: Clock + Eprint + Sync> GateLine for StationLine<'a, R> {
    type R = GateReader<'a, R, TcpStream>;

    type W = GateWriter<'a, R, TcpStream>;

    /// The next connection, behind its header where one is read. One without a whole header is
    /// closed, and the next one is waited for.
    fn connect(
        &mut self,
    ) -> Option<Connection<GateReader<'a, R, TcpStream>, GateWriter<'a, R, TcpStream>>> {
        for _ in 0..u64::MAX {
            let (reader, writer) = self.line.next()?;
            if let Some(connection) = connection_of(self.headers, reader, writer) {
                return Some(connection);
            }
        }
        None
    }
}

/// A post for each seat and desk, each with another line like this one.
pub(crate) fn station_posts<'a, N: Named, R: Clock + Eprint>(
    alloc: Global,
    line: &TcpLine<'a, R, TcpLines<'a>>,
    headers: &'a Headers<'a, R>,
    seats: Vec<Seat<N>>,
    desks: Vec<Desk<N>>,
) -> Result<Vec<Post<StationLine<'a, R>, N>>, AllocError>
    ensures { IfOk result (λ posts. All (λ post. IsEmpty post.tally) posts.items) }
{
    let mut posts = Vec::with_capacity(alloc, seats.len())?;
    for (seat, desk) in seats.into_iter().zip(desks) {
        let line = StationLine::over(line.another(), headers);
        posts.push(new_post(line, seat, desk))?;
    }
    Ok(posts)
}
