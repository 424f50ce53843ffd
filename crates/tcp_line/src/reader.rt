//! What a gate sends: a reader that gives up a gate which is too slow, and ends with the server.

ghost use Rattle.std.specs.Io.{ReadsAtMost};

use crate::hang_up::hang_up;
use crate::patience::{Patience, tick};
use crate::place::Place;
use libc::net;
use libc::types::pollfd;
use std::io;
use std::io::{ErrorKind, Read};
use std::net::OpenStream;
use std::os::fd::{AsRawFd, RawFd};
use std::sync::atomic::{AtomicBool, Ordering};
use std::time::{Clock, Duration};

/// What a gate sends over its connection.
///
/// A read fails that brought nothing for as long as the line gives its gates, and one whose request
/// isn't whole once its rest was waited for so long, in all reads that begin inside it. What is
/// there when the server reads is never late, whatever the server did before. Once the server's
/// lines are ended, what the gate has sent is read, for a second at most, and then a read fails.
///
/// Where it is dropped before the gate's end was read, as behind bytes that are no frame, the gate
/// is let take its answers first: `hang_up`.
pub struct GateReader<'a, R: Clock, S: Read + OpenStream + AsRawFd + Drop> {
    /// What it waits by.
    rt: &'a R,
    /// The connection.
    stream: S,
    /// Whether the server's lines are ended.
    ended: &'a AtomicBool,
    /// How long a request is waited for.
    patience: Patience,
    /// How long a gate is read once the lines are ended.
    leaving: Patience,
    /// Where the bytes that came stand in the gate's frames.
    place: Place,
    /// Whether the gate's end was read, or a read failed.
    over: bool,
}

impl<'a, R: Clock, S: Read + OpenStream + AsRawFd + Drop> GateReader<'a, R, S> {
    /// The reader of a connection whose reads look around at each tick.
    pub(crate) fn new(
        rt: &'a R,
        stream: S,
        ended: &'a AtomicBool,
        idle: Option<Duration>,
    ) -> GateReader<'a, R, S> {
        GateReader {
            rt,
            stream,
            ended,
            patience: Patience::new(idle),
            leaving: Patience::new(Some(tick())),
            place: Place::Between,
            over: false,
        }
    }

    /// Reads what the gate sends next, however many ticks go by before it is given up.
    fn read_on(&mut self, buf: &mut [u8]) -> io::Result<usize>
        ensures { ReadsAtMost result buf.new }
    {
        if self.ended.load(Ordering::Relaxed) && self.has_ended() {
            return Err(io::Error::from(ErrorKind::TimedOut));
        }
        for _ in 0..u64::MAX {
            match self.stream.read(buf) {
                Err(error) if error.kind() == ErrorKind::WouldBlock => {
                    if self.gives_up() {
                        return Err(error);
                    }
                }
                read => return read,
            }
        }
        Err(io::Error::from(ErrorKind::TimedOut))
    }

    /// The server's lines are ended: whether what the gate has sent is read. A gate that goes on
    /// sending is read for a second.
    fn has_ended(&mut self) -> bool {
        !has_bytes(self.stream.as_raw_fd()) || self.leaving.is_over_from_now(self.rt)
    }

    /// A tick has gone in which nothing came: whether the gate is given up.
    fn gives_up(&mut self) -> bool {
        self.ended.load(Ordering::Relaxed) || self.patience.is_over_at_tick(self.rt)
    }

    /// A read begins: inside a request its rest is waited for from now on. A clock is asked only
    /// there, and only where a gate can be given up.
    fn begin_wait(&mut self) {
        if self.patience.ends() && self.place != Place::Between {
            self.patience.begin(self.rt);
        }
    }

    /// These bytes came: whether the request that they go on with is whole, or not late yet.
    fn is_in_time(&mut self, bytes: &[u8]) -> bool {
        if !self.patience.ends() {
            return true;
        }
        let (place, begins) = self.place.pass(bytes);
        self.place = place;
        if begins || place == Place::Between {
            self.patience.rest();
            return true;
        }
        !self.patience.is_over_at_pause(self.rt)
    }
}

impl<R: Clock, S: Read + OpenStream + AsRawFd + Drop> Read for GateReader<'_, R, S> {
    fn read(&mut self, buf: &mut [u8]) -> io::Result<usize> {
        self.begin_wait();
        let size = match self.read_on(buf) {
            Ok(size) => size,
            Err(error) => {
                self.over = true;
                return Err(error);
            }
        };
        if size == 0 {
            self.over = true;
        } else if !self.is_in_time(&buf[..size]) {
            self.over = true;
            return Err(io::Error::from(ErrorKind::TimedOut));
        }
        Ok(size)
    }
}

impl<R: Clock, S: Read + OpenStream + AsRawFd + Drop> Drop for GateReader<'_, R, S> {
    fn drop(mut self) {
        if !self.over {
            hang_up(self.rt, &mut self.stream);
        }
        let GateReader {
            rt: _,
            stream: _stream,
            ended: _,
            patience: _,
            leaving: _,
            place: _,
            over: _,
        } = self;
    }
}

/// Whether a read of this connection would not wait.
fn has_bytes(connection: RawFd) -> bool {
    let mut asked = [pollfd {
        fd: connection,
        events: net::POLLIN,
        revents: 0,
    }];
    net::poll(&mut asked, 0) > 0
}
