//! A line over TCP: it takes up one gate's connection after the other.

ghost use Rattle.std.specs.Prelude.{◌≡◌};

use crate::keep_alive::keep_alive;
use crate::patience::{Patience, tick};
use crate::reader::GateReader;
use crate::shortage::Shortage;
use crate::unhindered::Unhindered;
use crate::writer::GateWriter;
use std::io::{ErrorKind, Read, Write};
use std::net::{OpenListener, OpenStream};
use std::os::fd::AsRawFd;
use std::sync::atomic::{AtomicBool, Ordering};
use std::time::{Clock, Duration};
use std::{io, thread};

/// For how many milliseconds a line waits before it tries again, at the first time in a shortage.
/// Each further wait is twice as long, up to the longest.
const FIRST_PAUSE: u64 = 10;

const LONGEST_PAUSE: u64 = 1_000;

/// A line over TCP: the connections of its gates. All lines of a server take theirs from one
/// listener.
#[derive(Drop)]
pub struct TcpLine<'a, R, L> {
    /// What it waits and tells by.
    rt: &'a R,
    /// Where gates connect.
    listener: &'a L,
    /// Whether the shortage of now has been told, by whichever line.
    told: &'a AtomicBool,
    /// Whether the server's lines are ended.
    ended: &'a AtomicBool,
    /// How long a gate may be silent, leave a request half, or not take its answers.
    idle: Option<Duration>,
}

impl<'a, R: Clock + Eprint, L: OpenListener> TcpLine<'a, R, L> {
    /// A line of this listener. A gate that sends nothing, or takes none of its answers, for as
    /// long as `idle` says is given up, and so is one whose request isn't whole once its rest was
    /// waited for so long; without it none is. `told` and `ended` are one each for all lines of the
    /// listener, and `false` at first. Once `ended` is `true` each line has no more connections:
    /// one that waits for a gate sees it within a second, and one that waits at the listener once
    /// that is shut down.
    pub fn new(
        rt: &'a R,
        listener: &'a L,
        told: &'a AtomicBool,
        ended: &'a AtomicBool,
        idle: Option<Duration>,
    ) -> TcpLine<'a, R, L>
        ensures { result.idle ≡ idle }
    {
        TcpLine {
            rt,
            listener,
            told,
            ended,
            idle,
        }
    }

    /// Another line of the same listener.
    pub fn another(&self) -> TcpLine<'a, R, L>
        ensures { result.idle ≡ self.now.idle }
    {
        TcpLine::new(self.rt, self.listener, self.told, self.ended, self.idle)
    }
}

impl<'a, R: Clock + Eprint, L: OpenListener> Iterator for TcpLine<'a, R, L>
where
    L::Stream: Read + Write + OpenStream + AsRawFd,
{
    type Item = (GateReader<'a, R, L::Stream>, GateWriter<'a, R, L::Stream>);

    /// The next connection whose gate has sent a byte: one handle of it to read, and one to write.
    /// Answers are sent at once. It waits for a gate.
    ///
    /// A gate that was gone before its first byte is passed over. In a shortage (`Shortage`) the
    /// line waits, from 10 ms on and at most 1 s at a time, and tries again; the first line that
    /// meets it tells it on standard error, once until a connection is there again. `None` comes
    /// once the server's lines are ended, and after 2^64 - 1 attempts.
    fn next(&mut self) -> Option<(GateReader<'a, R, L::Stream>, GateWriter<'a, R, L::Stream>)> {
        let mut pause = FIRST_PAUSE;
        for _ in 0..u64::MAX {
            let shortage = match self.attempt() {
                Ok(Some(connection)) => return Some(self.handles(connection)),
                Ok(None) => None,
                Err(shortage) => Some(shortage),
            };
            if self.is_ended() {
                return None;
            }
            if let Some(shortage) = shortage {
                self.tell(shortage);
                thread::sleep(self.rt, Duration::from_millis(pause));
                pause = pause.saturating_mul(2).min(LONGEST_PAUSE);
            }
        }
        None
    }
}

impl<'a, R: Clock + Eprint, L: OpenListener> TcpLine<'a, R, L>
where
    L::Stream: Read + Write + OpenStream + AsRawFd,
{
    /// Whether the server's lines are ended.
    fn is_ended(&self) -> bool {
        self.ended.load(Ordering::Relaxed)
    }

    /// The handles of a connection, to read and to write.
    fn handles(
        &self,
        connection: (L::Stream, L::Stream),
    ) -> (GateReader<'a, R, L::Stream>, GateWriter<'a, R, L::Stream>) {
        let (stream, writer) = connection;
        (
            GateReader::new(self.rt, stream, self.ended, self.idle),
            GateWriter::new(self.rt, writer, self.ended, self.idle),
        )
    }

    /// One attempt. `None` where the gate was gone before its first byte, and where the server's
    /// lines are ended.
    fn attempt(&self) -> Result<Option<(L::Stream, L::Stream)>, Shortage> {
        if self.is_ended() {
            return Ok(None);
        }
        let (stream, writer) = match self.accept() {
            Ok(connection) => connection,
            Err(error) => {
                return match Shortage::of(&error) {
                    Some(shortage) => Err(shortage),
                    None => Ok(None),
                };
            }
        };
        self.told.store(false, Ordering::Relaxed);
        Ok(match self.prepare(&stream) {
            Ok(true) => Some((stream, writer)),
            Ok(false) | Err(_) => None,
        })
    }

    /// A connection, by two handles. Where there is none for the second, the gate is hung up on.
    fn accept(&self) -> io::Result<(L::Stream, L::Stream)> {
        let (stream, _) = self.listener.accept()?;
        let writer = stream.try_clone()?;
        Ok((stream, writer))
    }

    /// Sets a connection's options, and waits for its first byte. `false` where its gate closed it
    /// before that.
    fn prepare(&self, stream: &L::Stream) -> io::Result<bool> {
        stream.set_nodelay(true)?;
        stream.set_read_timeout(Some(tick()))?;
        stream.set_write_timeout(Some(tick()))?;
        keep_alive(stream.as_raw_fd());
        self.has_first_byte(stream)
    }

    /// Waits for a connection's first byte, as a reader waits for a request.
    fn has_first_byte(&self, stream: &L::Stream) -> io::Result<bool> {
        let mut patience = Patience::new(self.idle);
        for _ in 0..u64::MAX {
            match stream.peek(&mut [0]) {
                Err(error) if error.kind() == ErrorKind::WouldBlock => {
                    if self.is_ended() || patience.is_over_at_tick(self.rt) {
                        return Err(error);
                    }
                }
                peeked => return Ok(peeked? > 0),
            }
        }
        Ok(false)
    }

    /// Tells a shortage, where that wasn't done yet.
    fn tell(&self, shortage: Shortage) {
        if !self.told.swap(true, Ordering::Relaxed) {
            let _ = Unhindered(self.rt).eprintln(shortage);
        }
    }
}
