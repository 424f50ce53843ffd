//! What a gate is answered: a writer that gives up a gate which takes nothing.

use crate::patience::Patience;
use std::io;
use std::io::{ErrorKind, Write};
use std::sync::atomic::{AtomicBool, Ordering};
use std::time::{Clock, Duration};

/// What a gate is answered over its connection.
///
/// A write fails of which the gate took nothing for as long as the line gives its gates, and one
/// that waits at the end of the server's lines for a second.
#[derive(Drop)]
pub struct GateWriter<'a, R, S> {
    /// What it waits by.
    rt: &'a R,
    /// The connection.
    stream: S,
    /// Whether the server's lines are ended.
    ended: &'a AtomicBool,
    /// How long the gate may take nothing.
    patience: Patience,
}

impl<'a, R: Clock, S: Write + Drop> GateWriter<'a, R, S> {
    /// The writer of a connection whose writes look around at each tick.
    pub(crate) fn new(
        rt: &'a R,
        stream: S,
        ended: &'a AtomicBool,
        idle: Option<Duration>,
    ) -> GateWriter<'a, R, S> {
        GateWriter {
            rt,
            stream,
            ended,
            patience: Patience::new(idle),
        }
    }

    /// A tick has gone in which the gate took nothing: whether it is given up.
    fn gives_up(&mut self) -> bool {
        self.ended.load(Ordering::Relaxed) || self.patience.is_over_at_tick(self.rt)
    }
}

impl<R: Clock, S: Write + Drop> Write for GateWriter<'_, R, S> {
    fn write(&mut self, buf: &[u8]) -> io::Result<usize> {
        for _ in 0..u64::MAX {
            match self.stream.write(buf) {
                Err(error) if error.kind() == ErrorKind::WouldBlock => {
                    if self.gives_up() {
                        return Err(error);
                    }
                }
                written => {
                    self.patience.rest();
                    return written;
                }
            }
        }
        Err(io::Error::from(ErrorKind::TimedOut))
    }

    fn flush(&mut self) -> io::Result<()> {
        self.stream.flush()
    }
}
