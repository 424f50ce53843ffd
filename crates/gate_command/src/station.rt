//! The lines to a station over TCP: each of its addresses once, and then a pause. The pauses grow.

ghost use Rattle.std.specs.Prelude.{⊤};

use crate::arguments::LONGEST_PAUSE;
use gate_client::{HearFault, Line, Station, TryFault};
use std::net::{Net, OpenStream, TcpStream, ToSocketAddrs};
use std::time::{Clock, Duration};
use std::{io, thread};

/// A station over TCP.
#[derive(Drop)]
pub(crate) struct TcpStation<'a, R> {
    /// What it connects, waits and tells by.
    rt: &'a R,
    /// Its addresses.
    addresses: &'a [&'a str],
    /// Which of them the next line is made to.
    next: usize,
    /// How many tries failed since the last pause, or since the last request was settled.
    tried: usize,
    /// Whether the line in use was made for an earlier request.
    is_old: bool,
    /// How long a connection, a read or a write may take.
    timeout: Duration,
    /// The first pause, in milliseconds.
    first: u32,
    /// The next pause, in milliseconds.
    pause: u32,
}

impl<'a, R: Net + Clock + Eprint> TcpStation<'a, R> {
    /// The station with these addresses, of which the first is taken first, and with this first
    /// pause.
    pub(crate) fn new(
        rt: &'a R,
        addresses: &'a [&'a str],
        timeout: Duration,
        first: u32,
    ) -> TcpStation<'a, R> {
        TcpStation {
            rt,
            addresses,
            next: 0,
            tried: 0,
            is_old: false,
            timeout,
            first,
            pause: first,
        }
    }

    /// A request is settled: the next one begins with its line, with no failed try, and its first
    /// pause is the first again.
    pub(crate) fn rest(&mut self) {
        self.is_old = true;
        self.tried = 0;
        self.pause = self.first;
    }

    /// The address that the next line is made to.
    fn address(&self) -> &'a str {
        self.addresses.get(self.next).copied().unwrap_or("")
    }

    /// The next pause, shorter by a part of up to a half that other gates don't have alike.
    fn next_pause(&mut self) -> Duration {
        let part = match self.rt.since_1970() {
            Ok(now) => now.subsec_micros() % 1_000,
            Err(_) => 0,
        };
        let pause = u64::from(self.pause);
        self.pause = self.pause.saturating_mul(2).min(LONGEST_PAUSE);
        Duration::from_micros((pause * 1_000).saturating_sub(pause * u64::from(part) / 2))
    }
}

impl<R: Net + Clock + Eprint> Station<R::Stream, R::Stream> for TcpStation<'_, R> {
    ghost made = { λ _. ⊤ };

    fn connect(&mut self) -> Option<Line<R::Stream, R::Stream>> {
        self.is_old = false;
        line_to(self.rt, self.address(), self.timeout).ok()
    }

    fn failed(&mut self, fault: TryFault) {
        let address = self.address();
        let _ = eprintln!(self.rt; "again {address} {fault}");
        let next = self.next.saturating_add(1);
        self.next = if next < self.addresses.len() { next } else { 0 };
        // A server may have ended the line while it was idle: that is no failure of its address.
        let has_ended = matches!(
            fault,
            TryFault::Cut | TryFault::Unheard(HearFault::NoAnswer)
        );
        if !(self.is_old && has_ended) {
            self.tried = self.tried.saturating_add(1);
        }
        // Another address may answer at once (PROTOCOL.md, "When to repeat, and how often").
        if self.tried >= self.addresses.len() {
            self.tried = 0;
            let pause = self.next_pause();
            thread::sleep(self.rt, pause);
        }
    }
}

/// A line to an address. Each of the addresses that a host's name has is tried.
fn line_to<R: Net>(
    rt: &R,
    address: &str,
    timeout: Duration,
) -> io::Result<Line<R::Stream, R::Stream>> {
    let mut last = io::Error::from(io::ErrorKind::InvalidInput);
    for found in address.to_socket_addrs(rt)? {
        match TcpStream::connect_timeout(rt, &found, timeout) {
            Ok(stream) => return line_over(stream, timeout),
            Err(error) => last = error,
        }
    }
    Err(last)
}

/// The line of a connection, with its times. Its ends are clones, whose descriptors are above 2:
/// where the program was started with standard output closed, what is printed would go to the
/// station.
fn line_over<S: OpenStream + Drop>(stream: S, timeout: Duration) -> io::Result<Line<S, S>> {
    stream.set_nodelay(true)?;
    stream.set_read_timeout(Some(timeout))?;
    stream.set_write_timeout(Some(timeout))?;
    let reader = stream.try_clone()?;
    let writer = stream.try_clone()?;
    Ok(Line { reader, writer })
}
