//! A gate line: over it gates connect, one after the other.

ghost use Rattle.std.specs.Prelude.{ℕ, Option, None, is_some, if◌then◌else◌};
ghost use Rattle.office_lines.specs.Post.{HasGivenMore};

use crate::connection::Connection;
use crate::notice::Lines;
use libc::net;
use libc::types::pollfd;
use std::io;
use std::io::{Read, Write};
use std::net::{OpenListener, SocketAddr, TcpListener, TcpStream};
use std::os::fd::{AsRawFd, RawFd};
use std::sync::atomic::{AtomicBool, AtomicU32, Ordering};

/// A line over which gates connect, one after the other.
pub trait GateLine {
    // How many connections it gave so far. A line that doesn't say is `None`.
    ghost given: { Self → Option ℕ } = { λ _. None };

    /// What a connection's requests come from.
    type R: Read + Drop + Send;

    /// What a connection's answers go to.
    type W: Write + Drop + Send;

    /// The next connection. It waits for a gate. `None` ends the line.
    fn connect(&mut self) -> Option<Connection<Self::R, Self::W>>
        ensures { HasGivenMore (given self.old) (given self.new)
            (if is_some result then 1 else 0) };
}

/// The lines of a listener. They take their gates from it, and end together.
#[derive(Drop)]
pub struct TcpLines<'a> {
    /// Where gates connect.
    listener: &'a TcpListener,
    /// Whether they are ended.
    pub ended: AtomicBool,
    /// Whether no gate can be taken up for now, for want of what the system needs for it, and that
    /// was told.
    pub short: AtomicBool,
    /// How many of them wait for a gate.
    waiting: AtomicU32,
}

impl<'a> TcpLines<'a> {
    /// The lines of this listener, none of which waits yet.
    pub fn new(listener: &'a TcpListener) -> TcpLines<'a> {
        TcpLines {
            listener,
            ended: AtomicBool::new(false),
            short: AtomicBool::new(false),
            waiting: AtomicU32::new(0),
        }
    }
}

impl OpenListener for TcpLines<'_> {
    type Stream = TcpStream;

    fn accept(&self) -> io::Result<(TcpStream, SocketAddr)> {
        self.waiting.fetch_add(1, Ordering::Relaxed);
        let accepted = self.listener.accept();
        self.waiting.fetch_sub(1, Ordering::Relaxed);
        accepted
    }
}

impl Lines for TcpLines<'_> {
    fn end(&self) {
        if !self.ended.swap(true, Ordering::Relaxed) {
            // A listener that can't be shut down leaves each line to its next connection.
            let _ = net::shutdown(self.listener.as_raw_fd(), net::SHUT_RDWR);
        }
    }

    fn waiting(&self) -> u32 {
        self.waiting.load(Ordering::Relaxed)
    }

    fn are_waited_for(&self) -> bool {
        self.waiting() == 0
            && !self.short.load(Ordering::Relaxed)
            && !self.ended.load(Ordering::Relaxed)
            && has_gate(self.listener.as_raw_fd())
    }
}

/// Whether a gate waits at a listener.
fn has_gate(listener: RawFd) -> bool {
    let mut asked = [pollfd {
        fd: listener,
        events: net::POLLIN,
        revents: 0,
    }];
    net::poll(&mut asked, 0) > 0
}
