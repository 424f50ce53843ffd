//! A gate's system by a script: lines that are read, a clock, and stations that answer. It keeps
//! what is printed and sent, and for how long was waited.

use std::alloc::{AllocError, Allocator, Global};
use std::cell::Cell;
use std::fmt::Display;
use std::io;
use std::io::{BufRead, Empty, ErrorKind, Lines, Read, Write};
use std::net::{Net, OpenListener, OpenStream, SocketAddr};
use std::os::fd::{AsRawFd, RawFd};
use std::time::{Clock, Duration};

/// For how many milliseconds the scripts' stations are waited for.
pub(super) const TIMEOUT: u32 = 2_000;

/// The moment of the issue, 2025-01-06 07:50:00 UTC.
pub(super) const MOMENT: u32 = 1_736_149_800;

/// What comes of a try to connect.
#[derive(Clone, Copy)]
pub(super) enum Try<'a> {
    /// No connection.
    Unreached,
    /// A connection that lets none of its settings be made.
    Unset,
    /// A connection that takes no byte.
    Untaken,
    /// A connection that takes all, from which these bytes are read. Then it ends.
    Gives(&'a [u8]),
}

impl<'a> Try<'a> {
    /// What is read from the connection.
    fn given(self) -> &'a [u8] {
        match self {
            Try::Gives(bytes) => bytes,
            _ => &[],
        }
    }
}

/// The lines of a run, its stations and its clock.
#[derive(Clone, Copy)]
pub(super) struct Script<'a> {
    /// What each read of a line gives.
    pub(super) input: &'a [&'a [u8]],
    /// How the read behind the last line fails. The input ends where it doesn't.
    pub(super) failure: Option<ErrorKind>,
    /// How many lines can be printed.
    pub(super) room: usize,
    /// What comes of each try to connect. Behind the last none comes.
    pub(super) tries: &'a [Try<'a>],
    /// The time since 1970-01-01 00:00:00 UTC, where the clock can be read.
    pub(super) now: Option<Duration>,
}

/// A run by a script, and what came of it.
#[derive(Drop)]
pub(super) struct World<'a> {
    alloc: Global,
    script: Script<'a>,
    /// How many lines were asked for.
    read: Cell<usize>,
    /// How many connections were asked for.
    tried: Cell<usize>,
    /// How many lines were printed.
    count: Cell<usize>,
    /// What the last connection gives yet.
    unread: Cell<&'a [u8]>,
    /// What standard output got.
    pub(super) printed: Cell<String>,
    /// What standard error got.
    pub(super) told: Cell<String>,
    /// What was sent, over all connections.
    pub(super) sent: Cell<Vec<u8>>,
    /// For how many milliseconds was waited.
    pub(super) waited: Cell<u64>,
}

impl<'a> World<'a> {
    /// A run of which nothing was done.
    pub(super) fn new(alloc: Global, script: Script<'a>) -> World<'a> {
        let none: &'a [u8] = &[];
        World {
            alloc,
            script,
            read: Cell::new(0),
            tried: Cell::new(0),
            count: Cell::new(0),
            unread: Cell::new(none),
            printed: Cell::new(String::new(alloc)),
            told: Cell::new(String::new(alloc)),
            sent: Cell::new(Vec::new(alloc)),
            waited: Cell::new(0),
        }
    }
}

/// The system of a run.
#[derive(Drop)]
pub(super) struct Gate<'w, 'a> {
    pub(super) world: &'w World<'a>,
}

/// A connection of a run.
#[derive(Drop)]
pub(super) struct Connection<'w, 'a> {
    world: &'w World<'a>,
    is_set: bool,
    takes: bool,
}

/// No gate listens.
#[derive(Drop)]
pub(super) struct Listener<'w, 'a> {
    world: &'w World<'a>,
}

/// Adds a value to a text, and what stands behind it.
fn add<D: Display>(
    alloc: Global,
    text: &Cell<String>,
    value: &D,
    end: &str,
) -> Result<(), AllocError> {
    let more = format!(in alloc; "{value}{end}")?;
    let mut whole = text.replace(String::new(alloc));
    let added = whole.push_str(more.as_str());
    text.set(whole);
    added
}

/// Adds bytes to others.
fn add_bytes(alloc: Global, bytes: &Cell<Vec<u8>>, more: &[u8]) -> Result<(), AllocError> {
    let mut whole = bytes.replace(Vec::new(alloc));
    let added = whole.extend_from_slice(more);
    bytes.set(whole);
    added
}

/// One more.
fn count_one(count: &Cell<usize>) {
    count.set(count.get().saturating_add(1));
}

impl Alloc for Gate<'_, '_> {
    type A = Global;

    fn alloc(&self) -> Global {
        self.world.alloc
    }
}

impl Input for Gate<'_, '_> {
    type Reader = Empty;

    fn read_line<A: Allocator + Clone>(&self, buf: &mut String<A>) -> io::Result<usize> {
        let place = self.world.read.get();
        count_one(&self.world.read);
        let script = self.world.script;
        let Some(mut line) = script.input.get(place).copied() else {
            return match script.failure {
                Some(kind) => Err(io::Error::from(kind)),
                None => Ok(0),
            };
        };
        line.read_line(buf)
    }

    fn lines<A: Allocator>(&self, alloc: A) -> Lines<Empty, A> {
        io::empty().lines(alloc)
    }

    fn reader(&self) -> Empty {
        io::empty()
    }
}

impl Print for Gate<'_, '_> {
    fn print<D: Display + Drop>(&self, value: D) -> io::Result<()> {
        Ok(add(self.world.alloc, &self.world.printed, &value, "")?)
    }

    fn println<D: Display + Drop>(&self, value: D) -> io::Result<()> {
        if self.world.count.get() >= self.world.script.room {
            return Err(ErrorKind::BrokenPipe.into());
        }
        count_one(&self.world.count);
        Ok(add(self.world.alloc, &self.world.printed, &value, "\n")?)
    }

    fn write_all(&self, _bytes: &[u8]) -> io::Result<()> {
        Err(ErrorKind::Unsupported.into())
    }
}

impl Eprint for Gate<'_, '_> {
    fn eprint<D: Display + Drop>(&self, value: D) -> io::Result<()> {
        Ok(add(self.world.alloc, &self.world.told, &value, "")?)
    }

    fn eprintln<D: Display + Drop>(&self, value: D) -> io::Result<()> {
        Ok(add(self.world.alloc, &self.world.told, &value, "\n")?)
    }
}

impl Clock for Gate<'_, '_> {
    fn monotonic(&self) -> io::Result<Duration> {
        Err(ErrorKind::Unsupported.into())
    }

    fn since_1970(&self) -> io::Result<Duration> {
        match self.world.script.now {
            Some(now) => Ok(now),
            None => Err(ErrorKind::Unsupported.into()),
        }
    }

    fn sleep(&self, duration: Duration) {
        let more = u64::try_from(duration.as_millis()).unwrap_or(u64::MAX);
        let waited = self.world.waited.get().saturating_add(more);
        self.world.waited.set(waited);
    }
}

impl<'w, 'a> Net for Gate<'w, 'a> {
    type Stream = Connection<'w, 'a>;

    type Listener = Listener<'w, 'a>;

    fn bind(&self, _addr: SocketAddr) -> io::Result<Listener<'w, 'a>> {
        Err(ErrorKind::Unsupported.into())
    }

    fn connect(&self, _addr: SocketAddr) -> io::Result<Connection<'w, 'a>> {
        Err(ErrorKind::Unsupported.into())
    }

    fn connect_timeout(
        &self,
        _addr: SocketAddr,
        timeout: Duration,
    ) -> io::Result<Connection<'w, 'a>> {
        let place = self.world.tried.get();
        count_one(&self.world.tried);
        let script = self.world.script;
        let found = script.tries.get(place).copied();
        let tried = found.unwrap_or(Try::Unreached);
        if matches!(tried, Try::Unreached) {
            return Err(ErrorKind::ConnectionRefused.into());
        }
        self.world.unread.set(tried.given());
        Ok(Connection {
            world: self.world,
            is_set: is_wanted(Some(timeout)) && !matches!(tried, Try::Unset),
            takes: !matches!(tried, Try::Untaken),
        })
    }
}

impl<'w, 'a> OpenListener for Listener<'w, 'a> {
    type Stream = Connection<'w, 'a>;

    fn accept(&self) -> io::Result<(Connection<'w, 'a>, SocketAddr)> {
        count_one(&self.world.tried);
        Err(ErrorKind::Unsupported.into())
    }
}

impl AsRawFd for Listener<'_, '_> {
    fn as_raw_fd(&self) -> RawFd {
        -1
    }
}

impl AsRawFd for Connection<'_, '_> {
    fn as_raw_fd(&self) -> RawFd {
        -1
    }
}

/// Whether a time is that for which a station is waited for.
fn is_wanted(timeout: Option<Duration>) -> bool {
    timeout == Some(Duration::from_millis(u64::from(TIMEOUT)))
}

/// A setting that can be made, or can't.
fn set(is_set: bool) -> io::Result<()> {
    if is_set {
        Ok(())
    } else {
        Err(ErrorKind::InvalidInput.into())
    }
}

impl OpenStream for Connection<'_, '_> {
    fn set_nodelay(&self, nodelay: bool) -> io::Result<()> {
        set(self.is_set && nodelay)
    }

    fn set_read_timeout(&self, timeout: Option<Duration>) -> io::Result<()> {
        set(self.is_set && is_wanted(timeout))
    }

    fn set_write_timeout(&self, timeout: Option<Duration>) -> io::Result<()> {
        set(self.is_set && is_wanted(timeout))
    }

    fn try_clone(&self) -> io::Result<Self> {
        Ok(Connection {
            world: self.world,
            is_set: self.is_set,
            takes: self.takes,
        })
    }
}

impl Read for Connection<'_, '_> {
    fn read(&mut self, buf: &mut [u8]) -> io::Result<usize> {
        let mut rest = self.world.unread.get();
        let read = rest.read(buf);
        self.world.unread.set(rest);
        read
    }
}

impl Write for Connection<'_, '_> {
    fn write(&mut self, buf: &[u8]) -> io::Result<usize> {
        if !self.takes {
            return Ok(0);
        }
        add_bytes(self.world.alloc, &self.world.sent, buf)?;
        Ok(buf.len())
    }

    fn flush(&mut self) -> io::Result<()> {
        Ok(())
    }
}
