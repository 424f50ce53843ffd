//! The header with which a proxy begins each connection, and who may be such a proxy.

ghost use Rattle.std.specs.Prelude.{◌≡◌, ℕ, List, None, true, false, IfSome, option_map};
ghost use Rattle.std.specs.Io.KnownBytes.{Consumes};
ghost use Rattle.proxy_header.specs.Header.{IsHeader, name_text};

use console::Detail;
use journal_audit::CommandFault;
use office_lines::{BETWEEN_LINES, Connection};
use proxy_header::{HeaderFault, read_header};
use std::alloc::Global;
use std::fmt;
use std::fmt::Display;
use std::io::Read;
use std::net::SocketAddr;
use std::sync::atomic::{AtomicU64, Ordering};
use std::time::{Clock, Duration};
use tcp_line::Unhindered;

/// What is said of an address that isn't a loopback one, where a proxy's headers are read.
const NOT_LOOPBACK: &str = "--proxy needs a loopback address, such as 127.0.0.1:4014";

/// The headers of a server's connections: whether they are read, and when it was told that one was
/// none.
#[derive(Drop)]
pub(crate) struct Headers<'a, R> {
    /// What is told by.
    rt: &'a R,
    /// Whether each connection begins with one.
    are_read: bool,
    /// When it was told last, in milliseconds of the clock and not 0. 0 before.
    told: AtomicU64,
}

/// The line that tells why the first bytes of a connection are no header.
#[derive(Clone, Copy)]
struct NoHeader(HeaderFault);

impl Display for NoHeader {
    fn fmt<W: fmt::Write>(&self, f: &mut fmt::Formatter<W>) -> fmt::Result {
        let fault = self.0;
        write!(f, "no proxy header: {fault}")
    }
}

impl<'a, R: Clock + Eprint> Headers<'a, R> {
    /// Headers that are read, or not. Nothing was told of them yet.
    pub(crate) fn new(rt: &'a R, are_read: bool) -> Headers<'a, R> {
        Headers {
            rt,
            are_read,
            told: AtomicU64::new(0),
        }
    }

    /// Tells that a connection has no header, at most once a minute. What standard error doesn't
    /// take at once is dropped.
    fn tell(&self, fault: HeaderFault) {
        let now = self.rt.monotonic().unwrap_or(Duration::ZERO).as_millis();
        let now = u64::try_from(now).unwrap_or(u64::MAX).max(1);
        let told = self.told.load(Ordering::Relaxed);
        if told > 0 && now.saturating_sub(told) < BETWEEN_LINES {
            return;
        }
        if self.told.swap(now, Ordering::Relaxed) == told {
            let _ = Unhindered(self.rt).eprintln(NoHeader(fault));
        }
    }
}

/// A connection with the name that its header says, where headers are read; none is read else, and
/// the connection has no name. `None` where the header isn't there, which is told.
pub(crate) fn connection_of<'a, R: Clock + Eprint, I: Read + Drop, O: Drop>(
    headers: &Headers<'a, R>,
    reader: I,
    writer: O,
) -> Option<Connection<I, O>>
    ensures header { headers.now.are_read ≡ true → IfSome result (λ connection. (bytes : List ℕ)
        × Consumes (I.remaining reader) (I.remaining connection.reader) bytes
        × IsHeader bytes (option_map name_text connection.name)) }
    ensures none { headers.now.are_read ≡ false → IfSome result (λ connection.
        (connection.reader ≡ reader) × (connection.name ≡ None)) }
{
    if !headers.are_read {
        return Some(Connection {
            reader,
            writer,
            name: None,
        });
    }
    let mut reader = reader;
    match read_header(&mut reader) {
        Ok(header) => Some(Connection {
            reader,
            writer,
            name: header.name,
        }),
        Err(fault) => {
            headers.tell(fault);
            None
        }
    }
}

/// Whether a proxy's headers may be read at an address: anybody who reaches it could write one, so
/// it is the machine's own. An address that is written by a name isn't taken for such a one.
pub(crate) fn check_proxy(
    alloc: Global,
    address: &str,
    is_asked: bool,
) -> Result<(), CommandFault> {
    if !is_asked || is_loopback(address) {
        return Ok(());
    }
    Err(CommandFault::Listen(Detail::of(alloc, address, &NOT_LOOPBACK)))
}

/// Whether this is the number of a loopback address with a port.
fn is_loopback(address: &str) -> bool {
    match address.parse::<SocketAddr>() {
        Ok(address) => address.ip().is_loopback(),
        Err(_) => false,
    }
}
