mod waits;

use crate::{Shortage, TcpLine};
use libc::{ECONNABORTED, EINVAL, EMFILE, ENOMEM};
use std::fmt::Display;
use std::io;
use std::io::{Read, Write};
use std::net::{OpenListener, OpenStream, SocketAddr};
use std::os::fd::{AsRawFd, RawFd};
use std::process::Abort;
use std::sync::atomic::{AtomicBool, AtomicU64, AtomicUsize, Ordering};
use std::test::Fail;
use std::time::{Clock, Duration};

/// What comes of an attempt.
#[derive(Clone, Copy)]
enum Step {
    /// Accepting fails by this number of the system's.
    Refused(i32),
    /// A gate connects, and there is no second handle for it.
    Alone,
    /// A gate connects, and closes before its first byte.
    Closed,
    /// A gate connects, and sends.
    Sends,
}

/// Gates that connect by a script.
#[derive(Drop)]
struct Script<'a> {
    steps: &'a [Step],
    made: AtomicUsize,
}

/// A gate's connection by a script.
#[derive(Drop)]
struct Connection {
    step: Step,
}

impl OpenListener for Script<'_> {
    type Stream = Connection;

    fn accept(&self) -> io::Result<(Connection, SocketAddr)> {
        let place = self.made.fetch_add(1, Ordering::Relaxed);
        let step = self.steps.get(place).copied().unwrap_or(Step::Sends);
        match step {
            Step::Refused(number) => Err(io::Error::from_raw_os_error(number)),
            step => Ok((
                Connection { step },
                SocketAddr::from(([127, 0, 0, 1], 4014)),
            )),
        }
    }
}

impl OpenStream for Connection {
    fn set_nodelay(&self, nodelay: bool) -> io::Result<()> {
        given(nodelay)
    }

    fn set_read_timeout(&self, timeout: Option<Duration>) -> io::Result<()> {
        given(timeout == Some(Duration::from_secs(1)))
    }

    fn set_write_timeout(&self, timeout: Option<Duration>) -> io::Result<()> {
        given(timeout == Some(Duration::from_secs(1)))
    }

    fn peek(&self, buf: &mut [u8]) -> io::Result<usize> {
        match self.step {
            Step::Sends => Ok(buf.len().min(1)),
            _ => Ok(0),
        }
    }

    fn try_clone(&self) -> io::Result<Connection> {
        match self.step {
            Step::Alone => Err(io::Error::from_raw_os_error(EMFILE)),
            step => Ok(Connection { step }),
        }
    }
}

/// A setting fails that isn't the one that is wanted.
fn given(wanted: bool) -> io::Result<()> {
    if wanted {
        Ok(())
    } else {
        Err(io::Error::from_raw_os_error(EINVAL))
    }
}

impl Read for Connection {
    fn read(&mut self, _buf: &mut [u8]) -> io::Result<usize> {
        Ok(0)
    }
}

impl Write for Connection {
    fn write(&mut self, buf: &[u8]) -> io::Result<usize> {
        Ok(buf.len())
    }

    fn flush(&mut self) -> io::Result<()> {
        Ok(())
    }
}

impl AsRawFd for Connection {
    fn as_raw_fd(&self) -> RawFd {
        -1
    }
}

/// Notes for how long a line waits, and how many lines are told.
#[derive(Drop)]
struct Notes {
    waited: AtomicU64,
    told: AtomicU64,
}

impl Clock for Notes {
    fn monotonic(&self) -> io::Result<Duration> {
        Ok(Duration::from_millis(self.waited.load(Ordering::Relaxed)))
    }

    fn since_1970(&self) -> io::Result<Duration> {
        self.monotonic()
    }

    fn sleep(&self, duration: Duration) {
        self.waited.fetch_add(
            u64::try_from(duration.as_millis()).unwrap_or(u64::MAX),
            Ordering::Relaxed,
        );
    }
}

impl Eprint for Notes {
    fn eprint<D: Display + Drop>(&self, _value: D) -> io::Result<()> {
        Err(io::ErrorKind::Unsupported.into())
    }

    fn eprintln<D: Display + Drop>(&self, _value: D) -> io::Result<()> {
        self.told.fetch_add(1, Ordering::Relaxed);
        Ok(())
    }
}

/// Nothing was waited for, and nothing told.
fn fresh_notes() -> Notes {
    Notes {
        waited: AtomicU64::new(0),
        told: AtomicU64::new(0),
    }
}

/// By these steps, and then by gates that send, the first connection comes after so many attempts,
/// and the line has waited for so many milliseconds and told so many lines.
fn assert_comes<R: Abort>(rt: &R, steps: &[Step], attempts: usize, waited: u64, told: u64) {
    let script = Script {
        steps,
        made: AtomicUsize::new(0),
    };
    let notes = fresh_notes();
    let flag = AtomicBool::new(false);
    let ended = AtomicBool::new(false);
    let idle = Some(Duration::from_secs(7));
    let mut line = TcpLine::new(&notes, &script, &flag, &ended, idle);
    let comes = line.next().is_some();
    let made = script.made.load(Ordering::Relaxed);
    let noted = notes.waited.load(Ordering::Relaxed);
    let lines = notes.told.load(Ordering::Relaxed);
    assert_eq!(rt; (comes, made, noted, lines), (true, attempts, waited, told));
}

/// By these steps no connection is taken up any more, and none is asked for.
fn assert_ended<R: Abort>(rt: &R, steps: &[Step]) {
    let script = Script {
        steps,
        made: AtomicUsize::new(0),
    };
    let notes = fresh_notes();
    let flag = AtomicBool::new(false);
    let ended = AtomicBool::new(true);
    let idle = Some(Duration::from_secs(7));
    let mut line = TcpLine::new(&notes, &script, &flag, &ended, idle);
    let comes = line.next().is_some();
    assert_eq!(rt; (comes, script.made.load(Ordering::Relaxed)), (false, 0));
}

#[test]
fn a_line_has_no_more_connections_once_the_lines_are_ended(rt: HostRuntime) {
    assert_ended(&rt, &[Step::Sends]);
}

#[test]
fn a_gate_that_sends_is_served(rt: HostRuntime) {
    assert_comes(&rt, &[Step::Sends], 1, 0, 0);
}

#[test]
fn a_gate_that_is_gone_is_passed_over_at_once(rt: HostRuntime) {
    assert_comes(&rt, &[Step::Refused(ECONNABORTED)], 2, 0, 0);
    assert_comes(&rt, &[Step::Closed, Step::Closed], 3, 0, 0);
    // ENETDOWN, EHOSTUNREACH and ENONET: its network failed.
    let failed = [100, 113, 64].map(Step::Refused);
    assert_comes(&rt, &failed, 4, 0, 0);
}

#[test]
fn a_shortage_is_waited_for_and_told_once(rt: HostRuntime) {
    let refused = Step::Refused(EMFILE);
    assert_comes(&rt, &[refused], 2, 10, 1);
    assert_comes(&rt, &[refused, refused, refused], 4, 70, 1);
    // 10, 20, 40, 80, 160, 320, 640, and then a second each.
    assert_comes(&rt, &[refused; 9], 10, 1_270 + 2_000, 1);
    assert_comes(&rt, &[Step::Alone, refused], 3, 30, 1);
}

#[test]
fn each_shortage_is_told(rt: HostRuntime) {
    let refused = Step::Refused(ENOMEM);
    assert_comes(&rt, &[refused, Step::Closed, refused], 4, 30, 2);
}

/// Accepting that fails by this number of the system's is told so, or by no line.
fn assert_told<R: AllocGlobal + Abort>(
    rt: &R,
    number: i32,
    line: Option<&str>,
) -> Result<(), Fail> {
    let shortage = Shortage::of(&io::Error::from_raw_os_error(number));
    let told = match shortage {
        Some(shortage) => Some(shortage.to_string(rt.alloc())?),
        None => None,
    };
    assert_eq!(rt; told.as_deref(), line);
    Ok(())
}

#[test]
fn the_numbers_of_linux_are_told_apart(rt: HostRuntime) -> Result<(), Fail> {
    // EINTR, EPIPE, ECONNABORTED, ECONNRESET, ENOTCONN, ETIMEDOUT.
    for number in [4, 32, 103, 104, 107, 110] {
        assert_told(&rt, number, None)?;
    }
    // ENETDOWN, EPROTO, ENOPROTOOPT, EHOSTDOWN, ENONET, EHOSTUNREACH, EOPNOTSUPP, ENETUNREACH.
    for number in [100, 71, 92, 112, 64, 113, 95, 101] {
        assert_told(&rt, number, None)?;
    }
    for number in [23, 24] {
        assert_told(&rt, number, Some("no descriptors"))?;
    }
    for number in [12, 105] {
        assert_told(&rt, number, Some("no memory for connections"))?;
    }
    assert_told(&rt, 22, Some("no connections 22"))?;
    let other = io::Error::from(io::ErrorKind::Other);
    assert_eq!(rt; Shortage::of(&other), Some(Shortage::Other(0)));
    Ok(())
}
