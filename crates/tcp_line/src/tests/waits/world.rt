//! A gate that goes by a script, and a clock that waits alone turn.

use libc::EINVAL;
use std::io;
use std::io::{ErrorKind, Read, Write};
use std::net::{OpenStream, Shutdown};
use std::os::fd::{AsRawFd, RawFd};
use std::sync::atomic::{AtomicBool, AtomicU64, Ordering};
use std::time::{Clock, Duration};

/// Two requests of a gate, of 7 bytes each.
const REQUESTS: [u8; 14] = [0, 5, 5, 0, 0, 0, 1, 0, 5, 5, 0, 0, 0, 2];

/// What comes of a read, or of a write.
#[derive(Clone, Copy)]
pub(super) enum Step {
    /// Nothing, for a second.
    Tick,
    /// Nothing, for a second in which the server's lines are ended.
    Ending,
    /// So many bytes, after so many milliseconds.
    Moves(u64, usize),
}

/// A clock that waits alone turn.
#[derive(Drop)]
pub(super) struct Waits {
    pub(super) milliseconds: AtomicU64,
    /// How often it was asked.
    pub(super) asked: AtomicU64,
    /// Whether it fails.
    fails: bool,
}

impl Clock for Waits {
    fn monotonic(&self) -> io::Result<Duration> {
        self.asked.fetch_add(1, Ordering::Relaxed);
        if self.fails {
            return Err(io::Error::from_raw_os_error(EINVAL));
        }
        Ok(Duration::from_millis(self.milliseconds.load(Ordering::Relaxed)))
    }

    fn since_1970(&self) -> io::Result<Duration> {
        self.monotonic()
    }

    fn sleep(&self, duration: Duration) {
        let more = u64::try_from(duration.as_millis()).unwrap_or(u64::MAX);
        self.milliseconds.fetch_add(more, Ordering::Relaxed);
    }
}

/// What the gates of a test have to do with each other.
#[derive(Drop)]
pub(super) struct World {
    pub(super) clock: Waits,
    pub(super) ended: AtomicBool,
    /// How often a connection's answers were ended before its gate had.
    pub(super) hung_up: AtomicU64,
}

/// A gate that goes by a script, and then closes.
#[derive(Drop)]
pub(super) struct Gate<'a> {
    pub(super) world: &'a World,
    pub(super) steps: &'a [Step],
    pub(super) next: usize,
    /// How many bytes it has sent.
    pub(super) sent: usize,
}

impl Gate<'_> {
    /// How many bytes the next step moves, of so many. `Err` where it moves none in time.
    fn moves(&mut self, most: usize) -> io::Result<usize> {
        let step = self
            .steps
            .get(self.next)
            .copied()
            .unwrap_or(Step::Moves(0, 0));
        self.next = self.next.saturating_add(1);
        let Step::Moves(milliseconds, bytes) = step else {
            self.world.clock.sleep(Duration::from_secs(1));
            if let Step::Ending = step {
                self.world.ended.store(true, Ordering::Relaxed);
            }
            return Err(io::Error::from(ErrorKind::WouldBlock));
        };
        self.world.clock.sleep(Duration::from_millis(milliseconds));
        Ok(bytes.min(most))
    }
}

impl Read for Gate<'_> {
    fn read(&mut self, buf: &mut [u8]) -> io::Result<usize> {
        let size = self.moves(buf.len())?.min(buf.len());
        for byte in buf.iter_mut().take(size) {
            *byte = REQUESTS.get(self.sent).copied().unwrap_or(0);
            self.sent = self.sent.saturating_add(1);
        }
        Ok(size)
    }
}

impl Write for Gate<'_> {
    fn write(&mut self, buf: &[u8]) -> io::Result<usize> {
        Ok(self.moves(buf.len())?.min(buf.len()))
    }

    fn flush(&mut self) -> io::Result<()> {
        Ok(())
    }
}

impl OpenStream for Gate<'_> {
    fn shutdown(&self, how: Shutdown) -> io::Result<()> {
        if how != Shutdown::Write {
            return Err(io::Error::from_raw_os_error(EINVAL));
        }
        self.world.hung_up.fetch_add(1, Ordering::Relaxed);
        Ok(())
    }

    fn set_read_timeout(&self, _timeout: Option<Duration>) -> io::Result<()> {
        Ok(())
    }
}

impl AsRawFd for Gate<'_> {
    fn as_raw_fd(&self) -> RawFd {
        -1
    }
}

/// Lines that are at work, or ended, and a clock that works, or fails.
pub(super) fn new_world(ended: bool, clock_fails: bool) -> World {
    World {
        clock: Waits {
            milliseconds: AtomicU64::new(0),
            asked: AtomicU64::new(0),
            fails: clock_fails,
        },
        ended: AtomicBool::new(ended),
        hung_up: AtomicU64::new(0),
    }
}
