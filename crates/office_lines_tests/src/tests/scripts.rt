//! Gates that send what a script says, and listen for what it wants.

use office_lines::{Connection, GateLine};
use std::io::{ErrorKind, Read, Write};
use std::sync::atomic::{AtomicU64, Ordering};
use std::time::{Clock, Duration};
use std::{io, thread};

/// A frame that a gate sends, or that it is answered.
#[derive(Clone, Copy)]
pub enum Frame {
    /// Card 1 is issued by gate 7 at 07:50 on Monday, 6 January 2025.
    Issue,
    Issued,
    /// It is topped up by 20 pounds at 07:55.
    TopUp,
    ToppedUp,
    /// It is touched in at station 2 at 08:00, for which the journal of these tests has no room.
    Enter,
    Full,
    /// It is asked for: 2000 pence, outside, behind two touches.
    Ask,
    Holding,
    /// Fares are revised from Tuesday, 7 January 2025 on, to a table that isn't there.
    ReviseUnknown,
    UnknownTable,
    /// They are revised from that day on to the example table, the one that is there.
    Revise,
    Revised,
    /// Card 1 is issued by gate 1, and topped up by one pound.
    FirstIssue,
    FirstIssued,
    FirstTopUp,
    FirstToppedUp,
    /// Card 2 is issued by gate 2, and topped up by one pound.
    SecondIssue,
    SecondIssued,
    SecondTopUp,
    SecondToppedUp,
    /// A frame of kind 04 with the length of a frame of kind 01.
    Bad,
    BadFrame,
    /// The beginning of a frame.
    Cut,
    /// What a door doesn't let through: gate 7's issue, gate 1's top-up, and an enquiry.
    IssueNotAllowed,
    FirstTopUpNotAllowed,
    AskNotAllowed,
}

impl Frame {
    fn bytes(self) -> &'static [u8] {
        match self {
            Frame::Issue => b"\x00\x0f\x04\x00\x07\x00\x00\x00\x01\x00\x00\x00\x01\x67\x7b\x8b\x28",
            Frame::Issued => {
                b"\x00\x14\x81\x00\x07\x00\x00\x00\x01\
                    \x08\x00\x00\x00\x00\x00\x00\x00\x00\x00\x00\x00\x00"
            }
            Frame::TopUp => {
                b"\x00\x13\x03\x00\x07\x00\x00\x00\x02\
                    \x00\x00\x00\x01\x00\x00\x07\xd0\x67\x7b\x8c\x54"
            }
            Frame::ToppedUp => {
                b"\x00\x14\x81\x00\x07\x00\x00\x00\x02\
                    \x07\x00\x00\x07\xd0\x00\x00\x00\x00\x00\x00\x07\xd0"
            }
            Frame::Enter =>
                b"\x00\x11\x01\x00\x07\x00\x00\x00\x03\x00\x00\x00\x01\x00\x02\x67\x7b\x8d\x80",
            Frame::Full => b"\x00\x08\xff\x05\x00\x07\x00\x00\x00\x03",
            Frame::Ask => b"\x00\x05\x05\x00\x00\x00\x01",
            Frame::Holding => b"\x00\x0e\x85\x01\x00\x00\x00\x00\x00\x00\x07\xd0\x00\x00\x00\x02",
            Frame::ReviseUnknown => {
                b"\x00\x33\x06\x00\x07\x00\x00\x00\x03\x00\x00\x00\x00\
                    \x96\xcc\x50\xb0\x39\x6b\x0e\x93\x39\x71\xad\x24\x64\xa5\x08\xf6\
                    \x30\xc6\x46\x3f\x90\xc3\x22\xda\x83\x93\xbc\xc1\xa5\x46\xa9\xbe\
                    \x00\x00\x4e\x7f\x67\x7b\x8d\x80"
            }
            Frame::UnknownTable => b"\x00\x08\xff\x06\x00\x07\x00\x00\x00\x03",
            Frame::Revise => {
                b"\x00\x33\x06\x00\x07\x00\x00\x00\x03\x00\x00\x00\x00\
                    \x17\x08\xbe\xf1\xd8\x12\x4f\x49\x75\x3d\x74\xc2\x9f\xa7\x19\x2b\
                    \x3d\xa7\x03\xa4\x24\x81\xf5\x95\x04\xb7\x6a\x41\xec\x00\x24\x28\
                    \x00\x00\x4e\x7f\x67\x7b\x8d\x80"
            }
            Frame::Revised => {
                b"\x00\x14\x81\x00\x07\x00\x00\x00\x03\
                    \x09\x00\x00\x00\x00\x00\x00\x00\x00\x00\x00\x00\x00"
            }
            Frame::FirstIssue =>
                b"\x00\x0f\x04\x00\x01\x00\x00\x00\x01\x00\x00\x00\x01\x67\x7b\x8b\x28",
            Frame::FirstIssued => {
                b"\x00\x14\x81\x00\x01\x00\x00\x00\x01\
                    \x08\x00\x00\x00\x00\x00\x00\x00\x00\x00\x00\x00\x00"
            }
            Frame::FirstTopUp => {
                b"\x00\x13\x03\x00\x01\x00\x00\x00\x02\
                    \x00\x00\x00\x01\x00\x00\x00\x64\x67\x7b\x8c\x54"
            }
            Frame::FirstToppedUp => {
                b"\x00\x14\x81\x00\x01\x00\x00\x00\x02\
                    \x07\x00\x00\x00\x64\x00\x00\x00\x00\x00\x00\x00\x64"
            }
            Frame::SecondIssue =>
                b"\x00\x0f\x04\x00\x02\x00\x00\x00\x01\x00\x00\x00\x02\x67\x7b\x8b\x28",
            Frame::SecondIssued => {
                b"\x00\x14\x81\x00\x02\x00\x00\x00\x01\
                    \x08\x00\x00\x00\x00\x00\x00\x00\x00\x00\x00\x00\x00"
            }
            Frame::SecondTopUp => {
                b"\x00\x13\x03\x00\x02\x00\x00\x00\x02\
                    \x00\x00\x00\x02\x00\x00\x00\x64\x67\x7b\x8c\x54"
            }
            Frame::SecondToppedUp => {
                b"\x00\x14\x81\x00\x02\x00\x00\x00\x02\
                    \x07\x00\x00\x00\x64\x00\x00\x00\x00\x00\x00\x00\x64"
            }
            Frame::Bad =>
                b"\x00\x11\x04\x00\x07\x00\x00\x00\x01\x00\x00\x00\x01\x67\x7b\x8b\x28\x00\x00",
            Frame::BadFrame => b"\x00\x08\xff\x01\x00\x00\x00\x00\x00\x00",
            Frame::Cut => b"\x00\x0f\x04\x00\x07",
            Frame::IssueNotAllowed => b"\x00\x08\xff\x07\x00\x07\x00\x00\x00\x01",
            Frame::FirstTopUpNotAllowed => b"\x00\x08\xff\x07\x00\x01\x00\x00\x00\x02",
            Frame::AskNotAllowed => b"\x00\x08\xff\x07\x00\x00\x00\x00\x00\x00",
        }
    }
}

/// Up to five frames, one behind the other.
type Frames = [Option<Frame>; 5];

/// These frames.
fn frames(given: &[Frame]) -> Frames {
    [
        given.first().copied(),
        given.get(1).copied(),
        given.get(2).copied(),
        given.get(3).copied(),
        given.get(4).copied(),
    ]
}

/// How often a gate looks whether the others were answered before it gives up, a millisecond apart.
const PATIENCE: u32 = 10_000;

/// One connection: what its gate sends, a read each, and what it has to be answered.
#[derive(Clone, Copy)]
pub struct Script {
    /// Which line it comes over.
    pub line: usize,
    pub sends: Frames,
    /// How many bytes of answers have to be heard on all lines before the second is sent.
    pub after: u64,
    /// Whether a read fails behind the last of them; else the gate closes.
    pub fails: bool,
    /// How many bytes of answers the gate takes before its connection breaks.
    pub takes: usize,
    pub wanted: Frames,
}

/// A connection that is whole: its gate closes behind its last request.
pub fn whole(line: usize, sends: &[Frame], wanted: &[Frame]) -> Script {
    Script {
        line,
        sends: frames(sends),
        after: 0,
        fails: false,
        takes: 1_000,
        wanted: frames(wanted),
    }
}

/// What the gates of all lines heard.
#[derive(Drop)]
pub struct Heard {
    /// How many bytes.
    pub bytes: AtomicU64,
    /// How many of them were wrong.
    pub wrong: AtomicU64,
}

/// A line, whose connections are those of all that are its own.
#[derive(Drop)]
pub struct ScriptLine<'a, R> {
    /// The clock by which a gate waits.
    pub clock: &'a R,
    pub line: usize,
    pub scripts: &'a [Script],
    /// How many of them lie behind.
    pub next: usize,
    pub heard: &'a Heard,
}

/// A gate that sends.
#[derive(Drop)]
pub struct Sender<'a, R> {
    clock: &'a R,
    script: &'a Script,
    next: usize,
    heard: &'a Heard,
}

/// A gate that listens, and counts each byte that it shouldn't hear.
#[derive(Drop)]
pub struct Listener<'a> {
    script: &'a Script,
    took: usize,
    heard: &'a Heard,
}

impl<'a, R: Clock + Sync> GateLine for ScriptLine<'a, R> {
    type R = Sender<'a, R>;

    type W = Listener<'a>;

    fn connect(&mut self) -> Option<Connection<Sender<'a, R>, Listener<'a>>> {
        let scripts = self.scripts;
        let mut place: usize = 0;
        for script in scripts {
            place = place.saturating_add(1);
            if place > self.next && script.line == self.line {
                self.next = place;
                return Some(connection(self.clock, script, self.heard));
            }
        }
        None
    }
}

/// Both ends of a connection without a name.
fn connection<'a, R>(
    clock: &'a R,
    script: &'a Script,
    heard: &'a Heard,
) -> Connection<Sender<'a, R>, Listener<'a>> {
    let sender = Sender {
        clock,
        script,
        next: 0,
        heard,
    };
    let listener = Listener {
        script,
        took: 0,
        heard,
    };
    Connection {
        reader: sender,
        writer: listener,
        name: None,
    }
}

/// Whether so many bytes are heard on all lines, at last.
fn are_heard<R: Clock>(clock: &R, heard: &Heard, bytes: u64) -> bool {
    for _ in 0..PATIENCE {
        if heard.bytes.load(Ordering::Relaxed) >= bytes {
            return true;
        }
        thread::sleep(clock, Duration::from_millis(1));
    }
    false
}

impl<R: Clock> Read for Sender<'_, R> {
    fn read(&mut self, buf: &mut [u8]) -> io::Result<usize> {
        if self.next == 1 && !are_heard(self.clock, self.heard, self.script.after) {
            return Err(io::Error::from(ErrorKind::Other));
        }
        let Some(Some(frame)) = self.script.sends.get(self.next) else {
            if self.script.fails {
                return Err(io::Error::from(ErrorKind::Other));
            }
            return Ok(0);
        };
        let bytes = frame.bytes();
        let size = bytes.len().min(buf.len());
        buf[..size].copy_from_slice(&bytes[..size]);
        self.next = self.next.saturating_add(1);
        Ok(size)
    }
}

/// The byte at a place of these frames.
fn byte_at(frames: &Frames, place: usize) -> Option<u8> {
    let mut left = place;
    for frame in frames {
        let bytes = (*frame)?.bytes();
        if let Some(byte) = bytes.get(left) {
            return Some(*byte);
        }
        left = left.saturating_sub(bytes.len());
    }
    None
}

impl Write for Listener<'_> {
    fn write(&mut self, buf: &[u8]) -> io::Result<usize> {
        let Some(first) = buf.first() else {
            return Ok(0);
        };
        if self.took >= self.script.takes {
            return Err(io::Error::from(ErrorKind::Other));
        }
        if byte_at(&self.script.wanted, self.took) != Some(*first) {
            self.heard.wrong.fetch_add(1, Ordering::Relaxed);
        }
        self.took = self.took.saturating_add(1);
        self.heard.bytes.fetch_add(1, Ordering::Relaxed);
        Ok(1)
    }

    fn flush(&mut self) -> io::Result<()> {
        Ok(())
    }
}
