//! A reader, a writer and a clerk that give, take and answer as a session needs it.

use gate_session::{Answer, Clerk};
use oyster_account::{CardState, CardView, Reply, Touch};
use std::cell::Cell;
use std::io;
use std::io::{ErrorKind, Read, Write};
use std::sync::Wait;

/// Gives a frame a read, and fails where the answers to those before it weren't all written yet:
/// 22 bytes each.
#[derive(Drop)]
pub struct Patient<'a> {
    pub frames: &'a [&'a [u8]],
    pub given: usize,
    pub written: &'a Cell<usize>,
}

impl Read for Patient<'_> {
    fn read(&mut self, buf: &mut [u8]) -> io::Result<usize> {
        if self.written.get() / 22 != self.given {
            return Err(io::Error::from(ErrorKind::Other));
        }
        let Some(frame) = self.frames.get(self.given) else {
            return Ok(0);
        };
        let size = frame.len().min(buf.len());
        buf[..size].copy_from_slice(&frame[..size]);
        self.given = self.given.saturating_add(1);
        Ok(size)
    }
}

/// Takes all, and says how many bytes it took.
#[derive(Drop)]
pub struct Meter<'a> {
    pub written: &'a Cell<usize>,
}

impl Write for Meter<'_> {
    fn write(&mut self, buf: &[u8]) -> io::Result<usize> {
        self.written
            .set(self.written.get().saturating_add(buf.len()));
        Ok(buf.len())
    }

    fn flush(&mut self) -> io::Result<()> {
        Ok(())
    }
}

/// The station of a card's first morning: it answers the touch of each number by the reply that
/// the account has for it, again and again, and counts what is handed to it.
#[derive(Drop)]
pub struct Morning {
    pub touches: usize,
    pub enquiries: usize,
}

impl Morning {
    /// A clerk to whom nothing was handed yet.
    pub fn new() -> Morning {
        Morning {
            touches: 0,
            enquiries: 0,
        }
    }
}

/// The reply to the touch of this number.
fn reply_to(number: u32) -> Reply {
    let (verdict, change, balance) = match number {
        1 => (8, 0, 0),
        2 => (7, 2000, 2000),
        3 => (1, -900, 1100),
        _ => (4, 550, 1650),
    };
    Reply {
        verdict,
        change,
        balance,
    }
}

impl Clerk for Morning {
    ghost gives = { λ _ _ _ _. Unit {0} };

    fn submit<R: Wait>(&mut self, _rt: &R, touch: Touch) -> Answer {
        self.touches = self.touches.saturating_add(1);
        Answer::reply(reply_to(touch.number), &touch)
    }

    fn enquire(&mut self, _card: u32) -> Answer {
        self.enquiries = self.enquiries.saturating_add(1);
        Answer::Holding {
            view: CardView {
                state: CardState::Outside,
                balance: 1650,
            },
            front: 4,
        }
    }
}
