//! A writer that takes little at a time and in all, and keeps it.

ghost use Rattle.std.specs.Prelude.{◌≡◌, ◌↔◌, ◌-◌, length, min, Some, IfOk, IsErr, IsTrue};
ghost use Rattle.std.specs.Io.{WritesAtMost};
ghost use Rattle.std.specs.Io.KnownBytes.{Keeps, WriteAppends};

use std::io;
use std::io::{ErrorKind, Write};

/// Takes at most `size` bytes a write, and `left` in all. Behind them it takes nothing, or fails
/// where `fails`. A flush fails where `holds`.
#[derive(Drop)]
pub struct Taker {
    /// The bytes that it took.
    pub taken: Vec<u8>,
    /// How many bytes a write takes at most.
    pub size: usize,
    /// How many bytes it takes yet.
    pub left: usize,
    /// Whether a write fails once it takes none.
    pub fails: bool,
    /// Whether a flush fails.
    pub holds: bool,
}

impl Write for Taker {
    ghost contents = { λ taker. Some taker.taken.items };

    fn write(&mut self, buf: &[u8]) -> io::Result<usize>
        ensures bound { WritesAtMost result buf.now }
        ensures bytes { WriteAppends (Some self.old.taken.items) (Some self.new.taken.items)
            result buf.now }
        ensures count { IfOk result (λ count. (count
            ≡ min self.old.size (min self.old.left (length buf.now)))
            × (self.new.left ≡ self.old.left - count)) }
        ensures fails { self.old.left ≡ 0 → IsTrue self.old.fails → IsErr result }
        ensures same { (self.new.size ≡ self.old.size) × (self.new.fails ≡ self.old.fails)
            × (self.new.holds ≡ self.old.holds) }
    {
        if self.left == 0 && self.fails {
            return Err(io::Error::from(ErrorKind::Other));
        }
        let room = self.size.min(self.left).min(buf.len());
        let count = self.taken.write(&buf[..room])?;
        self.left -= count;
        Ok(count)
    }

    fn flush(&mut self) -> io::Result<()>
        ensures bytes { Keeps (Some self.old.taken.items) (Some self.new.taken.items) }
        ensures holds { IsErr result ↔ IsTrue self.old.holds }
        ensures same { self.new ≡ self.old }
    {
        if self.holds {
            return Err(io::Error::from(ErrorKind::Other));
        }
        Ok(())
    }
}
