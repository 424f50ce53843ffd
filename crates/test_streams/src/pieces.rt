//! A reader that gives little at a time, and ends or fails.

ghost use Rattle.std.specs.Prelude.{◌≡◌, ◌↔◌, [], length, max, min, Some, IfOk, IsErr, IsTrue};
ghost use Rattle.std.specs.Io.{ReadsAtMost};
ghost use Rattle.std.specs.Io.KnownBytes.{ReadConsumes};

use std::io;
use std::io::{ErrorKind, Read};

/// Gives bytes, at most `size` a read. Behind the last it ends, or fails where `fails`.
#[derive(Drop)]
pub struct Pieces<'a> {
    /// The bytes that aren't given yet.
    pub rest: &'a [u8],
    /// How many bytes a read gives at most. Of 0 it gives one.
    pub size: usize,
    /// Whether a read fails once no byte is left.
    pub fails: bool,
}

impl Read for Pieces<'_> {
    ghost remaining = { λ pieces. Some pieces.rest.now };

    fn read(&mut self, buf: &mut [u8]) -> io::Result<usize>
        ensures bound { ReadsAtMost result buf.new }
        ensures bytes { ReadConsumes (Some self.old.rest.now) (Some self.new.rest.now)
            result buf.new }
        ensures count { IfOk result (λ count. count
            ≡ min (max 1 self.old.size) (min (length buf.old) (length self.old.rest.now))) }
        ensures fails { IsErr result ↔ ((self.old.rest.now ≡ []) × IsTrue self.old.fails) }
        ensures same { (self.new.size ≡ self.old.size) × (self.new.fails ≡ self.old.fails) }
    {
        if self.rest.is_empty() && self.fails {
            return Err(io::Error::from(ErrorKind::Other));
        }
        let room = self.size.max(1).min(buf.len());
        self.rest.read(&mut buf[..room])
    }
}
