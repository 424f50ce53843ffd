//! Standard output, and why it refused a write.

ghost use Rattle.std.specs.Prelude.{◌≡◌};

use crate::refusal::SystemRefusal;
use std::io;
use std::io::Write;

/// A writer that notes why the system refused the last write that it did. It is that writer.
#[derive(Drop)]
pub struct Output<W> {
    writer: W,
    refusal: Option<SystemRefusal>,
}

impl<W: Write + Drop> Output<W> {
    /// This writer, which has refused nothing.
    pub fn over(writer: W) -> Output<W>
        ensures { W.contents result.writer ≡ W.contents writer }
    {
        Output {
            writer,
            refusal: None,
        }
    }

    /// Why it refused the last write that it did, where it refused one.
    pub fn refusal(&self) -> Option<SystemRefusal> {
        self.refusal
    }
}

impl<W: Write + Drop> Write for Output<W> {
    ghost contents = { λ output. W.contents output.writer };

    fn write(&mut self, buf: &[u8]) -> io::Result<usize> {
        let taken = self.writer.write(buf);
        if let Err(error) = &taken {
            self.refusal = Some(SystemRefusal::of(error));
        }
        taken
    }

    fn flush(&mut self) -> io::Result<()> {
        let flushed = self.writer.flush();
        if let Err(error) = &flushed {
            self.refusal = Some(SystemRefusal::of(error));
        }
        flushed
    }
}
