//! Writing a text whole, or knowing how much of it was written.

ghost use Rattle.std.specs.Prelude.{IfErr, OnOk};
ghost use Rattle.std.specs.Io.KnownBytes.{Appends};
ghost use Rattle.text_io.specs.Writing.{IsBeginning, IsCutShort, IsSizeTaken, Wrote};

use std::io;
use std::io::Write;

/// A write failed, or took no byte of a text that wasn't empty.
#[derive(Clone, Copy, Debug, PartialEq, Eq)]
pub struct WriteFault;

/// Writes a text by as many writes as the writer needs, and nothing after one that failed or took
/// no byte. At an `Err` a beginning of the text was written, and some of it wasn't.
///
/// A writer that keeps bytes back has them still: `write_text` has them passed on.
pub fn write_whole<W: Write>(writer: &mut W, text: &[u8]) -> Result<(), WriteFault>
    ensures ok { OnOk result (Appends (W.contents writer.old) (W.contents writer.new) text.now) }
    ensures err { IfErr result (λ _. Wrote (W.contents writer.old) (W.contents writer.new)
        (λ written. IsCutShort written text.now)) }
{
    let mut at = 0;
    while at < text.len() {
        at += size_taken(writer.write(&text[at..]))?;
    }
    Ok(())
}

/// Writes a text whole, and through whatever buffers the writer has. At an `Err` a beginning of it
/// was written, or all of it, and a buffer didn't pass it on.
pub fn write_text<W: Write>(writer: &mut W, text: &[u8]) -> Result<(), WriteFault>
    ensures ok { OnOk result (Appends (W.contents writer.old) (W.contents writer.new) text.now) }
    ensures err { IfErr result (λ _. Wrote (W.contents writer.old) (W.contents writer.new)
        (λ written. IsBeginning written text.now)) }
{
    write_whole(writer, text)?;
    match writer.flush() {
        Ok(()) => Ok(()),
        Err(_) => Err(WriteFault),
    }
}

/// How many bytes a write took. `Err` where it failed or took none.
fn size_taken(write: io::Result<usize>) -> Result<usize, WriteFault>
    ensures { IsSizeTaken write result }
{
    match write {
        Ok(size) if size > 0 => Ok(size),
        _ => Err(WriteFault),
    }
}
