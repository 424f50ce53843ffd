//! Reads so many bytes, and not one more.

ghost use Rattle.std.specs.Prelude.{OnOk, IfErr, length};
ghost use Rattle.std.specs.Io.KnownBytes.{Consumes};
ghost use Rattle.proxy_header.specs.Reading.{IsSizeRead, HasEndedEarly};

use crate::fault::HeaderFault;
use std::io;
use std::io::Read;

/// Fills a piece by as many reads as the reader needs. `Read` is returned when a read failed, and
/// `Cut` when the reader ended; the bytes that came before are gone.
pub(crate) fn fill<R: Read>(reader: &mut R, piece: &mut [u8]) -> Result<(), HeaderFault>
    ensures ok { OnOk result (Consumes (R.remaining reader.old) (R.remaining reader.new)
        piece.new) }
    ensures err { IfErr result (HasEndedEarly (R.remaining reader.old) (R.remaining reader.new)
        (length piece.old)) }
{
    let mut at = 0;
    while at < piece.len() {
        at += size_read(reader.read(&mut piece[at..]))?;
    }
    Ok(())
}

/// How many bytes a read gave, which had room for some. `Err` if it failed, or the reader ended.
fn size_read(read: io::Result<usize>) -> Result<usize, HeaderFault>
    ensures { IsSizeRead read result }
{
    match read {
        Ok(0) => Err(HeaderFault::Cut),
        Ok(size) => Ok(size),
        Err(_) => Err(HeaderFault::Read),
    }
}
