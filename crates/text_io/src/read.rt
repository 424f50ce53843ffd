//! Reading an input piece by piece, or whole.

ghost use Rattle.std.specs.Prelude.{◌≡◌, ◌<◌, ◌≤◌, length, take, Ok, IfOk, IfErr};
ghost use Rattle.std.specs.Io.KnownBytes.{Consumes, IsAtEnd, Keeps};
ghost use Rattle.text_io.specs.declared.fault.RunFault.TheVariants.{Read};
ghost use Rattle.text_io.specs.Reading.{HasLeftUnread};

use crate::fault::RunFault;
use std::alloc::Global;
use std::io::Read;

/// The most bytes that one read of a whole input gives. By 1000000 reads it is about 1 GB, so an
/// input that doesn't end is given up before it has taken all memory.
const BLOCK_SIZE: usize = 1_024;

/// All bytes that a reader gives, by at most so many reads. An `Err` may have read some of them: it
/// is `Memory`, or `Read`.
pub fn read_all<R: Read>(alloc: Global, reader: &mut R, turns: u32) -> Result<Vec<u8>, RunFault>
    ensures ok { IfOk result (λ bytes.
        Consumes (R.remaining reader.old) (R.remaining reader.new) bytes.items) }
    ensures end { IfOk result (λ _. IsAtEnd (R.remaining reader.new)) }
    ensures err { IfErr result (HasLeftUnread (R.remaining reader.old) (R.remaining reader.new)) }
{
    let mut bytes = Vec::new(alloc);
    let mut block = [0; BLOCK_SIZE];
    for _ in 0..turns {
        let size = read_piece(reader, &mut block)?;
        if size == 0 {
            return Ok(bytes);
        }
        bytes.extend_from_slice(&block[..size])?;
    }
    Err(RunFault::Read)
}

/// One read: how many bytes it gave, which stand at the beginning of the piece. None say that the
/// input ended, where the piece has room. The error is `Read`.
pub fn read_piece<R: Read>(reader: &mut R, piece: &mut [u8]) -> Result<usize, RunFault>
    ensures ok { IfOk result (λ size. (size ≤ length piece.new)
        × Consumes (R.remaining reader.old) (R.remaining reader.new) (take size piece.new)) }
    ensures end { result ≡ Ok 0 → 0 < length piece.old → IsAtEnd (R.remaining reader.new) }
    ensures err { IfErr result (λ fault. (fault ≡ Read)
        × Keeps (R.remaining reader.old) (R.remaining reader.new)) }
{
    reader.read(piece).map_err(|_| RunFault::Read)
}
