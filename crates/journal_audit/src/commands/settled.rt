//! A journal's file that is read to its end while a server may write it.

ghost use Rattle.std.specs.Prelude.{IfOk, IfErr, IfSome};
ghost use Rattle.console.specs.Files.{IsFileFault};
ghost use Rattle.journal_audit.specs.Behind.{HasBehind};

use crate::commands::behind::{are_many, behind_in};
use console::{TrialFault, WholeFiles};
use std::alloc::Global;

/// How many times a file is read at most, where it changes each time.
const READINGS: u32 = 10;

/// What a journal's file held when it was read to its end.
#[derive(Drop)]
pub struct Settled {
    /// Its bytes.
    pub bytes: Vec<u8>,
    /// How many open slots stand behind the journal's end. `None` where the bytes are no journal,
    /// or there was no memory for its touches.
    pub behind: Option<u32>,
}

/// What the journal's file at this path holds, read to its end. Where it was read more than once,
/// and was another one each time, that is told.
///
/// A server may write touches meanwhile. Then slots that are read after the journal's end was may
/// have open marks, though nothing is wrong. So a file that has more of them than crashes leave is
/// read again, until it has no more, or two readings in a row are the same: then it stands still.
/// Of a file that changed at each of ten readings the last one counts.
pub fn settled_file<R: AllocGlobal + Eprint, F: WholeFiles>(
    rt: &R,
    files: &F,
    path: &str,
) -> Result<Settled, TrialFault>
    ensures ok { IfOk result (λ read. F.gave files.now path.now read.bytes.items) }
    ensures behind { IfOk result (λ read. IfSome read.behind (HasBehind read.bytes.items)) }
    ensures fault { IfErr result IsFileFault }
{
    let alloc = rt.alloc();
    let mut read = read_file(alloc, files, path)?;
    let mut has_told = false;
    for _ in 1..READINGS {
        if !are_many(read.behind) {
            return Ok(read);
        }
        let again = read_file(alloc, files, path)?;
        if *again.bytes == *read.bytes {
            return Ok(again);
        }
        if !has_told {
            has_told = true;
            let _ = rt.eprintln("note: the file changed while it was read; it is read again");
        }
        read = again;
    }
    Ok(read)
}

/// What the file at this path holds, read once.
fn read_file<F: WholeFiles>(alloc: Global, files: &F, path: &str) -> Result<Settled, TrialFault>
    ensures ok { IfOk result (λ read. F.gave files.now path.now read.bytes.items) }
    ensures behind { IfOk result (λ read. IfSome read.behind (HasBehind read.bytes.items)) }
    ensures fault { IfErr result IsFileFault }
{
    let bytes = files.bytes_in(alloc, path)?;
    let behind = behind_in(alloc, &bytes);
    Ok(Settled { bytes, behind })
}
