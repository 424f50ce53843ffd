//! The files that a command's words name, read to their ends or up to a limit.

ghost use Rattle.std.specs.Prelude.{◌≡◌, ℕ, List, IfOk, IfErr, IfSome, take};
ghost use Rattle.std.specs.Io.KnownBytes.{Consumes, IsAtEnd};
ghost use Rattle.console.specs.Files.{IsAnyReading, IsFileFault};

use crate::detail::Detail;
use crate::fault::TrialFault;
use crate::refusal::{open_refusal, read_refusal};
use std::alloc::Global;
use std::fs::{File, OpenFile};
use std::io;
use std::io::Read;
use std::rt::Files;
use text_io::{RunFault, read_all};

/// How many reads are made of a file at most.
pub const TURNS: u32 = 1_000_000;

/// Files that are read to their ends, by their paths.
///
/// No contract of the system says what a file holds. So each command is generic over this trait,
/// and its contract names the files that it read by `gave`. The program has [`SystemFiles`].
pub trait WholeFiles {
    /// The file of this path was read to its end, and gave these bytes.
    ghost gave: { Self → List ℕ → List ℕ → Type 0 };

    /// What the file of this path holds, read to its end. A fault is `File`, with what is told of
    /// it, or want of memory.
    fn bytes_in(&self, alloc: Global, path: &str) -> Result<Vec<u8>, TrialFault>
        ensures ok { IfOk result (λ bytes. gave self.now path.now bytes.items) }
        ensures fault { IfErr result IsFileFault };
}

/// Files that are read up to a limit, by their paths.
///
/// As for [`WholeFiles`], a contract names the bytes that it read by `gave_first`.
pub trait LimitedFiles {
    /// The file of this path was read up to this number of bytes, and gave these.
    ghost gave_first: { Self → List ℕ → ℕ → List ℕ → Type 0 };

    /// The first bytes of the file of this path: `most` of them, or all if it has no more. No
    /// further byte is read. A fault is `File`, with the reason, or want of memory.
    fn first_bytes_in(&self, alloc: Global, path: &str, most: u64) -> Result<Vec<u8>, TrialFault>
        ensures ok { IfOk result (λ bytes. gave_first self.now path.now most bytes.items) }
        ensures fault { IfErr result IsFileFault };
}

/// The files of the system, each opened to be read alone.
#[derive(Clone, Copy)]
pub struct SystemFiles<'a, R> {
    rt: &'a R,
}

impl<'a, R: Files> SystemFiles<'a, R> {
    /// The files that this handle opens.
    pub fn new(rt: &'a R) -> SystemFiles<'a, R> {
        SystemFiles { rt }
    }
}

impl<'a, R: Files> WholeFiles for SystemFiles<'a, R> {
    ghost gave = { λ _ path bytes. IsAnyReading path bytes };

    fn bytes_in(&self, alloc: Global, path: &str) -> Result<Vec<u8>, TrialFault> {
        match File::open(self.rt, path) {
            Ok(file) => {
                let mut file = file;
                bytes_of(alloc, path, &mut file)
            }
            Err(error) => Err(unopened(self.rt, alloc, path, &error)),
        }
    }
}

impl<'a, R: Files> LimitedFiles for SystemFiles<'a, R> {
    ghost gave_first = { λ _ path _ bytes. IsAnyReading path bytes };

    fn first_bytes_in(&self, alloc: Global, path: &str, most: u64) -> Result<Vec<u8>, TrialFault> {
        match File::open(self.rt, path) {
            Ok(file) => first_bytes_of(alloc, path, file, most),
            Err(error) => Err(unopened(self.rt, alloc, path, &error)),
        }
    }
}

/// The fault of a file that isn't opened, with the reason of this error.
fn unopened<R: Files>(rt: &R, alloc: Global, path: &str, error: &io::Error) -> TrialFault
    ensures { IsFileFault result }
{
    let refusal = open_refusal(rt, path, error);
    TrialFault::File(Detail::of(alloc, path, &refusal))
}

/// What an open file holds, read to its end. A fault names its path.
fn bytes_of<F: Read + OpenFile>(
    alloc: Global,
    path: &str,
    file: &mut F,
) -> Result<Vec<u8>, TrialFault>
    ensures read { IfOk result (λ bytes.
        Consumes (F.remaining file.old) (F.remaining file.new) bytes.items) }
    ensures end { IfOk result (λ _. IsAtEnd (F.remaining file.new)) }
    ensures fault { IfErr result IsFileFault }
{
    match read_all(alloc, file, TURNS) {
        Ok(bytes) => Ok(bytes),
        Err(RunFault::Read) => {
            let refusal = read_refusal(file);
            Err(TrialFault::File(Detail::of(alloc, path, &refusal)))
        }
        Err(_) => Err(TrialFault::Run(RunFault::Memory)),
    }
}

/// The first bytes of an open file, at most so many. A fault names its path.
fn first_bytes_of<F: Read + OpenFile + Drop>(
    alloc: Global,
    path: &str,
    file: F,
    most: u64,
) -> Result<Vec<u8>, TrialFault>
    ensures read { IfOk result (λ bytes.
        IfSome (F.remaining file) (λ all. bytes.items ≡ take most all)) }
    ensures fault { IfErr result IsFileFault }
{
    let mut limited = file.take(most);
    match read_all(alloc, &mut limited, TURNS) {
        Ok(bytes) => Ok(bytes),
        Err(RunFault::Read) => {
            let refusal = read_refusal(limited.get_ref());
            Err(TrialFault::File(Detail::of(alloc, path, &refusal)))
        }
        Err(_) => Err(TrialFault::Run(RunFault::Memory)),
    }
}
