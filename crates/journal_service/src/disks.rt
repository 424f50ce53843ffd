//! The journals' files that a command's words name, opened as disks.

ghost use Rattle.std.specs.Prelude.{ℕ, List, IfOk, IfErr};
ghost use Rattle.tap_disk.specs.File.{IsOpened};
ghost use Rattle.journal_audit.specs.Words.{IsFileRefused};

use crate::refusal::journal_fault;
use journal_audit::CommandFault;
use std::fs::File;
use std::rt::Files;
use tap_disk::{Disk, FileDisk};

/// Files that are opened as disks, by their paths.
///
/// No contract of the system says what stands at a path. So `migrate` is generic over this trait,
/// and its contract names the disks that it opened. The program has [`SystemDisks`].
pub trait JournalFiles<D: Disk> {
    /// The file of this path was opened as this disk, to be read alone.
    ghost opened_alone: { Self → List ℕ → D → Type 0 };

    /// The file of this path, which is made where there is none, was opened as this disk.
    ghost opened: { Self → List ℕ → D → Type 0 };

    /// Opens a file to be read alone. A fault is `File`, with what is told of it.
    fn open_alone(&self, path: &str) -> Result<D, CommandFault>
        ensures ok { IfOk result (opened_alone self.now path.now) }
        ensures fault { IfErr result IsFileRefused };

    /// Opens a file, and makes it where there is none. A fault is `File`, with what is told of it.
    fn open(&self, path: &str) -> Result<D, CommandFault>
        ensures ok { IfOk result (opened self.now path.now) }
        ensures fault { IfErr result IsFileRefused };
}

/// The files of the system.
#[derive(Clone, Copy)]
pub struct SystemDisks<'a, R> {
    rt: &'a R,
}

impl<'a, R: AllocGlobal + Files<File = File>> SystemDisks<'a, R> {
    /// The files that this handle opens.
    pub fn new(rt: &'a R) -> SystemDisks<'a, R> {
        SystemDisks { rt }
    }
}

impl<'a, R: AllocGlobal + Files<File = File>> JournalFiles<FileDisk> for SystemDisks<'a, R> {
    ghost opened_alone = { λ _ _ disk. IsOpened disk };

    ghost opened = { λ _ _ disk. IsOpened disk };

    fn open_alone(&self, path: &str) -> Result<FileDisk, CommandFault> {
        match FileDisk::read_only(self.rt, path) {
            Ok(disk) => Ok(disk),
            Err(fault) => Err(journal_fault(self.rt, path, fault)),
        }
    }

    fn open(&self, path: &str) -> Result<FileDisk, CommandFault> {
        match FileDisk::at(self.rt, path) {
            Ok(disk) => Ok(disk),
            Err(fault) => Err(journal_fault(self.rt, path, fault)),
        }
    }
}
