//! The journal of a server: its file is taken, and made where there is none and that is allowed.

ghost use Rattle.std.specs.Prelude.{true, false};

use crate::making::{Unprepared, prepare};
use crate::refusal::journal_refusal;
use crate::standby::{JournalLock, refused_journal, take_journal};
use command_line::Serve;
use console::{Detail, SystemRefusal};
use fare_table::Digest;
use journal_audit::CommandFault;
use std::alloc::Global;
use std::fs::{self, File};
use std::rt::Files;
use std::thread;
use std::time::{Clock, Duration};
use tap_disk::{Disk, FileDisk, SystemError};
use tap_journal::{JournalFault, Refused};

/// How many seconds a server on standby waits between two tries.
const PAUSE: u64 = 1;

/// The file of a journal, as a server takes it.
#[derive(Drop)]
struct JournalPath<'a, R> {
    /// What it is taken by.
    rt: &'a R,
    /// Its path.
    path: &'a str,
    /// Whether it has to be there.
    is_strict: bool,
    /// Whether the waiting was told.
    has_told: bool,
}

impl<R: AllocGlobal + Files<File = File> + Clock + Eprint> JournalLock<FileDisk>
    for JournalPath<'_, R> {
    fn take(&mut self) -> Result<FileDisk, SystemRefusal> {
        let opened = if self.is_strict {
            FileDisk::existing(self.rt, self.path)
        } else {
            FileDisk::at(self.rt, self.path)
        };
        match opened {
            Ok(disk) => Ok(disk),
            Err(fault) => Err(journal_refusal(self.rt, self.path, fault)),
        }
    }

    /// Tells once that it waits.
    fn wait(&mut self) {
        if !self.has_told {
            self.has_told = true;
            let path = self.path;
            let _ = eprintln!(self.rt; "waiting for {path}");
        }
        thread::sleep(self.rt, Duration::from_secs(PAUSE));
    }
}

/// The disk of the journal's file. Where the file is empty, and the server isn't strict, a journal
/// of no touches is made there, for the first table of this digest, and told of.
pub(crate) fn journal_disk<R: AllocGlobal + Files<File = File> + Clock + Eprint>(
    rt: &R,
    digest: &Digest,
    asked: &Serve<'_>,
) -> Result<FileDisk, CommandFault> {
    let mut file = JournalPath {
        rt,
        path: asked.journal,
        is_strict: asked.strict,
        has_told: false,
    };
    match take_journal(&mut file, asked.standby) {
        Ok(disk) => made_disk(rt, disk, digest, asked),
        Err(refusal) => Err(refused_journal(rt.alloc(), asked.journal, refusal)),
    }
}

/// This disk, with a journal where it was empty. A file on which the making failed is removed, if
/// it can be, while its lock is held.
fn made_disk<R: AllocGlobal + Files<File = File> + Eprint>(
    rt: &R,
    disk: FileDisk,
    digest: &Digest,
    asked: &Serve<'_>,
) -> Result<FileDisk, CommandFault> {
    match prepare(disk, digest, asked) {
        Ok(prepared) => {
            if prepared.is_new {
                let path = asked.journal;
                let _ = eprintln!(rt; "new journal {path}");
            }
            Ok(prepared.disk)
        }
        Err(Unprepared::Unseen(fault, disk)) => {
            Err(device_fault(rt.alloc(), asked, fault, disk.error()))
        }
        Err(Unprepared::Unmade(fault, disk)) => {
            let _ = fs::remove_file(rt, asked.journal);
            Err(device_fault(rt.alloc(), asked, fault, disk.error()))
        }
    }
}

/// This fault, with what the system said behind it where the disk has failed.
pub(crate) fn device_fault(
    alloc: Global,
    asked: &Serve<'_>,
    fault: CommandFault,
    said: Option<SystemError>,
) -> CommandFault {
    match (&fault, said) {
        (CommandFault::Journal(refused, _), Some(error)) if is_of_device(*refused) => {
            let detail = Detail::of(alloc, asked.journal, &error);
            fault.with(detail)
        }
        _ => fault,
    }
}

/// Whether a journal is refused since its disk failed.
fn is_of_device(refused: Refused) -> bool {
    matches!(refused.cause, JournalFault::Device)
}
