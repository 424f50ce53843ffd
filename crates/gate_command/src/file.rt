//! The gate's file: opened where it is there, and made where that is asked for.

use crate::arguments::Arguments;
use crate::fault::{Detail, SendFault};
use gate_client::{Client, ClientFault, FileFault};
use std::alloc::Global;
use std::fmt::Display;
use std::fs::{self, File};
use std::rt::Files;
use tap_disk::{Disk, FileDisk, SystemError};
use tap_journal::{HEADER_SIZE, MARK_CLOSED, NAME};

/// What a making writes that is cut off before its end: the header, and a mark behind it.
const UNFINISHED: u64 = HEADER_SIZE as u64 + 1;

/// The client of the gate's file. With `--new` a file that isn't there, or is empty, is made; a
/// whole one is opened, so that a service has the same arguments at each start; and one whose
/// making was cut off is made anew.
///
/// `File` is why the system gives no file, and `GateFile` the first cause why this one isn't had. A
/// file whose making failed is removed, if it can be.
pub fn gate_file<R: AllocGlobal + Files<File = File>>(
    rt: &R,
    asked: &Arguments<'_>,
) -> Result<Client<FileDisk>, SendFault> {
    let disk = disk_at(rt, asked)?;
    if !asked.is_new {
        return match Client::open(rt.alloc(), disk, asked.gate) {
            Ok(client) => Ok(client),
            Err(ClientFault { disk, cause }) => Err(file_fault(rt, asked, cause, &disk)),
        };
    }
    match Client::create(disk, asked.gate, asked.capacity) {
        Ok(client) => Ok(client),
        Err(ClientFault { disk, cause }) => {
            if cause == FileFault::NotEmpty {
                there(rt, asked, disk)
            } else {
                Err(unmade(rt, asked, disk, cause))
            }
        }
    }
}

/// The client of a file that holds something, where `--new` is given.
fn there<R: AllocGlobal + Files<File = File>>(
    rt: &R,
    asked: &Arguments<'_>,
    disk: FileDisk,
) -> Result<Client<FileDisk>, SendFault> {
    let (mut disk, cause) = match Client::open(rt.alloc(), disk, asked.gate) {
        Ok(client) => return Ok(client),
        Err(ClientFault { disk, cause }) => (disk, cause),
    };
    let fault = file_fault(rt, asked, cause, &disk);
    if cause != FileFault::NoFile || !is_unfinished(&mut disk) {
        return Err(fault);
    }
    // Its name goes while its lock is held, so that no other run has opened it.
    if let Err(error) = fs::remove_file(rt, asked.file) {
        return Err(SendFault::File(said(rt.alloc(), asked.file, &error)));
    }
    drop(disk);
    match Client::create(disk_at(rt, asked)?, asked.gate, asked.capacity) {
        Ok(client) => Ok(client),
        Err(ClientFault { disk, cause }) => Err(unmade(rt, asked, disk, cause)),
    }
}

/// Whether a file, which is no gate's file, is one whose making was cut off: it holds no touch. Its
/// mark is closed, behind it stands a journal's name, or zeros in the place of bytes of it that
/// weren't written, and it has no more bytes than a header and a mark.
fn is_unfinished<D: Disk>(disk: &mut D) -> bool {
    let mut start = [MARK_CLOSED; NAME.len() + 1];
    let (Ok(size), Ok(_)) = (disk.len(), disk.read(0, &mut start)) else {
        return false;
    };
    let mut name = start.iter().skip(1).zip(NAME.iter());
    let is_cut_off = |(byte, wanted): (&u8, &u8)| *byte == 0 || byte == wanted;
    size <= UNFINISHED && start[0] == MARK_CLOSED && name.all(is_cut_off)
}

/// The fault of a file that isn't made. It is removed, if it can be, while its lock is held: but
/// one that held something stays.
fn unmade<R: AllocGlobal + Files<File = File>>(
    rt: &R,
    asked: &Arguments<'_>,
    disk: FileDisk,
    cause: FileFault,
) -> SendFault {
    let told = file_fault(rt, asked, cause, &disk);
    if cause != FileFault::NotEmpty {
        let _ = fs::remove_file(rt, asked.file);
    }
    drop(disk);
    told
}

/// The fault of a gate's file that isn't made or opened on this disk.
fn file_fault<R: AllocGlobal>(
    rt: &R,
    asked: &Arguments<'_>,
    cause: FileFault,
    disk: &FileDisk,
) -> SendFault {
    let detail = match cause {
        FileFault::Device => system_said(rt.alloc(), asked.file, disk.error()),
        _ => file_named(rt.alloc(), asked.file),
    };
    SendFault::GateFile(cause, detail)
}

/// The file of the system. One that isn't there is made with `--new` alone.
fn disk_at<R: AllocGlobal + Files<File = File>>(
    rt: &R,
    asked: &Arguments<'_>,
) -> Result<FileDisk, SendFault> {
    let opened = if asked.is_new {
        FileDisk::at(rt, asked.file)
    } else {
        FileDisk::existing(rt, asked.file)
    };
    match opened {
        Ok(disk) => Ok(disk),
        Err(fault) => Err(SendFault::File(said(rt.alloc(), asked.file, &fault))),
    }
}

/// The line that names a file alone.
pub(crate) fn file_named(alloc: Global, path: &str) -> Detail {
    format!(in alloc; "  {path}").ok()
}

/// The line that names a file and what the system said of a call on its disk, if anything.
pub(crate) fn system_said(alloc: Global, path: &str, error: Option<SystemError>) -> Detail {
    match error {
        Some(error) => said(alloc, path, &error),
        None => file_named(alloc, path),
    }
}

/// The line that names a file and what is said of it.
fn said<T: Display>(alloc: Global, path: &str, what: &T) -> Detail {
    format!(in alloc; "  {path}: {what}").ok()
}
