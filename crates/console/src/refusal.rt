//! Why the system gives no file, or doesn't listen on an address.

ghost use Rattle.std.specs.Prelude.{◌≡◌};
ghost use Rattle.std.specs.IoError.{raw_os_error};
ghost use Rattle.console.specs.Refusal.{refusal_of};

use std::fs::{self, OpenFile};
use std::io;
use std::path::Path;
use std::rt::Files;
use thiserror::Error;

/// Linux's number of an error that the kit's `libc` doesn't name (errno.h).
const ENFILE: i32 = 23;

/// Why the system gives no file, or doesn't listen on an address. It prints as what is told of it.
#[derive(Clone, Copy, Debug, PartialEq, Eq, Error)]
pub enum SystemRefusal {
    /// There is no such file (ENOENT).
    #[error("no such file")]
    NoFile,
    /// The folder of the path isn't there, or is no folder (ENOTDIR).
    #[error("no such folder")]
    NoFolder,
    /// The path names a folder (EISDIR).
    #[error("is a folder")]
    Folder,
    /// The path names what holds no bytes, as a device or a pipe.
    #[error("is a device or a pipe")]
    Device,
    /// The user that the program runs as may not do it (EACCES, EPERM).
    #[error("Permission denied")]
    Permission,
    /// What the path is on can be read alone (EROFS).
    #[error("read-only file system")]
    ReadOnly,
    /// A server or another run has the lock of the file.
    #[error("another server or run has it")]
    Locked,
    /// The file can be opened, and not read to its end.
    #[error("can't be read to its end")]
    Unread,
    /// The process, or the system, has as many open files as it may have (EMFILE, ENFILE).
    #[error("too many open files")]
    Descriptors,
    /// There is no memory for it (ENOMEM).
    #[error("no memory")]
    Memory,
    /// The disk has no room (ENOSPC).
    #[error("no room on the disk")]
    Room,
    /// The address is taken (EADDRINUSE).
    #[error("address in use")]
    InUse,
    /// The address isn't one of this machine (EADDRNOTAVAIL).
    #[error("not an address of this machine")]
    NotHere,
    /// It is no address with a port.
    #[error("not an address and a port")]
    NoAddress,
    /// The path was given up, or to another file, while it was opened.
    #[error("removed or replaced while it was opened")]
    Passed,
    /// Anything else, by the system's number, and by 0 where there is none.
    #[error("error {0} of the system")]
    Other(i32),
}

impl SystemRefusal {
    /// What an error of the system says.
    pub fn of(error: &io::Error) -> SystemRefusal
        ensures { result ≡ refusal_of (raw_os_error error.now) }
    {
        match error.raw_os_error() {
            Some(libc::ENOENT) => SystemRefusal::NoFile,
            Some(libc::ENOTDIR) => SystemRefusal::NoFolder,
            Some(libc::EISDIR) => SystemRefusal::Folder,
            Some(libc::EPERM | libc::EACCES) => SystemRefusal::Permission,
            Some(libc::EROFS) => SystemRefusal::ReadOnly,
            Some(libc::EMFILE | ENFILE) => SystemRefusal::Descriptors,
            Some(libc::ENOMEM) => SystemRefusal::Memory,
            Some(libc::ENOSPC) => SystemRefusal::Room,
            Some(libc::EADDRINUSE) => SystemRefusal::InUse,
            Some(libc::EADDRNOTAVAIL) => SystemRefusal::NotHere,
            Some(number) => SystemRefusal::Other(number),
            None => SystemRefusal::Other(0),
        }
    }
}

/// Why the file at this path isn't opened, by the error of the opening.
pub fn open_refusal<R: Files>(rt: &R, path: &str, error: &io::Error) -> SystemRefusal {
    match SystemRefusal::of(error) {
        SystemRefusal::NoFile if !has_folder(rt, path) => SystemRefusal::NoFolder,
        refusal => refusal,
    }
}

/// Whether the folder that a path names a file in is there.
fn has_folder<R: Files>(rt: &R, path: &str) -> bool {
    match Path::new(path).parent() {
        Some(folder) if folder != Path::new("") => fs::metadata(rt, folder).is_ok(),
        _ => true,
    }
}

/// Why a file that was opened isn't read to its end: it may be no file of bytes.
pub(crate) fn read_refusal<F: OpenFile>(file: &F) -> SystemRefusal {
    match file.metadata() {
        Ok(metadata) if metadata.is_file() => SystemRefusal::Unread,
        Ok(metadata) if metadata.is_dir() => SystemRefusal::Folder,
        Ok(_) => SystemRefusal::Device,
        Err(error) => SystemRefusal::of(&error),
    }
}
