//! Why a line gets no connection for a while.

ghost use Rattle.std.specs.Prelude.{◌≡◌};
ghost use Rattle.std.specs.IoError.{raw_os_error};
ghost use Rattle.tcp_line.specs.Shortage.{shortage_of};

use std::io;
use thiserror::Error;

/// Linux's numbers of errors that the kit's `libc` doesn't name (errno.h).
const ENFILE: i32 = 23;

const ENONET: i32 = 64;

const EPROTO: i32 = 71;

const ENOPROTOOPT: i32 = 92;

const EOPNOTSUPP: i32 = 95;

const ENETDOWN: i32 = 100;

const ENETUNREACH: i32 = 101;

const ENOBUFS: i32 = 105;

const EHOSTDOWN: i32 = 112;

const EHOSTUNREACH: i32 = 113;

/// What a system is short of where a line gets no connection. It prints as the line that is told.
#[derive(Clone, Copy, Debug, PartialEq, Eq, Error)]
pub enum Shortage {
    /// The process, or the system, has as many open files as it may have (EMFILE, ENFILE).
    #[error("no descriptors")]
    Descriptors,
    /// The system has no memory for a connection (ENOBUFS, ENOMEM).
    #[error("no memory for connections")]
    Memory,
    /// Anything else, by the system's number, and by 0 where there is none.
    #[error("no connections {0}")]
    Other(i32),
}

impl Shortage {
    /// What this error of accepting, or of preparing a connection, says that the system is short
    /// of. `None` where it is of that gate alone, which was gone before it was served or whose
    /// network failed: the next one can be taken up at once (accept(2), "Error handling").
    pub fn of(error: &io::Error) -> Option<Shortage>
        ensures { result ≡ shortage_of (raw_os_error error.now) }
    {
        match error.raw_os_error() {
            Some(libc::EINTR | libc::ECONNABORTED | libc::ECONNRESET) => None,
            Some(libc::ENOTCONN | libc::ETIMEDOUT | libc::EPIPE) => None,
            // Linux passes what a connection's network failed by to the call that takes it up.
            Some(ENETDOWN | ENETUNREACH | EHOSTDOWN | EHOSTUNREACH) => None,
            Some(ENONET | EPROTO | ENOPROTOOPT | EOPNOTSUPP) => None,
            Some(libc::EMFILE | ENFILE) => Some(Shortage::Descriptors),
            Some(libc::ENOMEM | ENOBUFS) => Some(Shortage::Memory),
            Some(number) => Some(Shortage::Other(number)),
            None => Some(Shortage::Other(0)),
        }
    }
}
