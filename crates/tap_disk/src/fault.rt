//! Why a file can't be opened as a disk.
use std::io;
use thiserror::Error;

/// Why a file can't be opened as a disk: what the opening found.
#[derive(Clone, Copy, Debug, Error)]
pub enum DiskFault {
    /// The system refused a call with this error: a folder with EISDIR. One without a number says
    /// that there was no memory for the folder's path.
    #[error("{0}")]
    System(#[from] io::Error),
    /// The path names something else than a file of bytes, as a device or a pipe.
    #[error("a device or a pipe")]
    NotRegular,
    /// Another opening of the file has its lock.
    #[error("another run or a server has it")]
    Locked,
    /// The path was given up after the opening: it names no file any more.
    #[error("removed while it was opened")]
    GivenUp,
    /// The path was given to another file after each opening.
    #[error("replaced again and again while it was opened")]
    Replaced,
}
