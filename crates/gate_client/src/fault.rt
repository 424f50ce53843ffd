//! Why a gate's file can't be made or opened, and why a touch isn't kept, sent or answered.
ghost use Rattle.std.specs.Prelude.{Some, codes};
ghost use Rattle.gate_client.specs.Texts.{printed_file_fault, printed_ask_fault};
ghost use Rattle.gate_client.specs.Texts.{printed_hear_fault};

use std::fmt;
use thiserror::Error;

/// Why a gate's file can't be made or opened, in the order of the printed numbers, which begin at
/// 1.
#[derive(Clone, Copy, Debug, PartialEq, Eq, Error)]
pub enum FileFault {
    /// Memory was refused. It may come before a cause that is looked for later.
    Memory,
    /// The disk failed at a call.
    Device,
    /// The capacity is out of its limits.
    BadLimit,
    /// The disk on which a file was to be made isn't empty.
    NotEmpty,
    /// What the disk holds doesn't begin as a journal does, or its making didn't come to an end.
    /// After such a making no touch was asked for.
    NoFile,
    /// What the disk holds is a journal of another version or of other numbers, of another gate, or
    /// a server's.
    AnotherFile,
    /// The slot at this place, counted from 0, holds no touch, is cut short or isn't there.
    Damaged(u32),
    /// The touch at this place, counted from 0, is another gate's, or its number isn't its place
    /// plus one.
    Foreign(u32),
}

/// Why no client was made or opened, and the disk that was handed in.
#[derive(Debug, Drop)]
pub struct ClientFault<D> {
    /// The disk.
    pub disk: D,
    /// The first cause.
    pub cause: FileFault,
}

/// Why a touch isn't kept, in the order in which causes are looked for and of the printed numbers.
#[derive(Clone, Copy, Debug, PartialEq, Eq, Error)]
pub enum AskFault {
    /// The touch that was asked for last waits for its reply.
    Waiting,
    /// The disk failed at an earlier touch: the file has to be opened again.
    Stopped,
    /// The file holds as many touches as its capacity.
    Full,
    /// The disk failed at a call: it holds the touch or not, and the file has to be opened again.
    Device,
}

/// A write of a frame failed, or took no byte. Some of the frame wasn't written.
#[derive(Clone, Copy, Debug, PartialEq, Eq, Error)]
pub struct LineFault;

/// Why there is no reply to the touch that waits. It waits on.
#[derive(Clone, Copy, Debug, PartialEq, Eq, Error)]
pub enum HearFault {
    /// A read failed or the input ended, or what was read is no reply's frame and no fault's.
    NoAnswer,
    /// The answer is under another gate or number.
    Stray,
    /// The server answers the touch by the fault of this code.
    Refused(u8),
}

/// Prints the fault's number and name, and the place that it is about. It is written by hand, since
/// the derive doesn't state what it prints.
impl fmt::Display for FileFault {
    ghost output = { λ fault. Some (printed_file_fault fault) };

    fn fmt<W: fmt::Write>(&self, f: &mut fmt::Formatter<W>) -> fmt::Result {
        match *self {
            FileFault::Memory => f.write_str("1 Memory"),
            FileFault::Device => f.write_str("2 Device"),
            FileFault::BadLimit => f.write_str("3 BadLimit"),
            FileFault::NotEmpty => f.write_str("4 NotEmpty"),
            FileFault::NoFile => f.write_str("5 NoFile"),
            FileFault::AnotherFile => f.write_str("6 AnotherFile"),
            FileFault::Damaged(place) => write!(f, "7 Damaged {place}"),
            FileFault::Foreign(place) => write!(f, "8 Foreign {place}"),
        }
    }
}

/// Prints the fault's number and name.
impl fmt::Display for AskFault {
    ghost output = { λ fault. Some (printed_ask_fault fault) };

    fn fmt<W: fmt::Write>(&self, f: &mut fmt::Formatter<W>) -> fmt::Result {
        match *self {
            AskFault::Waiting => f.write_str("1 Waiting"),
            AskFault::Stopped => f.write_str("2 Stopped"),
            AskFault::Full => f.write_str("3 Full"),
            AskFault::Device => f.write_str("4 Device"),
        }
    }
}

/// Prints the fault's name.
impl fmt::Display for LineFault {
    ghost output = { λ _. Some (codes "Cut") };

    fn fmt<W: fmt::Write>(&self, f: &mut fmt::Formatter<W>) -> fmt::Result {
        f.write_str("Cut")
    }
}

/// Prints the fault's number and name, and the code that the server answers.
impl fmt::Display for HearFault {
    ghost output = { λ fault. Some (printed_hear_fault fault) };

    fn fmt<W: fmt::Write>(&self, f: &mut fmt::Formatter<W>) -> fmt::Result {
        match *self {
            HearFault::NoAnswer => f.write_str("1 NoAnswer"),
            HearFault::Stray => f.write_str("2 Stray"),
            HearFault::Refused(code) => write!(f, "3 Refused {code}"),
        }
    }
}
