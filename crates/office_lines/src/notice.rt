//! What is told while a server runs: its disk has failed, its journal is full, or nearly so, fewer
//! of its lines serve than were asked for, gates wait for a line, a gate is ahead, or how it
//! stands.

ghost use Rattle.std.specs.Prelude.{◌≡◌, ◌↔◌, IsTrue};
ghost use Rattle.office_lines.specs.Notice.{IsNearlyFull, notice_of};

use crate::reason::Reason;
use jiff::civil::Date;
use proxy_header::Name;
use station_door::ShutOut;
use std::fmt;
use std::fmt::Display;
use std::sync::Wait;
use tap_disk::SystemError;
use tap_office::SubmitFault;
use thiserror::Error;

/// What befalls a server. It prints as the line that is told. A number of entries is how many its
/// history has.
#[derive(Clone, Copy, Debug, PartialEq, Eq, Error)]
pub enum Notice {
    /// The journal's disk has failed.
    #[error("halted {0}")]
    Halted(u32),
    /// The journal has no room for another touch.
    #[error("full {0}")]
    Full(u32),
    /// It has room for a tenth of its capacity at most.
    #[error("nearly full {0}")]
    NearlyFull(u32),
    /// So many lines serve, of so many that were asked for: no thread could be made for the others.
    #[error("lines {0} of {1}")]
    Lines(u32, u32),
    /// A gate waits while each of the lines, which are so many, has another one.
    #[error("all lines taken {0}")]
    AllTaken(u32),
    /// No gate waits for a line any more.
    #[error("lines free")]
    Free,
    /// A touch of this gate was accepted whose fare day is far above those of all other gates.
    #[error("ahead {0} {1}")]
    Ahead(u16, Date),
    /// How it stands.
    #[error("{0}")]
    Standing(Standing),
}

/// How a server stands.
#[derive(Clone, Copy, Debug, PartialEq, Eq, Error)]
#[error("touches {touches} room {room} taken {taken} of {lines} connections {connections}")]
pub struct Standing {
    /// How many entries its history has.
    pub touches: u32,
    /// For how many more its journal has room.
    pub room: u32,
    /// How many of its lines have a gate.
    pub taken: u32,
    /// How many lines it has.
    pub lines: u32,
    /// How many connections it took up since it started.
    pub connections: u64,
}

/// What the system said of the journal's disk. It prints as the line that is told behind the notice
/// that the disk has failed.
#[derive(Clone, Copy)]
pub struct SystemSaid<'a> {
    /// The path of the journal.
    pub path: &'a str,
    /// What the system said.
    pub error: SystemError,
}

impl Display for SystemSaid<'_> {
    fn fmt<W: fmt::Write>(&self, f: &mut fmt::Formatter<W>) -> fmt::Result {
        let (path, error) = (self.path, self.error);
        write!(f, "  {path}: {error}")
    }
}

/// Who watches over a server: its lines and its clerks say what they see, for each connection and
/// each touch.
pub trait Watch {
    /// A line has begun: it takes up connections from now on.
    fn begun(&self);

    /// A gate was connected to a line.
    fn connected(&self);

    /// A touch was answered, when the history had so many entries.
    fn answered(&self, entries: u32);

    /// A new touch of this gate was accepted. Its moment is in seconds since 1970-01-01 00:00:00
    /// UTC.
    fn accepted<W: Wait>(&self, rt: &W, gate: u16, moment: u32);

    /// A touch was refused. Where the journal's disk has failed, the system said this of it, if
    /// anything.
    fn refused(&self, fault: SubmitFault, said: Option<SystemError>);

    /// A request of this gate number, 0 of an enquiry, was kept out by the rule at this place of
    /// the server's door.
    fn kept_out(&self, place: usize, reason: Reason, gate: u16);

    /// A connection of this name, if it has one, wasn't let in by the server's door.
    fn shut_out<W: Wait>(&self, rt: &W, shut: ShutOut, name: Option<Name>);

    /// It is time to look around, as it is about once a second.
    fn look<W: Wait>(&self, rt: &W);
}

/// The lines of a server.
pub trait Lines {
    /// Ends them: each answers what its gate has sent, and takes up no other.
    fn end(&self);

    /// How many of them wait for a gate.
    fn waiting(&self) -> u32;

    /// Whether a gate waits for a line, and none of them takes it up.
    fn are_waited_for(&self) -> bool;
}

/// Whether so many entries are nine tenths of a capacity, or more.
pub(crate) fn is_nearly_full(capacity: u32, entries: u32) -> bool
    ensures { IsTrue result ↔ IsNearlyFull capacity entries }
{
    9 * u64::from(capacity) <= 10 * u64::from(entries)
}

/// What a touch's fault says of a server with this capacity and so many entries.
pub(crate) fn notice_of(fault: SubmitFault, capacity: u32, entries: u32) -> Option<Notice>
    ensures { result ≡ notice_of fault capacity entries }
{
    match fault {
        SubmitFault::Conflict => None,
        SubmitFault::Halted => Some(Notice::Halted(entries)),
        SubmitFault::Memory => None,
        SubmitFault::Full => Some(Notice::Full(capacity)),
        SubmitFault::UnknownTable => None,
    }
}
