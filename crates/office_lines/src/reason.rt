//! Why a server's door kept something out.

use door_clerk::DoorRefusal;
use std::fmt;
use std::fmt::Display;

/// Why a request, or a whole connection, was kept out.
#[derive(Clone, Copy, Debug, PartialEq, Eq)]
pub enum Reason {
    /// The rule doesn't allow requests of this kind.
    Kind,
    /// The rule doesn't allow this gate number.
    Gate,
    /// The touch came too fast.
    Rate,
    /// The moment of a new touch is too far ahead of the server's clock.
    Ahead,
    /// A new touch would take room that is reserved for others.
    Reserve,
    /// As many connections of the rule are open as it allows.
    Connections,
    /// There is no rule for the connection's name.
    Rule,
}

impl From<DoorRefusal> for Reason {
    fn from(refusal: DoorRefusal) -> Reason {
        match refusal {
            DoorRefusal::Kind => Reason::Kind,
            DoorRefusal::Gate => Reason::Gate,
            DoorRefusal::Rate => Reason::Rate,
            DoorRefusal::Ahead => Reason::Ahead,
            DoorRefusal::Reserve => Reason::Reserve,
        }
    }
}

impl Display for Reason {
    fn fmt<W: fmt::Write>(&self, f: &mut fmt::Formatter<W>) -> fmt::Result {
        f.write_str(match self {
            Reason::Kind => "kind",
            Reason::Gate => "gate",
            Reason::Rate => "rate",
            Reason::Ahead => "ahead",
            Reason::Reserve => "reserve",
            Reason::Connections => "connections",
            Reason::Rule => "rule",
        })
    }
}
