//! Why a text is no door.
ghost use Rattle.std.specs.Prelude.{◌≡◌, Some};
ghost use Rattle.door_file.specs.Texts.{printed_place, printed_problem, printed_fault};
ghost use Rattle.door_file.specs.TreeFault.{tree_fault};
ghost use Rattle.door_file.specs.declared.fault.DoorFault.TheVariants.{Memory};

use crate::key::Key;
use crate::name::Text;
use std::alloc::{AllocError, AllocFailed};
use std::fmt;
use thiserror::Error;
use toml_reading::TreeFault;

/// A key of a rule, or of the file itself.
#[derive(Clone, Copy, Debug, PartialEq, Eq)]
pub struct Place {
    /// The number of the rule in the file. Rules count from 1, and 0 is the file itself.
    pub rule: usize,
    /// The key. `Key::Rule` with the number of a rule is the whole rule.
    pub key: Key,
}

/// What is wrong at a key, in the order in which the causes are checked.
#[derive(Clone, Copy, Debug, PartialEq, Eq)]
pub enum Problem {
    /// The key must be there, and is absent: `gates` in a rule that allows more than enquiries,
    /// `rate` where there is a `burst`, and always `rule`, `name` and `kinds`.
    Missing,
    /// The value is of the wrong type, or an item of its list is.
    WrongType,
    /// A number, a text or a count is out of its range, a range of gates runs backwards or has no
    /// two ends, or a kind is none of the six words.
    Range,
    /// An earlier rule has the same name, or a kind is given twice.
    Twice,
}

/// Why a text is no door. Of several faults it is the first one in the file's order: the list of
/// rules, other keys of the file, then rule after rule, and of each its keys in their order and
/// then the keys that it may not have, in the order of their bytes.
#[derive(Debug, Drop, Error)]
pub enum DoorFault {
    /// Memory was refused. It says nothing of the text.
    Memory,
    /// The text has more than 1,048,576 bytes.
    TooLong,
    /// The text is no TOML document.
    NotToml,
    /// This is wrong at this place.
    At(Place, Problem),
    /// The rule of this number has a key that no door has. The number 0 is the file itself.
    UnknownKey(Text, usize),
}

impl fmt::Display for Place {
    ghost output = { λ place. Some (printed_place place) };

    fn fmt<W: fmt::Write>(&self, f: &mut fmt::Formatter<W>) -> fmt::Result {
        let Place { rule, key } = *self;
        write!(f, "{key} {rule}")
    }
}

impl fmt::Display for Problem {
    ghost output = { λ problem. Some (printed_problem problem) };

    fn fmt<W: fmt::Write>(&self, f: &mut fmt::Formatter<W>) -> fmt::Result {
        match *self {
            Problem::Missing => f.write_str("4 Missing"),
            Problem::WrongType => f.write_str("5 WrongType"),
            Problem::Range => f.write_str("6 Range"),
            Problem::Twice => f.write_str("7 Twice"),
        }
    }
}

/// Prints the fault's line, without its line feed. The text of a key that no door has isn't
/// printed, since it may have any characters. It is written by hand, since the derive doesn't state
/// what it prints.
impl fmt::Display for DoorFault {
    ghost output = { λ fault. Some (printed_fault fault) };

    fn fmt<W: fmt::Write>(&self, f: &mut fmt::Formatter<W>) -> fmt::Result {
        match self {
            DoorFault::Memory => f.write_str("fault door 1 Memory"),
            DoorFault::TooLong => f.write_str("fault door 2 TooLong"),
            DoorFault::NotToml => f.write_str("fault door 3 NotToml"),
            DoorFault::At(place, problem) => write!(f, "fault door {problem} {place}"),
            DoorFault::UnknownKey(_, rule) => write!(f, "fault door 8 UnknownKey {rule}"),
        }
    }
}

impl From<AllocError> for DoorFault {
    ghost from_gives = { λ _ fault. fault ≡ Memory };

    fn from(_error: AllocError) -> DoorFault {
        DoorFault::Memory
    }
}

impl<T: Drop> From<AllocFailed<T>> for DoorFault {
    ghost from_gives = { λ _ fault. fault ≡ Memory };

    fn from(_error: AllocFailed<T>) -> DoorFault {
        DoorFault::Memory
    }
}

impl From<TreeFault> for DoorFault {
    ghost from_gives = { λ given fault. fault ≡ tree_fault given };

    fn from(fault: TreeFault) -> DoorFault {
        match fault {
            TreeFault::Memory => DoorFault::Memory,
            TreeFault::NotToml => DoorFault::NotToml,
        }
    }
}
