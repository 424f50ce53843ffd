//! Why a table isn't supplied.
ghost use Rattle.std.specs.Prelude.{◌≡◌, Some};
ghost use Rattle.fare_schedule.specs.Texts.{printed_fault};
ghost use Rattle.fare_schedule.specs.declared.fault.SupplyFault.TheVariants.{Memory};

use std::alloc::AllocError;
use std::fmt;
use thiserror::Error;

/// Why a table isn't supplied, in the order in which the causes are looked for. The printed numbers
/// begin at 1.
#[derive(Clone, Copy, Debug, PartialEq, Eq, Error)]
pub enum SupplyFault {
    /// Memory was refused.
    Memory,
    /// A table of the same digest is there.
    Twice,
    /// The text of the table's zone isn't that of the first table's.
    OtherZone,
    /// The numbers of the table's stations aren't those of the first table's.
    OtherStations,
    /// As many tables as a schedule may have are there.
    TooMany,
}

/// Prints the fault's number and name: what stands in a fault line behind `fault supply `. It is
/// written by hand, since the derive doesn't state what it prints.
impl fmt::Display for SupplyFault {
    ghost output = { λ fault. Some (printed_fault fault) };

    fn fmt<W: fmt::Write>(&self, f: &mut fmt::Formatter<W>) -> fmt::Result {
        match *self {
            SupplyFault::Memory => f.write_str("1 Memory"),
            SupplyFault::Twice => f.write_str("2 Twice"),
            SupplyFault::OtherZone => f.write_str("3 OtherZone"),
            SupplyFault::OtherStations => f.write_str("4 OtherStations"),
            SupplyFault::TooMany => f.write_str("5 TooMany"),
        }
    }
}

impl From<AllocError> for SupplyFault {
    ghost from_gives = { λ _ fault. fault ≡ Memory };

    fn from(_error: AllocError) -> SupplyFault {
        SupplyFault::Memory
    }
}
