//! The name of one opening.
ghost use Rattle.tap_office.specs.Name.{Opened, nothing_opened};

use std::marker::{Brand, PhantomData};
use std::sync::ledger::Ledger;
use tap_desk::LogName;

/// A name of one opening. A seat of another opening has another name and so another type: it can't
/// be handed in. `std::marker::Brand` is picked for it where an opening is handed to a function
/// that is generic over the name.
pub trait Named: Ledger + LogName {
    /// What the name stands for. The ledger that it names counts the receipts: each seat has one
    /// part of it. The commit log that it names is of the history.
    ghost opened: { Opened };
}

impl Named for Brand {
    ghost opened = { nothing_opened };
}

/// The ledger of the seats' numbers. Each seat has one part of it, and of its amount 2 to the power
/// of its number less one.
pub struct Numbers<N: Named>(PhantomData<N>);

impl<N: Named> Ledger for Numbers<N> {
    ghost name = { N.opened.numbers };

    ghost parts = { N.opened.seats };
}
