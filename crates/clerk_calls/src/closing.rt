//! What the sessions of an office have in common that was closed.
ghost use Rattle.std.specs.Prelude.{IfOk};
ghost use Rattle.tap_office.specs.Close.{Settles};
ghost use Rattle.reply_book.specs.Book.{entries_of};
ghost use Rattle.clerk_calls.specs.Closed.{AreOfOneLog, AreInOneOrder};

use std::sync::Wait;
use tap_disk::Disk;
use tap_office::{CloseFault, Closed, Desk, Named, Office, Seat};

/// Closes an office, as `Office::close` does. Each session that was served at one of these desks,
/// on whichever thread, is a run by the one history that the office closes with: what all gates
/// were answered is of one account, whose touches have one order.
///
/// All that was said at these desks has one order, too: replies, repeats and refusals, among the
/// entries of that history. In every order of the desks' answers in which the history never has
/// fewer entries than before, they are what a station says at its turns, from what the opening
/// found on to the end, each right when it comes (`AreTurns`); and there is such an order. With
/// what the gates do between them, these turns are one run of gates and station
/// (`schedules_are_runs`).
pub fn close_over_sessions<N: Named, D: Disk, H: Wait>(
    rt: &H,
    office: Office<N, D>,
    seats: Vec<Seat<N>>,
    desks: &[Desk<N>],
) -> Result<Closed<D>, CloseFault<D>>
    ensures one_log { IfOk result (λ closed. AreOfOneLog N.opened closed.book desks.now) }
    ensures one_order { IfOk result (λ closed. AreInOneOrder N.opened closed.book desks.now) }
    ensures settles { IfOk result (λ closed. Settles N.opened.recovered N.opened.seats seats.items
        (entries_of closed.book)) }
{
    office.close(rt, seats, desks)
}
