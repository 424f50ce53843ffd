//! The office: a keeper behind a lock.
ghost use Rattle.std.specs.Prelude.{◌≡◌, ◌≢◌, ◌↔◌, length, IfOk, IfErr, OnErr, MatchResult};
ghost use Rattle.std.specs.List.{All};
ghost use Rattle.reply_book.specs.Book.{entries_of};
ghost use Rattle.tap_desk.specs.Listed.{HaveGrownTo};
ghost use Rattle.tap_desk.specs.LogPoints.{logged_at};
ghost use Rattle.tap_office.specs.Receipt.{IsPoint, Files};
ghost use Rattle.tap_office.specs.Refusal.{IsRefusedAt};
ghost use Rattle.tap_office.specs.Keeper.{IsHaltedByDisk};
ghost use Rattle.tap_office.specs.Room.{IsRoomFor};
ghost use Rattle.tap_office.specs.Close.{AreAtPlaces, Settles, IsEnd};

use crate::board::Board;
use crate::close::{CloseFault, Closed};
use crate::desk::Desk;
use crate::fault::CloseCause;
use crate::keeper::Keeper;
use crate::name::Named;
use crate::receipt::Receipt;
use crate::refusal::SubmitRefusal;
use crate::seat::Seat;
use crate::sync_times;
use oyster_account::Touch;
use std::marker::PhantomData;
use std::sync::{Mutex, Wait};
use tap_disk::{Disk, SystemError};

/// How many touches were found at the opening.
#[derive(Drop)]
pub(crate) struct Recovered<N: Named> {
    count: u32,
    of: PhantomData<N>,
    ghost is: { count ≡ length N.opened.recovered },
}

/// An office: any number of seats, on any threads, commit touches to one book.
pub struct Office<N: Named, D: Disk> {
    keeper: Mutex<Keeper<N, D>>,
    /// Who waits for the keeper.
    board: Board,
    recovered: Recovered<N>,
}

/// By hand, so that it is one call wherever one is dropped.
impl<N: Named, D: Disk> Drop for Office<N, D> {
    fn drop(self) {
        let Office {
            keeper: _,
            board: _,
            recovered: _,
        } = self;
    }
}

impl<N: Named, D: Disk> Office<N, D> {
    /// A keeper behind a lock.
    pub(crate) fn new(keeper: Keeper<N, D>, board: Board, count: u32) -> Office<N, D>
        requires { count ≡ length N.opened.recovered }
    {
        Office {
            keeper: Mutex::new(keeper),
            board,
            recovered: Recovered {
                count,
                of: PhantomData,
            },
        }
    }

    /// How many touches were found at the opening.
    pub fn opened(&self) -> u32
        ensures { result ≡ length N.opened.recovered }
    {
        self.recovered.count
    }

    /// Takes the lock, and commits a touch as `Keeper::commit` does. While commits wait for the
    /// disk, it waits for its turn before: turns come in the order in which they were asked for,
    /// and the touch of who has the next one is written ahead into the journal. The seat makes room
    /// for its receipt first, so that nobody waits for that.
    ///
    /// The receipt's touch is the one that was handed in, and its reply stands beside that touch at
    /// its place in a legal history that begins with the recovered one. A fault leaves the seat; it
    /// has its cause in such a history too, and the refusal has the log point of that one.
    pub fn submit<R: Wait>(
        &self,
        rt: &R,
        seat: &mut Seat<N>,
        touch: Touch,
    ) -> Result<Receipt<N>, SubmitRefusal<N>>
        ensures files { IfOk result (Files touch seat.old seat.new) }
        ensures point { IfOk result (λ r. IsPoint N.opened (logged_at r.point) r) }
        ensures cause { IfErr result (λ r. IsRefusedAt N.opened touch (logged_at r.point) r.fault) }
        ensures kept { OnErr result (seat.new ≡ seat.old) }
    {
        seat.make_room();
        let turn = self.board.wait(rt, &touch);
        let behind = self.board.behind(rt, turn);
        let mut keeper = self.keeper.lock(rt);
        let begun = sync_times::now();
        let answer = keeper.submit(rt, seat, touch, move || behind.touch());
        if is_fresh(&answer) {
            self.board.times.note(begun);
        }
        drop(keeper);
        self.board.pass(rt, turn);
        answer
    }

    /// How many new touches the journal still takes, or `None` if the history already has this very
    /// touch. It waits for the lock, and answers as `Keeper::room_for` does.
    ///
    /// The answer is that of one moment: other seats may commit touches before this caller submits
    /// its own. No disk call is made, no memory is allocated, and nothing is changed.
    pub fn room_for<R: Wait>(&self, rt: &R, touch: &Touch) -> Option<u32>
        ensures { IsRoomFor N.opened touch.now result }
    {
        let keeper = self.keeper.lock(rt);
        keeper.room_for(touch)
    }

    /// What the system answered at the first call of the journal's disk that it refused with an
    /// error of a number. `None` where it refused none so. It waits for the lock.
    pub fn error<R: Wait>(&self, rt: &R) -> Option<SystemError> {
        let keeper = self.keeper.lock(rt);
        keeper.journal.error()
    }

    /// Closes the office against its seats' receipts and what these desks have learnt: the history
    /// is what was found at the opening and what the seats filed, and nothing else, and begins with
    /// each log point that one of the desks has; each of these begins with all that the same desk
    /// learnt before. So all that they answered is of this one history, in the desk's order.
    /// No memory is taken, and no disk call is made.
    /// Desks answer nothing from then on; it waits for those that read. `halted` comes only where a
    /// call of the disk has failed.
    ///
    /// `SeatMissing` comes where there are not as many seats as were made, and then `Mismatch`
    /// where a receipt doesn't stand at its place, and then `DeskMismatch` where a desk learnt a
    /// shorter log point after a longer one, or the history isn't seen to begin with a log point;
    /// tests show that it never comes where each desk learnt its answers in the order of their log
    /// points, as a connection's desk does. In each case the book and the disk are handed back.
    pub fn close<R: Wait>(
        self,
        rt: &R,
        seats: Vec<Seat<N>>,
        desks: &[Desk<N>],
    ) -> Result<Closed<D>, CloseFault<D>>
        ensures settles { IfOk result (λ r. Settles N.opened.recovered N.opened.seats seats.items
            (entries_of r.book)) }
        ensures learnt { IfOk result (λ r. All (λ desk. HaveGrownTo desk.points
            (entries_of r.book)) desks.now) }
        ensures rest { MatchResult result
            (λ r. IsEnd D.honest D.content D.outcome N.opened r.book r.halted r.disk)
            (λ r. IsEnd D.honest D.content D.outcome N.opened r.book r.halted r.disk) }
        ensures failed { MatchResult result
            (λ r. IsHaltedByDisk r.halted (D.failed_calls r.disk))
            (λ r. IsHaltedByDisk r.halted (D.failed_calls r.disk)) }

        // Each fault has its cause.
        ensures seat_missing { MatchResult result (λ _. length seats.items ≡ N.opened.seats)
            (λ r. (r.cause ≡ CloseCause.SeatMissing) ↔ (length seats.items ≢ N.opened.seats)) }
        ensures mismatch { MatchResult result
            (λ r. All (AreAtPlaces (entries_of r.book)) seats.items)
            (λ r. (r.cause ≡ CloseCause.Mismatch)
            ↔ ((length seats.items ≡ N.opened.seats)
            × (All (AreAtPlaces (entries_of r.book)) seats.items → ⊥))) }
    {
        let Office {
            keeper,
            board: _,
            recovered: _,
        } = self;
        keeper.into_inner().close(rt, seats, desks)
    }
}

/// Whether a touch was committed that is new: the disk was called for it.
fn is_fresh<N: Named>(answer: &Result<Receipt<N>, SubmitRefusal<N>>) -> bool {
    match answer {
        Ok(receipt) => receipt.fresh,
        Err(_) => false,
    }
}
