//! The end of an office: its book is held against its seats' receipts.
ghost use Rattle.std.specs.Prelude.{◌≡◌, ◌≢◌, ◌↔◌, ◌-◌, ◌^◌, length, IfOk};
ghost use Rattle.std.specs.Prelude.{IsTrue, MatchResult};
ghost use Rattle.std.specs.List.{All, sum_by};
ghost use Rattle.reply_book.specs.Book.{entries_of};
ghost use Rattle.tap_desk.specs.Listed.{HaveGrownTo};
ghost use Rattle.tap_office.specs.Keeper.{IsHaltedByDisk};
ghost use Rattle.tap_office.specs.Close.{AreAtPlaces, IsReady, Settles, IsEnd};

use crate::desk::Desk;
use crate::fault::CloseCause;
use crate::keeper::Keeper;
use crate::name::{Named, Numbers};
use crate::seat::Seat;
use reply_book::Book;
use std::sync::Wait;
use std::sync::ledger::Share;
use tap_desk::Publisher;
use tap_disk::Disk;

/// What is left of an office that was closed.
#[derive(Drop)]
pub struct Closed<D> {
    /// The history.
    pub book: Book,
    /// The disk, as it stands.
    pub disk: D,
    /// The disk had failed at a touch: it has that touch or not, and has to be opened again.
    pub halted: bool,
}

impl<D> Closed<D> {
    /// What is left, and why the office was not closed.
    fn unclosed(self, cause: CloseCause) -> CloseFault<D>
        ensures { (result.cause ≡ cause) × (result.book ≡ self.book) × (result.disk ≡ self.disk)
            × (result.halted ≡ self.halted) }
    {
        let Closed { book, disk, halted } = self;
        CloseFault {
            cause,
            book,
            disk,
            halted,
        }
    }
}

/// Why an office was not closed, and what is left of it.
#[derive(Drop)]
pub struct CloseFault<D> {
    /// The first cause.
    pub cause: CloseCause,
    /// The history.
    pub book: Book,
    /// The disk, as it stands.
    pub disk: D,
    /// The disk had failed at a touch: it has that touch or not, and has to be opened again.
    pub halted: bool,
}

impl<N: Named, D: Disk> Keeper<N, D> {
    /// Closes the book against all seats' receipts and what these desks have learnt. No memory is
    /// taken, and no disk call is made. It ends what is published, and waits for desks that read.
    ///
    /// `SeatMissing`, `Mismatch` and `DeskMismatch` come as `Office::close` says, with the book and
    /// the disk.
    pub fn close<R: Wait>(
        self,
        rt: &R,
        seats: Vec<Seat<N>>,
        desks: &[Desk<N>],
    ) -> Result<Closed<D>, CloseFault<D>>
        ensures settles { IfOk result (λ r. Settles N.opened.recovered N.opened.seats seats.items
            (entries_of r.book)) }
        ensures learnt { IfOk result (λ r. All (λ desk. HaveGrownTo desk.points
            (entries_of r.book)) desks.now) }
        ensures rest { MatchResult result
            (λ r. IsEnd D.honest D.content D.outcome N.opened r.book r.halted r.disk)
            (λ r. IsEnd D.honest D.content D.outcome N.opened r.book r.halted r.disk) }
        ensures history { MatchResult result (λ r. entries_of r.book ≡ self.history)
            (λ r. entries_of r.book ≡ self.history) }
        ensures disk { MatchResult result (λ r. r.disk ≡ self.disk) (λ r. r.disk ≡ self.disk) }
        ensures halted { MatchResult result (λ r. r.halted ≡ self.halted)
            (λ r. r.halted ≡ self.halted) }
        ensures failed { MatchResult result
            (λ r. IsHaltedByDisk r.halted (D.failed_calls r.disk))
            (λ r. IsHaltedByDisk r.halted (D.failed_calls r.disk)) }
        ensures seat_missing { MatchResult result (λ _. length seats.items ≡ N.opened.seats)
            (λ r. (r.cause ≡ CloseCause.SeatMissing) ↔ (length seats.items ≢ N.opened.seats)) }
        ensures mismatch { MatchResult result
            (λ r. All (AreAtPlaces (entries_of r.book)) seats.items)
            (λ r. (r.cause ≡ CloseCause.Mismatch)
            ↔ ((length seats.items ≡ N.opened.seats)
            × (All (AreAtPlaces (entries_of r.book)) seats.items → ⊥))) }
    {
        let Keeper {
            book,
            journal,
            publisher,
            halted,
            seats: made,
            mut ledger,
            share,
            numbers,
            mark,
        } = self;
        let has_all = are_in(&publisher, desks);
        let _published = publisher.close(rt);
        let disk = journal.close();
        let closed = Closed { book, disk, halted };
        if seats.len() != made as usize {
            return Err(closed.unclosed(CloseCause::SeatMissing));
        }
        if !all_stand(&closed.book, &seats) {
            return Err(closed.unclosed(CloseCause::Mismatch));
        }
        if !has_all {
            return Err(closed.unclosed(CloseCause::DeskMismatch));
        }
        let (mut all, mut marks) = gather(seats, share, mark);
        ledger.audit(&mut all);
        numbers.audit(&mut marks);
        Ok(closed)
    }
}

/// Whether every receipt of every seat stands at its place.
fn all_stand<N: Named>(book: &Book, seats: &[Seat<N>]) -> bool
    ensures stand { IsTrue result ↔ All (AreAtPlaces (entries_of book.now)) seats.now }
    ensures ready { IsTrue result → All (IsReady (entries_of book.now)) seats.now }
{
    for seat in seats {
        if !seat.stands(book) {
            return false;
        }
    }
    true
}

/// Whether the published list is seen to begin with each log point of these desks, and each of them
/// with all that its desk learnt before.
fn are_in<N: Named>(publisher: &Publisher<N>, desks: &[Desk<N>]) -> bool
    ensures { IsTrue result → All (λ desk. HaveGrownTo desk.points publisher.now.list) desks.now }
{
    for desk in desks {
        if !desk.is_in(publisher) {
            return false;
        }
    }
    true
}

/// The seats' shares of both ledgers, put together.
fn gather<N: Named>(
    seats: Vec<Seat<N>>,
    share: Share<N>,
    mark: Share<Numbers<N>>,
) -> (Share<N>, Share<Numbers<N>>)
    requires share { (share.parts ≡ 0) × (share.amount ≡ 0) }
    requires mark { (mark.parts ≡ 0) × (mark.amount ≡ 0) }
    ensures parts { result.0.parts ≡ length seats.items }
    ensures amount { result.0.amount ≡ sum_by (λ seat. length seat.receipts) seats.items }
    ensures marks { result.1.parts ≡ length seats.items }
    ensures weight { result.1.amount ≡ sum_by (λ seat. 2 ^ (seat.number - 1)) seats.items }
{
    let mut seats = seats;
    let mut share = share;
    let mut mark = mark;
    while let Some(seat) = seats.pop() {
        let (one, sign) = seat.into_shares();
        share.merge(one);
        mark.merge(sign);
    }
    (share, mark)
}
