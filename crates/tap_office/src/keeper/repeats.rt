//! What a touch is answered that stands in the history.
ghost use Rattle.std.specs.Prelude.{◌≡◌, ◌≤◌, false, length};
ghost use Rattle.reply_book.specs.declared.entry.Found.TheVariants.{First};
ghost use Rattle.reply_book.specs.Lookup.{found};
ghost use Rattle.tap_desk.specs.LogPoints.{logged_at};
ghost use Rattle.tap_office.specs.Receipt.{IsRepeat, IsReceiptOf, IsPoint};

use crate::keeper::Keeper;
use crate::name::Named;
use crate::receipt::{Filed, Receipt};
use crate::seat::Seat;
use tap_disk::Disk;

impl<N: Named, D: Disk> Keeper<N, D> {
    /// The receipt of a repeat, whose first reply stands in the history.
    pub(super) fn repeat(&self, seat: &mut Seat<N>, filed: Filed) -> Receipt<N>
        requires seen { seat.old.seen ≤ length self.now.history }
        requires stands { found self.now.history filed.touch ≡ First filed.place filed.reply }
        ensures repeat { IsRepeat self.now.history self.now.history seat.old seat.new result }
        ensures receipt { IsReceiptOf filed.touch self.now.history seat.old seat.new result }
        ensures fresh { result.fresh ≡ false }
        ensures point { IsPoint N.opened (logged_at result.point) result }
        ensures logged { logged_at result.point ≡ self.now.history }
    {
        seat.seen = self.book.len();
        let point = self.publisher.log_point(&self.book);
        Receipt::again(filed, seat.seen, point)
    }
}
