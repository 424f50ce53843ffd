//! What a touch that isn't committed is answered by.
ghost use Rattle.std.specs.Prelude.{◌≡◌, length, take, IfOk, IfErr, OnErr};
ghost use Rattle.reply_book.specs.Legal.{history_of};
ghost use Rattle.tap_desk.specs.LogPoints.{logged_at};
ghost use Rattle.tap_office.specs.Given.{IsLegalFor};
ghost use Rattle.tap_office.specs.Receipt.{Files, IsPoint};
ghost use Rattle.tap_office.specs.Refusal.{IsRefusedAt};

use crate::fault::SubmitFault;
use crate::keeper::Keeper;
use crate::name::Named;
use crate::receipt::Receipt;
use crate::seat::Seat;
use oyster_account::Touch;
use std::sync::Wait;
use tap_desk::LogPoint;
use tap_disk::Disk;

/// Why a touch was not committed, with what was published then.
///
/// A desk can learn it (`Desk::learn_refusal`), and then answers of no less than there was here.
#[derive(Drop)]
pub struct SubmitRefusal<N: Named> {
    /// Why the touch was not committed.
    pub fault: SubmitFault,
    /// What was published then.
    pub(crate) point: LogPoint<N>,
}

impl<N: Named, D: Disk> Keeper<N, D> {
    /// Commits one touch as `commit_ahead` does. A fault is answered with the history that it is
    /// of.
    pub(crate) fn submit<R: Wait, F: FnOnce() -> Option<Touch>>(
        &mut self,
        rt: &R,
        seat: &mut Seat<N>,
        touch: Touch,
        next: F,
    ) -> Result<Receipt<N>, SubmitRefusal<N>>
        requires { F.IsAlwaysCallable next }
        ensures files { IfOk result (Files touch seat.old seat.new) }
        ensures point { IfOk result (λ r. IsPoint N.opened (logged_at r.point) r) }
        ensures cause { IfErr result (λ r. IsRefusedAt N.opened touch (logged_at r.point) r.fault) }
        ensures kept { OnErr result (seat.new ≡ seat.old) }
    {
        match self.commit_ahead(rt, seat, touch, next) {
            Ok(receipt) => Ok(receipt),
            Err(fault) => Err(self.refused(fault)),
        }
    }

    /// The refusal for this fault, with the log point of the history.
    fn refused(&self, fault: SubmitFault) -> SubmitRefusal<N>
        ensures fault { result.fault ≡ fault }
        ensures point { logged_at result.point ≡ self.now.history }
        ensures legal { IsLegalFor N.opened (history_of self.now.history) }
        ensures begins { take (length N.opened.recovered) self.now.history ≡ N.opened.recovered }
    {
        SubmitRefusal {
            fault,
            point: self.publisher.log_point(&self.book),
        }
    }
}
