//! A commit as steps of a station.
ghost use Rattle.std.specs.Prelude.{◌≡◌, ℕ, Bool, List, false};
ghost use Rattle.gate_law.specs.Premises.{Line};
ghost use Rattle.gate_law.specs.Whole.{Whole};
ghost use Rattle.station_calls.specs.Shown.{IsShownBy, IsOnDisk};
ghost use Rattle.station_calls.specs.Commits.{IsCommitRun, answer_to};

use oyster_account::Touch;
use std::sync::Wait;
use tap_disk::Disk;
use tap_office::{Keeper, Named, Receipt, Seat, SubmitFault, the_lock_keeps};

/// Commits a touch, as `Keeper::commit_ahead` does, and `Keeper::commit` where no next touch is
/// given: what comes of it is a run of steps of the station, which ends with the answer. A crash at
/// any moment of it leaves what a station's crash may leave. The next touch is no step.
///
/// A new touch is entered and answered, a repeat is answered, and a fault is told for its cause;
/// where the disk fails, the station doesn't go on, and tells that it is halted. That the touch was
/// sent before is the premise Line. The lock and what the journal has are proved here.
pub fn commit_in_steps<N: Named, D: Disk, R: Wait>(
    rt: &R,
    keeper: &mut Keeper<N, D>,
    seat: &mut Seat<N>,
    touch: Touch,
    next: Option<Touch>,
) -> Result<Receipt<N>, SubmitFault>
    ensures steps { (alone : ℕ → Bool) (whole : Whole)
        → IsShownBy D.honest D.outcome N.opened keeper.old whole → Line whole.sent touch
        → IsCommitRun alone D.honest D.outcome N.opened whole (answer_to touch result)
        keeper.new }

    // A crash at any moment of the call.
    ensures crash { (whole : Whole) → IsShownBy D.honest D.outcome N.opened keeper.old whole
        → Line whole.sent touch → keeper.old.halted ≡ false → D.honest keeper.new.disk
        → (c : List ℕ) → D.outcome_since keeper.new.disk (D.moment keeper.old.disk) c
        → IsOnDisk N.opened.header whole c }
{
    the_lock_keeps(keeper);
    let result = keeper.commit_ahead(rt, seat, touch, move || next);
    the_lock_keeps(keeper);
    result
}
