//! Laws of what a keeper shows, each the contract of a call that does nothing.
ghost use Rattle.std.specs.Prelude.{◌≡◌, ℕ, Bool, true, false, List, [], None, Contains};
ghost use Rattle.oyster_account.specs.declared.touch.Touch.{Touch};
ghost use Rattle.oyster_account.specs.declared.reply.Judged.{Judged};
ghost use Rattle.tap_journal.specs.Left.{AllLeft};
ghost use Rattle.gate_client.specs.Client.{HasAsked, gate_of, is_stopped, waits_of};
ghost use Rattle.gate_law.specs.Whole.{Gate, Whole};
ghost use Rattle.gate_law.specs.WholeAgreement.{IsStart, IsRun};
ghost use Rattle.station_calls.specs.Reached.{IsReachedOpen, begun};
ghost use Rattle.station_calls.specs.Shown.{IsShownBy, HasTouch, with_gates};

use gate_client::Client;
use tap_disk::Disk;
use tap_office::{Keeper, Named, Opening};

/// What gates do, and what they send, leaves what a keeper shows of its station: so the runs of
/// gates and of a station follow one another in any order.
pub fn gates_leave_the_keeper<N: Named, D: Disk>(keeper: &Keeper<N, D>)
    ensures { (whole : Whole) (gates : ℕ → Gate) (more : List Touch)
        → IsShownBy D.honest D.outcome N.opened keeper.now whole
        → IsShownBy D.honest D.outcome N.opened keeper.now (with_gates whole gates more) }
{}

/// After any run of all gates and their station, crashes among its steps: whatever a crash leaves
/// of the keeper's disk is a journal that has each touch of which a gate's caller was told that it
/// is done, where that gate has its number to itself.
pub fn told_touches_survive<N: Named, D: Disk>(keeper: &Keeper<N, D>)
    ensures { (alone : ℕ → Bool) (old new : Whole) (between : List Whole)
        → IsStart alone N.opened.header.cards old
        → IsRun alone N.opened.header.cards old between new
        → IsShownBy D.honest D.outcome N.opened keeper.now new
        → (number : ℕ) (judged : Judged) → alone number ≡ true
        → Contains (new.gates number).told judged → D.honest keeper.now.disk
        → AllLeft (D.outcome keeper.now.disk) (HasTouch N.opened.header judged.touch) }
{}

/// A client that was just made, as `Client::create` leaves it, and the opening of a journal without
/// a touch are where rounds begin: that is where the law over all gates begins.
pub fn new_ones_begin<D: Disk, K: Disk>(client: &Client<D>, opening: &Opening<K>)
    ensures reached { (alone : ℕ → Bool) (number : ℕ) → HasAsked [] client.now
        → waits_of client.now ≡ None → is_stopped client.now ≡ false
        → gate_of client.now ≡ number → IsReachedOpen alone opening.now.header.cards number
        (begun opening.now) client.now opening.now }
    ensures starts { (alone : ℕ → Bool) → opening.now.recovered ≡ []
        → IsStart alone opening.now.header.cards (begun opening.now) }
{}
