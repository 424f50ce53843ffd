//! Laws of the places of a rule, each the contract of a call that does nothing.
ghost use Rattle.std.specs.Prelude.{◌≡◌, ◌≤◌, ℕ, Option, Some};
ghost use Rattle.door_clerk.specs.declared.bucket.Bucket.{Bucket};
ghost use Rattle.door_clerk.specs.declared.rule.Rate.{Rate};
ghost use Rattle.door_clerk.specs.Bucket.{later_of, level_at, merged_bucket};
ghost use Rattle.station_door.specs.Places.{PlacesState, after_leave, next_bucket};

/// When one of the open connections has ended there is a place for the next one. It begins with the
/// bucket that the one before left, as far as no other connection of the rule took more.
pub fn a_place_is_free_again()
    ensures { (rate : Option Rate) (places : PlacesState) (left : Bucket)
        → 1 ≤ places.taken → places.taken ≤ places.most
        → next_bucket (after_leave rate places left)
        ≡ Some (merged_bucket rate places.bucket left) }
{}

/// Whatever a connection leaves, the next one begins with no more than that, and no more than the
/// rule had: at any time from the later of the two on.
pub fn nothing_is_refilled()
    ensures left { (rate : Rate) (places : PlacesState) (left : Bucket) (ticks : ℕ)
        → later_of places.bucket left ≤ ticks
        → level_at rate (after_leave (Some rate) places left).bucket ticks
        ≤ level_at rate left ticks }
    ensures had { (rate : Rate) (places : PlacesState) (left : Bucket) (ticks : ℕ)
        → later_of places.bucket left ≤ ticks
        → level_at rate (after_leave (Some rate) places left).bucket ticks
        ≤ level_at rate places.bucket ticks }
{}
