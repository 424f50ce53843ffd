//! Which texts mean a door, and that a text means one door at most: the contract of a call that
//! does nothing.
ghost use Rattle.std.specs.Prelude.{◌≡◌, List, ℕ, None};
ghost use Rattle.door_file.specs.Faults.{first_fault};
ghost use Rattle.door_file.specs.Meaning.{MeansDoor};
ghost use Rattle.door_file.specs.Rule.{Entry};

/// A text has no fault exactly when it means a door, and it means one at most.
pub fn door_texts()
    ensures faultless { (text : List ℕ) (entries : List Entry) → MeansDoor text entries
        → first_fault text ≡ None }
    ensures meaning { (text : List ℕ) → first_fault text ≡ None
        → (entries : List Entry) × MeansDoor text entries }
    ensures one { (text : List ℕ) (entries others : List Entry) → MeansDoor text entries
        → MeansDoor text others → entries ≡ others }
{}
