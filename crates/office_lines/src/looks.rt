//! When it is told that gates wait while all lines are taken.

ghost use Rattle.std.specs.Prelude.{◌≡◌, ◌∷◌, [], Bool, List};
ghost use Rattle.office_lines.specs.Looks.{AreLooks, told_at_look};

use crate::notice::Notice;

/// What was found at the last looks around.
#[derive(Clone, Copy, Debug, PartialEq, Eq)]
pub(crate) struct Looks {
    /// Whether a gate waited at the last one.
    pub(crate) waited: bool,
    /// Whether a gate waited at the last two.
    pub(crate) taken: bool,
}

impl Looks {
    /// Nobody looked yet.
    pub(crate) fn new() -> Looks
        ensures { AreLooks result [] }
    {
        Looks {
            waited: false,
            taken: false,
        }
    }

    /// One look more, at which a gate waited or none did.
    pub(crate) fn with(self, waits: bool) -> Looks
        ensures { (looks : List Bool) → AreLooks self looks → AreLooks result (waits ∷ looks) }
    {
        Looks {
            waited: waits,
            taken: waits && self.waited,
        }
    }
}

/// What is told at a look, by what was found before it and with it, of so many lines.
pub(crate) fn turn_of(before: Looks, after: Looks, lines: u32) -> Option<Notice>
    ensures { (looks : List Bool) (look : Bool) → AreLooks before looks
        → AreLooks after (look ∷ looks) → result ≡ told_at_look looks look lines }
{
    match (before.taken, after.taken) {
        (false, true) => Some(Notice::AllTaken(lines)),
        (true, false) => Some(Notice::Free),
        _ => None,
    }
}
