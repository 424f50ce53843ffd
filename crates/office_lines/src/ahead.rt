//! Which gate is ahead of all others, by the fare days of the touches that were accepted.

ghost use Rattle.std.specs.Prelude.{◌≡◌, ◌∷◌, [], List, length, IfOk};
ghost use Rattle.office_lines.specs.declared.ahead.TheConstants.{GATES};

use crate::days::{Days, GateDay};
use std::alloc::{AllocError, Global};

/// How many gate numbers there are.
const GATES: usize = 65_536;

/// Which gate is ahead of all others, as touches are accepted, and which gates were told.
#[derive(Drop)]
pub(crate) struct Ahead {
    days: Days,
    /// For each gate whether it was told.
    told: Vec<bool>,
    ghost whole: { length told.items ≡ GATES },
}

impl Ahead {
    ghost use Rattle.office_lines.specs.Ahead.{StandsFor, told_at};

    /// No touch was accepted yet. It takes the memory for all gates.
    pub(crate) fn new(alloc: Global) -> Result<Ahead, AllocError>
        ensures { IfOk result (λ ahead. StandsFor ahead []) }
    {
        let told = vec![in alloc; false; GATES]?;
        Ok(Ahead {
            days: Days {
                first: None,
                second: None,
            },
            told,
        })
    }

    /// A touch was accepted: the one that is ahead now, where its gate wasn't told yet. It takes no
    /// memory.
    pub(crate) fn see(&mut self, seen: GateDay) -> Option<GateDay>
        ensures stands { (touches : List _) → StandsFor self.old touches
            → StandsFor self.new (seen ∷ touches) }
        ensures told { (touches : List _) → StandsFor self.old touches
            → result ≡ told_at touches seen }
    {
        self.days = self.days.with(seen);
        let ahead = self.days.ahead()?;
        let place = usize::from(ahead.gate);
        if self.told[place] {
            return None;
        }
        self.told[place] = true;
        Some(ahead)
    }

    /// A touch up to this day, of whatever gate, would change nothing. It is 0 while touches of one
    /// gate alone were seen.
    pub(crate) fn settled(&self) -> u32 {
        match self.days.second {
            Some(second) => second.day,
            None => 0,
        }
    }
}
