//! What is round a door: the clocks and the history that it reads.
ghost use Rattle.oyster_account.specs.declared.touch.Touch.{Touch};
ghost use Rattle.door_clerk.specs.declared.reading.Clocks.{Clocks};
ghost use Rattle.door_clerk.specs.declared.reading.Standing.{Standing};

use crate::reading::{Clocks, Standing};
use oyster_account::Touch;
use std::sync::Wait;

/// Where a door reads the clocks, and whether a touch is new.
pub trait Surroundings {
    // The clocks may show this.
    ghost shows: { Self → Clocks → Type 0 };

    // The touch may stand so in the history.
    ghost stands: { Self → Touch → Standing → Type 0 };

    /// Reads the clocks. It is called for each touch of an allowed kind and gate number.
    fn clocks(&self) -> Clocks
        ensures { shows self.now result };

    /// Reads whether a touch is new. It may wait for the history.
    ///
    /// It is called only where the answer decides, and never for a touch that came too fast. Other
    /// clerks may enter touches before this one is entered: the reserve can be undercut by one
    /// touch for each other door of the history.
    fn standing<R: Wait>(&self, rt: &R, touch: &Touch) -> Standing
        ensures { stands self.now touch.now result };
}
