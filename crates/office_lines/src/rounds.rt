//! What a door reads round it: the server's clocks, and the office's history.

ghost use Rattle.door_clerk.specs.declared.reading.Standing.{Standing};
ghost use Rattle.office_lines.specs.Standing.{StandsIn};

use door_clerk::{Clocks, Standing, Surroundings};
use oyster_account::Touch;
use std::sync::Wait;
use std::time::Clock;
use tap_disk::Disk;
use tap_office::{Named, Office};

/// The clocks of a server and the history of its office.
#[derive(Drop)]
pub(crate) struct Rounds<'a, N: Named, D: Disk, R> {
    /// What the clocks are read by.
    pub rt: &'a R,
    /// The office.
    pub office: &'a Office<N, D>,
}

impl<N: Named, D: Disk, R: Clock> Surroundings for Rounds<'_, N, D, R> {
    ghost shows = { λ rounds clocks. Unit {0} };

    ghost stands = { λ rounds touch standing. StandsIn N.opened touch standing };

    /// The system's clocks. One that can't be read shows 0: no new touch is near it then, and no
    /// bucket gains anything.
    fn clocks(&self) -> Clocks {
        let seconds = match self.rt.since_1970() {
            Ok(since) => since.as_secs(),
            Err(_) => 0,
        };
        let ticks = match self.rt.monotonic() {
            Ok(since) => u64::try_from(since.as_millis()).unwrap_or(u64::MAX),
            Err(_) => 0,
        };
        Clocks { seconds, ticks }
    }

    fn standing<W: Wait>(&self, rt: &W, touch: &Touch) -> Standing {
        match self.office.room_for(rt, touch) {
            Some(room) => Standing::New { room },
            None => Standing::Repeat,
        }
    }
}
