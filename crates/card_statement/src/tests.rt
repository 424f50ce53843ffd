//! What no clause says: that a call succeeds when there is memory, and reports a refused
//! allocation. The values are those of FARES.md.

ghost use Rattle.std.specs.Prelude.{◌≡◌, ◌+◌, ◌*◌};

mod days;
mod statements;

use money_time::{Stamp, Window};
use oyster_account::Passage;
use std::fmt::Debug;
use std::process::Abort;

/// How often a call is repeated that was refused memory.
const TRIES: u32 = 10;

/// 2025-01-06, a Monday.
const MONDAY: i32 = 20094;

/// These are equal.
fn assert_same<T: PartialEq + Debug + Copy>(rt: &impl Abort, found: T, want: T) {
    assert_eq!(rt; found, want);
}

/// The moment so many minutes after Monday 00:00.
fn moment(minute: u16) -> u32
    ensures { result ≡ 1736121600 + minute * 60 }
{
    1_736_121_600 + u32::from(minute) * 60
}

/// A passage on Monday at a minute of the day.
fn passage(station: u16, minute: u16, window: Window) -> Passage
    ensures { result.stamp.moment ≡ 1736121600 + minute * 60 }
{
    let stamp = Stamp {
        moment: moment(minute),
        day: MONDAY,
        minute,
        window,
    };
    Passage { station, stamp }
}
