//! Whether an office's disk is one that commits wait for.
ghost use Rattle.std.specs.Prelude.{◌≡◌, ◌+◌, ◌*◌, ◌<◌, ◌≤◌, min};
ghost use Rattle.tap_office.specs.declared.sync_times.TheConstants.{LONG_SYNC, ROW};

use libc::types::timespec;
use std::sync::atomic::{AtomicU32, Ordering};

/// From how many nanoseconds on a sync is long. A shorter one is over before a thread that sleeps
/// is woken: handing over in turn would then cost more than the sync that it saves (OFFICE.md,
/// "Turns").
const LONG_SYNC: u64 = 50_000;

/// How many commits in a row have to take as long. A commit in memory that the system breaks off
/// for a while is one, and not so many.
const ROW: u32 = 4;

/// How many of the last commits took long, one behind the other, up to `ROW`.
#[derive(Drop)]
pub(crate) struct SyncTimes {
    row: AtomicU32,
}

impl SyncTimes {
    /// No commit was timed yet.
    pub(crate) fn new() -> SyncTimes {
        SyncTimes {
            row: AtomicU32::new(0),
        }
    }

    /// Whether the last commits have all waited for the disk.
    pub(crate) fn are_long(&self) -> bool {
        self.row.load(Ordering::Relaxed) == ROW
    }

    /// A new touch was committed, by a commit that began at this time.
    pub(crate) fn note(&self, begun: u64) {
        let row = self.row.load(Ordering::Relaxed);
        let after = row_after(row, now().wrapping_sub(begun));
        if after != row {
            self.row.store(after, Ordering::Relaxed);
        }
    }
}

/// How many commits in a row took long behind one that took so many nanoseconds, where there were
/// so many before it. A commit makes two syncs, and while turns are taken one.
fn row_after(row: u32, took: u64) -> u32
    ensures short { took < LONG_SYNC → result ≡ 0 }
    ensures long { 2 * LONG_SYNC ≤ took → result ≡ min (row + 1) ROW }
    ensures turns { LONG_SYNC ≤ took → ROW ≤ row → result ≡ ROW }
    ensures no_turns { took < 2 * LONG_SYNC → row < ROW → result ≡ 0 }
{
    if row < ROW {
        if took < 2 * LONG_SYNC { 0 } else { row + 1 }
    } else if took < LONG_SYNC {
        0
    } else {
        ROW
    }
}

/// The time, in nanoseconds since some moment, by the clock that doesn't go back. It is 0 where
/// that can't be read.
pub(crate) fn now() -> u64 {
    let mut time = timespec {
        tv_sec: 0,
        tv_nsec: 0,
    };
    if libc::clock_gettime(libc::CLOCK_MONOTONIC, &mut time) != 0 {
        return 0;
    }
    let seconds = time.tv_sec.unsigned_abs().wrapping_mul(1_000_000_000);
    seconds.wrapping_add(time.tv_nsec.unsigned_abs())
}
