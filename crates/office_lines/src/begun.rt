//! How many of a server's lines have begun: those that have a thread.

use crate::notice::Notice;
use std::sync::atomic::{AtomicBool, AtomicU32, Ordering};
use std::time::{Clock, Duration};

/// After how many seconds each line that has a thread has begun.
const SETTLED: u64 = 1;

/// The lines of a server, as far as they have begun.
#[derive(Drop)]
pub(crate) struct Begun {
    /// How many lines were asked for.
    asked: u32,
    /// How many have begun.
    begun: AtomicU32,
    /// Since when they could, by the clock. It isn't known where the clock has failed.
    since: Option<Duration>,
    /// Whether they were looked at since all had time to begin.
    looked: AtomicBool,
}

impl Begun {
    /// So many lines, none of which has begun.
    pub(crate) fn new<R: Clock>(rt: &R, asked: u32) -> Begun {
        Begun {
            asked,
            begun: AtomicU32::new(0),
            since: rt.monotonic().ok(),
            looked: AtomicBool::new(false),
        }
    }

    /// One more line has begun.
    pub(crate) fn count(&self) {
        self.begun.fetch_add(1, Ordering::Relaxed);
    }

    /// How many have begun.
    pub(crate) fn count_begun(&self) -> u32 {
        self.begun.load(Ordering::Relaxed)
    }

    /// What is to be told of the lines: that some haven't begun though they had time to. It is
    /// looked at once.
    pub(crate) fn notice<R: Clock>(&self, rt: &R) -> Option<Notice> {
        if self.looked.load(Ordering::Relaxed) || !self.had_time(rt) {
            return None;
        }
        if self.looked.swap(true, Ordering::Relaxed) {
            return None;
        }
        let begun = self.begun.load(Ordering::Relaxed);
        if begun < self.asked {
            Some(Notice::Lines(begun, self.asked))
        } else {
            None
        }
    }

    /// Whether all lines had time to begin. A clock that fails leaves it open.
    fn had_time<R: Clock>(&self, rt: &R) -> bool {
        match (self.since, rt.monotonic()) {
            (Some(since), Ok(now)) => now.saturating_sub(since) >= Duration::from_secs(SETTLED),
            _ => false,
        }
    }
}
