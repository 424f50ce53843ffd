//! How often it is told how a server stands.

use std::time::Duration;

/// A pace of reports, by the clock.
#[derive(Clone, Copy)]
pub(crate) struct Pace {
    /// How long it is from one to the next, where there are any.
    every: Option<Duration>,
    /// When the next one is due. It isn't known where the clock has failed.
    due: Option<Duration>,
}

impl Pace {
    /// A pace that begins now.
    pub(crate) fn new(now: Option<Duration>, every: Option<Duration>) -> Pace {
        let due = match (now, every) {
            (Some(now), Some(every)) => Some(now.saturating_add(every)),
            _ => None,
        };
        Pace { every, due }
    }

    /// Whether one is due at this time. None is where the clock had failed at the beginning.
    pub(crate) fn is_due(self, now: Duration) -> bool {
        match self.due {
            Some(due) => now >= due,
            None => false,
        }
    }

    /// The pace behind this time. Those that are late are left out.
    pub(crate) fn after(self, now: Duration) -> Pace {
        let (Some(every), Some(due)) = (self.every, self.due) else {
            return self;
        };
        if now < due {
            return self;
        }
        let next = due.saturating_add(every);
        Pace {
            every: Some(every),
            due: Some(if next > now {
                next
            } else {
                now.saturating_add(every)
            }),
        }
    }
}
