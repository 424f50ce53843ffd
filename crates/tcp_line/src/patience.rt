//! How long a gate is waited for.

ghost use Rattle.std.specs.Prelude.{◌≡◌, None, false};

use std::time::{Clock, Duration};

/// After how many seconds a wait for a gate looks around.
const TICK: u64 = 1;

/// How long a gate may be waited for, and how long it was.
#[derive(Clone, Copy, Debug, PartialEq, Eq)]
pub(crate) struct Patience {
    /// How long it may be. Without it a gate is waited for as long as it is connected.
    idle: Option<Duration>,
    /// How long it was in waits that are over, for what is still to come.
    waited: Duration,
    /// Since when it is again, by the clock. It isn't known before the first tick of a wait that
    /// wasn't begun.
    since: Option<Duration>,
}

impl Patience {
    /// A gate that isn't waited for yet.
    pub(crate) fn new(idle: Option<Duration>) -> Patience {
        Patience {
            idle,
            waited: Duration::ZERO,
            since: None,
        }
    }

    /// Whether a gate can ever be given up.
    pub(crate) fn ends(&self) -> bool {
        self.idle.is_some()
    }

    /// What the gate was waited for has come.
    pub(crate) fn rest(&mut self) {
        self.waited = Duration::ZERO;
        self.since = None;
    }

    /// The gate is waited for from now on. A clock that fails leaves it to the next tick.
    pub(crate) fn begin<R: Clock>(&mut self, rt: &R) {
        self.since = rt.monotonic().ok();
    }

    /// The gate isn't waited for until this begins again, and what it was waited for hasn't come:
    /// whether it is given up. A clock that fails leaves this wait uncounted.
    pub(crate) fn is_over_at_pause<R: Clock>(&mut self, rt: &R) -> bool
        ensures never { self.old.idle ≡ None → result ≡ false }
        ensures same { self.new.idle ≡ self.old.idle }
    {
        if let (Some(since), Ok(now)) = (self.since, rt.monotonic()) {
            self.waited = self.waited.saturating_add(now.saturating_sub(since));
        }
        self.since = None;
        match self.idle {
            Some(idle) => self.waited >= idle,
            None => false,
        }
    }

    /// A tick has gone in which nothing came: whether the gate is given up.
    pub(crate) fn is_over_at_tick<R: Clock>(&mut self, rt: &R) -> bool
        ensures never { self.old.idle ≡ None → result ≡ false }
        ensures same { self.new.idle ≡ self.old.idle }
    {
        if self.ends() && self.since.is_none() {
            self.since = rt.monotonic().ok().map(|now| now.saturating_sub(tick()));
        }
        self.is_over(rt)
    }

    /// Whether the gate is given up, which is waited for since this was asked first.
    pub(crate) fn is_over_from_now<R: Clock>(&mut self, rt: &R) -> bool {
        if self.since.is_none() {
            self.begin(rt);
        }
        self.is_over(rt)
    }

    /// Whether the gate is given up, which was waited for long enough. A clock that fails gives up
    /// none.
    pub(crate) fn is_over<R: Clock>(&self, rt: &R) -> bool
        ensures never { self.now.idle ≡ None → result ≡ false }
    {
        let (Some(idle), Some(since)) = (self.idle, self.since) else {
            return false;
        };
        match rt.monotonic() {
            Ok(now) => self.waited.saturating_add(now.saturating_sub(since)) >= idle,
            Err(_) => false,
        }
    }
}

/// After how long a wait for a gate looks around.
pub(crate) fn tick() -> Duration {
    Duration::from_secs(TICK)
}
