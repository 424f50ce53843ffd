//! What a server's door has kept out, as it is counted and told.

use crate::reason::Reason;
use proxy_header::Name;
use station_door::{ShutOut, StationDoor};
use std::alloc::{AllocError, Global};
use std::fmt;
use std::fmt::Display;
use std::sync::atomic::{AtomicU32, AtomicU64, Ordering};
use std::sync::{Mutex, Wait};
use std::time::Duration;
use tcp_line::Unhindered;

/// How many milliseconds lie at least between two lines on the same thing, such as requests that
/// one rule keeps out for one reason.
pub const BETWEEN_LINES: u64 = 60_000;

/// How often one thing was kept out, since it was told last.
#[derive(Drop)]
struct Count {
    /// How often.
    count: AtomicU64,
    /// The gate number of the last one.
    gate: AtomicU32,
    /// When it was told last, in milliseconds of the clock and not 0. 0 before.
    told: AtomicU64,
}

impl Count {
    /// Nothing was kept out yet.
    fn new() -> Count {
        Count {
            count: AtomicU64::new(0),
            gate: AtomicU32::new(0),
            told: AtomicU64::new(0),
        }
    }

    /// A request of this gate number was kept out.
    fn add(&self, gate: u16) {
        self.gate.store(u32::from(gate), Ordering::Relaxed);
        self.count.fetch_add(1, Ordering::Relaxed);
    }

    /// How often, where it is to be told now: something was kept out, and the last line is old
    /// enough. From then on it is counted anew.
    fn take(&self, now: u64) -> Option<u64> {
        if self.count.load(Ordering::Relaxed) == 0 {
            return None;
        }
        let told = self.told.load(Ordering::Relaxed);
        if told > 0 && now.saturating_sub(told) < BETWEEN_LINES {
            return None;
        }
        self.told.store(now.max(1), Ordering::Relaxed);
        Some(self.count.swap(0, Ordering::Relaxed))
    }

    /// The line that is to be told now, if there is one.
    fn line<'a>(&self, now: u64, reason: Reason, name: &'a str) -> Option<NotAllowed<'a>> {
        let count = self.take(now)?;
        Some(NotAllowed {
            reason,
            gate: self.gate.load(Ordering::Relaxed),
            count,
            name,
        })
    }
}

/// What one rule has kept out.
#[derive(Drop)]
struct Counts {
    kind: Count,
    gate: Count,
    rate: Count,
    ahead: Count,
    reserve: Count,
    connections: Count,
}

impl Counts {
    /// Nothing yet.
    fn new() -> Counts {
        Counts {
            kind: Count::new(),
            gate: Count::new(),
            rate: Count::new(),
            ahead: Count::new(),
            reserve: Count::new(),
            connections: Count::new(),
        }
    }

    /// What it has kept out for a reason, if rules have that reason.
    fn of(&self, reason: Reason) -> Option<&Count> {
        match reason {
            Reason::Kind => Some(&self.kind),
            Reason::Gate => Some(&self.gate),
            Reason::Rate => Some(&self.rate),
            Reason::Ahead => Some(&self.ahead),
            Reason::Reserve => Some(&self.reserve),
            Reason::Connections => Some(&self.connections),
            Reason::Rule => None,
        }
    }
}

/// What a door has kept out.
#[derive(Drop)]
pub(crate) struct KeptOut<'a> {
    /// The door.
    door: &'a StationDoor,
    /// What each of its rules has kept out.
    rules: Vec<Counts>,
    /// The connections for whose name there is no rule.
    strangers: Count,
    /// The name of the last one of them.
    stranger: Mutex<Option<Name>>,
}

impl<'a> KeptOut<'a> {
    /// Nothing yet. It takes the memory for all rules.
    pub(crate) fn new(alloc: Global, door: &'a StationDoor) -> Result<KeptOut<'a>, AllocError> {
        let mut rules = Vec::with_capacity(alloc, door.rules().len())?;
        for _ in door.rules() {
            rules.push(Counts::new())?;
        }
        Ok(KeptOut {
            door,
            rules,
            strangers: Count::new(),
            stranger: Mutex::new(None),
        })
    }

    /// Something of this gate number was kept out by the rule at this place.
    pub(crate) fn count(&self, place: usize, reason: Reason, gate: u16) {
        if let Some(counts) = self.rules.get(place) {
            if let Some(count) = counts.of(reason) {
                count.add(gate);
            }
        }
    }

    /// A connection of this name, if it has one, wasn't let in.
    pub(crate) fn shut_out<W: Wait>(&self, rt: &W, shut: ShutOut, name: Option<Name>) {
        match shut {
            ShutOut::Connections { place } => self.count(place, Reason::Connections, 0),
            ShutOut::NoRule => {
                // Under the lock, so that a line has the name of the last one that it counts.
                let mut stranger = self.stranger.lock(rt);
                *stranger = name;
                self.strangers.add(0);
            }
        }
    }

    /// Tells what is to be told when the clock shows this. What standard error doesn't take at once
    /// is dropped.
    pub(crate) fn tell<W: Wait, R: Eprint>(&self, rt: &W, now: Duration, to: &R) {
        let now = u64::try_from(now.as_millis()).unwrap_or(u64::MAX);
        for (rule, counts) in self.door.rules().iter().zip(&self.rules) {
            tell_counts(counts, now, rule.name.as_str(), to);
        }
        let last = self.stranger.lock(rt);
        let stranger = *last;
        let name = match &stranger {
            Some(name) => name.as_str(),
            None => NO_NAME,
        };
        let line = self.strangers.line(now, Reason::Rule, name);
        drop(last);
        tell_line(line, to);
    }
}

/// What stands for the name of a connection that has none.
const NO_NAME: &str = "-";

/// The reasons for which a rule keeps something out, in the order in which they are told.
const REASONS: [Reason; 6] = [
    Reason::Kind,
    Reason::Gate,
    Reason::Rate,
    Reason::Ahead,
    Reason::Reserve,
    Reason::Connections,
];

/// Tells what the rule of this name has kept out, where it is to be told now.
fn tell_counts<R: Eprint>(counts: &Counts, now: u64, name: &str, to: &R) {
    for reason in REASONS {
        if let Some(count) = counts.of(reason) {
            tell_line(count.line(now, reason, name), to);
        }
    }
}

/// Tells a line, if there is one.
fn tell_line<R: Eprint>(line: Option<NotAllowed<'_>>, to: &R) {
    if let Some(line) = line {
        let _ = Unhindered(to).eprintln(line);
    }
}

/// The line that tells what was kept out.
#[derive(Clone, Copy)]
struct NotAllowed<'a> {
    /// Why.
    reason: Reason,
    /// The gate number of the last one, 0 where it has none.
    gate: u32,
    /// How often, since it was told last.
    count: u64,
    /// The name of the rule, or that of a connection without a rule.
    name: &'a str,
}

impl Display for NotAllowed<'_> {
    fn fmt<W: fmt::Write>(&self, f: &mut fmt::Formatter<W>) -> fmt::Result {
        let (reason, gate, count, name) = (self.reason, self.gate, self.count, self.name);
        write!(f, "not allowed {reason} {gate} {count} {name}")
    }
}
