//! The watch that tells its notices on standard error.

use crate::ahead::Ahead;
use crate::begun::Begun;
use crate::days::GateDay;
use crate::kept_out::KeptOut;
use crate::looks::{Looks, turn_of};
use crate::notice::{Lines, Notice, Standing, SystemSaid, Watch, is_nearly_full, notice_of};
use crate::pace::Pace;
use crate::reason::Reason;
use jiff::civil::Date;
use money_time::Zone;
use proxy_header::Name;
use station_door::{ShutOut, StationDoor};
use std::alloc::{AllocError, Global};
use std::sync::atomic::{AtomicBool, AtomicU32, AtomicU64, Ordering};
use std::sync::{Mutex, Wait};
use std::time::{Clock, Duration};
use tap_disk::SystemError;
use tap_office::SubmitFault;
use tcp_line::Unhindered;

/// What is watched over.
#[derive(Clone, Copy)]
pub struct Watched<'a> {
    /// The path of the journal.
    pub journal: &'a str,
    /// Whether the lines end once the disk has failed.
    pub ends: bool,
    /// How many lines were asked for.
    pub asked: u32,
    /// How many entries the journal has room for.
    pub capacity: u32,
    /// How many it had at the opening.
    pub opened: u32,
    /// After how long it is told each time how the server stands, where it is told.
    pub report: Option<Duration>,
    /// The zone by which fare days are. Without it no gate is told to be ahead.
    pub zone: Option<Zone>,
    /// The door that requests have to pass, where there is one.
    pub door: Option<&'a StationDoor>,
}

/// A watch that tells each kind of notice once, on standard error. That all lines are taken is told
/// each time. It has the lines end once the disk has failed, where that is asked for.
#[derive(Drop)]
pub struct Notices<'a, R, L> {
    /// What it tells by.
    rt: &'a R,
    /// The lines.
    lines: &'a L,
    /// What it watches over.
    watched: Watched<'a>,
    /// The lines, as far as they have begun.
    begun: Begun,
    /// The most entries that were seen.
    entries: AtomicU32,
    /// How many connections there were.
    connections: AtomicU64,
    /// A touch up to this fare day changes nothing of what is ahead.
    settled: AtomicU32,
    /// Which gate is ahead.
    ahead: Mutex<Ahead>,
    /// What was found at the looks around.
    around: Mutex<Around>,
    /// What the door has kept out, where there is one.
    kept_out: Option<KeptOut<'a>>,
    /// Which kinds were told.
    halted: AtomicBool,
    full: AtomicBool,
    nearly_full: AtomicBool,
}

/// What was found at the looks around.
#[derive(Clone, Copy)]
struct Around {
    /// Whether gates waited.
    looks: Looks,
    /// When it is told how the server stands.
    pace: Pace,
}

impl<'a, R: Clock + Eprint, L: Lines> Notices<'a, R, L> {
    /// A watch that has told nothing, over lines that can begin now. It takes the memory for what
    /// is known of each gate, and of each rule of a door.
    pub fn new(
        alloc: Global,
        rt: &'a R,
        lines: &'a L,
        watched: Watched<'a>,
    ) -> Result<Notices<'a, R, L>, AllocError> {
        let ahead = Ahead::new(alloc)?;
        let kept_out = match watched.door {
            Some(door) => Some(KeptOut::new(alloc, door)?),
            None => None,
        };
        Ok(Notices {
            rt,
            lines,
            watched,
            begun: Begun::new(rt, watched.asked),
            entries: AtomicU32::new(watched.opened),
            connections: AtomicU64::new(0),
            settled: AtomicU32::new(0),
            ahead: Mutex::new(ahead),
            around: Mutex::new(Around {
                looks: Looks::new(),
                pace: Pace::new(rt.monotonic().ok(), watched.report),
            }),
            kept_out,
            halted: AtomicBool::new(false),
            full: AtomicBool::new(false),
            nearly_full: AtomicBool::new(false),
        })
    }

    /// Tells a notice, where this kind wasn't told yet.
    fn tell(&self, told: &AtomicBool, notice: Notice) {
        if !told.load(Ordering::Relaxed) && !told.swap(true, Ordering::Relaxed) {
            self.print(notice);
        }
    }

    /// Tells that the disk has failed, where it wasn't told yet, and what the system said of it:
    /// both by the same line, so that they stand one behind the other.
    fn tell_halted(&self, entries: u32, said: Option<SystemError>) {
        if self.halted.swap(true, Ordering::Relaxed) {
            return;
        }
        self.print(Notice::Halted(entries));
        if let Some(error) = said {
            let path = self.watched.journal;
            let _ = Unhindered(self.rt).eprintln(SystemSaid { path, error });
        }
    }

    /// Tells what is to be told of the lines that began.
    fn look_at_lines(&self) {
        if let Some(notice) = self.begun.notice(self.rt) {
            self.print(notice);
        }
    }

    /// Tells a notice, where there is one.
    fn tell_any(&self, notice: Option<Notice>) {
        if let Some(notice) = notice {
            self.print(notice);
        }
    }

    /// Prints a notice. What standard error doesn't take at once is dropped.
    fn print(&self, notice: Notice) {
        let _ = Unhindered(self.rt).eprintln(notice);
    }

    /// The fare day of a moment, in days since 1970-01-01. The one before counts as that day.
    fn day_of(&self, moment: u32) -> Option<u32> {
        let zone = self.watched.zone.as_ref()?;
        let stamp = zone.stamp(moment, &[]).ok()?;
        Some(stamp.day.max(0) as u32)
    }

    /// A touch of this gate and fare day was accepted: what is to be told of it.
    fn see<W: Wait>(&self, rt: &W, seen: GateDay) -> Option<Notice> {
        let mut ahead = self.ahead.lock(rt);
        let told = ahead.see(seen);
        self.settled.store(ahead.settled(), Ordering::Relaxed);
        let told = told?;
        Some(Notice::Ahead(told.gate, date_of(told.day)?))
    }

    /// How the server stands.
    fn standing(&self) -> Standing {
        let touches = self.entries.load(Ordering::Relaxed);
        let lines = self.begun.count_begun();
        Standing {
            touches,
            room: self.watched.capacity.saturating_sub(touches),
            taken: lines.saturating_sub(self.lines.waiting()),
            lines,
            connections: self.connections.load(Ordering::Relaxed),
        }
    }

    /// What is to be told of gates that wait.
    fn look_at_gates<W: Wait>(&self, rt: &W) -> Option<Notice> {
        let waits = self.lines.are_waited_for();
        let mut around = self.around.lock(rt);
        let before = around.looks;
        let after = before.with(waits);
        around.looks = after;
        turn_of(before, after, self.begun.count_begun())
    }

    /// Tells what the door has kept out, where that is to be told.
    fn look_at_door<W: Wait>(&self, rt: &W) {
        if let (Some(kept_out), Ok(now)) = (&self.kept_out, self.rt.monotonic()) {
            kept_out.tell(rt, now, self.rt);
        }
    }

    /// Whether it is to be told how the server stands.
    fn is_report_due<W: Wait>(&self, rt: &W) -> bool {
        let Ok(now) = self.rt.monotonic() else {
            return false;
        };
        let mut around = self.around.lock(rt);
        let pace = around.pace;
        around.pace = pace.after(now);
        pace.is_due(now)
    }
}

impl<R: Clock + Eprint, L: Lines> Watch for Notices<'_, R, L> {
    fn begun(&self) {
        self.begun.count();
    }

    fn connected(&self) {
        self.connections.fetch_add(1, Ordering::Relaxed);
        self.look_at_lines();
    }

    fn answered(&self, entries: u32) {
        self.look_at_lines();
        if entries > self.entries.load(Ordering::Relaxed) {
            self.entries.fetch_max(entries, Ordering::Relaxed);
        }
        if is_nearly_full(self.watched.capacity, entries) {
            self.tell(&self.nearly_full, Notice::NearlyFull(entries));
        }
    }

    fn accepted<W: Wait>(&self, rt: &W, gate: u16, moment: u32) {
        let Some(day) = self.day_of(moment) else {
            return;
        };
        if day > self.settled.load(Ordering::Relaxed) {
            self.tell_any(self.see(rt, GateDay { gate, day }));
        }
    }

    fn refused(&self, fault: SubmitFault, said: Option<SystemError>) {
        let entries = self.entries.load(Ordering::Relaxed);
        match notice_of(fault, self.watched.capacity, entries) {
            Some(Notice::Halted(entries)) => {
                self.tell_halted(entries, said);
                if self.watched.ends {
                    self.lines.end();
                }
            }
            Some(Notice::Full(entries)) => self.tell(&self.full, Notice::Full(entries)),
            _ => {}
        }
    }

    fn kept_out(&self, place: usize, reason: Reason, gate: u16) {
        if let Some(kept_out) = &self.kept_out {
            kept_out.count(place, reason, gate);
        }
    }

    fn shut_out<W: Wait>(&self, rt: &W, shut: ShutOut, name: Option<Name>) {
        if let Some(kept_out) = &self.kept_out {
            kept_out.shut_out(rt, shut, name);
        }
    }

    fn look<W: Wait>(&self, rt: &W) {
        self.tell_any(self.look_at_gates(rt));
        self.look_at_door(rt);
        if self.is_report_due(rt) {
            self.print(Notice::Standing(self.standing()));
        }
    }
}

/// The date of a day since 1970-01-01, where the calendar has it.
fn date_of(day: u32) -> Option<Date> {
    let date = jiff_core::civil::Date::from_unix_epoch_day(i64::from(day)).ok()?;
    Some(Date::from_plain(date))
}
