//! What is told while a server runs, and that each kind is told once.

use super::assert_same;
use jiff::civil::Date;
use libc::EIO;
use money_time::Zone;
use office_lines::{Lines, Notice, Notices, Reason, Standing, SystemSaid, Watch, Watched};
use proxy_header::Name;
use station_door::ShutOut;
use std::alloc::AllocError;
use std::fmt::Display;
use std::io;
use std::process::Abort;
use std::sync::Wait;
use std::sync::atomic::{AtomicBool, AtomicU32, AtomicU64, Ordering};
use std::test::Fail;
use std::time::{Clock, Duration};
use tap_disk::SystemError;
use tap_office::SubmitFault;

/// Counts the lines that are told, and has a clock that stands still until a test moves it.
#[derive(Drop)]
pub(super) struct Teller {
    pub(super) told: AtomicU64,
    pub(super) seconds: AtomicU64,
}

impl Clock for Teller {
    fn monotonic(&self) -> io::Result<Duration> {
        Ok(Duration::from_secs(self.seconds.load(Ordering::Relaxed)))
    }

    fn since_1970(&self) -> io::Result<Duration> {
        Err(io::ErrorKind::Unsupported.into())
    }
}

impl Eprint for Teller {
    fn eprint<D: Display + Drop>(&self, _value: D) -> io::Result<()> {
        Err(io::ErrorKind::Unsupported.into())
    }

    fn eprintln<D: Display + Drop>(&self, _value: D) -> io::Result<()> {
        self.told.fetch_add(1, Ordering::Relaxed);
        Ok(())
    }
}

/// Counts how often lines are ended, and has as many lines wait as a test says.
#[derive(Drop)]
pub(super) struct Ends {
    ended: AtomicU64,
    waiting: AtomicU32,
    are_waited_for: AtomicBool,
}

impl Lines for Ends {
    fn end(&self) {
        self.ended.fetch_add(1, Ordering::Relaxed);
    }

    fn waiting(&self) -> u32 {
        self.waiting.load(Ordering::Relaxed)
    }

    fn are_waited_for(&self) -> bool {
        self.are_waited_for.load(Ordering::Relaxed)
    }
}

/// Nobody watches.
#[derive(Drop)]
pub struct Unwatched;

impl Watch for Unwatched {
    fn begun(&self) {}

    fn connected(&self) {}

    fn answered(&self, _entries: u32) {}

    fn accepted<W: Wait>(&self, _rt: &W, _gate: u16, _moment: u32) {}

    fn refused(&self, _fault: SubmitFault, _said: Option<SystemError>) {}

    fn kept_out(&self, _place: usize, _reason: Reason, _gate: u16) {}

    fn shut_out<W: Wait>(&self, _rt: &W, _shut: ShutOut, _name: Option<Name>) {}

    fn look<W: Wait>(&self, _rt: &W) {}
}

/// Counts the touches that are shown as accepted.
#[derive(Drop)]
pub struct Counting {
    pub accepted: AtomicU64,
}

impl Watch for Counting {
    fn begun(&self) {}

    fn connected(&self) {}

    fn answered(&self, _entries: u32) {}

    fn accepted<W: Wait>(&self, _rt: &W, _gate: u16, _moment: u32) {
        self.accepted.fetch_add(1, Ordering::Relaxed);
    }

    fn refused(&self, _fault: SubmitFault, _said: Option<SystemError>) {}

    fn kept_out(&self, _place: usize, _reason: Reason, _gate: u16) {}

    fn shut_out<W: Wait>(&self, _rt: &W, _shut: ShutOut, _name: Option<Name>) {}

    fn look<W: Wait>(&self, _rt: &W) {}
}

/// Who has told nothing, at the clock's start.
pub(super) fn new_teller() -> Teller {
    Teller {
        told: AtomicU64::new(0),
        seconds: AtomicU64::new(0),
    }
}

/// Lines that weren't ended, and that no gate waits for.
pub(super) fn new_ends() -> Ends {
    Ends {
        ended: AtomicU64::new(0),
        waiting: AtomicU32::new(0),
        are_waited_for: AtomicBool::new(false),
    }
}

/// What is watched over: so many lines that end where the disk fails, a journal for ten touches
/// with none, no reports, and no zone.
pub(super) fn watched(asked: u32) -> Watched<'static> {
    Watched {
        journal: "journal",
        ends: true,
        asked,
        capacity: 10,
        opened: 0,
        report: None,
        zone: None,
        door: None,
    }
}

/// So many lines were told, and the lines were ended so often.
fn assert_told<R: Abort>(rt: &R, teller: &Teller, ends: &Ends, told: u64, ended: u64) {
    assert_same(rt, teller.told.load(Ordering::Relaxed), told);
    assert_same(rt, ends.ended.load(Ordering::Relaxed), ended);
}

/// A halt is told where no lines are ended by it, and once what the system said of it: so many were
/// told then.
fn assert_told_without_lines<R: AllocGlobal + Abort>(
    rt: &R,
    teller: &Teller,
    told: u64,
) -> Result<(), AllocError> {
    let ends = new_ends();
    let goes_on = Watched {
        ends: false,
        ..watched(0)
    };
    let stays = Notices::new(rt.alloc(), teller, &ends, goes_on)?;
    let said = Some(SystemError { number: EIO });
    stays.refused(SubmitFault::Halted, said);
    stays.refused(SubmitFault::Halted, said);
    assert_told(rt, teller, &ends, told, 0);
    Ok(())
}

#[test]
fn each_kind_of_notice_is_told_once(rt: HostRuntime) -> Result<(), Fail> {
    let teller = new_teller();
    let ends = new_ends();
    let watch = Notices::new(rt.alloc(), &teller, &ends, watched(0))?;
    watch.answered(8);
    watch.refused(SubmitFault::Conflict, None);
    watch.refused(SubmitFault::Memory, None);
    watch.refused(SubmitFault::UnknownTable, None);
    assert_told(&rt, &teller, &ends, 0, 0);
    watch.answered(9);
    watch.answered(10);
    watch.answered(2);
    assert_told(&rt, &teller, &ends, 1, 0);
    watch.refused(SubmitFault::Full, None);
    watch.refused(SubmitFault::Full, None);
    assert_told(&rt, &teller, &ends, 2, 0);
    watch.refused(SubmitFault::Halted, None);
    assert_told(&rt, &teller, &ends, 3, 1);
    watch.refused(SubmitFault::Halted, None);
    assert_same(&rt, teller.told.load(Ordering::Relaxed), 3);
    assert_told_without_lines(&rt, &teller, 5)?;
    Ok(())
}

#[test]
fn lines_that_have_not_begun_are_told_once_they_had_time(rt: HostRuntime) -> Result<(), Fail> {
    let teller = new_teller();
    let ends = new_ends();
    let watch = Notices::new(rt.alloc(), &teller, &ends, watched(2))?;
    watch.begun();
    watch.connected();
    watch.answered(1);
    assert_told(&rt, &teller, &ends, 0, 0);
    teller.seconds.store(1, Ordering::Relaxed);
    watch.answered(2);
    assert_told(&rt, &teller, &ends, 1, 0);
    watch.answered(3);
    watch.connected();
    assert_told(&rt, &teller, &ends, 1, 0);
    let whole = Notices::new(rt.alloc(), &teller, &ends, watched(1))?;
    whole.begun();
    teller.seconds.store(2, Ordering::Relaxed);
    whole.connected();
    whole.answered(1);
    assert_told(&rt, &teller, &ends, 1, 0);
    Ok(())
}

/// Behind one look of a watch, which threads may share, so many lines were told.
pub(super) fn assert_told_at_look<R: Wait + Abort, L: Watch + Sync>(
    rt: &R,
    watch: &L,
    told: &AtomicU64,
    want: u64,
) {
    watch.look(rt);
    assert_same(rt, told.load(Ordering::Relaxed), want);
}

#[test]
fn all_lines_taken_is_told_each_time_and_so_is_its_end(rt: HostRuntime) -> Result<(), Fail> {
    let teller = new_teller();
    let ends = new_ends();
    let watch = Notices::new(rt.alloc(), &teller, &ends, watched(2))?;
    // whether a gate waits, and how many lines are told behind the look
    for (waits, told) in [
        (false, 0),
        (true, 0),
        (true, 1),
        (true, 1),
        (false, 2),
        (false, 2),
        (true, 2),
        (false, 2),
        (true, 2),
        (true, 3),
        (false, 4),
    ] {
        ends.are_waited_for.store(waits, Ordering::Relaxed);
        assert_told_at_look(&rt, &watch, &teller.told, told);
    }
    Ok(())
}

#[test]
fn how_it_stands_is_told_at_its_pace(rt: HostRuntime) -> Result<(), Fail> {
    let teller = new_teller();
    let ends = new_ends();
    let reports = Watched {
        report: Some(Duration::from_secs(10)),
        ..watched(1)
    };
    let watch = Notices::new(rt.alloc(), &teller, &ends, reports)?;
    let silent = Notices::new(rt.alloc(), &teller, &ends, watched(1))?;
    // at which second it is looked, and how many reports there were by then
    for (second, told) in [
        (0, 0),
        (9, 0),
        (10, 1),
        (11, 1),
        (19, 1),
        (20, 2),
        (45, 3),
        (54, 3),
        (55, 4),
        (1_000_000, 5),
    ] {
        teller.seconds.store(second, Ordering::Relaxed);
        silent.look(&rt);
        assert_told_at_look(&rt, &watch, &teller.told, told);
    }
    Ok(())
}

/// Noon on Monday, 5 January 2026.
const NOON: u32 = 1_767_614_400;

/// The second before the fare day of Thursday, 8 January 2026 begins, at 04:30.
const BEFORE_THURSDAY: u32 = 1_767_846_599;

/// Noon on 2 January 2099.
const FAR: u32 = 4_071_038_400;

/// What is watched for one line, by the zone of London.
fn zoned() -> Watched<'static> {
    Watched {
        zone: Zone::read("GMT0BST,M3.5.0/1,M10.5.0").ok(),
        ..watched(1)
    }
}

/// An accepted touch of a gate, behind which so many gates were told.
fn assert_told_at_touch<R: Wait + Abort, L: Watch + Sync>(
    rt: &R,
    watch: &L,
    told: &AtomicU64,
    touch: (u16, u32, u64),
) {
    let (gate, moment, want) = touch;
    watch.accepted(rt, gate, moment);
    assert_same(rt, told.load(Ordering::Relaxed), want);
}

#[test]
fn a_gate_that_is_ahead_of_all_others_is_told_once(rt: HostRuntime) -> Result<(), Fail> {
    let teller = new_teller();
    let ends = new_ends();
    let watch = Notices::new(rt.alloc(), &teller, &ends, zoned())?;
    let without_zone = Notices::new(rt.alloc(), &teller, &ends, watched(1))?;
    for touch in [
        (9, FAR, 0),
        (9, FAR, 0),
        (7, NOON, 1),
        (9, FAR, 1),
        (8, BEFORE_THURSDAY, 1),
        (65_535, 4_294_967_295, 2),
        (65_535, 4_294_967_295, 2),
    ] {
        without_zone.accepted(&rt, touch.0, touch.1);
        assert_told_at_touch(&rt, &watch, &teller.told, touch);
    }
    Ok(())
}

#[test]
fn a_gate_is_ahead_from_three_fare_days_on(rt: HostRuntime) -> Result<(), Fail> {
    let teller = new_teller();
    let ends = new_ends();
    let watch = Notices::new(rt.alloc(), &teller, &ends, zoned())?;
    for touch in [
        (7, NOON, 0),
        (8, BEFORE_THURSDAY, 0),
        (7, NOON, 0),
        (8, BEFORE_THURSDAY.saturating_add(1), 1),
    ] {
        assert_told_at_touch(&rt, &watch, &teller.told, touch);
    }
    Ok(())
}

#[test]
fn a_notice_is_told_with_its_entries(rt: HostRuntime) -> Result<(), Fail> {
    let far = Date::new(2099, 1, 2).ok().ok_or("there is no such date")?;
    let stands = Standing {
        touches: 4_711,
        room: 995_289,
        taken: 3,
        lines: 8,
        connections: 17,
    };
    for (notice, line) in [
        (Notice::Halted(2), "halted 2"),
        (Notice::Full(1_000_000), "full 1000000"),
        (Notice::NearlyFull(9), "nearly full 9"),
        (Notice::Lines(3, 8), "lines 3 of 8"),
        (Notice::AllTaken(8), "all lines taken 8"),
        (Notice::Free, "lines free"),
        (Notice::Ahead(9, far), "ahead 9 2099-01-02"),
        (
            Notice::Standing(stands),
            "touches 4711 room 995289 taken 3 of 8 connections 17",
        ),
    ] {
        assert_same(&rt, notice.to_string(rt.alloc())?.as_str(), line);
    }
    let error = SystemError { number: EIO };
    let said = SystemSaid {
        path: "/var/journal",
        error,
    };
    assert_same(
        &rt,
        said.to_string(rt.alloc())?.as_str(),
        "  /var/journal: Input/output error",
    );
    Ok(())
}
