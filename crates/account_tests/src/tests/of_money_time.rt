//! Stamps and dates whose values were worked out by hand, or come from the system's `date`.
use super::moments::{Moment, stamp_of};
use super::{assert_same, assert_same_at};
use jiff::civil::DateTime;
use money_time::{Stamp, TimeFault, Window, Zone, day_of};
use std::alloc::{AllocError, AllocFailed};
use std::process::Abort;
use std::test::Fail;

/// London, with summer time from the last Sunday of March to that of October.
const LONDON: &str = "GMT0BST,M3.5.0/1,M10.5.0";

/// A window has its start and not its end. Worked out by hand: 2025-01-06 is a Monday and day
/// 20094, and 00:00 there is 1736121600. Day 20276 is Monday 2025-07-07, in summer time.
const WINDOWS: [Moment; 12] = [
    (1736144999, 20094, 389, Window::Off),
    (1736145000, 20094, 390, Window::Early),
    (1736155799, 20094, 569, Window::Early),
    (1736155800, 20094, 570, Window::Off),
    (1736179199, 20094, 959, Window::Off),
    (1736179200, 20094, 960, Window::Evening),
    (1736189999, 20094, 1139, Window::Evening),
    (1736190000, 20094, 1140, Window::Off),
    (1751866199, 20276, 389, Window::Off),
    (1751866200, 20276, 390, Window::Early),
    (1751876999, 20276, 569, Window::Early),
    (1751877000, 20276, 570, Window::Off),
];

/// A fare day starts at half past four. Worked out by hand: the clocks go forward in the night that
/// ends day 20176, which has 23 hours, and back in the one that ends day 20386, which has 25.
const FARE_DAYS: [Moment; 10] = [
    (1736137740, 20093, 269, Window::Off),
    (1736137800, 20094, 270, Window::Off),
    (1743222599, 20175, 269, Window::Off),
    (1743222600, 20176, 270, Window::Off),
    (1743305399, 20176, 269, Window::Off),
    (1743305400, 20177, 270, Window::Off),
    (1761362999, 20385, 269, Window::Off),
    (1761363000, 20386, 270, Window::Off),
    (1761452999, 20386, 269, Window::Off),
    (1761453000, 20387, 270, Window::Off),
];

/// Holidays and weekends have no window. Worked out by hand: 1766649600 is Thursday 2025-12-25, day
/// 20447, at 08:00, and 1736580000 is Saturday 2025-01-11 at 07:20.
const EARLY: [Moment; 1] = [(1766649600, 20447, 480, Window::Early)];

const HOLIDAY: [Moment; 1] = [(1766649600, 20447, 480, Window::Off)];

const SATURDAY: [Moment; 1] = [(1736580000, 20099, 440, Window::Off)];

// The civil dates and times of the zones below are those of the system's `TZ=RULE date -d @MOMENT`,
// and the fare days and windows were worked out from them by hand.

/// No summer time, and the first and the last moment.
const UTC: [Moment; 2] = [
    (0, -1, 0, Window::Off),
    (4294967295, 49710, 388, Window::Off),
];

const NEW_YORK: [Moment; 3] = [
    (0, -1, 1140, Window::Off),
    (1736177400, 20094, 630, Window::Off),
    (4294967295, 49709, 88, Window::Off),
];

/// South of the equator, where summer time spans the new year.
const SYDNEY: [Moment; 6] = [
    (1736107200, 20094, 420, Window::Early),
    (1743868799, 20183, 179, Window::Off),
    (1743868800, 20183, 120, Window::Off),
    (1751866200, 20276, 930, Window::Off),
    (1759593599, 20365, 119, Window::Off),
    (1759593600, 20365, 180, Window::Off),
];

/// A quoted name and an offset of half an hour.
const DELHI: [Moment; 2] = [
    (1751849999, 20276, 389, Window::Off),
    (1751850000, 20276, 390, Window::Early),
];

/// Day 60 of `J` is 1 March in a leap year too, and day 59 without it is 29 February there.
const JULIAN: [Moment; 4] = [
    (1709269199, 19782, 119, Window::Off),
    (1709269200, 19782, 180, Window::Off),
    (1740805199, 20147, 119, Window::Off),
    (1740805200, 20147, 180, Window::Off),
];

const COUNTED: [Moment; 4] = [
    (1709175599, 19781, 119, Window::Off),
    (1709175600, 19781, 180, Window::Off),
    (1740797999, 20147, 119, Window::Off),
    (1740798000, 20147, 180, Window::Off),
];

/// By this rule and these holidays each moment has this fare day, minute of the day and window.
fn assert_stamps(rt: &impl Abort, rule: &str, holidays: &[i32], rows: &[Moment]) {
    let zone = Zone::read(rule).ok().expect(rt, "a zone");
    for row in rows {
        let moment = row.0;
        let stamp = zone.stamp(moment, holidays);
        assert_same_at(rt, stamp, Ok(stamp_of(row)), (rule, moment));
    }
}

#[test]
fn each_zone_goes_by_its_rule_and_has_windows_but_on_holidays(rt: HostRuntime) {
    let rows: [(&str, &[i32], &[Moment]); 13] = [
        (LONDON, &[], &WINDOWS),
        (LONDON, &[], &FARE_DAYS),
        (LONDON, &[], &EARLY),
        (LONDON, &[20446, 20448], &EARLY),
        (LONDON, &[20447], &HOLIDAY),
        (LONDON, &[20448, 20447], &HOLIDAY),
        (LONDON, &[], &SATURDAY),
        ("UTC0", &[], &UTC),
        ("EST5", &[], &NEW_YORK),
        ("AEST-10AEDT,M10.1.0,M4.1.0/3", &[], &SYDNEY),
        ("<+0530>-5:30", &[], &DELHI),
        ("WST3WDT,J60,J300", &[], &JULIAN),
        ("ABC1DEF,59/2,299/2", &[], &COUNTED),
    ];
    for (rule, holidays, moments) in rows {
        assert_stamps(&rt, rule, holidays, moments);
    }
}

/// A stamp of this day and window.
fn stamped(day: i32, window: Window) -> Stamp {
    Stamp {
        moment: 1766649600,
        day,
        minute: 480,
        window,
    }
}

// Day 20447 is Thursday 2025-12-25, 20450 is Sunday 2025-12-28, and 480 is 08:00.
#[test]
fn a_stamp_may_go_by_other_holidays(rt: HostRuntime) {
    let early = stamped(20447, Window::Early);
    let off = stamped(20447, Window::Off);
    assert_same(&rt, early.by_holidays(&[20446, 20447]), off);
    assert_same(&rt, off.by_holidays(&[20446, 20448]), early);
    assert_same(&rt, off.by_holidays(&[]), early);

    let sunday = stamped(20450, Window::Off);
    assert_same(&rt, stamped(20450, Window::Early).by_holidays(&[]), sunday);
}

// The civil dates and times are those of the system's `TZ=RULE date -d @MOMENT`.
#[test]
fn the_clock_shows_what_jiff_converts(rt: HostRuntime) -> Result<(), Fail> {
    let rows = [
        (LONDON, 1736144999, (2025, 1, 6), (6, 29, 59)),
        (LONDON, 1751866200, (2025, 7, 7), (6, 30, 0)),
        ("EST5", 0, (1969, 12, 31), (19, 0, 0)),
        ("<+0530>-5:30", 1751849999, (2025, 7, 7), (6, 29, 59)),
    ];
    for (rule, moment, (year, month, day), (hour, minute, second)) in rows {
        let shown = Zone::read(rule)?.datetime(moment);
        let want = DateTime::new(year, month, day, hour, minute, second, 0).ok();
        assert_same_at(&rt, Some(shown), want, (rule, moment));
    }
    Ok(())
}

/// Texts that are no rule by the grammar of IEEE 1003.1: a name, an offset, and with a second name
/// both of its dates.
static NO_RULES: [&str; 8] = [
    "",
    "GMT",
    "GMT0BST,M3.5.0/1",
    "GMT0BST,M3.5.0/1,M10.5.0 ",
    "GMT0BST,M3.5.0/1,M10.5.0,M11.1.0",
    "Europe/London",
    "GMT0BST,M13.5.0/1,M10.5.0",
    "é0",
];

#[test]
fn a_text_that_is_no_rule_is_no_zone(rt: HostRuntime) {
    for text in NO_RULES.as_slice() {
        assert_same_at(
            &rt,
            Zone::read(*text).err(),
            Some(TimeFault::BadZone),
            *text,
        );
    }
}

/// Texts, each with its day, which is that of `date -u -d TEXT +%s` over 86400, or none where it is
/// no date.
static DATES: [(&str, Option<i32>); 25] = [
    ("1970-01-01", Some(0)),
    ("2025-01-06", Some(20094)),
    ("2025-12-25", Some(20447)),
    ("2024-02-29", Some(19782)),
    ("2000-02-29", Some(11016)),
    ("1969-12-31", Some(-1)),
    ("0000-01-01", Some(-719528)),
    ("9999-12-31", Some(2932896)),
    ("", None),
    ("2025-02-29", None),
    ("1900-02-29", None),
    ("2025-13-01", None),
    ("2025-00-01", None),
    ("2025-04-31", None),
    ("2025-01-00", None),
    ("2025-1-06", None),
    ("2025-01-6", None),
    ("2025-01-06x", None),
    (" 2025-01-06", None),
    ("2025/01/06", None),
    ("20250106", None),
    ("-025-01-06", None),
    ("2025-01-é", None),
    ("２０２５-01-06", None),
    ("2025-01-٠٦", None),
];

#[test]
fn the_text_of_a_date_says_its_day_and_any_other_is_no_date(rt: HostRuntime) {
    for (text, day) in DATES.as_slice() {
        let want = match *day {
            Some(day) => Ok(day),
            None => Err(TimeFault::BadDate),
        };
        assert_same_at(&rt, day_of(*text), want, *text);
    }
}

// A caller that takes memory passes its refusal on, and each fault has its text.
#[test]
fn faults_say_what_was_refused(rt: HostRuntime) -> Result<(), Fail> {
    assert_same(&rt, TimeFault::from(AllocError), TimeFault::Memory);
    let failed = AllocFailed { value: 7u8 };
    assert_same(&rt, TimeFault::from(failed), TimeFault::Memory);
    let rows = [
        (TimeFault::Memory, "out of memory"),
        (TimeFault::BadZone, "the text is not a POSIX TZ rule"),
        (
            TimeFault::BadDate,
            "the text is not a date of the form YYYY-MM-DD",
        ),
    ];
    for (fault, text) in rows {
        let said = format!(in rt.alloc(); "{fault}")?;
        assert_same(&rt, said.as_str(), text);
    }
    Ok(())
}
