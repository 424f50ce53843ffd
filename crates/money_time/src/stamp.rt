//! The stamp of a moment: its fare day, its minute and its window.
ghost use Rattle.std.specs.Prelude.{◌≡◌, ◌<◌, ◌<ℤ◌};
ghost use Rattle.money_time.specs.Stamp.{fare_day_of, by_holidays, window_of, clock_window};
ghost use Rattle.money_time.specs.Stamp.{is_working_day, is_weekday, is_listed};

/// The minute of the civil day with which a fare day starts: 04:30.
pub const FARE_DAY_START: u16 = 270;

/// The first minute of the Early window: 06:30.
pub const EARLY_START: u16 = 390;

/// The first minute after the Early window: 09:30.
pub const EARLY_END: u16 = 570;

/// The first minute of the Evening window: 16:00.
pub const EVENING_START: u16 = 960;

/// The first minute after the Evening window: 19:00.
pub const EVENING_END: u16 = 1140;

/// A moment as fares see it.
#[derive(Clone, Copy, Debug, PartialEq, Eq)]
pub struct Stamp {
    /// Seconds since 1970-01-01 00:00:00 UTC.
    pub moment: u32,
    /// The fare day, in days since 1970-01-01.
    pub day: i32,
    /// The minute of the civil day, from 0 for 00:00 to 1439 for 23:59.
    pub minute: u16,
    /// The window that the minute lies in, on that kind of day.
    pub window: Window,
}

impl Stamp {
    /// The stamp of the same moment by these holidays, whatever it went by before.
    ///
    /// `holidays` are in days since 1970-01-01, in any order.
    pub fn by_holidays(self, holidays: &[i32]) -> Stamp
        ensures { result ≡ by_holidays holidays.now self }
    {
        Stamp {
            window: window_on(self.day, self.minute, holidays),
            ..self
        }
    }
}

/// The part of the day that a price goes by. A working day is one from Monday to Friday that is no
/// listed holiday.
#[derive(Clone, Copy, Debug, PartialEq, Eq)]
pub enum Window {
    /// From 06:30 to before 09:30 on a working day.
    Early,
    /// From 16:00 to before 19:00 on a working day.
    Evening,
    /// Any other time.
    Off,
}

/// The fare day of a minute of a civil date: that date, or before 04:30 the day before.
///
/// `day` is the date in days since 1970-01-01, as is the answer.
pub fn fare_day(day: i32, minute: u16) -> i32
    requires { i32.MIN <ℤ day }
    ensures { result ≡ fare_day_of day minute }
{
    if minute < FARE_DAY_START {
        day - 1
    } else {
        day
    }
}

/// The window of a minute of a day. Day and holidays are in days since 1970-01-01.
pub fn window_on(day: i32, minute: u16, holidays: &[i32]) -> Window
    ensures { result ≡ window_of holidays.now day minute }
{
    match clock_window(minute) {
        Window::Off => Window::Off,
        window if is_working(day, holidays) => window,
        _ => Window::Off,
    }
}

/// Whether the day is from Monday to Friday and no listed holiday.
fn is_working(day: i32, holidays: &[i32]) -> bool
    ensures { result ≡ is_working_day holidays.now day }
{
    is_weekday(day) && !is_listed(day, holidays)
}

/// Whether the day is from Monday to Friday. Day 0 was a Thursday.
fn is_weekday(day: i32) -> bool
    ensures { result ≡ is_weekday day }
{
    (i64::from(day) + 3).rem_euclid(7) < 5
}

/// Whether the day is on the list.
fn is_listed(day: i32, days: &[i32]) -> bool
    ensures { result ≡ is_listed days.now day }
{
    days.iter().any(|listed| *listed == day)
}

/// The window of a minute of a working day.
fn clock_window(minute: u16) -> Window
    ensures { result ≡ clock_window minute }
{
    if EARLY_START <= minute && minute < EARLY_END {
        Window::Early
    } else if EVENING_START <= minute && minute < EVENING_END {
        Window::Evening
    } else {
        Window::Off
    }
}
