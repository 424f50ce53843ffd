//! Days and moments, as they are printed.

ghost use Rattle.std.specs.Prelude.{◌≡◌, ◌<◌, ◌≤◌, length};
ghost use Rattle.std.specs.Fmt.{signed_decimal};
ghost use Rattle.jiff_core.specs.Date.{epoch_day};
ghost use Rattle.jiff_fmt.specs.Text.{pad2};
ghost use Rattle.money_time.specs.declared.date.TheConstants.{DAY_SECONDS};
ghost use Rattle.journal_audit.specs.declared.history.date.TheConstants.{DAY_LIMIT};
ghost use Rattle.journal_audit.specs.Calendar.{day_text, clock_text};

use arrayvec::ArrayString;
use jiff_core::civil::Date;
use jiff_fmt::temporal::DateTimePrinter;

/// The most bytes of a day: a date of a year before 0 has 13.
pub const DAY_LIMIT: usize = 13;
/// The bytes of a second of the day.
pub const CLOCK_SIZE: usize = 10;
/// The most bytes of a moment.
pub(crate) const MOMENT_LIMIT: usize = DAY_LIMIT + CLOCK_SIZE;

/// Prints days, and stores the last one, which the next row of a history mostly has, too.
#[derive(Drop)]
pub struct DayPrinter {
    day: i32,
    text: ArrayString<DAY_LIMIT>,
    ghost told: { text.bytes ≡ day_text day },
}

impl DayPrinter {
    /// One that has printed the first day of 1970.
    pub fn new() -> DayPrinter {
        DayPrinter::of(0)
    }

    /// What is printed of a day, in days since 1970-01-01: its date, or its number where the
    /// calendar has none.
    pub fn print(&mut self, day: i32) -> &[u8]
        ensures text { result.now ≡ day_text day }
        ensures short { length result.now ≤ DAY_LIMIT }
    {
        if self.day != day {
            *self = DayPrinter::of(day);
        }
        self.text.as_str().as_bytes()
    }

    /// One that has printed a day.
    fn of(day: i32) -> DayPrinter
        ensures { result.day ≡ day }
    {
        let text = printed_day(day);
        DayPrinter { day, text }
    }
}

/// What is printed of a day, in days since 1970-01-01: its date, or its number where the calendar
/// has none.
#[tactic(auto, unfolding(crate::specs::Calendar::day_text))]
pub(crate) fn printed_day(day: i32) -> ArrayString<DAY_LIMIT>
    ensures { result.bytes ≡ day_text day }
{
    match Date::from_unix_epoch_day(i64::from(day)) {
        Ok(date) => printed_date(day, date),
        Err(_) => printed_number(day),
    }
}

/// The date of a day.
fn printed_date(day: i32, date: Date) -> ArrayString<DAY_LIMIT>
    requires { epoch_day date ≡ day }
    ensures { result.bytes ≡ day_text day }
{
    DateTimePrinter::new().date_text(date)
}

/// The number of a day.
fn printed_number(day: i32) -> ArrayString<DAY_LIMIT>
    ensures { result.bytes ≡ signed_decimal day }
{
    let mut text = ArrayString::new();
    let mut digits = itoa::Buffer::new();
    text.push_str(digits.format(day));
    text
}

/// A second of the day in UTC, as `T08:00:00Z`.
pub fn clock(second: u32) -> [u8; CLOCK_SIZE]
    requires { second < DAY_SECONDS }
    ensures { result ≡ clock_text second }
{
    let [hour_tens, hour] = two_digits((second / 3_600) as u8);
    let [minute_tens, minute] = two_digits((second % 3_600 / 60) as u8);
    let [tens, ones] = two_digits((second % 60) as u8);
    [
        b'T',
        hour_tens,
        hour,
        b':',
        minute_tens,
        minute,
        b':',
        tens,
        ones,
        b'Z',
    ]
}

/// A number below 100 in two digits.
fn two_digits(number: u8) -> [u8; 2]
    requires { number < 100 }
    ensures { result ≡ pad2 number }
{
    [b'0' + number / 10, b'0' + number % 10]
}
