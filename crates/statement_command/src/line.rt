//! A line of a statement, which each format prints in its own way.

use crate::days::Days;
use card_statement::{Incomplete, JourneyRow, TopUp};
use fare_table::Cap;
use money_time::Stamp;
use oyster_account::Act;

/// A line of a statement. Lines of a fare day begin with it. Amounts are in pence.
#[derive(Clone, Copy)]
pub enum Line {
    /// The number of the card, and the days that are asked for.
    Card(u32, Days),
    /// What was paid in and charged before the first day, if a first day is asked for.
    Before(Option<Sums>),
    /// The beginning of a fare day.
    Day(i32),
    /// A journey.
    Journey(i32, JourneyRow),
    /// The sum of the fares of the day's journeys.
    Fares(i32, u64),
    /// The cap that applied, if one did.
    Cap(i32, Option<Cap>),
    /// The charge for the day's journeys.
    Journeys(i32, u64),
    /// An incomplete touch.
    Touch(i32, Incomplete),
    /// The charge for the day: for its journeys and for its incomplete touches.
    Charge(i32, u64),
    /// The beginning of the top-ups, and whether there are any.
    TopUps(bool),
    /// A top-up.
    TopUp(TopUp),
    /// The beginning of the refused touches, and whether there are any.
    Refusals(bool),
    /// A refused touch.
    Refused(RefusedTouch),
    /// The sum of all top-ups up to the last day.
    PaidIn(u64),
    /// The sum of the charges of all days up to the last.
    Charged(u64),
    /// The balance, of what was paid in and what was charged.
    Balance(u64, u64),
}

/// What was paid in and charged before a fare day, in pence.
#[derive(Clone, Copy)]
pub struct Sums {
    pub day: i32,
    pub paid_in: u64,
    pub charged: u64,
}

/// A touch of the card that was refused.
#[derive(Clone, Copy)]
pub struct RefusedTouch {
    pub act: Act,
    pub stamp: Stamp,
    /// The code of the verdict.
    pub verdict: u8,
}
