//! What a card's statement has: a row for each fare day, journey, incomplete touch and top-up.

use fare_table::Cap;
use money_time::Stamp;
use oyster_account::{Journey, Passage};
use std::vec::Vec;

/// A card's charges and top-ups, and the reason for each. The lists are newest first.
#[derive(Debug, Drop)]
pub struct Statement {
    /// The fare days with a journey or an incomplete touch.
    pub days: Vec<Day>,
    pub top_ups: Vec<TopUp>,
    /// The sum of the top-ups, in pence.
    pub paid_in: u64,
    /// The sum of the charges of all days, for journeys and for incomplete touches, in pence.
    pub charged: u64,
    /// `paid_in` less `charged`, in pence.
    pub balance: i64,
}

/// The charges of one fare day.
#[derive(Debug, Drop)]
pub struct Day {
    /// In days since 1970-01-01.
    pub day: i32,
    /// Its journeys, newest first.
    pub journeys: Vec<JourneyRow>,
    /// The sum of their fares, in pence.
    pub fares: u64,
    /// The cap that lowered the charge for the journeys. If no cap did, the fares are the charge.
    pub cap: Option<Cap>,
    /// The charge for the journeys, in pence.
    pub charge: u64,
    /// The incomplete touches of the day, newest first.
    pub incomplete: Vec<Incomplete>,
    /// The sum of their charges, in pence.
    pub missing: u64,
}

/// A journey, in the row of the fare day of its first touch in.
#[derive(Clone, Copy, Debug, PartialEq, Eq)]
pub struct JourneyRow {
    pub journey: Journey,
    /// Whether the cap that the day's row names covers the journey. If it does, the cap's price
    /// replaces the fare.
    pub covered: bool,
}

/// A touch in or out without its other end, in the row of its own fare day.
#[derive(Clone, Copy, Debug, PartialEq, Eq)]
pub struct Incomplete {
    pub touch: Passage,
    pub reason: Reason,
    /// The maximum that is charged for the touch, in pence.
    pub pence: u32,
}

/// Why a maximum is charged for a touch in or out.
#[derive(Clone, Copy, Debug, PartialEq, Eq)]
pub enum Reason {
    /// A touch in, and the card was not touched in or out since.
    Open,
    /// A touch in, followed by another touch in.
    EnteredOver,
    /// A touch in, followed by a touch out after the limit of a leg.
    NotLeftInTime,
    /// A touch out that follows a touch in, after the limit of a leg.
    Late,
    /// A touch out that does not follow a touch in.
    Unstarted,
}

/// A top-up.
#[derive(Clone, Copy, Debug, PartialEq, Eq)]
pub struct TopUp {
    pub pence: u32,
    /// Its moment and fare day. The moments of top-ups may be in any order.
    pub stamp: Stamp,
}
