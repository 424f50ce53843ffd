//! A plain account, with which `Card` is compared: it keeps the list of a card's accepted acts, and
//! works out each answer from nothing. It shares no step and no sum with `Card`.

use fare_schedule::Schedule;
use fare_table::{Cap, Fare};
use money_time::Stamp;
use oyster_account::{Act, CardState};
use std::alloc::{AllocError, Global};

/// A touch in or out.
#[derive(Clone, Copy)]
struct Tap {
    is_in: bool,
    station: u16,
    stamp: Stamp,
}

/// A leg or a journey, with the places of its touches in the list.
#[derive(Clone, Copy)]
struct Trip {
    start: Tap,
    finish: Tap,
    first: usize,
    last: usize,
}

/// The list of touches, cut into legs and journeys.
struct Travel {
    taps: Vec<Tap>,
    legs: Vec<Trip>,
    journeys: Vec<Trip>,
}

/// By hand, so that it is one call wherever one is dropped.
impl Drop for Travel {
    fn drop(self) {
        let Travel {
            taps: _,
            legs: _,
            journeys: _,
        } = self;
    }
}

/// What a touch is answered with, and the state that the card has then.
#[derive(Clone, Copy, Debug, PartialEq, Eq)]
pub struct Answer {
    pub verdict: u8,
    pub change: i64,
    pub balance: i64,
    pub state: CardState,
}

/// The accepted acts of a card, oldest first.
#[derive(Drop)]
pub struct Plain {
    acts: Vec<(Act, Stamp)>,
    alloc: Global,
}

impl Plain {
    /// A card with no acts.
    pub fn new(alloc: Global) -> Plain {
        Plain {
            acts: Vec::new(alloc),
            alloc,
        }
    }

    /// Gives an act to the card.
    pub fn give(
        &mut self,
        schedule: &Schedule,
        act: Act,
        stamp: Stamp,
    ) -> Result<Answer, AllocError> {
        let before = self.travel(schedule)?;
        let old = self.balance(schedule, &before);
        if let Some(verdict) = self.refusal(schedule, &before, act, stamp, old) {
            return Ok(Answer {
                verdict,
                change: 0,
                balance: old,
                state: self.state(&before),
            });
        }
        self.acts.push((act, stamp))?;
        let after = self.travel(schedule)?;
        let balance = self.balance(schedule, &after);
        Ok(Answer {
            verdict: verdict(schedule, &after, act),
            change: balance.saturating_sub(old),
            balance,
            state: self.state(&after),
        })
    }

    /// Whether the card was issued.
    fn is_issued(&self) -> bool {
        self.acts
            .iter()
            .any(|(act, _)| matches!(act, Act::Issue { .. }))
    }

    /// Where the card is.
    fn state(&self, travel: &Travel) -> CardState {
        if !self.is_issued() {
            return CardState::Vacant;
        }
        match travel.taps.last() {
            Some(tap) if tap.is_in => CardState::Inside,
            _ => CardState::Outside,
        }
    }

    /// The balance, in pence.
    fn balance(&self, schedule: &Schedule, travel: &Travel) -> i64 {
        let mut balance = 0i64;
        for (act, _) in &self.acts {
            if let Act::TopUp { pence, .. } = act {
                balance = balance.saturating_add(i64::from(*pence));
            }
        }
        balance
            .saturating_sub(journeys_charge(schedule, travel.journeys.as_slice()))
            .saturating_sub(missing_charge(schedule, travel))
    }

    /// The touches in and out, their legs and their journeys.
    fn travel(&self, schedule: &Schedule) -> Result<Travel, AllocError> {
        let mut taps = Vec::new(self.alloc);
        for (act, stamp) in &self.acts {
            match act {
                Act::Enter { station, .. } => taps.push(Tap {
                    is_in: true,
                    station: *station,
                    stamp: *stamp,
                })?,
                Act::Leave { station, .. } => taps.push(Tap {
                    is_in: false,
                    station: *station,
                    stamp: *stamp,
                })?,
                Act::TopUp { .. } | Act::Issue { .. } | Act::Revise { .. } => {}
            }
        }
        let legs = legs(self.alloc, schedule, taps.as_slice())?;
        let journeys = journeys(self.alloc, schedule, legs.as_slice())?;
        Ok(Travel {
            taps,
            legs,
            journeys,
        })
    }

    /// The code of the first refusal that holds.
    fn refusal(
        &self,
        schedule: &Schedule,
        travel: &Travel,
        act: Act,
        stamp: Stamp,
        balance: i64,
    ) -> Option<u8> {
        if let Act::Issue { .. } = act {
            return if self.is_issued() { Some(21) } else { None };
        }
        if !self.is_issued() {
            return Some(20);
        }
        match act {
            Act::Enter { station, .. } | Act::Leave { station, .. } => {
                if schedule.on(stamp.day).station(station).is_none() {
                    return Some(22);
                }
                if let Some(last) = travel.taps.last()
                    && (stamp.moment < last.stamp.moment || stamp.day < last.stamp.day)
                {
                    return Some(23);
                }
            }
            Act::TopUp { pence, .. } => {
                if pence == 0 || pence > 50_000 {
                    return Some(25);
                }
                let limit = schedule.on(stamp.day).balance_limit();
                if balance.saturating_add(i64::from(pence)) > i64::from(limit) {
                    return Some(26);
                }
            }
            Act::Issue { .. } | Act::Revise { .. } => {}
        }
        match act {
            Act::Enter { .. } if balance < i64::from(schedule.on(stamp.day).entry_minimum()) =>
                Some(24),
            _ => None,
        }
    }
}

/// The code of an accepted act, which is the last one of the travel where it is a touch in or out.
fn verdict(schedule: &Schedule, travel: &Travel, act: Act) -> u8 {
    let place = travel.taps.len().saturating_sub(1);
    let is_after_in = match travel.taps.get(place.wrapping_sub(1)) {
        Some(before) => before.is_in,
        None => false,
    };
    match act {
        Act::Enter { .. } if is_after_in => 3,
        Act::Enter { .. } => match continued_at(schedule, travel, place) {
            Some(_) => 2,
            None => 1,
        },
        Act::Leave { .. } if travel.legs.iter().any(|leg| leg.last == place) => 4,
        Act::Leave { .. } if is_after_in => 6,
        Act::Leave { .. } => 5,
        Act::TopUp { .. } => 7,
        Act::Issue { .. } => 8,
        Act::Revise { .. } => 9,
    }
}

/// Whether a touch comes at most these minutes after another.
fn is_within(minutes: u32, earlier: Tap, later: Tap) -> bool {
    let seconds = i64::from(later.stamp.moment).saturating_sub(i64::from(earlier.stamp.moment));
    seconds <= i64::from(minutes).saturating_mul(60)
}

/// The minutes that a leg may take, by the table of its touch in's day.
fn leg_minutes(schedule: &Schedule, start: Tap, finish: Tap) -> u32 {
    let fares = schedule.on(start.stamp.day);
    if fares.station(start.station).is_some() && fares.station(finish.station).is_some() {
        fares.leg_minutes(start.station, finish.station)
    } else {
        0
    }
}

/// The fare of a journey, by the table of its first touch in's day.
fn fare(schedule: &Schedule, journey: Trip) -> Fare {
    let Trip { start, finish, .. } = journey;
    let fares = schedule.on(start.stamp.day);
    if fares.station(start.station).is_some() && fares.station(finish.station).is_some() {
        fares.fare(start.station, finish.station, start.stamp.window)
    } else {
        Fare {
            pence: 0,
            lo: 0,
            hi: 0,
            off_peak: false,
        }
    }
}

/// The legs: each is a touch in, and directly after it a touch out in time.
fn legs(alloc: Global, schedule: &Schedule, taps: &[Tap]) -> Result<Vec<Trip>, AllocError> {
    let mut legs = Vec::new(alloc);
    for (first, start) in taps.iter().enumerate() {
        let last = first.saturating_add(1);
        if let Some(finish) = taps.get(last)
            && start.is_in
            && !finish.is_in
            && is_within(leg_minutes(schedule, *start, *finish), *start, *finish)
        {
            legs.push(Trip {
                start: *start,
                finish: *finish,
                first,
                last,
            })?;
        }
    }
    Ok(legs)
}

/// The journeys: longest rows of legs between which there are nothing but interchanges.
fn journeys(alloc: Global, schedule: &Schedule, legs: &[Trip]) -> Result<Vec<Trip>, AllocError> {
    let mut journeys = Vec::new(alloc);
    let mut row: Option<Trip> = None;
    for leg in legs {
        row = match row {
            Some(journey) if is_change(schedule, journey, leg.first, leg.start) => Some(Trip {
                start: journey.start,
                finish: leg.finish,
                first: journey.first,
                last: leg.last,
            }),
            Some(journey) => {
                journeys.push(journey)?;
                Some(*leg)
            }
            None => Some(*leg),
        };
    }
    if let Some(journey) = row {
        journeys.push(journey)?;
    }
    Ok(journeys)
}

/// Whether a touch in at a place of the list goes on with a journey, by the table of its day.
fn is_change(schedule: &Schedule, journey: Trip, place: usize, start: Tap) -> bool {
    let fares = schedule.on(start.stamp.day);
    match fares.interchange(journey.finish.station, start.station) {
        Some(minutes) => {
            journey.last.saturating_add(1) == place && is_within(minutes, journey.finish, start)
        }
        None => false,
    }
}

/// The journey that the touch in at a place of the list goes on with.
fn continued_at(schedule: &Schedule, travel: &Travel, place: usize) -> Option<Trip> {
    let start = travel.taps.get(place)?;
    for journey in &travel.journeys {
        if is_change(schedule, *journey, place, *start) {
            return Some(*journey);
        }
    }
    None
}

/// What the touches that are in no leg are charged: each by the table of its own day, or of its
/// journey's first touch in.
fn missing_charge(schedule: &Schedule, travel: &Travel) -> i64 {
    let mut charge = 0i64;
    for (place, tap) in travel.taps.iter().enumerate() {
        if travel
            .legs
            .iter()
            .any(|leg| leg.first == place || leg.last == place)
        {
            continue;
        }
        let stamp: Stamp = match continued_at(schedule, travel, place) {
            Some(journey) if tap.is_in => journey.start.stamp,
            _ => tap.stamp,
        };
        let maximum = schedule.on(stamp.day).maximum(stamp.window);
        charge = charge.saturating_add(i64::from(maximum));
    }
    charge
}

/// What the journeys are charged: each fare day once, with the first journey of it.
fn journeys_charge(schedule: &Schedule, journeys: &[Trip]) -> i64 {
    let mut charge = 0i64;
    for (place, journey) in journeys.iter().enumerate() {
        let day = journey.start.stamp.day;
        if journeys
            .iter()
            .take(place)
            .all(|other| other.start.stamp.day != day)
        {
            charge = charge.saturating_add(day_charge(schedule, journeys, day));
        }
    }
    charge
}

/// What the journeys of one fare day are charged, by the caps of its table.
fn day_charge(schedule: &Schedule, journeys: &[Trip], day: i32) -> i64 {
    let mut charge = day_sum(schedule, journeys, day, None);
    for cap in schedule.on(day).caps() {
        let capped = i64::from(cap.price).saturating_add(day_sum(
            schedule,
            journeys,
            day,
            Some(*cap),
        ));
        charge = charge.min(capped);
    }
    charge
}

/// The fares of one fare day's journeys, but for those that a cap covers.
fn day_sum(schedule: &Schedule, journeys: &[Trip], day: i32, cap: Option<Cap>) -> i64 {
    let mut sum = 0i64;
    for journey in journeys {
        let fare = fare(schedule, *journey);
        let is_covered = match cap {
            Some(cap) => {
                (cap.lo..=cap.hi).contains(&fare.lo)
                    && (cap.lo..=cap.hi).contains(&fare.hi)
                    && (fare.off_peak || !cap.off_peak)
            }
            None => false,
        };
        if journey.start.stamp.day == day && !is_covered {
            sum = sum.saturating_add(i64::from(fare.pence));
        }
    }
    sum
}
