//! What a walk over a card's touches in and out, oldest first, gathers for its statement.

ghost use Rattle.std.specs.Prelude.{◌≡◌, ◌++◌, List, [], ◌∷◌, Some, None, true, false, IfOk};
ghost use Rattle.oyster_account.specs.Scheme.{Scheme, scheme_of};
ghost use Rattle.oyster_account.specs.Travel.{Tap, In, Out, IsKnown};
ghost use Rattle.oyster_account.specs.Leg.{is_in_time};
ghost use Rattle.oyster_account.specs.Journey.{start_of, journeys};
ghost use Rattle.card_statement.specs.declared.gathered.Entry.{Entry};
ghost use Rattle.card_statement.specs.Incomplete.{incompletes};
ghost use Rattle.card_statement.specs.Gathered.{continues_from, entry_rows, settled};
ghost use Rattle.card_statement.specs.Gathered.{reason_after};

use crate::statement::{Incomplete, Reason};
use fare_schedule::Schedule;
use oyster_account::{Journey, Passage};
use std::alloc::{AllocError, Global};
use std::vec::Vec;

/// A touch in that no touch follows yet.
#[derive(Clone, Copy, Debug, PartialEq, Eq)]
pub struct Entry {
    pub start: Passage,
    /// Whether it continues the last journey.
    pub continued: bool,
}

/// The journeys and the incomplete touches so far, oldest first.
#[derive(Debug, Drop)]
pub struct Gathered {
    /// The journeys before the last one; after [`Gathered::end`] all of them, newest first.
    pub journeys: Vec<Journey>,
    /// The last journey, which a further leg may continue.
    pub last: Option<Journey>,
    /// The incomplete touches without an open touch in; after [`Gathered::end`] all of them, newest
    /// first.
    pub incompletes: Vec<Incomplete>,
    /// The newest touch, if it is a touch in.
    pub entry: Option<Entry>,
    /// The newest touch, if it is a touch out that ended a leg.
    pub ended: Option<Passage>,
}

impl Gathered {
    ghost use Rattle.card_statement.specs.Gathered.{IsGathered, AreStartsKnown};

    /// The journeys and incomplete touches of a card that was never touched in or out.
    pub fn none(alloc: Global) -> Gathered
        ensures of { (scheme : Scheme) → IsGathered scheme [] result }
        ensures ready { (scheme : Scheme) → AreStartsKnown scheme result }
    {
        Gathered {
            journeys: Vec::new(alloc),
            last: None,
            incompletes: Vec::new(alloc),
            entry: None,
            ended: None,
        }
    }

    /// Adds a touch in at a known station. After an error the value is no longer valid.
    pub fn enter(&mut self, schedule: &Schedule, start: Passage) -> Result<(), AllocError>
        requires known { IsKnown (scheme_of schedule.now) start }
        ensures of { (taps : List Tap) → IsGathered (scheme_of schedule.now) taps self.old
            → IfOk result
            (λ _. IsGathered (scheme_of schedule.now) (In start ∷ taps) self.new) }
        ensures ready { AreStartsKnown (scheme_of schedule.now) self.old
            → IfOk result (λ _. AreStartsKnown (scheme_of schedule.now) self.new) }
    {
        let continued = continues_from(schedule, self.ended, start);
        miss_entry(
            &mut self.incompletes,
            schedule,
            self.last,
            Reason::EnteredOver,
            self.entry,
        )?;
        self.entry = Some(Entry { start, continued });
        self.ended = None;
        Ok(())
    }

    /// Adds a touch out at a known station. After an error the value is no longer valid.
    pub fn leave(&mut self, schedule: &Schedule, finish: Passage) -> Result<(), AllocError>
        requires ready { AreStartsKnown (scheme_of schedule.now) self.old }
        requires known { IsKnown (scheme_of schedule.now) finish }
        ensures of { (taps : List Tap) → IsGathered (scheme_of schedule.now) taps self.old
            → IfOk result
            (λ _. IsGathered (scheme_of schedule.now) (Out finish ∷ taps) self.new) }
        ensures ready { IfOk result (λ _. AreStartsKnown (scheme_of schedule.now) self.new) }
    {
        match self.entry {
            Some(entry) if entry.start.is_in_time(schedule, finish) => {
                self.end_leg(schedule, entry, finish)
            }
            _ => self.end_no_leg(schedule, finish),
        }
    }

    /// Adds a touch out that ends a leg from the open touch in.
    fn end_leg(
        &mut self,
        schedule: &Schedule,
        entry: Entry,
        finish: Passage,
    ) -> Result<(), AllocError>
        requires ready { AreStartsKnown (scheme_of schedule.now) self.old }
        requires known { IsKnown (scheme_of schedule.now) finish }
        requires inside { self.old.entry ≡ Some entry }
        requires in_time { is_in_time (scheme_of schedule.now) entry.start finish ≡ true }
        ensures of { (taps : List Tap) → IsGathered (scheme_of schedule.now) taps self.old
            → IfOk result
            (λ _. IsGathered (scheme_of schedule.now) (Out finish ∷ taps) self.new) }
        ensures ready { IfOk result (λ _. AreStartsKnown (scheme_of schedule.now) self.new) }
    {
        let start = start_of(entry, self.last);
        settle(&mut self.journeys, entry.continued, self.last)?;
        self.last = Some(Journey::of(schedule, start, finish));
        self.entry = None;
        self.ended = Some(finish);
        Ok(())
    }

    /// Adds a touch out that ends no leg.
    fn end_no_leg(&mut self, schedule: &Schedule, finish: Passage) -> Result<(), AllocError>
        requires late { (entry : Entry) → self.old.entry ≡ Some entry
            → is_in_time (scheme_of schedule.now) entry.start finish ≡ false }
        ensures of { (taps : List Tap) → IsGathered (scheme_of schedule.now) taps self.old
            → IfOk result
            (λ _. IsGathered (scheme_of schedule.now) (Out finish ∷ taps) self.new) }
        ensures ready { AreStartsKnown (scheme_of schedule.now) self.old
            → IfOk result (λ _. AreStartsKnown (scheme_of schedule.now) self.new) }
    {
        let reason = reason_after(self.entry);
        miss_entry(
            &mut self.incompletes,
            schedule,
            self.last,
            Reason::NotLeftInTime,
            self.entry,
        )?;
        self.incompletes.push(Incomplete {
            touch: finish,
            reason,
            pence: finish.maximum(schedule),
        })?;
        self.entry = None;
        self.ended = None;
        Ok(())
    }

    /// Completes both lists, and turns them newest first: no touch follows.
    pub fn end(&mut self, schedule: &Schedule) -> Result<(), AllocError>
        ensures journeys { (taps : List Tap) → IsGathered (scheme_of schedule.now) taps self.old
            → IfOk result
            (λ _. self.new.journeys.items ≡ journeys (scheme_of schedule.now) taps) }
        ensures incompletes { (taps : List Tap)
            → IsGathered (scheme_of schedule.now) taps self.old
            → IfOk result
            (λ _. self.new.incompletes.items ≡ incompletes (scheme_of schedule.now) None taps) }
    {
        miss_entry(
            &mut self.incompletes,
            schedule,
            self.last,
            Reason::Open,
            self.entry,
        )?;
        settle(&mut self.journeys, false, self.last)?;
        self.journeys.reverse();
        self.incompletes.reverse();
        Ok(())
    }
}

/// Whether a touch in continues the journey that this touch out ended, if there is one.
fn continues_from(schedule: &Schedule, ended: Option<Passage>, start: Passage) -> bool
    ensures { result ≡ continues_from (scheme_of schedule.now) ended start }
{
    match ended {
        Some(finish) => finish.is_change(schedule, start),
        None => false,
    }
}

/// Why a touch out ends no leg, after an open touch in or none.
fn reason_after(entry: Option<Entry>) -> Reason
    ensures { result ≡ reason_after entry }
{
    match entry {
        Some(_) => Reason::Late,
        None => Reason::Unstarted,
    }
}

/// Where the journey of a touch in starts: if it continues, with the last journey.
fn start_of(entry: Entry, last: Option<Journey>) -> Passage
    ensures { result ≡ start_of entry.continued entry.start last }
{
    match last {
        Some(last) if entry.continued => last.start,
        _ => entry.start,
    }
}

/// Adds the row of an unfinished touch in, if there is one, at its entry charge.
fn miss_entry(
    incompletes: &mut Vec<Incomplete>,
    schedule: &Schedule,
    last: Option<Journey>,
    reason: Reason,
    entry: Option<Entry>,
) -> Result<(), AllocError>
    ensures rows { IfOk result (λ _. incompletes.new.items
        ≡ incompletes.old.items ++ entry_rows (scheme_of schedule.now) last reason entry) }
{
    if let Some(entry) = entry {
        incompletes.push(Incomplete {
            touch: entry.start,
            reason,
            pence: start_of(entry, last).maximum(schedule),
        })?;
    }
    Ok(())
}

/// Adds the last journey, if there is one and no leg continues it.
fn settle(
    journeys: &mut Vec<Journey>,
    continued: bool,
    last: Option<Journey>,
) -> Result<(), AllocError>
    ensures rows { IfOk result (λ _. journeys.new.items
        ≡ journeys.old.items ++ settled continued last) }
{
    match last {
        Some(last) if !continued => {
            journeys.push(last)?;
        }
        _ => {}
    }
    Ok(())
}
