//! The latest fare days of accepted touches, and the touch that is ahead of all other gates'.

ghost use Rattle.std.specs.Prelude.{◌≡◌, ◌+◌, ◌∷◌, List, nat_lt};
ghost use Rattle.office_lines.specs.Days.{AreDaysOf, ahead_of, later};

/// By how many days a touch may be above those of all other gates before it is told.
const MOST_AHEAD: u32 = 2;

/// What counts of an accepted touch: its gate, and its fare day in days since 1970-01-01.
#[derive(Clone, Copy, Debug, PartialEq, Eq)]
pub(crate) struct GateDay {
    /// The gate.
    pub gate: u16,
    /// The fare day.
    pub day: u32,
}

/// The latest fare day, with its gate, and the latest of all other gates.
#[derive(Clone, Copy, Debug, PartialEq, Eq)]
pub(crate) struct Days {
    /// The first touch of the latest fare day.
    pub(crate) first: Option<GateDay>,
    /// The same of the touches of other gates than that one.
    pub(crate) second: Option<GateDay>,
}

impl Days {
    /// The days of these touches, and behind them one more.
    pub(crate) fn with(self, seen: GateDay) -> Days
        ensures { (touches : List _) → AreDaysOf self touches
            → AreDaysOf result (seen ∷ touches) }
    {
        match self.first {
            Some(first) if first.gate == seen.gate => Days {
                first: Some(later(Some(first), seen)),
                second: self.second,
            },
            Some(first) if first.day < seen.day => Days {
                first: Some(seen),
                second: Some(first),
            },
            Some(first) => Days {
                first: Some(first),
                second: Some(later(self.second, seen)),
            },
            None => Days {
                first: Some(seen),
                second: None,
            },
        }
    }

    /// The touch that is ahead of those of all other gates.
    pub(crate) fn ahead(self) -> Option<GateDay>
        ensures { result ≡ ahead_of self.first self.second }
    {
        match (self.first, self.second) {
            (Some(first), Some(second)) if is_ahead(first.day, second.day) => Some(first),
            _ => None,
        }
    }
}

/// The later one, and of the same day the one before.
fn later(before: Option<GateDay>, seen: GateDay) -> GateDay
    ensures { result ≡ later before seen }
{
    match before {
        Some(before) if before.day >= seen.day => before,
        _ => seen,
    }
}

/// Whether a day is above another by more than is taken for usual.
fn is_ahead(day: u32, other: u32) -> bool
    ensures { result ≡ nat_lt (other + MOST_AHEAD) day }
{
    u64::from(other) + u64::from(MOST_AHEAD) < u64::from(day)
}
