//! The fare days that a statement is asked for.

ghost use Rattle.std.specs.Prelude.{◌≡◌};
ghost use Rattle.statement_command.specs.Days.{is_after_first, is_up_to_last, has_day};
ghost use Rattle.statement_command.specs.Days.{is_before_first};

/// The first and the last fare day that are printed, in days since 1970-01-01. `None` sets no
/// limit.
#[derive(Clone, Copy)]
pub struct Days {
    pub from: Option<i32>,
    pub to: Option<i32>,
}

impl Days {
    /// Whether a fare day is one of these.
    pub fn has(self, day: i32) -> bool
        ensures { result ≡ has_day self day }
    {
        self.is_after_first(day) && self.is_up_to_last(day)
    }

    /// Whether a fare day is before the first of these.
    pub fn is_before_first(self, day: i32) -> bool
        ensures { result ≡ is_before_first self day }
    {
        match self.from {
            Some(from) => day < from,
            None => false,
        }
    }

    /// Whether a fare day is the last of these or before it.
    pub fn is_up_to_last(self, day: i32) -> bool
        ensures { result ≡ is_up_to_last self day }
    {
        match self.to {
            Some(to) => day <= to,
            None => true,
        }
    }

    /// Whether a fare day is the first of these or after it.
    fn is_after_first(self, day: i32) -> bool
        ensures { result ≡ is_after_first self day }
    {
        match self.from {
            Some(from) => from <= day,
            None => true,
        }
    }
}
