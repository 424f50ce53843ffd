//! A text to which a statement's lines are added, with the days that it prints.

ghost use Rattle.std.specs.Prelude.{◌≡◌, ◌++◌, ◌∷◌, [], OnOk};
ghost use Rattle.journal_audit.specs.Calendar.{day_text, moment_text};
ghost use Rattle.statement_command.specs.Csv.{day_field, moment_field};

use journal_audit::{DayPrinter, clock};
use money_time::DAY_SECONDS;
use std::alloc::{AllocError, Global};

/// A text, and what prints its days.
#[derive(Drop)]
pub(crate) struct Printed {
    pub(crate) text: Vec<u8>,
    days: DayPrinter,
}

impl Printed {
    /// An empty text.
    pub(crate) fn new(alloc: Global) -> Printed
        ensures { result.text.items ≡ [] }
    {
        Printed {
            text: Vec::new(alloc),
            days: DayPrinter::new(),
        }
    }

    /// The text.
    pub(crate) fn into_text(self) -> Vec<u8>
        ensures { result ≡ self.text }
    {
        let Printed { text, days: _ } = self;
        text
    }

    /// Adds some bytes.
    pub(crate) fn put(&mut self, said: &str) -> Result<(), AllocError>
        ensures { OnOk result (self.new.text.items ≡ self.old.text.items ++ said.now) }
    {
        self.text.extend_from_slice(said.as_bytes())
    }

    /// Adds a byte.
    pub(crate) fn put_byte(&mut self, byte: u8) -> Result<(), AllocError>
        ensures { OnOk result (self.new.text.items ≡ self.old.text.items ++ byte ∷ []) }
    {
        self.text.push(byte)?;
        Ok(())
    }

    /// Adds a day.
    pub(crate) fn put_day(&mut self, day: i32) -> Result<(), AllocError>
        ensures { OnOk result (self.new.text.items ≡ self.old.text.items ++ day_text day) }
    {
        let said = self.days.print(day);
        self.text.extend_from_slice(said)
    }

    /// Adds a moment, in UTC.
    #[tactic(auto, unfolding(journal_audit::specs::Calendar::moment_text))]
    pub(crate) fn put_moment(&mut self, moment: u32) -> Result<(), AllocError>
        ensures { OnOk result (self.new.text.items ≡ self.old.text.items ++ moment_text moment) }
    {
        self.put_day((moment / DAY_SECONDS) as i32)?;
        self.text.extend_from_slice(&clock(moment % DAY_SECONDS))
    }

    /// Adds a day, if there is one.
    pub(crate) fn put_any_day(&mut self, day: Option<i32>) -> Result<(), AllocError>
        ensures { OnOk result (self.new.text.items ≡ self.old.text.items ++ day_field day) }
    {
        match day {
            Some(day) => self.put_day(day),
            None => Ok(()),
        }
    }

    /// Adds a moment, if there is one.
    pub(crate) fn put_any_moment(&mut self, moment: Option<u32>) -> Result<(), AllocError>
        ensures { OnOk result (self.new.text.items ≡ self.old.text.items ++ moment_field moment) }
    {
        match moment {
            Some(moment) => self.put_moment(moment),
            None => Ok(()),
        }
    }
}
