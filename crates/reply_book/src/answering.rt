//! A touch that is answered in one call: looked up, judged and entered.

ghost use Rattle.std.specs.Prelude.{◌≡◌};
ghost use Rattle.reply_book.specs.declared.answering.AnswerFault.TheVariants.{Memory};

use crate::book::Book;
use crate::entry::Found;
use oyster_account::{Reply, Touch};
use station_limits::HISTORY_LIMIT;
use std::alloc::AllocError;
use thiserror::Error;

/// The reply of a touch, and how the book came to have it.
#[derive(Clone, Copy, Debug, PartialEq, Eq)]
pub enum Answered {
    /// The touch was new. It is the entry at this place, counted from 0, with this reply.
    Entered { place: u32, reply: Reply },
    /// An equal touch is the entry at this place, counted from 0, and was given this reply.
    Repeated { place: u32, reply: Reply },
}

/// Why a touch has no reply.
#[derive(Clone, Copy, Debug, PartialEq, Eq, Error)]
pub enum AnswerFault {
    /// Another touch has its gate and number.
    #[error("another touch has this gate and number")]
    Conflict,
    /// The touch is new, and a revision to a table that isn't there.
    #[error("the touch names a table that is not supplied")]
    UnknownTable,
    /// The touch is new, and there are as many entries as a history may have.
    #[error("the history is full")]
    Full,
    /// Memory was refused.
    #[error("out of memory")]
    Memory,
}

impl From<AllocError> for AnswerFault {
    ghost from_gives = { λ _ fault. fault ≡ Memory };

    fn from(_error: AllocError) -> AnswerFault {
        AnswerFault::Memory
    }
}

impl Book {
    ghost use Rattle.station_limits.specs.declared.limits.TheConstants.{HISTORY_LIMIT};
    ghost use Rattle.reply_book.specs.declared.entry.Found.TheVariants.{New};
    ghost use Rattle.reply_book.specs.Lookup.{found};
    ghost use Rattle.reply_book.specs.Book.{entries_of, Stands};
    ghost use Rattle.reply_book.specs.Answering.{IsAnswered};

    /// Answers a touch: `find`, `knows`, `ready` and `add` in one. A new touch is judged and
    /// entered from this seat. A repeat gets its first reply again, and is no entry.
    ///
    /// In this order: a repeat's reply; `Conflict`; `UnknownTable`; `Full` at `HISTORY_LIMIT`
    /// entries; and `Memory`, only where there was no room for the touch (`has_room`). A repeat
    /// and a fault leave the entries, the cards and the tables. Only a new touch takes memory.
    #[inline(always)]
    pub fn answer(&mut self, touch: &Touch, seat: u16) -> Result<Answered, AnswerFault>
        requires { Stands self.old }
        ensures { IsAnswered self.old touch.now seat result self.new }
    {
        match self.find(touch) {
            Found::New => self.answer_new(touch, seat),
            Found::First(place, reply) => Ok(Answered::Repeated { place, reply }),
            Found::Conflict => Err(AnswerFault::Conflict),
        }
    }

    /// Answers a touch whose gate and number are new.
    #[inline(always)]
    fn answer_new(&mut self, touch: &Touch, seat: u16) -> Result<Answered, AnswerFault>
        requires stands { Stands self.old }
        requires new { found (entries_of self.old) touch.now ≡ New }
        ensures { IsAnswered self.old touch.now seat result self.new }
    {
        if !self.knows(touch) {
            return Err(AnswerFault::UnknownTable);
        }
        if self.len() == HISTORY_LIMIT {
            return Err(AnswerFault::Full);
        }
        let stamp = self.ready(touch)?;
        let (place, reply) = self.add(touch, &stamp, seat);
        Ok(Answered::Entered { place, reply })
    }
}
