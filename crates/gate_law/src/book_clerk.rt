//! A clerk who answers from a station's book: what a clerk is that keeps a station.
ghost use Rattle.std.specs.Prelude.{◌≡◌};
ghost use Rattle.gate_session.specs.Answers.{AnswerFits};
ghost use Rattle.reply_book.specs.Book.{Stands};
ghost use Rattle.gate_law.specs.BookClerk.{answer_for, code_of};

use gate_session::{Answer, Clerk, FaultCode};
use oyster_account::{CardView, Reply, Touch};
use reply_book::{AnswerFault, Answered, Book};
use std::marker::Model;
use std::sync::Wait;

/// The seat under which a touch is entered.
const SEAT: u16 = 1;

/// A clerk who answers from a station's book, which it keeps in memory alone: it has no journal.
/// A touch is entered, and answered by its reply, or by the fault for which it isn't entered.
///
/// Contracts see the book. It stands: its entries are a legal history.
#[derive(Drop)]
pub struct BookClerk {
    book: Book,
}

impl Model for BookClerk {
    ghost use Rattle.reply_book.specs.declared.book.Book.{Book};
    ghost use Rattle.reply_book.specs.contracts.book.Book as books;

    ghost Value = { Book };

    ghost coded = { books.the_row.coded };

    ghost use Rattle.reply_book.specs.Book.{Stands};

    ghost view = { λ clerk. clerk.book };

    ghost invariant = { λ clerk. Stands clerk.book };
}

impl BookClerk {
    /// The clerk of this book, as `Book::new` and `Book::replay` make one.
    pub fn new(book: Book) -> BookClerk
        requires { Stands book }
        ensures { result ≡ book }
    {
        BookClerk { book }
    }

    /// The book, as it stands.
    pub fn close(self) -> Book
        ensures book { result ≡ self }
        ensures stands { Stands result }
    {
        let BookClerk { book } = self;
        book
    }

    /// The book stands. The call does nothing.
    pub(crate) fn learn(&self)
        ensures { Stands self.now }
    {
        let _book = &self.book;
    }
}

impl Clerk for BookClerk {
    ghost use Rattle.gate_law.specs.BookClerk.{IsGivenBy};

    ghost gives = { IsGivenBy };

    fn submit<R: Wait>(&mut self, _rt: &R, touch: Touch) -> Answer {
        let given = self.book.answer(&touch, SEAT);
        fitting(answer_for(&touch, given))
    }

    fn enquire(&mut self, card: u32) -> Answer {
        fitting(Answer::Holding {
            view: self.book.view(card),
            front: self.book.len(),
        })
    }
}

/// The answer to a touch of which this came: its reply, or the fault for which it has none.
fn answer_for(touch: &Touch, given: Result<Answered, AnswerFault>) -> Answer
    ensures { result ≡ answer_for touch.now given }
{
    match given {
        Ok(Answered::Entered { place: _, reply }) => Answer::reply(reply, touch),
        Ok(Answered::Repeated { place: _, reply }) => Answer::reply(reply, touch),
        Err(fault) => Answer::fault(code_of(fault), touch),
    }
}

/// The fault that tells a gate why its touch has no reply.
fn code_of(fault: AnswerFault) -> FaultCode
    ensures { result ≡ code_of fault }
{
    match fault {
        AnswerFault::Conflict => FaultCode::Conflict,
        AnswerFault::UnknownTable => FaultCode::UnknownTable,
        AnswerFault::Full => FaultCode::Full,
        AnswerFault::Memory => FaultCode::Memory,
    }
}

/// The answer, whose numbers are of their types.
pub fn fitting(answer: Answer) -> Answer
    ensures same { result ≡ answer }
    ensures fits { AnswerFits answer }
{
    match answer {
        Answer::Reply {
            gate: _gate,
            number: _number,
            reply,
        } => {
            let Reply {
                verdict: _verdict,
                change: _change,
                balance: _balance,
            } = reply;
        }
        Answer::Holding {
            view,
            front: _front,
        } => {
            let CardView {
                state: _state,
                balance: _balance,
            } = view;
        }
        Answer::Fault {
            code: _code,
            gate: _gate,
            number: _number,
        } => {}
    }
    answer
}
