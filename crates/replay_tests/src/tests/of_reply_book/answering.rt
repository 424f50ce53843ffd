//! Touches that are answered in one call, with the values of PROTOCOL.md.

ghost use Rattle.std.specs.Prelude.{◌<◌};
ghost use Rattle.reply_book.specs.Book.{Stands};

use super::revisions::revise;
use super::*;
use reply_book::{AnswerFault, Answered};

/// The answer to a touch from seat 3. Where memory is refused, the book has to be what it was, and
/// the call is made once more.
fn answer(rt: &impl Abort, book: &mut Book, touch: &Touch) -> Result<Answered, AnswerFault>
    requires { Stands book.old }
    ensures { Stands book.new }
{
    let seen = seen_of(book, touch.card);
    match book.answer(touch, 3) {
        Err(AnswerFault::Memory) => {
            assert_same(rt, seen_of(book, touch.card), seen);
            book.answer(touch, 3)
        }
        given => given,
    }
}

/// That the touch is entered with its reply, and gets that again as often as it comes.
fn assert_answered(rt: &impl Abort, book: &mut Book, place: u32, row: Row)
    requires few { place < 100 }
    requires stands { Stands book.old }
    ensures { Stands book.new }
{
    let (touch, reply, _) = row;
    let entered = Answered::Entered { place, reply };
    let repeated = Answered::Repeated { place, reply };
    assert_same_at(rt, answer(rt, book, &touch), Ok(entered), touch);
    assert_added(rt, book, place, row);
    assert_same_at(rt, answer(rt, book, &touch), Ok(repeated), touch);
    assert_same_at(rt, answer(rt, book, &touch), Ok(repeated), touch);
    assert_count(rt, book, place + 1);
}

/// That the touch has no reply for this fault, and that the book is what it was.
fn assert_refused(rt: &impl Abort, book: &mut Book, touch: &Touch, fault: AnswerFault)
    requires { Stands book.old }
    ensures { Stands book.new }
{
    let seen = seen_of(book, touch.card);
    assert_same_at(rt, answer(rt, book, touch), Err(fault), *touch);
    assert_same_at(rt, seen_of(book, touch.card), seen, *touch);
}

/// A touch of a card number that no card has.
const fn stray() -> Row {
    let touch = Touch {
        card: 11,
        ..leave(5, 1)
    };
    (touch, reply(20, 0, 0), view(CardState::Vacant, 0))
}

#[test]
fn each_touch_gets_its_answer(rt: HostRuntime) {
    let mut book = empty_book(&rt, rt.alloc(), false);
    let [issue, top_up, enter, out] = first_example();
    assert_answered(&rt, &mut book, 0, issue);
    assert_answered(&rt, &mut book, 1, top_up);
    assert_answered(&rt, &mut book, 2, enter);
    assert_answered(&rt, &mut book, 3, out);
    assert_answered(&rt, &mut book, 4, stray());
    drop(book);
}

#[test]
fn a_refused_touch_leaves_the_book(rt: HostRuntime) {
    let mut book = example_book(&rt, rt.alloc());
    assert_refused(&rt, &mut book, &leave(4, 3), AnswerFault::Conflict);
    assert_refused(&rt, &mut book, &revise(4, 20095), AnswerFault::Conflict);
    let unknown = revise(5, 20095);
    assert_refused(&rt, &mut book, &unknown, AnswerFault::UnknownTable);
    assert_answered(&rt, &mut book, 4, stray());
    drop(book);
}

#[test]
fn want_of_memory_is_no_answer(rt: HostRuntime) {
    assert_same(&rt, AnswerFault::from(AllocError), AnswerFault::Memory);
}
