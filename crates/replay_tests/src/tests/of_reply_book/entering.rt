//! Touches of a list, each entered with its stamp: the journey of FARES.md, "Revision", over
//! the start of a fare day.

ghost use Rattle.std.specs.Prelude.{◌≡◌, ◌<◌, ◌+◌, length};
ghost use Rattle.reply_book.specs.Book.{entries_of, Stands};

use super::revisions::{missing, revise};
use super::rows::touch;
use super::*;
use money_time::Window;
use oyster_account::Act;

/// The touch in, at 04:25 on 2025-01-07: the fare day 20094 ends at 04:30.
const fn touch_in() -> (Touch, Reply, Stamp) {
    let act = Act::Enter {
        station: 2,
        moment: 1_736_223_900,
    };
    let stamp = Stamp {
        moment: 1_736_223_900,
        day: 20094,
        minute: 265,
        window: Window::Off,
    };
    (touch(8, act), reply(1, -700, 950), stamp)
}

/// The touch out, at 04:50.
const fn touch_out() -> (Touch, Reply, Stamp) {
    let act = Act::Leave {
        station: 1,
        moment: 1_736_225_400,
    };
    let stamp = Stamp {
        moment: 1_736_225_400,
        day: 20095,
        minute: 290,
        window: Window::Off,
    };
    (touch(9, act), reply(4, 410, 1360), stamp)
}

/// Enters the touch at this place of a list. Where memory is refused, the book has to be what it
/// was, and the call is made once more.
fn enter_at(rt: &impl Abort, book: &mut Book, place: u32, touch: &Touch) -> Stamp
    requires few { length (entries_of book.old) < 100 }
    requires stands { Stands book.old }
    ensures count { length (entries_of book.new) ≡ length (entries_of book.old) + 1 }
    ensures stands { Stands book.new }
{
    let seen = seen_of(book, touch.card);
    match book.enter_at(place, touch) {
        Ok(stamp) => stamp,
        Err(_) => {
            assert_same(rt, seen_of(book, touch.card), seen);
            book.enter_at(place, touch)
                .expect(rt, "the second call meets no refusal")
        }
    }
}

/// Enters the touch at this place, and compares its stamp, and its entry of seat 0.
fn enter_row(rt: &impl Abort, book: &mut Book, place: u32, row: (Touch, Reply, Stamp))
    requires few { length (entries_of book.old) < 100 }
    requires stands { Stands book.old }
    ensures count { length (entries_of book.new) ≡ length (entries_of book.old) + 1 }
    ensures stands { Stands book.new }
{
    let (touch, reply, stamp) = row;
    assert_same_at(rt, enter_at(rt, book, place, &touch), stamp, touch);
    let entry = Entry {
        touch,
        reply,
        seat: 0,
    };
    assert_same_at(rt, book.entry(place), Some(entry), touch);
}

/// That the touch isn't entered for this fault, and that the book is what it was.
fn assert_not_entered(
    rt: &impl Abort,
    book: &mut Book,
    place: u32,
    touch: &Touch,
    fault: ReplayFault,
)
    requires few { length (entries_of book.old) < 100 }
    requires stands { Stands book.old }
{
    let seen = seen_of(book, touch.card);
    let told = book.enter_at(place, touch).err();
    assert_same(rt, told, Some(fault));
    assert_same(rt, seen_of(book, touch.card), seen);
}

#[test]
fn a_touch_of_a_list_is_entered_with_its_stamp(rt: HostRuntime) {
    let mut book = example_book(&rt, rt.alloc());
    enter_row(&rt, &mut book, 4, touch_in());
    enter_row(&rt, &mut book, 5, touch_out());
    let (touch, _, _) = touch_in();
    assert_not_entered(&rt, &mut book, 6, &touch, ReplayFault::Repeated(6));
    drop(book);
}

#[test]
fn a_touch_that_is_not_entered_leaves_the_book(rt: HostRuntime) {
    let mut book = example_book(&rt, rt.alloc());
    let fault = missing(4, 20095, true);
    assert_not_entered(&rt, &mut book, 4, &revise(6, 20095), fault);
    drop(book);
}

#[test]
fn a_revision_to_a_missing_table_is_told_as_it_is_judged(rt: HostRuntime) {
    // The card travelled on fare day 20094.
    let mut book = example_book(&rt, rt.alloc());
    let fault = missing(7, 20094, false);
    assert_not_entered(&rt, &mut book, 7, &revise(6, 20094), fault);
    drop(book);
}
