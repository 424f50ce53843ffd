//! Worked examples of a book, with the values of PROTOCOL.md.
//!
//! Each test lets go of its book by a call of `drop`: a function in which a book goes out of scope
//! takes several times as long to prove.

ghost use Rattle.std.specs.Prelude.{◌≡◌, ◌<◌, ◌+◌, length, [], true, IsTrue};
ghost use Rattle.fare_schedule.specs.Schedule.{revisions_of};
ghost use Rattle.oyster_account.specs.Touch.{moment_of};
ghost use Rattle.reply_book.specs.declared.entry.Found.TheVariants.{New};
ghost use Rattle.reply_book.specs.Lookup.{found};
ghost use Rattle.reply_book.specs.Tables.{is_known};
ghost use Rattle.reply_book.specs.Book.{entries_of, tables_of, scheme_in, HasRoom, Stands};

mod answering;
mod entering;
mod revised;
mod revisions;
mod rows;

use super::{assert_same, assert_same_at};
use fare_schedule::Schedule;
use fare_table::{EXAMPLE_TABLE, Fares};
use money_time::Stamp;
use oyster_account::{CardState, CardView, Reply, Touch};
use reply_book::{Book, Entry, Found, NameHashing, ReplayFault};
use revised::REVISED_TABLE;
use rows::{Row, first_example, first_touches, leave, reply, stray, view};
use std::alloc::{AllocError, Global};
use std::process::Abort;

/// This holds.
fn assert_that(rt: &impl Abort, holds: bool)
    ensures { IsTrue holds }
{
    assert!(rt; holds);
}

/// What stays where memory is refused: how many entries there are, the last, and a card's view.
fn seen_of(book: &Book, card: u32) -> (u32, Option<Entry>, CardView) {
    let count = book.len();
    let last = book.entry(count.saturating_sub(1));
    (count, last, book.view(card))
}

/// Makes room for a touch, and answers its stamp. Where memory is refused, the book has to be what
/// it was, and the call is made once more.
fn make_ready(rt: &impl Abort, book: &mut Book, touch: &Touch) -> Stamp
    requires { Stands book.old }
    ensures entries { entries_of book.new ≡ entries_of book.old }
    ensures tables { tables_of book.new ≡ tables_of book.old }
    ensures stands { Stands book.new }
    ensures room { HasRoom book.new touch.now }
    ensures stamp { result ≡ (scheme_in book.new).stamp (moment_of touch.now.act) }
{
    let seen = seen_of(book, touch.card);
    if let Ok(stamp) = book.ready(touch) {
        return stamp;
    }
    assert_same(rt, seen_of(book, touch.card), seen);
    book.ready(touch)
        .expect(rt, "the second call meets no refusal")
}

/// That the book has no entry of the touch's name, and can judge it.
fn assert_new(rt: &impl Abort, book: &Book, touch: &Touch)
    ensures new { found (entries_of book.now) touch.now ≡ New }
    ensures known { is_known (tables_of book.now) touch.now ≡ true }
{
    let is_new = matches!(book.find(touch), Found::New);
    assert!(rt; is_new, "{touch:?}");
    assert!(rt; book.knows(touch), "{touch:?}");
}

/// That the book stands so after the touch was entered at this place.
fn assert_added(rt: &impl Abort, book: &Book, place: u32, row: Row) {
    let (touch, reply, view) = row;
    let entry = Entry {
        touch,
        reply,
        seat: 3,
    };
    assert_same(rt, book.entry(place), Some(entry));
    assert_same(rt, book.find(&touch), Found::First(place, reply));
    assert_same_at(rt, book.view(touch.card), view, touch);
}

/// Adds a touch from seat 3, and compares what is foretold, answered, found and seen.
fn add_one(rt: &impl Abort, book: &mut Book, row: Row)
    requires few { length (entries_of book.old) < 100 }
    requires stands { Stands book.old }
    ensures count { length (entries_of book.new) ≡ length (entries_of book.old) + 1 }
    ensures stands { Stands book.new }
{
    let (touch, reply, view) = row;
    let place = book.len();
    assert_new(rt, book, &touch);
    let stamp = make_ready(rt, book, &touch);
    assert_that(rt, book.has_room(&touch));
    let judged = book.judge(&touch, &stamp);
    assert_same_at(rt, (judged.reply, judged.view), (reply, view), touch);
    let added = book.add(&touch, &stamp, 3);
    assert_same_at(rt, added, (place, reply), touch);
    assert_added(rt, book, place, row);
}

/// Judges a touch, compares what is foretold, and enters it from seat 3 as it was judged. What is
/// answered, found and seen is as where it is added.
fn enter_one(rt: &impl Abort, book: &mut Book, row: Row)
    requires few { length (entries_of book.old) < 100 }
    requires stands { Stands book.old }
    ensures count { length (entries_of book.new) ≡ length (entries_of book.old) + 1 }
    ensures stands { Stands book.new }
{
    let (touch, reply, view) = row;
    let place = book.len();
    assert_new(rt, book, &touch);
    let stamp = make_ready(rt, book, &touch);
    let judged = book.judge(&touch, &stamp);
    assert_same_at(rt, (judged.reply, judged.view), (reply, view), touch);
    assert_same_at(rt, book.enter(&judged, 3), place, touch);
    assert_added(rt, book, place, row);
}

/// The table of this text. Where one allocation is refused, the second call meets none.
fn table(rt: &impl Abort, alloc: Global, text: &str) -> Fares {
    if let Ok(fares) = Fares::read(alloc, text) {
        return fares;
    }
    Fares::read(alloc, text).expect(rt, "the table is read")
}

/// Supplies the revised table. Where one allocation is refused, the second call meets none.
fn supply(rt: &impl Abort, alloc: Global, schedule: &mut Schedule)
    ensures { revisions_of schedule.new ≡ revisions_of schedule.old }
{
    if schedule.supply(table(rt, alloc, REVISED_TABLE)).is_err() {
        let supplied = schedule.supply(table(rt, alloc, REVISED_TABLE));
        supplied.expect(rt, "the second call meets no refusal");
    }
}

/// The example table, and beside it the revised one where `revised`.
fn schedule_of(rt: &impl Abort, alloc: Global, revised: bool) -> Schedule
    ensures { revisions_of result ≡ [] }
{
    let schedule = Schedule::new(alloc, table(rt, alloc, EXAMPLE_TABLE));
    let mut schedule = schedule.expect(rt, "it takes no memory");
    if !revised {
        return schedule;
    }
    supply(rt, alloc, &mut schedule);
    schedule
}

/// A book of ten cards and of the example table, and of the revised one too where `revised`. Where
/// one allocation is refused, the second call meets none.
fn empty_book(rt: &impl Abort, alloc: Global, revised: bool) -> Book
    ensures entries { length (entries_of result) ≡ 0 }
    ensures stands { Stands result }
{
    let schedule = schedule_of(rt, alloc, revised);
    if let Ok(book) = Book::new(alloc, NameHashing::fixed(), 10, schedule) {
        return book;
    }
    let schedule = schedule_of(rt, alloc, revised);
    let book = Book::new(alloc, NameHashing::fixed(), 10, schedule);
    book.expect(rt, "the second call meets no refusal")
}

/// What the book of these touches is, of ten cards and of such tables. Where one allocation is
/// refused, the second call meets none.
fn replayed(
    rt: &impl Abort,
    alloc: Global,
    revised: bool,
    touches: &[Touch],
) -> Result<Book, ReplayFault>
    requires { length touches.now < 100 }
{
    let schedule = schedule_of(rt, alloc, revised);
    match Book::replay(alloc, NameHashing::fixed(), 10, schedule, touches) {
        Err(ReplayFault::Memory) => {
            let schedule = schedule_of(rt, alloc, revised);
            Book::replay(alloc, NameHashing::fixed(), 10, schedule, touches)
        }
        made => made,
    }
}

/// The book of ten cards after the first example.
fn example_book(rt: &impl Abort, alloc: Global) -> Book
    ensures few { length (entries_of result) < 10 }
    ensures stands { Stands result }
{
    let mut book = empty_book(rt, alloc, false);
    add_first(rt, &mut book);
    book
}

/// Adds the touches of the first example.
fn add_first(rt: &impl Abort, book: &mut Book)
    requires none { length (entries_of book.old) ≡ 0 }
    requires stands { Stands book.old }
    ensures few { length (entries_of book.new) < 10 }
    ensures stands { Stands book.new }
{
    let [issue, top_up, enter, out] = first_example();
    add_one(rt, book, issue);
    add_one(rt, book, top_up);
    add_one(rt, book, enter);
    add_one(rt, book, out);
}

/// That there are so many entries, and none behind them.
fn assert_count(rt: &impl Abort, book: &Book, count: u32) {
    assert_same(rt, book.len(), count);
    assert_that(rt, book.entry(count).is_none());
}

/// That each of these touches is found so.
fn assert_finds(rt: &impl Abort, book: &Book, rows: &[(Touch, Found)]) {
    for (touch, found) in rows {
        assert_same_at(rt, book.find(touch), *found, *touch);
    }
}

/// That each of these cards is seen so.
fn assert_seen(rt: &impl Abort, book: &Book, rows: &[(u32, CardView)]) {
    for (card, seen) in rows {
        assert_same_at(rt, book.view(*card), *seen, *card);
    }
}

/// That the entries from seat 0 are of these rows.
fn assert_entries(rt: &impl Abort, book: &Book, rows: &[Row; 4]) {
    for (place, row) in rows.iter().enumerate() {
        let entry = Entry {
            touch: row.0,
            reply: row.1,
            seat: 0,
        };
        let kept = book.entry(place as u32);
        assert_same_at(rt, kept, Some(entry), place);
    }
}

/// That there is no room for a touch before it is made, and then there is, for no entry.
fn assert_reserves(rt: &impl Abort, book: &mut Book) {
    assert_that(rt, !book.has_room(&leave(4, 1)));
    if let Err(AllocError) = book.reserve(1000) {
        assert_that(rt, !book.has_room(&leave(4, 1)));
        book.reserve(1000)
            .expect(rt, "the second call meets no refusal");
    }
    assert_that(rt, book.has_room(&leave(4, 1)));
    assert_same(rt, book.len(), 0);
}

#[test]
fn a_book_finds_its_touches_and_shows_its_cards(rt: HostRuntime) {
    let mut book = example_book(&rt, rt.alloc());
    let [issue, _, _, _] = first_touches();
    let other_gate = Touch {
        gate: 8,
        ..leave(4, 1)
    };
    // A repeat is found, and another touch of its name is a conflict.
    let rows = [
        (leave(4, 1), Found::First(3, reply(4, 550, 1650))),
        (issue, Found::First(0, reply(8, 0, 0))),
        (leave(4, 3), Found::Conflict),
        (leave(5, 1), Found::New),
        (other_gate, Found::New),
    ];
    assert_finds(&rt, &book, &rows);
    assert_count(&rt, &book, 4);
    // A card is seen as its touches made it.
    let cards = [
        (1, view(CardState::Outside, 1650)),
        (2, view(CardState::Vacant, 0)),
        (0, view(CardState::Vacant, 0)),
        (11, view(CardState::Vacant, 0)),
    ];
    assert_seen(&rt, &book, &cards);
    // A touch of no card is refused and kept.
    add_one(&rt, &mut book, stray());
    drop(book);
}

#[test]
fn a_touch_is_entered_as_it_was_judged(rt: HostRuntime) {
    let mut book = empty_book(&rt, rt.alloc(), false);
    let [issue, top_up, enter, out] = first_example();
    enter_one(&rt, &mut book, issue);
    enter_one(&rt, &mut book, top_up);
    enter_one(&rt, &mut book, enter);
    enter_one(&rt, &mut book, out);
    enter_one(&rt, &mut book, stray());
    assert_count(&rt, &book, 5);
    drop(book);
}
