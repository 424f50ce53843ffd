//! Revisions in a book, with the values of FARES.md, "Revision".

ghost use Rattle.std.specs.Prelude.{◌<◌, length, []};
ghost use Rattle.reply_book.specs.Book.{Stands};

use super::revised::REVISED_DIGEST;
use super::rows::touch;
use super::*;
use oyster_account::Act;

/// A revision to the table of this digest.
const fn revise_to(number: u32, digest: [u8; 32], day: i32) -> Touch {
    Touch {
        gate: 7,
        number,
        card: 0,
        act: Act::Revise {
            digest,
            day,
            moment: 1_736_150_400,
        },
    }
}

/// A revision to the revised table.
pub const fn revise(number: u32, day: i32) -> Touch {
    revise_to(number, REVISED_DIGEST, day)
}

/// The fault of a revision at this place to the revised table, which isn't there.
pub const fn missing(place: u32, day: i32, is_accepted: bool) -> ReplayFault {
    ReplayFault::MissingTable {
        place,
        day,
        is_accepted,
        digest: REVISED_DIGEST,
    }
}

/// The row of a revision that gets this verdict.
const fn revision_row(number: u32, day: i32, verdict: u8) -> Row {
    (
        revise(number, day),
        reply(verdict, 0, 0),
        view(CardState::Vacant, 0),
    )
}

/// A journey of the fare day before the revision.
const fn earlier_journey() -> [Row; 2] {
    [
        (
            touch(
                8,
                Act::Enter {
                    station: 2,
                    moment: 1_736_223_900,
                },
            ),
            reply(1, -700, 950),
            view(CardState::Inside, 950),
        ),
        (
            touch(
                9,
                Act::Leave {
                    station: 1,
                    moment: 1_736_225_400,
                },
            ),
            reply(4, 410, 1360),
            view(CardState::Outside, 1360),
        ),
    ]
}

/// A journey of the revision's fare day.
const fn later_journey() -> [Row; 2] {
    [
        (
            touch(
                10,
                Act::Enter {
                    station: 2,
                    moment: 1_736_236_800,
                },
            ),
            reply(1, -1000, 360),
            view(CardState::Inside, 360),
        ),
        (
            touch(
                11,
                Act::Leave {
                    station: 1,
                    moment: 1_736_238_300,
                },
            ),
            reply(4, 620, 980),
            view(CardState::Outside, 980),
        ),
    ]
}

/// That a book of both tables, with no room, has room for this revision once it is made, and not
/// before, even where room is made for a revision to a table that isn't there.
fn assert_makes_room(rt: &impl Abort, book: &mut Book, revision: &Touch, unknown: &Touch)
    requires { Stands book.old }
{
    make_ready(rt, book, unknown);
    assert_that(rt, book.has_room(unknown));
    assert_that(rt, !book.has_room(revision));
    make_ready(rt, book, revision);
    assert_that(rt, book.has_room(revision));
}

#[test]
fn a_revised_fare_counts_from_its_day(rt: HostRuntime) {
    let mut book = empty_book(&rt, rt.alloc(), true);
    add_first(&rt, &mut book);
    // Of a day that has travel, of the day after it, and of that day again.
    enter_one(&rt, &mut book, revision_row(5, 20094, 27));
    enter_one(&rt, &mut book, revision_row(6, 20095, 9));
    add_one(&rt, &mut book, revision_row(7, 20095, 27));
    let [enter, leave] = earlier_journey();
    add_one(&rt, &mut book, enter);
    add_one(&rt, &mut book, leave);
    let [enter, leave] = later_journey();
    add_one(&rt, &mut book, enter);
    add_one(&rt, &mut book, leave);
    drop(book);
}

#[test]
fn touches_of_no_book_are_told_by_their_place(rt: HostRuntime) {
    let [first, second, third, fourth] = first_touches();
    let revision = revise(6, 20095);
    let rows = [
        // A repeat.
        (
            [first, second, third, fourth, first],
            ReplayFault::Repeated(4),
        ),
        (
            [first, second, third, fourth, leave(4, 3)],
            ReplayFault::Repeated(4),
        ),
        (
            [first, second, first, fourth, second],
            ReplayFault::Repeated(2),
        ),
        // A table that is missing.
        (
            [first, second, third, fourth, revise(5, 20094)],
            missing(4, 20094, false),
        ),
        (
            [first, revision, third, fourth, first],
            missing(1, 20095, true),
        ),
        // Whichever comes first.
        (
            [first, second, first, fourth, revision],
            ReplayFault::Repeated(2),
        ),
        (
            [first, second, third, fourth, revise(4, 20095)],
            ReplayFault::Repeated(4),
        ),
    ];
    for (touches, fault) in rows {
        let told = replayed(&rt, rt.alloc(), false, &touches).err();
        assert_same(&rt, told, Some(fault));
    }
}

/// That the book of these touches, the first four of which are the first example, is made of such
/// tables, and that in it these touches are found so.
fn assert_made(
    rt: &impl Abort,
    alloc: Global,
    revised: bool,
    touches: &[Touch],
    rows: &[(Touch, Found)],
)
    requires { length touches.now < 100 }
{
    let book = replayed(rt, alloc, revised, touches).expect(rt, "a book");
    assert_count(rt, &book, touches.len() as u32);
    assert_entries(rt, &book, &first_example());
    assert_seen(rt, &book, &[(1, view(CardState::Outside, 1650))]);
    assert_finds(rt, &book, rows);
    drop(book);
}

#[test]
fn a_book_is_made_of_its_touches_and_revisions(rt: HostRuntime) {
    let touches = first_touches();
    assert_made(&rt, rt.alloc(), false, &touches, &[]);
    let [first, second, third, fourth] = touches;
    let touches = [
        first,
        second,
        third,
        fourth,
        revise(5, 20094),
        revise(6, 20095),
    ];
    let rows = [
        (revise(5, 20094), Found::First(4, reply(27, 0, 0))),
        (revise(6, 20095), Found::First(5, reply(9, 0, 0))),
        (revise(6, 20096), Found::Conflict),
    ];
    assert_made(&rt, rt.alloc(), true, &touches, &rows);
}

#[test]
fn a_book_knows_its_tables_and_makes_room_for_a_revision(rt: HostRuntime) {
    let mut book = empty_book(&rt, rt.alloc(), true);
    let revision = revise(1, 20095);
    let unknown = revise_to(2, [0; 32], 20095);
    assert_same(&rt, book.knows(&revision), true);
    assert_same(&rt, book.knows(&unknown), false);
    assert_same(&rt, book.knows(&leave(1, 1)), true);
    assert_makes_room(&rt, &mut book, &revision, &unknown);
    drop(book);
}

#[test]
fn a_book_knows_no_other_table_and_makes_room_ahead(rt: HostRuntime) {
    let mut book = empty_book(&rt, rt.alloc(), false);
    assert_same(&rt, book.knows(&revise(1, 20095)), false);
    assert_reserves(&rt, &mut book);
    drop(book);
}
