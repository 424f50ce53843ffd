//! Two rounds of an office, each opened with a table that is read from the same file.
ghost use Rattle.std.specs.Prelude.{◌≡◌, ℕ, [], ◌∷◌, Some, slice_get, IfSome};
ghost use Rattle.oyster_account.specs.declared.reply.Judged.{Judged};
ghost use Rattle.tap_disk.specs.Memory.{content_of};
ghost use Rattle.tap_journal.specs.Image.{Image};
ghost use Rattle.reply_book.specs.Tables.{Tables, listed};
ghost use Rattle.reply_book.specs.Book.{entries_of};
ghost use Rattle.reply_book.specs.Legal.{history_of, touches_of};
ghost use Rattle.tap_office.specs.Name.{IsNameOf};
ghost use Rattle.tap_office.specs.Given.{IsGiven};
ghost use Rattle.tap_office.specs.Opening.{IsOpeningOf, opened_of};
ghost use Rattle.tap_office.specs.Files.{AreReadFrom};

use super::steps::{try_work, worked};
use super::*;
use std::marker::Brand;
use std::sync::Wait;
use tap_office::{Desk, Named, Office, Seat, same_files_keep_replies};

/// An opening of the disk for two seats, by the one table that is read from the text of a file.
fn opened_by(alloc: Global, text: &str, disk: MemoryDisk) -> Option<Opening<MemoryDisk>>
    ensures file { IfSome result (λ o. AreReadFrom (text.now ∷ []) (listed o.tables)) }
    ensures found { IfSome result (λ o. Image o.header (touches_of o.recovered) (content_of disk)) }
    ensures opening { IfSome result (λ o. IsOpeningOf o.tables CARDS 2 o) }
{
    let Ok(table) = Fares::read(alloc, text) else {
        return None;
    };
    let Ok(schedule) = Schedule::new(alloc, table) else {
        return None;
    };
    match Opening::read(alloc, NameHashing::fixed(), disk, schedule, CARDS, 2) {
        Ok(opening) => Some(opening),
        Err(_) => None,
    }
}

/// Closes an office whose one table was read from the text of a file, and opens what a crash leaves
/// of its disk, by the table that is read from the text again.
///
/// By the law `same_files_keep_replies` each entry of the closed book stands in the new opening at
/// its place, with its reply.
fn next_round<N: Named, R: Wait>(
    rt: &R,
    alloc: Global,
    text: &str,
    office: Office<N, MemoryDisk>,
    seats: Vec<Seat<N>>,
    desks: &[Desk<N>],
    choice: Choice,
) -> Option<(Book, Opening<MemoryDisk>)>
    requires { (tables : Tables) → IsGiven N.opened tables
        → AreReadFrom (text.now ∷ []) (listed tables) }
    ensures { IfSome result (λ r. (place : ℕ) (judged : Judged)
        → slice_get (history_of (entries_of r.0)) place ≡ Some judged
        → slice_get (history_of r.1.recovered) place ≡ Some judged) }
{
    let Ok(closed) = office.close(rt, seats, desks) else {
        return None;
    };
    let Closed { book, disk, halted } = closed;
    if halted {
        return None;
    }
    let Ok(left) = disk.crash(choice) else {
        return None;
    };
    let Some(opening) = opened_by(alloc, text, left) else {
        return None;
    };
    same_files_keep_replies();
    Some((book, opening))
}

/// Commits the four touches by the example table, and gives the opening of the round behind such a
/// crash.
fn through_a_crash<N: Named, R: Wait + Abort>(
    rt: &R,
    alloc: Global,
    opening: Opening<MemoryDisk>,
    choice: Choice,
) -> Option<Opening<MemoryDisk>>
    requires name { IsNameOf N.opened N.name N.parts N.commit_log N.table (opened_of opening) }
    requires file { AreReadFrom (EXAMPLE_TABLE.now ∷ []) (listed opening.tables) }
{
    let (office, mut seats, desks) = opening.office::<N, R>(rt, alloc).ok()?;
    let seat = seats.first_mut()?;
    for touch in [ISSUE, TOP_UP, ENTER, LEAVE] {
        office.submit(rt, seat, touch).ok()?;
    }
    let (_book, next) = next_round(rt, alloc, EXAMPLE_TABLE, office, seats, &desks, choice)?;
    Some(next)
}

/// The same from an empty journal on, by a name of its own.
fn reopened<R: Wait + Abort>(rt: &R, alloc: Global, choice: Choice) -> Option<Opening<MemoryDisk>> {
    let opening = opened_by(alloc, EXAMPLE_TABLE, journal_of(alloc, 5, &[])?)?;
    through_a_crash::<Brand, R>(rt, alloc, opening, choice)
}

#[test]
fn a_repeat_after_a_crash_is_judged_by_the_file_read_again(rt: HostRuntime) {
    let alloc = rt.alloc();
    let steps = [
        from_first(LEAVE, Answer::Again(3, REPLIES[3])),
        from_first(ENTER, Answer::Again(2, REPLIES[2])),
        from_first(TOP_UP, Answer::Again(1, REPLIES[1])),
        from_first(ISSUE, Answer::Again(0, REPLIES[0])),
    ];
    for choice in CHOICES {
        let opening = reopened(&rt, alloc, choice).expect(&rt, "no second round");
        let (outcome, _disk) = try_work(&rt, alloc, opening, &steps, 0)
            .ok()
            .expect(&rt, "no office was made");
        assert_same_at(&rt, outcome, worked(4, 1650, 4), choice);
    }
}
