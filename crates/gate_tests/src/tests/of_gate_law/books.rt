//! A station by its book: a clerk that is proved to keep a station, with the table of
//! docs/example.toml.
ghost use Rattle.std.specs.Prelude.{List, [], ◌∷◌, ◌++◌, IfOk};
ghost use Rattle.oyster_account.specs.declared.touch.Touch.{Touch};
ghost use Rattle.reply_book.specs.Book.{entries_of};
ghost use Rattle.gate_client.specs.File.{next_touch};
ghost use Rattle.gate_client.specs.Client.{HasAsked, gate_of};
ghost use Rattle.gate_law.specs.Settled.{IsSettled};

use super::*;
use gate_law::{BookClerk, books_keep_stations, settle_at_once};
use oyster_account::{Act, CardState, CardView};
use reply_book::{Book, NameHashing};

/// The clerk of a book of ten cards.
fn new_clerk(rt: &impl Abort, alloc: Global) -> BookClerk {
    match Book::new(alloc, NameHashing::fixed(), 10, new_schedule(rt, alloc)) {
        Ok(book) => BookClerk::new(book),
        Err(_) => panic!(rt; "no memory for a book"),
    }
}

/// What comes of the row's touch. Of the clerk nothing is assumed.
fn asked_by_book<R: Abort + Wait>(
    rt: &R,
    alloc: Global,
    client: &mut Client<MemoryDisk>,
    clerk: &mut BookClerk,
    touch: &Touch,
    carried: Carried,
) -> Result<Reply, TouchFault>
    ensures { (asked : List Touch) → HasAsked asked client.old → IfOk result (λ reply. IsSettled
        (asked ++ next_touch (gate_of client.old) asked touch.now.card touch.now.act ∷ [])
        (next_touch (gate_of client.old) asked touch.now.card touch.now.act) reply client.new
        (entries_of clerk.new)) }
{
    books_keep_stations(clerk);
    let Touch { card, act, .. } = *touch;
    ask_and_settle(rt, alloc, client, clerk, card, act, carried)
}

/// What comes of the row's touch over a line that brings every byte.
fn asked_at_once<R: Abort + Wait>(
    rt: &R,
    client: &mut Client<MemoryDisk>,
    clerk: &mut BookClerk,
    touch: &Touch,
) -> Result<Reply, HearFault> {
    let Touch { card, act, .. } = *touch;
    match client.ask(card, act) {
        Ok(_) => settle_at_once(rt, client, clerk),
        Err(_) => panic!(rt; "a touch that isn't kept"),
    }
}

/// That the clerk's book has as many entries.
fn assert_entered(rt: &impl Abort, clerk: BookClerk, entered: u32) {
    let book = clerk.close();
    assert_same(rt, book.len(), entered);
    drop(book);
}

#[test]
fn a_book_settles_each_touch(rt: HostRuntime) {
    let mut client = new_client(&rt, rt.alloc(), 3);
    let mut clerk = new_clerk(&rt, rt.alloc());
    for row in &ROWS {
        let reply = asked_by_book(&rt, rt.alloc(), &mut client, &mut clerk, &row.touch, WHOLE);
        assert_same_at(&rt, reply, Ok(row.reply), row);
    }
    let view = CardView {
        state: CardState::Inside,
        balance: 1100,
    };
    assert_same(&rt, clerk.enquire(1), Answer::Holding { view, front: 3 });
    drop(client);
    assert_entered(&rt, clerk, 3);
}

#[test]
fn a_book_settles_each_touch_at_once(rt: HostRuntime) {
    let mut client = new_client(&rt, rt.alloc(), 3);
    let mut clerk = new_clerk(&rt, rt.alloc());
    for row in &ROWS {
        let reply = asked_at_once(&rt, &mut client, &mut clerk, &row.touch);
        assert_same_at(&rt, reply, Ok(row.reply), row);
    }
    drop(client);
    assert_entered(&rt, clerk, 3);
}

#[test]
fn a_book_repeats_its_first_reply(rt: HostRuntime) {
    let lost = Carried {
        to_gate: 21,
        ..WHOLE
    };
    let row = &ROWS[0];
    let mut client = new_client(&rt, rt.alloc(), 3);
    let mut clerk = new_clerk(&rt, rt.alloc());
    let none = asked_by_book(&rt, rt.alloc(), &mut client, &mut clerk, &row.touch, lost);
    assert_same(&rt, none, Err(TouchFault::Unsettled(NONE)));
    let reply = settled(&rt, rt.alloc(), &mut client, &mut clerk, WHOLE);
    assert_same(&rt, reply, Ok(row.reply));
    drop(client);
    assert_entered(&rt, clerk, 1);
}

/// That a touch is refused by this code, where the first row's touch stands.
fn assert_refused<R: Abort + Wait>(
    rt: &R,
    alloc: Global,
    clerk: &mut BookClerk,
    act: Act,
    code: u8,
) {
    let mut client = new_client(rt, alloc, 3);
    let touch = Touch {
        act,
        ..ROWS[0].touch
    };
    let refused = NoReplyFault::Unheard(HearFault::Refused(code));
    let none = asked_by_book(rt, alloc, &mut client, clerk, &touch, WHOLE);
    assert_same_at(rt, none, Err(TouchFault::Unsettled(refused)), &act);
    drop(client);
}

#[test]
fn a_book_refuses_another_touch_and_an_unknown_table(rt: HostRuntime) {
    let revision = Act::Revise {
        digest: [7; 32],
        day: 20_000,
        moment: 1_736_149_800,
    };
    let mut clerk = new_clerk(&rt, rt.alloc());
    assert_refused(&rt, rt.alloc(), &mut clerk, revision, 6);
    let mut client = new_client(&rt, rt.alloc(), 3);
    let first = &ROWS[0].touch;
    let reply = asked_by_book(&rt, rt.alloc(), &mut client, &mut clerk, first, WHOLE);
    assert_same(&rt, reply, Ok(ROWS[0].reply));
    drop(client);
    let top_up = Act::TopUp {
        pence: 2000,
        moment: 1_736_149_800,
    };
    assert_refused(&rt, rt.alloc(), &mut clerk, top_up, 2);
    assert_entered(&rt, clerk, 1);
}
