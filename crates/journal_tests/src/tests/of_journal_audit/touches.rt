//! Touches that are entered in a book by tables. The replies are those of FARES.md, "Worked
//! examples".

use super::{EXAMPLE_DIGEST, example};
use crate::tests::assert_same;
use journal_audit::{digest_of_first, enter_touches};
use oyster_account::{Act, CardState, CardView, Reply, Touch};
use reply_book::{Entry, NameHashing};
use std::test::Fail;

/// Card 1 is issued, topped up by 2000 pence, touched in at 2 at 08:00 and out at 1 at 08:25.
const fn entries() -> [Entry; 4] {
    [
        entry(
            1,
            Act::Issue {
                moment: 1_736_149_800,
            },
            reply(8, 0, 0),
        ),
        entry(
            2,
            Act::TopUp {
                pence: 2_000,
                moment: 1_736_150_100,
            },
            reply(7, 2_000, 2_000),
        ),
        entry(
            3,
            Act::Enter {
                station: 2,
                moment: 1_736_150_400,
            },
            reply(1, -900, 1_100),
        ),
        entry(
            4,
            Act::Leave {
                station: 1,
                moment: 1_736_151_900,
            },
            reply(4, 550, 1_650),
        ),
    ]
}

/// A reply.
const fn reply(verdict: u8, change: i32, balance: i64) -> Reply {
    Reply {
        verdict,
        change,
        balance,
    }
}

/// A touch of gate 7 and card 1 with its reply, as an opening enters it.
const fn entry(number: u32, act: Act, reply: Reply) -> Entry {
    Entry {
        touch: Touch {
            gate: 7,
            number,
            card: 1,
            act,
        },
        reply,
        seat: 0,
    }
}

#[test]
fn the_digest_of_the_first_table_is_that_of_its_text(rt: HostRuntime) -> Result<(), Fail> {
    let schedule = example(rt.alloc()).ok_or("tables")?;
    assert_same(&rt, digest_of_first(&schedule), EXAMPLE_DIGEST);
    Ok(())
}

#[test]
fn touches_are_entered_with_their_replies(rt: HostRuntime) -> Result<(), Fail> {
    let alloc = rt.alloc();
    let schedule = example(alloc).ok_or("tables")?;
    let [issue, top_up, enter, leave] = entries();
    let touches = [issue.touch, top_up.touch, enter.touch, leave.touch];
    let book = enter_touches(alloc, NameHashing::fixed(), 10, schedule, &touches)
        .ok()
        .ok_or("a book")?;
    assert_same(&rt, book.len(), 4);
    for (place, entry) in (0..).zip(entries()) {
        assert_same(&rt, book.entry(place), Some(entry));
    }
    let outside = CardView {
        state: CardState::Outside,
        balance: 1_650,
    };
    assert_same(&rt, book.view(1), outside);
    Ok(())
}
