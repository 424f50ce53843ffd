//! Touches with the replies that they are to get: the values of PROTOCOL.md.

use oyster_account::{Act, CardState, CardView, Reply, Touch};

/// A touch of gate 7 and card 1.
pub const fn touch(number: u32, act: Act) -> Touch {
    Touch {
        gate: 7,
        number,
        card: 1,
        act,
    }
}

/// The same card's touch out at a station.
pub const fn leave(number: u32, station: u16) -> Touch {
    touch(
        number,
        Act::Leave {
            station,
            moment: 1_736_151_900,
        },
    )
}

/// A reply.
pub const fn reply(verdict: u8, change: i32, balance: i64) -> Reply {
    Reply {
        verdict,
        change,
        balance,
    }
}

/// What is seen of a card.
pub const fn view(state: CardState, balance: i64) -> CardView {
    CardView { state, balance }
}

/// A touch, the reply that it is to get, and what is to be seen of its card then.
pub type Row = (Touch, Reply, CardView);

/// An issue, a top-up and a journey.
pub const fn first_example() -> [Row; 4] {
    [
        (
            touch(
                1,
                Act::Issue {
                    moment: 1_736_149_800,
                },
            ),
            reply(8, 0, 0),
            view(CardState::Outside, 0),
        ),
        (
            touch(
                2,
                Act::TopUp {
                    pence: 2000,
                    moment: 1_736_150_100,
                },
            ),
            reply(7, 2000, 2000),
            view(CardState::Outside, 2000),
        ),
        (
            touch(
                3,
                Act::Enter {
                    station: 2,
                    moment: 1_736_150_400,
                },
            ),
            reply(1, -900, 1100),
            view(CardState::Inside, 1100),
        ),
        (
            leave(4, 1),
            reply(4, 550, 1650),
            view(CardState::Outside, 1650),
        ),
    ]
}

/// The touches of the first example.
pub const fn first_touches() -> [Touch; 4] {
    let [issue, top_up, enter, out] = first_example();
    [issue.0, top_up.0, enter.0, out.0]
}

/// A touch of no card.
pub const fn stray() -> Row {
    let touch = Touch {
        card: 11,
        ..leave(5, 1)
    };
    (touch, reply(20, 0, 0), view(CardState::Vacant, 0))
}
