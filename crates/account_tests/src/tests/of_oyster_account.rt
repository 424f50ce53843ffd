//! What no clause says: worked examples of the account and of the touch's bytes, with the values of
//! FARES.md and PROTOCOL.md, and the comparison with a plain account.

ghost use Rattle.std.specs.Prelude.{◌≡◌, ◌<◌, ◌+◌, List, length, OnOk};
ghost use Rattle.oyster_account.specs.declared.reply.Judged.{Judged};
ghost use Rattle.oyster_account.specs.Scheme.{scheme_of};
ghost use Rattle.oyster_account.specs.Standing.{StandsFor, touches_in};

mod accounts;
mod bytes;
mod plain;
mod revised;
mod wanderer;
mod wide;

use self::Deed::{In, Issued, Out, TopUp};
use self::plain::{Answer, Plain};
use self::wanderer::Wanderer;
use self::wide::WIDE_TABLE;
use super::tables::{Change, revised, schedule_of};
use super::{assert_same, assert_same_at, assert_that};
use fare_schedule::Schedule;
use oyster_account::{
    Acceptance, Act, Card, CardState, Judged, Refusal, Reply, Touch, verdict_name,
};
use std::alloc::{AllocError, Global};
use std::process::Abort;
use std::test::Fail;

/// What a card does, in a word: at a station or with these pence, and at a moment.
#[derive(Clone, Copy, Debug)]
enum Deed {
    Issued(u32),
    TopUp(u32, u32),
    In(u16, u32),
    Out(u16, u32),
}

/// What a card does, the verdict, change and balance that it is to be answered with, and the state
/// that the card is to have then.
type Step = (Deed, u8, i64, i64, CardState);

const VACANT: CardState = CardState::Vacant;

const OUTSIDE: CardState = CardState::Outside;

const INSIDE: CardState = CardState::Inside;

const ISSUE: Deed = Issued(1_736_149_800);

/// A card with 2000 pence.
const WITH_2000: [Step; 2] = [
    (ISSUE, 8, 0, 0, OUTSIDE),
    (TopUp(2000, 1_736_150_100), 7, 2000, 2000, OUTSIDE),
];

/// The act of what a card does.
fn act_of(deed: Deed) -> Act {
    match deed {
        Issued(moment) => Act::Issue { moment },
        TopUp(pence, moment) => Act::TopUp { pence, moment },
        In(station, moment) => Act::Enter { station, moment },
        Out(station, moment) => Act::Leave { station, moment },
    }
}

/// Gives an act to a card of number 1, and to the plain account of it. What is foretold is what is
/// given, and what the plain account says.
fn give(
    rt: &impl Abort,
    schedule: &Schedule,
    card: &mut Card,
    plain: &mut Plain,
    act: Act,
) -> Result<Answer, Fail>
    requires few { touches_in card.old < 100 }
    requires stands { (history : List Judged)
        × StandsFor (scheme_of schedule.now) 1 history card.old }
    ensures count { OnOk result (touches_in card.new ≡ touches_in card.old + 1) }
    ensures stands { OnOk result ((history : List Judged)
        × StandsFor (scheme_of schedule.now) 1 history card.new) }
{
    let touch = Touch {
        gate: 7,
        number: card.count(),
        card: 1,
        act,
    };
    if touch.is_revision() {
        return Err(AllocError.into());
    }
    let stamp = schedule.stamp(touch.moment())?;
    card.ready()?;
    assert_that(rt, card.has_room());
    let (foretold, seen) = card.judge(schedule, &touch, &stamp);
    let reply = card.apply(schedule, &touch, &stamp);
    assert_same_at(rt, foretold, reply, act);
    assert_same_at(rt, card.view(), seen, act);
    let answer = Answer {
        verdict: reply.verdict,
        change: i64::from(reply.change),
        balance: reply.balance,
        state: seen.state,
    };
    assert_same_at(rt, seen.balance, answer.balance, act);
    assert_same_at(rt, plain.give(schedule, act, stamp)?, answer, (stamp, act));
    Ok(answer)
}

/// Gives acts to a card of number 1 in turn, and compares the answers.
fn go_on(
    rt: &impl Abort,
    schedule: &Schedule,
    card: &mut Card,
    plain: &mut Plain,
    steps: &[Step],
) -> Result<(), Fail>
    requires few { touches_in card.old + length steps.now < 100 }
    requires stands { (history : List Judged)
        × StandsFor (scheme_of schedule.now) 1 history card.old }
    ensures count { OnOk result (touches_in card.new ≡ touches_in card.old + length steps.now) }
    ensures stands { OnOk result ((history : List Judged)
        × StandsFor (scheme_of schedule.now) 1 history card.new) }
{
    for step in steps {
        let (deed, verdict, change, balance, state) = *step;
        let answer = give(rt, schedule, card, plain, act_of(deed))?;
        let expected = Answer {
            verdict,
            change,
            balance,
            state,
        };
        assert_same_at(rt, answer, expected, deed);
    }
    Ok(())
}

/// Plays a row on a card of its own, after its first steps.
fn play_row(
    rt: &impl Abort,
    alloc: Global,
    schedule: &Schedule,
    first: &[Step],
    row: &[Step],
) -> Result<(), Fail>
    requires first { length first.now < 10 }
    requires row { length row.now < 80 }
{
    let mut card = Card::vacant(alloc);
    let mut plain = Plain::new(alloc);
    go_on(rt, schedule, &mut card, &mut plain, first)?;
    go_on(rt, schedule, &mut card, &mut plain, row)?;
    assert_same(rt, card.count() as usize, first.len() + row.len());
    Ok(())
}

/// Plays each row on a card of its own, after the same first steps, by a schedule.
fn play(
    rt: &impl Abort,
    alloc: Global,
    schedule: &Schedule,
    first: &[Step],
    rows: &[&[Step]],
) -> Result<(), Fail> {
    assert_that(rt, first.len() < 10);
    for row in rows {
        let row: &[Step] = row;
        assert_that(rt, row.len() < 80);
        play_row(rt, alloc, schedule, first, row)?;
    }
    Ok(())
}

/// Gives fifty acts of a generator to a card of number 1.
fn wander(
    rt: &impl Abort,
    alloc: Global,
    schedule: &Schedule,
    wanderer: &mut Wanderer,
) -> Result<(), Fail> {
    let mut card = Card::vacant(alloc);
    let mut plain = Plain::new(alloc);
    for touch in 0..50u32 {
        let act = wanderer.next(touch);
        let answer = give(rt, schedule, &mut card, &mut plain, act)?;
        wanderer.note(answer.verdict);
    }
    Ok(())
}

/// Gives acts of a generator to a hundred cards, one after the other.
fn wander_on(
    rt: &impl Abort,
    alloc: Global,
    schedule: &Schedule,
    wanderer: &mut Wanderer,
) -> Result<(), Fail> {
    for _ in 0..100 {
        wander(rt, alloc, schedule, wanderer)?;
        wanderer.turn_to_another_card();
    }
    Ok(())
}

#[test]
fn a_card_answers_as_a_plain_account_does(rt: HostRuntime) -> Result<(), Fail> {
    let alloc = rt.alloc();
    let schedule = schedule_of(&rt, alloc, WIDE_TABLE);
    let mut wanderer = Wanderer::new();
    wander_on(&rt, alloc, &schedule, &mut wanderer)?;
    // Every verdict was given but that of a table with no such card.
    for verdict in [1, 2, 3, 4, 5, 6, 7, 8, 20, 21, 22, 23, 24, 25, 26] {
        assert_same_at(&rt, wanderer.has_noted(verdict), true, verdict);
    }
    Ok(())
}

// On Sunday 2025-10-26 the clock shows 04:50, then 04:10 of the fare day before, then 04:35.
const GOES_BACK: [Step; 4] = [
    (In(1, 1_761_450_600), 1, -900, 1100, INSIDE),
    (Out(2, 1_761_451_800), 23, 0, 1100, INSIDE),
    (In(2, 1_761_451_800), 23, 0, 1100, INSIDE),
    (Out(2, 1_761_453_300), 4, 610, 1710, OUTSIDE),
];

#[test]
fn a_clock_that_goes_back_makes_an_earlier_fare_day(rt: HostRuntime) -> Result<(), Fail> {
    let schedule = schedule_of(&rt, rt.alloc(), WIDE_TABLE);
    play(&rt, rt.alloc(), &schedule, &WITH_2000, &[&GOES_BACK])
}

#[test]
fn a_reply_has_the_code_of_its_verdict(rt: HostRuntime) {
    let accepted = [
        Acceptance::Entered,
        Acceptance::EnteredContinued,
        Acceptance::EnteredOverOpen,
        Acceptance::Exited,
        Acceptance::ExitedUnstarted,
        Acceptance::ExitedLate,
        Acceptance::ToppedUp,
        Acceptance::Issued,
        Acceptance::Revised,
    ];
    for (acceptance, verdict) in accepted.into_iter().zip(1..=9) {
        let reply = Reply::granted(acceptance, 1000, 100);
        let want = Reply {
            verdict,
            change: -900,
            balance: 100,
        };
        assert_same(&rt, reply, want);
        assert_that(&rt, reply.is_accepted());
    }
    let refused = [
        Refusal::UnknownCard,
        Refusal::AlreadyIssued,
        Refusal::UnknownStation,
        Refusal::Backwards,
        Refusal::LowBalance,
        Refusal::BadAmount,
        Refusal::OverLimit,
        Refusal::BadDay,
    ];
    for (refusal, verdict) in refused.into_iter().zip(20..=27) {
        let reply = Reply::refused(refusal, -710);
        let want = Reply {
            verdict,
            change: 0,
            balance: -710,
        };
        assert_same(&rt, reply, want);
        assert_that(&rt, !reply.is_accepted());
    }
    let want = Reply {
        verdict: 20,
        change: 0,
        balance: 0,
    };
    assert_same(&rt, Reply::unknown_card(), want);
}

/// Codes with the names that FARES.md, "Verdicts", has for them, and some that have none.
const VERDICTS: [(u8, Option<&str>); 22] = [
    (0, None),
    (1, Some("Entered")),
    (2, Some("EnteredContinued")),
    (3, Some("EnteredOverOpen")),
    (4, Some("Exited")),
    (5, Some("ExitedUnstarted")),
    (6, Some("ExitedLate")),
    (7, Some("ToppedUp")),
    (8, Some("Issued")),
    (9, Some("Revised")),
    (10, None),
    (19, None),
    (20, Some("UnknownCard")),
    (21, Some("AlreadyIssued")),
    (22, Some("UnknownStation")),
    (23, Some("Backwards")),
    (24, Some("LowBalance")),
    (25, Some("BadAmount")),
    (26, Some("OverLimit")),
    (27, Some("BadDay")),
    (28, None),
    (255, None),
];

#[test]
fn a_verdict_has_the_name_of_its_code(rt: HostRuntime) {
    for (code, name) in VERDICTS {
        assert_same_at(&rt, verdict_name(code), name, code);
    }
}
