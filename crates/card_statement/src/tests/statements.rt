//! Statements of whole histories: those of proofs/Examples.antt, with each of their rows.

ghost use Rattle.std.specs.Prelude.{◌≤◌, length};
ghost use Rattle.station_limits.specs.declared.limits.TheConstants.{HISTORY_LIMIT};

use super::{MONDAY, TRIES, assert_same, moment, passage};
use crate::statement::{Day, Incomplete, JourneyRow, Reason, Statement, TopUp};
use fare_schedule::Schedule;
use fare_table::{EXAMPLE_TABLE, Fare, Fares};
use money_time::Window;
use oyster_account::{Act, Journey, Judged, Passage, Reply, Touch};
use std::alloc::Global;
use std::process::Abort;
use std::test::Fail;

/// What a day's row has: the day, the fares, the price of its cap, the charge, and the charge for
/// its incomplete touches.
type Sums = (i32, u64, Option<u32>, u64, u64);

/// An accepted touch of a card.
fn touch(card: u32, act: Act) -> Judged {
    Judged {
        touch: Touch {
            gate: 7,
            number: 3,
            card,
            act,
        },
        reply: Reply {
            verdict: 1,
            change: 0,
            balance: 0,
        },
    }
}

/// Card 1 is touched in at a minute after Monday 00:00.
fn enter(station: u16, minute: u16) -> Judged {
    let moment = moment(minute);
    touch(1, Act::Enter { station, moment })
}

/// Card 1 is touched out at a minute after Monday 00:00.
fn leave(station: u16, minute: u16) -> Judged {
    let moment = moment(minute);
    touch(1, Act::Leave { station, moment })
}

/// Card 1 pays 2000 in on Monday at 05:00.
fn paid() -> Judged {
    let moment = moment(300);
    let pence = 2000;
    touch(1, Act::TopUp { pence, moment })
}

/// The row of a journey from 2 at this fare.
fn journey(start: Passage, finish: Passage, fare: (u32, u8, u8), covered: bool) -> JourneyRow {
    let (pence, lo, hi) = fare;
    let off_peak = start.stamp.window == Window::Off;
    JourneyRow {
        journey: Journey {
            start,
            finish,
            fare: Fare {
                pence,
                lo,
                hi,
                off_peak,
            },
        },
        covered,
    }
}

/// The row of a journey from 2 to 1 on Monday morning, at these minutes.
fn morning(start: u16, finish: u16, covered: bool) -> JourneyRow {
    let start = passage(2, start, Window::Early);
    let finish = passage(1, finish, Window::Early);
    journey(start, finish, (350, 1, 2), covered)
}

/// The row of an incomplete touch.
fn missed(touch: Passage, reason: Reason, pence: u32) -> Incomplete {
    Incomplete {
        touch,
        reason,
        pence,
    }
}

/// A schedule of the example table alone, again if memory was refused.
fn schedule(alloc: Global) -> Result<Schedule, Fail> {
    for _ in 0..TRIES {
        if let Ok(fares) = Fares::read(alloc, EXAMPLE_TABLE) {
            if let Ok(schedule) = Schedule::new(alloc, fares) {
                return Ok(schedule);
            }
        }
    }
    Err("memory is refused again and again".into())
}

/// The statement of card 1 by the example table, again if memory was refused.
fn statement(alloc: Global, touches: &[Judged]) -> Result<Statement, Fail>
    requires { length touches.now ≤ HISTORY_LIMIT }
{
    let schedule = schedule(alloc)?;
    if Statement::is_ready(&schedule, 1, touches) != Ok(true) {
        return Err("the touches are not in order, or of unknown stations".into());
    }
    for _ in 0..TRIES {
        if let Ok(statement) = Statement::of(alloc, &schedule, 1, touches) {
            return Ok(statement);
        }
    }
    Err("memory is refused again and again".into())
}

/// The statement has the one top-up, so many days, and these charges in all.
fn assert_sums(rt: &impl Abort, found: &Statement, days: usize, charged: u64, balance: i64) {
    let row = TopUp {
        pence: 2000,
        stamp: passage(0, 300, Window::Off).stamp,
    };
    assert_same(rt, found.top_ups.len(), 1);
    assert_same(rt, found.top_ups.get(0).copied(), Some(row));
    assert_same(rt, found.days.len(), days);
    assert_same(rt, found.paid_in, 2000);
    assert_same(rt, found.charged, charged);
    assert_same(rt, found.balance, balance);
}

/// The day of this place, newest first, has these sums and rows.
fn assert_day(
    rt: &impl Abort,
    found: &Statement,
    place: usize,
    want: Sums,
    rows: (&[JourneyRow], &[Incomplete]),
) {
    let day: &Day = found.days.get(place).expect(rt, "a day");
    let (journeys, incompletes) = rows;
    let price = day.cap.map(|cap| cap.price);
    assert_same(
        rt,
        (day.day, day.fares, price, day.charge, day.missing),
        want,
    );
    assert_same(rt, day.journeys.len(), journeys.len());
    for (i, row) in journeys.iter().enumerate() {
        assert_same(rt, day.journeys.get(i).copied(), Some(*row));
    }
    assert_same(rt, day.incomplete.len(), incompletes.len());
    for (i, row) in incompletes.iter().enumerate() {
        assert_same(rt, day.incomplete.get(i).copied(), Some(*row));
    }
}

#[test]
fn a_statement_has_the_journeys_of_a_day_and_their_cap(rt: HostRuntime) -> Result<(), Fail> {
    let touches = [
        paid(),
        enter(2, 400),
        leave(1, 425),
        enter(2, 460),
        leave(1, 485),
        enter(2, 520),
        leave(1, 545),
        enter(2, 555),
        leave(3, 565),
    ];
    let three = statement(rt.alloc(), &touches[..7])?;
    assert_sums(&rt, &three, 1, 850, 1150);
    let rows = [
        morning(520, 545, true),
        morning(460, 485, true),
        morning(400, 425, true),
    ];
    let want = (MONDAY, 1050, Some(850), 850, 0);
    assert_day(&rt, &three, 0, want, (&rows, &[]));
    let four = statement(rt.alloc(), &touches)?;
    assert_sums(&rt, &four, 1, 1000, 1000);
    let start = passage(2, 555, Window::Early);
    let finish = passage(3, 565, Window::Early);
    let rows = [
        journey(start, finish, (240, 2, 3), true),
        morning(520, 545, true),
        morning(460, 485, true),
        morning(400, 425, true),
    ];
    let want = (MONDAY, 1290, Some(1000), 1000, 0);
    assert_day(&rt, &four, 0, want, (&rows, &[]));
    Ok(())
}

#[test]
fn an_interchange_is_one_journey_of_a_statement(rt: HostRuntime) -> Result<(), Fail> {
    let touches = [
        paid(),
        enter(2, 480),
        leave(1, 505),
        enter(4, 513),
        leave(3, 540),
    ];
    let found = statement(rt.alloc(), &touches)?;
    assert_sums(&rt, &found, 1, 240, 1760);
    let start = passage(2, 480, Window::Early);
    let finish = passage(3, 540, Window::Early);
    let rows = [journey(start, finish, (240, 2, 3), false)];
    assert_day(&rt, &found, 0, (MONDAY, 240, None, 240, 0), (&rows, &[]));
    Ok(())
}

#[test]
fn a_statement_says_why_a_touch_is_incomplete(rt: HostRuntime) -> Result<(), Fail> {
    let start = passage(2, 480, Window::Early);
    let mut finish = passage(1, 570, Window::Off);
    finish.stamp.moment += 1;
    let moment = finish.stamp.moment;
    let out = Act::Leave { station: 1, moment };
    let late = statement(rt.alloc(), &[paid(), enter(2, 480), touch(1, out)])?;
    assert_sums(&rt, &late, 1, 1600, 400);
    let rows = [
        missed(finish, Reason::Late, 700),
        missed(start, Reason::NotLeftInTime, 900),
    ];
    assert_day(&rt, &late, 0, (MONDAY, 0, None, 0, 1600), (&[], &rows));
    let touches = [paid(), enter(2, 480), enter(2, 490), leave(1, 510)];
    let over = statement(rt.alloc(), &touches)?;
    assert_sums(&rt, &over, 1, 1250, 750);
    let rows = [missed(start, Reason::EnteredOver, 900)];
    let journeys = [morning(490, 510, false)];
    assert_day(
        &rt,
        &over,
        0,
        (MONDAY, 350, None, 350, 900),
        (&journeys, &rows),
    );
    let open = statement(rt.alloc(), &[paid(), leave(1, 480), enter(4, 485)])?;
    assert_sums(&rt, &open, 1, 1800, 200);
    let rows = [
        missed(passage(4, 485, Window::Early), Reason::Open, 900),
        missed(passage(1, 480, Window::Early), Reason::Unstarted, 900),
    ];
    assert_day(&rt, &open, 0, (MONDAY, 0, None, 0, 1800), (&[], &rows));
    Ok(())
}

/// A passage on Tuesday at 04:25 or after, by the clock: before 04:30 it is of Monday's fare day.
fn on_tuesday(station: u16, minute: u16, day: i32, window: Window) -> Passage {
    let mut passage = passage(station, 1440 + minute % 1440, window);
    passage.stamp.minute = minute;
    passage.stamp.day = day;
    passage
}

#[test]
fn a_statement_has_a_row_for_each_fare_day(rt: HostRuntime) -> Result<(), Fail> {
    let touches = [
        paid(),
        enter(2, 480),
        leave(1, 505),
        enter(2, 1705),
        leave(1, 1730),
        enter(2, 1920),
    ];
    let found = statement(rt.alloc(), &touches)?;
    assert_sums(&rt, &found, 2, 1540, 460);
    let open = on_tuesday(2, 480, MONDAY + 1, Window::Early);
    let rows = [missed(open, Reason::Open, 900)];
    assert_day(&rt, &found, 0, (MONDAY + 1, 0, None, 0, 900), (&[], &rows));
    let start = on_tuesday(2, 265, MONDAY, Window::Off);
    let finish = on_tuesday(1, 290, MONDAY + 1, Window::Off);
    let rows = [
        journey(start, finish, (290, 1, 2), false),
        morning(480, 505, false),
    ];
    assert_day(&rt, &found, 1, (MONDAY, 640, None, 640, 0), (&rows, &[]));
    Ok(())
}

#[test]
fn only_accepted_touches_of_the_card_count(rt: HostRuntime) -> Result<(), Fail> {
    let mut refused = paid();
    refused.reply.verdict = 25;
    let moment = moment(480);
    let station = 9;
    let others = touch(2, Act::Enter { station, moment });
    let issued = touch(1, Act::Issue { moment });
    let found = statement(rt.alloc(), &[paid(), refused, others, issued])?;
    assert_sums(&rt, &found, 0, 0, 2000);
    Ok(())
}

#[test]
fn travel_that_goes_back_is_not_ready(rt: HostRuntime) -> Result<(), Fail> {
    let schedule = schedule(rt.alloc())?;
    let in_order = [enter(2, 480), leave(1, 480), enter(2, 481)];
    let back = [enter(2, 480), leave(1, 479)];
    let unknown = [enter(2, 480), leave(9, 481)];
    assert_same(&rt, Statement::is_ready(&schedule, 1, &in_order), Ok(true));
    assert_same(&rt, Statement::is_ready(&schedule, 1, &back), Ok(false));
    assert_same(&rt, Statement::is_ready(&schedule, 1, &unknown), Ok(false));
    assert_same(&rt, Statement::is_ready(&schedule, 2, &unknown), Ok(true));
    Ok(())
}
