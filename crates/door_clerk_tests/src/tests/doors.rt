//! Requests at a door, one after the other.

use super::fakes::{HOLDING, REPLY};
use super::*;
use door_clerk::DoorRefusal;
use gate_session::{Answer, Clerk, FaultCode};
use std::sync::Wait;
use std::sync::atomic::Ordering;

/// A touch that comes to a full bucket, and why it is kept out, if it is.
#[derive(Clone, Copy, Debug)]
struct Row {
    touch: Touch,
    standing: Standing,
    refusal: Option<DoorRefusal>,
    /// How often the history is read.
    looks: u64,
}

/// The answer to a touch, let through or kept out.
fn answer_to(touch: &Touch, refusal: Option<DoorRefusal>) -> Answer {
    match refusal {
        None => Answer::reply(REPLY, touch),
        Some(_) => Answer::fault(FaultCode::NotAllowed, touch),
    }
}

/// What comes of a touch at a new door of this rule is as the row says.
fn assert_row<R: Abort + Wait>(rt: &R, rule: &Rule, row: Row) {
    let mut door = door(rule, NOW, row.standing);
    let full = door.bucket;
    let answer = door.submit(rt, row.touch);
    assert_same_at(rt, answer, answer_to(&row.touch, row.refusal), row);
    assert_same_at(rt, door.last, row.refusal, row);
    assert_same_at(rt, door.behind.touches == 1, row.refusal.is_none(), row);
    assert_same_at(rt, door.bucket == full, row.refusal.is_some(), row);
    let looks = door.surroundings.looks.load(Ordering::Relaxed);
    assert_same_at(rt, looks, row.looks, row);
}

#[test]
fn a_touch_is_let_through_or_kept_out(rt: HostRuntime) {
    let Ok(rule) = barrier(rt.alloc()) else {
        return;
    };
    let soon = 1_736_150_460;
    let row = Row {
        touch: entry(7, soon),
        standing: NEW,
        refusal: None,
        looks: 1,
    };
    let revision = Act::Revise {
        day: 20_000,
        moment: soon,
        digest: [0; 32],
    };
    let full = Standing::New { room: 100 };
    let rows = [
        row,
        // a moment of long ago
        Row {
            touch: entry(7, 0),
            ..row
        },
        Row {
            touch: touch(7, revision),
            refusal: Some(DoorRefusal::Kind),
            looks: 0,
            ..row
        },
        Row {
            touch: entry(21, soon),
            refusal: Some(DoorRefusal::Gate),
            looks: 0,
            ..row
        },
        // 2106
        Row {
            touch: entry(7, u32::MAX),
            refusal: Some(DoorRefusal::Ahead),
            ..row
        },
        Row {
            standing: full,
            refusal: Some(DoorRefusal::Reserve),
            ..row
        },
        Row {
            touch: entry(7, u32::MAX),
            standing: Standing::Repeat,
            ..row
        },
    ];
    for row in rows {
        assert_row(&rt, &rule, row);
    }
}

/// What a door makes of a touch at so many ticks.
fn refusal_at<R: Wait>(
    rt: &R,
    door: &mut DoorClerk<'_, Counting, Scene>,
    ticks: u64,
) -> Option<DoorRefusal> {
    door.surroundings.clocks.ticks = ticks;
    let _answer = door.submit(rt, entry(7, 1_736_150_400));
    door.last
}

#[test]
fn a_flood_is_kept_out_and_a_second_is_enough(rt: HostRuntime) {
    let Ok(rule) = barrier(rt.alloc()) else {
        return;
    };
    let mut door = door(&rule, NOW, NEW);
    let fast = Some(DoorRefusal::Rate);
    let rows = [
        (5_000, None),
        (5_000, None),
        (5_000, fast),
        (5_999, fast),
        (6_000, None),
        (6_001, fast),
        (4_000, fast),
        (7_000, None),
    ];
    for (ticks, refusal) in rows {
        assert_same_at(&rt, refusal_at(&rt, &mut door, ticks), refusal, ticks);
    }
    assert_same(&rt, door.behind.touches, 4);
    assert_same(&rt, door.surroundings.looks.load(Ordering::Relaxed), 4);
}

#[test]
fn an_enquiry_takes_no_token(rt: HostRuntime) {
    let Ok(rule) = barrier(rt.alloc()) else {
        return;
    };
    let mut asked = door(&rule, NOW, NEW);
    let full = asked.bucket;
    assert_same(&rt, asked.enquire(8), HOLDING);
    assert_same(&rt, asked.bucket, full);
    assert_same(&rt, asked.behind.enquiries, 1);
}

#[test]
fn an_enquiry_may_be_kept_out(rt: HostRuntime) {
    let Ok(rule) = barrier(rt.alloc()) else {
        return;
    };
    let silent = Rule {
        kinds: Kinds {
            enquire: false,
            ..PASSAGES
        },
        ..rule
    };
    let mut refused = door(&silent, NOW, NEW);
    let not_allowed = Answer::Fault {
        code: 7,
        gate: 0,
        number: 0,
    };
    assert_same(&rt, refused.enquire(8), not_allowed);
    assert_same(&rt, refused.last, Some(DoorRefusal::Kind));
    assert_same(&rt, refused.behind.enquiries, 0);
}
