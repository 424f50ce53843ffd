mod doors;
mod fakes;
mod parts;
mod sessions;

use door_clerk::{Bucket, Clocks, DoorClerk, GateRange, Kinds, Rate, Rule, Standing};
use fakes::{Counting, Scene};
use oyster_account::{Act, Touch};
use std::alloc::{AllocError, Global};
use std::fmt::Debug;
use std::process::Abort;
use std::sync::atomic::AtomicU64;

/// A barrier sends touches in and out, and enquiries.
const PASSAGES: Kinds = Kinds {
    enter: true,
    leave: true,
    top_up: false,
    issue: false,
    revise: false,
    enquire: true,
};

/// One touch a second for long, two at once.
const RATE: Rate = Rate {
    touches: 1,
    burst: 2,
};

/// What the clocks show at first.
const NOW: Clocks = Clocks {
    seconds: 1_736_150_400,
    ticks: 5_000,
};

/// A new touch, and room for 101 more.
const NEW: Standing = Standing::New { room: 101 };

/// These are equal.
fn assert_same<T: PartialEq + Debug + Copy>(rt: &impl Abort, found: T, want: T) {
    assert_eq!(rt; found, want);
}

/// These are equal, in this case.
fn assert_same_at<T: PartialEq + Debug + Copy, C: Debug + Copy>(
    rt: &impl Abort,
    found: T,
    want: T,
    at: C,
) {
    assert_eq!(rt; found, want, "{at:?}");
}

/// The rule of a barrier with the gates 1 to 20 and 40: a minute ahead, and a hundred touches for
/// others.
fn barrier(alloc: Global) -> Result<Rule, AllocError> {
    let first = GateRange { first: 1, last: 20 };
    let second = GateRange {
        first: 40,
        last: 40,
    };
    let gates = vec![in alloc; first, second]?;
    Ok(Rule {
        gates,
        kinds: PASSAGES,
        ahead: Some(60),
        rate: Some(RATE),
        reserved: 100,
    })
}

/// A door of this rule, with a full bucket.
fn door(rule: &Rule, clocks: Clocks, standing: Standing) -> DoorClerk<'_, Counting, Scene> {
    DoorClerk {
        rule,
        bucket: Bucket::full(rule.rate, clocks.ticks),
        last: None,
        surroundings: Scene {
            clocks,
            standing,
            looks: AtomicU64::new(0),
        },
        behind: Counting {
            touches: 0,
            enquiries: 0,
        },
    }
}

/// A touch of this gate.
fn touch(gate: u16, act: Act) -> Touch {
    Touch {
        gate,
        number: 9,
        card: 8,
        act,
    }
}

/// A touch in at this gate and moment.
fn entry(gate: u16, moment: u32) -> Touch {
    touch(gate, Act::Enter { station: 3, moment })
}
