//! A clerk that counts, and surroundings that the tests set.

ghost use Rattle.std.specs.Prelude.{◌≡◌};

use door_clerk::{Clocks, Standing, Surroundings};
use gate_session::{Answer, Clerk};
use oyster_account::{CardState, CardView, Reply, Touch};
use std::sync::Wait;
use std::sync::atomic::{AtomicU64, Ordering};

/// What the clerk replies to each touch: in, with 900 pence taken and 1100 left.
pub(super) const REPLY: Reply = Reply {
    verdict: 1,
    change: -900,
    balance: 1_100,
};

/// What the clerk answers to each enquiry.
pub(super) const HOLDING: Answer = Answer::Holding {
    view: CardView {
        state: CardState::Inside,
        balance: 1_100,
    },
    front: 3,
};

/// A clerk that counts what it is asked, and answers all alike. It fails nowhere.
#[derive(Drop)]
pub(super) struct Counting {
    pub(super) touches: u32,
    pub(super) enquiries: u32,
}

impl Clerk for Counting {
    ghost gives = { λ old request answer new. Unit {0} };

    fn submit<R: Wait>(&mut self, _rt: &R, touch: Touch) -> Answer {
        self.touches = self.touches.saturating_add(1);
        Answer::reply(REPLY, &touch)
    }

    fn enquire(&mut self, _card: u32) -> Answer {
        self.enquiries = self.enquiries.saturating_add(1);
        HOLDING
    }
}

/// Clocks and a history that show what a test sets, and how often the history was read.
#[derive(Drop)]
pub(super) struct Scene {
    pub(super) clocks: Clocks,
    pub(super) standing: Standing,
    pub(super) looks: AtomicU64,
}

impl Surroundings for Scene {
    ghost shows = { λ scene clocks. clocks ≡ scene.clocks };

    ghost stands = { λ scene touch standing. standing ≡ scene.standing };

    fn clocks(&self) -> Clocks {
        self.clocks
    }

    fn standing<R: Wait>(&self, _rt: &R, _touch: &Touch) -> Standing {
        self.looks.fetch_add(1, Ordering::Relaxed);
        self.standing
    }
}
