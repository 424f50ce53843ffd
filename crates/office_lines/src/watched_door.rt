//! A clerk behind a door, of which a watch is shown what the door keeps out.

use crate::notice::Watch;
use door_clerk::{DoorClerk, Surroundings};
use gate_session::{Answer, Clerk};
use oyster_account::Touch;
use std::sync::Wait;

/// A clerk behind a door. Each request that the door keeps out is shown to a watch, with the place
/// of the door's rule in its file.
#[derive(Drop)]
pub struct WatchedDoor<'a, C, S, T> {
    /// The door and the clerk behind it.
    pub door: DoorClerk<'a, C, S>,
    /// Who is shown what is kept out.
    pub watch: &'a T,
    /// The place of the rule, counted from 0.
    pub place: usize,
}

impl<'a, C: Clerk, S: Surroundings, T: Watch> Clerk for WatchedDoor<'a, C, S, T> {
    ghost gives = { λ old request answer new.
        ⟦<DoorClerk<'a, C, S> as Clerk>⟧.gives old.door request answer new.door };

    fn submit<R: Wait>(&mut self, rt: &R, touch: Touch) -> Answer {
        let answer = self.door.submit(rt, touch);
        self.show(touch.gate);
        answer
    }

    fn enquire(&mut self, card: u32) -> Answer {
        let answer = self.door.enquire(card);
        self.show(0);
        answer
    }
}

impl<C, S, T: Watch> WatchedDoor<'_, C, S, T> {
    /// Shows the watch that a request of this gate number was kept out, if it was.
    fn show(&self, gate: u16) {
        if let Some(refusal) = self.door.last {
            self.watch.kept_out(self.place, refusal.into(), gate);
        }
    }
}
