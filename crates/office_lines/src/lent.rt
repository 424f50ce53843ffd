//! A clerk that is lent to a door.

ghost use Rattle.std.specs.Prelude.{◌≡◌};

use gate_session::{Answer, Clerk};
use oyster_account::Touch;
use std::sync::Wait;

/// A clerk that is lent: it answers as the clerk itself, and stays the one that was lent.
#[derive(Drop)]
pub struct Lent<'a, C> {
    /// The clerk.
    pub clerk: &'a mut C,
}

impl<C: Clerk> Clerk for Lent<'_, C> {
    ghost gives = { λ old request answer new. (new.clerk.ghost_name ≡ old.clerk.ghost_name)
        × C.gives old.clerk.now request answer new.clerk.now };

    fn submit<R: Wait>(&mut self, rt: &R, touch: Touch) -> Answer {
        self.clerk.submit(rt, touch)
    }

    fn enquire(&mut self, card: u32) -> Answer {
        self.clerk.enquire(card)
    }
}
