//! A session through a door.
ghost use Rattle.gate_session.specs.Session.{HasCounted, IsInputAt, IsSession};
ghost use Rattle.text_io.specs.Writing.{Ran};
ghost use Rattle.door_clerk.specs.Rule.{terms_of};
ghost use Rattle.door_clerk.specs.Door.{door_state};
ghost use Rattle.door_clerk.specs.Sorted.{IsSortedRun};

use crate::door::DoorClerk;
use crate::surroundings::Surroundings;
use gate_session::{Clerk, Served, serve};
use std::alloc::Global;
use std::io::{Read, Write};
use std::sync::Wait;

/// Serves a session through a door, as `serve` does. Of the requests that were read the clerk
/// behind the door is given exactly those that are allowed, in their order. Each answer is the
/// clerk's, or fault 7.
pub fn serve_at_door<'a, R: Read, W: Write, C: Clerk, S: Surroundings, H: Wait>(
    rt: &H,
    alloc: Global,
    reader: &mut R,
    writer: &mut W,
    door: &mut DoorClerk<'a, C, S>,
    turns: u32,
) -> Served
    ensures session { Ran (R.remaining reader.old) (R.remaining reader.new)
        (W.contents writer.old) (W.contents writer.new)
        (λ bytes text. (is : IsSession ⟦<DoorClerk<'a, C, S> as Clerk>⟧.gives door.old door.new
        turns result bytes text)
        × IsSortedRun C.gives (S.shows door.old.surroundings) (S.stands door.old.surroundings)
        (terms_of door.old.rule.now) (door_state door.old.bucket door.old.last door.old.behind)
        (door_state door.new.bucket door.new.last door.new.behind)
        is.exchange.handed is.exchange.replies) }
    ensures input { IsInputAt result.end (R.remaining reader.new) }
    ensures counts { HasCounted result.end result.requests result.answers }
{
    serve(rt, alloc, reader, writer, door, turns)
}
