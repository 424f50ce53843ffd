//! What a line's sessions came to: how many there were, what was asked and answered in them, and
//! how they ended.

ghost use Rattle.std.specs.Prelude.{◌≡◌, ◌<◌, ◌+◌, ◌^◌, ◌∷◌, [], ℕ, IsTrue};
ghost use Rattle.gate_session.specs.Session.{HasCounted};
ghost use Rattle.office_lines.specs.Tally.{HasCountedIn, HasGrown, IsBelow, IsEmpty, place_of};

use gate_session::{End, Served};

/// The most that a count may be before a session is counted.
const MOST: u64 = 1 << 62;

/// The counts of a line's sessions.
#[derive(Clone, Copy, Debug, PartialEq, Eq)]
pub struct Tally {
    /// How many connections were served.
    pub connections: u64,
    /// How many requests were handed over in them.
    pub requests: u64,
    /// How many answers were written whole.
    pub answers: u64,
    /// How many sessions ended in each way, in the order of `End`.
    pub ends: [u64; 7],
}

impl Tally {
    /// The tally of no sessions.
    pub(crate) fn new() -> Tally
        ensures { IsEmpty result }
    {
        Tally {
            connections: 0,
            requests: 0,
            answers: 0,
            ends: [0; 7],
        }
    }

    /// Whether each count is so low that a session can be counted: at most 2^62.
    pub(crate) fn has_room(&self) -> bool
        ensures { IsTrue result → IsBelow MOST self.now }
    {
        self.connections <= MOST
            && self.requests <= MOST
            && self.answers <= MOST
            && self.ends.iter().all(|count| *count <= MOST)
    }

    /// Counts a session. Each count is below 2^63, and so are the session's.
    pub(crate) fn count(&mut self, served: &Served)
        requires below { IsBelow (2 ^ 63) self.old }
        requires requests { served.now.requests < 2 ^ 62 }
        requires counted { HasCounted served.now.end served.now.requests served.now.answers }
        ensures counted { HasCountedIn (served.now ∷ []) self.old self.new }
        ensures grown { HasGrown 1 self.old self.new }
        ensures below { (most : ℕ) → IsBelow most self.old
            → IsBelow (most + served.now.requests + 1) self.new }
    {
        self.connections += 1;
        self.requests += served.requests;
        self.answers += served.answers;
        self.ends[place_of(served.end)] += 1;
    }
}

/// The place of an end among the counts of ends.
fn place_of(end: End) -> usize
    ensures { result ≡ place_of end }
{
    match end {
        End::Closed => 0,
        End::CutFrame => 1,
        End::BadFrame => 2,
        End::ReadFault => 3,
        End::WriteFault => 4,
        End::Turns => 5,
        End::Memory => 6,
    }
}
