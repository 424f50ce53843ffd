//! What a session behind the server's door is.
ghost use Rattle.std.specs.Prelude.{ℕ, List, length};
ghost use Rattle.gate_session.specs.declared.session.Served.{Served};
ghost use Rattle.gate_session.specs.Session.{IsSession};
ghost use Rattle.clerk_calls.specs.Logged.{IsServedFromLog};
ghost use Rattle.clerk_calls.specs.Answered.{HasSaid};

use door_clerk::Surroundings;
use gate_session::Clerk;
use office_lines::{Lent, OfficeClerk, Watch, WatchedDoor};
use tap_disk::Disk;
use tap_office::Named;

/// A session of the program's clerk behind the server's door is a run of steps as without a door
/// (`serve_from_log`), and has said its answers at the desk as such a one does: what the door lets
/// through is answered from the log, and what it keeps out is told as a fault, which changes
/// nothing.
pub fn sessions_behind_a_door_are_of_a_log<
    'a,
    N: Named + 'a,
    D: Disk + 'a,
    S: Surroundings,
    T: Watch + 'a,
>()
    ensures { (old new : _) (turns : ℕ) (served : Served) (bytes text : List ℕ)
        → (is : IsSession
        ⟦<WatchedDoor<'a, Lent<'a, OfficeClerk<'a, N, D, T>>, S, T> as Clerk>⟧.gives old new turns
        served bytes text)
        → IsServedFromLog (length N.opened.recovered) old.door.behind.clerk.now.seat.now.seen
        new.door.behind.clerk.now.desk.now.points is.exchange.handed is.exchange.sent bytes text
        × HasSaid N.opened old.door.behind.clerk.now.desk.now.points
        new.door.behind.clerk.now.desk.now.points is.exchange.handed is.exchange.sent }
{}
