//! A session of the program's own clerk.
ghost use Rattle.std.specs.Prelude.{length, IfSome};
ghost use Rattle.gate_session.specs.Session.{HasCounted, IsInputAt, IsSession};
ghost use Rattle.text_io.specs.Writing.{Ran};
ghost use Rattle.clerk_calls.specs.Logged.{IsServedFromLog};
ghost use Rattle.clerk_calls.specs.Listed.{IsServedFromList};
ghost use Rattle.clerk_calls.specs.Answered.{HasSaid};

use gate_session::{Clerk, Served, serve};
use office_lines::{OfficeClerk, Watch};
use std::alloc::Global;
use std::io::{Read, Write};
use std::sync::Wait;
use tap_desk::Enquiry;
use tap_disk::Disk;
use tap_office::Named;

/// Serves a session, as `serve` does. It is a run of steps, from any state in which the station has
/// a beginning of the office's log: others' touches are entered, and each request is answered from
/// the log as it is then, whatever other sessions do meanwhile.
///
/// The log is any legal one that begins with every log point that the desk learnt. That its touches
/// were sent is the premise Line.
///
/// What was written was said at the desk (`HasSaid`), to the requests that were handed over, in
/// their order: a reply stands beside its touch, and a touch is refused for its cause, in the
/// newest log point that the desk had then. So the sessions of all desks have one order
/// (`close_over_sessions`).
pub fn serve_from_log<'a, R: Read, W: Write, N: Named, D: Disk, T: Watch, H: Wait>(
    rt: &H,
    alloc: Global,
    reader: &mut R,
    writer: &mut W,
    clerk: &mut OfficeClerk<'a, N, D, T>,
    turns: u32,
) -> Served
    ensures session { Ran (R.remaining reader.old) (R.remaining reader.new)
        (W.contents writer.old) (W.contents writer.new)
        (λ bytes text. (is : IsSession ⟦<OfficeClerk<'a, N, D, T> as Clerk>⟧.gives clerk.old
        clerk.new turns result bytes text)
        × IsServedFromLog (length N.opened.recovered) clerk.old.seat.now.seen
        clerk.new.desk.now.points is.exchange.handed is.exchange.sent bytes text
        × HasSaid N.opened clerk.old.desk.now.points clerk.new.desk.now.points
        is.exchange.handed is.exchange.sent) }
    ensures input { IsInputAt result.end (R.remaining reader.new) }
    ensures counts { HasCounted result.end result.requests result.answers }
{
    serve(rt, alloc, reader, writer, clerk, turns)
}

/// Serves a session, and then asks the desk what a card holds. Where the desk answers, the session
/// is a run of steps by the list that it answers from: that this is legal, and begins with what the
/// opening found and with each log point that the desk learnt, is no premise any more.
pub fn serve_then_enquire<'a, R: Read, W: Write, N: Named, D: Disk, T: Watch, H: Wait>(
    rt: &H,
    alloc: Global,
    reader: &mut R,
    writer: &mut W,
    clerk: &mut OfficeClerk<'a, N, D, T>,
    turns: u32,
    card: u32,
) -> (Served, Option<Enquiry>)
    ensures { IfSome result.1 (λ _. Ran (R.remaining reader.old) (R.remaining reader.new)
        (W.contents writer.old) (W.contents writer.new)
        (λ bytes text. (mid : _) × (is : IsSession ⟦<OfficeClerk<'a, N, D, T> as Clerk>⟧.gives
        clerk.old mid turns result.0 bytes text)
        × IsServedFromList N.opened clerk.old.seat.now.seen clerk.new.desk.now.list
        is.exchange.handed is.exchange.sent bytes text)) }
{
    let served = serve_from_log(rt, alloc, reader, writer, clerk, turns);
    let enquiry = clerk.desk.enquire(card);
    (served, enquiry)
}
