//! Laws of the calls of a gate and of a session, each the contract of a call that does nothing:
//! which steps of `gate_law` they are.
ghost use Rattle.gate_law.specs.Calls.{IsAsking, IsSending, IsSendingInPart, IsHearing};
ghost use Rattle.gate_law.specs.Calls.{IsGivingUp, IsOpening, IsOpeningAfterAsking};
ghost use Rattle.gate_law.specs.Calls.{IsOpeningAfterGivingUp};
ghost use Rattle.gate_law.specs.Station.{KeepsStation, station_of};
ghost use Rattle.gate_law.specs.Sessions.{AreSessionsRuns};
ghost use Rattle.gate_law.specs.Settled.{HasLegal, DoesStart};
ghost use Rattle.std.specs.Prelude.{◌≡◌, ℕ, List, [], false, None};
ghost use Rattle.oyster_account.specs.declared.touch.Touch.{Touch};
ghost use Rattle.gate_client.specs.Client.{HasAsked, gate_of, waits_of, is_stopped};
ghost use Rattle.gate_law.specs.Whole.{Gate, Whole};
ghost use Rattle.gate_law.specs.Shown.{IsShownBy, blank};
ghost use Rattle.gate_law.specs.ClientRuns.{gone_in};
ghost use Rattle.reply_book.specs.declared.book.Book.{Book};
ghost use Rattle.gate_law.specs.AtOnce.{DoesReply, IsReady};

use crate::book_clerk::BookClerk;
use gate_client::Client;
use gate_session::Clerk;
use tap_disk::Disk;

/// What `Client::ask` leaves where it hands out a touch is the step Asks.
pub fn asking_is_a_step<D: Disk>(old: &Client<D>, new: &Client<D>)
    ensures { IsAsking old.now new.now }
{}

/// What `Client::send` leaves where it wrote all of the frame is the step Sends. On the line stands
/// the touch then, and none where some of the frame is missing.
pub fn sending_is_a_step<D: Disk>(client: &Client<D>)
    ensures whole { IsSending client.now }
    ensures part { IsSendingInPart client.now }
{}

/// What `Client::hear` leaves where it hands out a reply is the step Hears, if the reply that it
/// read was written before: the premise Line.
pub fn hearing_is_a_step<D: Disk>(old: &Client<D>, new: &Client<D>)
    ensures { IsHearing old.now new.now }
{}

/// What `Client::give_up` leaves where it returns Ok is the step GivesUp.
pub fn giving_up_is_a_step<D: Disk>(old: &Client<D>, new: &Client<D>)
    ensures { IsGivingUp old.now new.now }
{}

/// What `Client::open` makes of the file of the touches that were kept is the step Opens. Behind a
/// crash at any moment of `Client::ask` it is Opens alone, or Asks and then Opens, and behind one
/// of `Client::give_up` Opens alone, or GivesUp and then Opens.
pub fn opening_is_a_step<D: Disk>(old: &Client<D>, opened: &Client<D>)
    ensures kept { IsOpening opened.now }
    ensures after_asking { IsOpeningAfterAsking old.now opened.now }
    ensures after_giving_up { IsOpeningAfterGivingUp old.now opened.now }
{}

/// Each session of a clerk who does what a station does is a run of the steps Enters, Answers and
/// Tells, over the bytes of both sides: the k-th answer is to the k-th request.
pub fn sessions_are_runs<C: Clerk>()
    ensures { AreSessionsRuns C.gives }
{}

/// The clerk of a book keeps the station of that book, whose history is legal: so of it the laws
/// hold in which a clerk keeps a station.
pub fn books_keep_stations(clerk: &BookClerk)
    ensures keeps { KeepsStation ⟦<BookClerk as Clerk>⟧.gives station_of }
    ensures legal { HasLegal (station_of clerk.now) }
{
    clerk.learn();
}

/// The clerk of a book with which nothing goes wrong replies to the touch: so `settle_at_once` is
/// Ok with it.
pub fn ready_books_reply()
    ensures { (book : Book) (touch : Touch) → IsReady book touch
        → DoesReply ⟦<BookClerk as Clerk>⟧.gives book touch }
{}

/// A client that has kept no touch and the clerk of a book with no entry are where the law of
/// `gate_law` begins: so gate and station agree after any number of runs from there.
pub fn new_ones_start<D: Disk>(client: &Client<D>, clerk: &BookClerk)
    ensures { DoesStart client.now (station_of clerk.now) }
{
    clerk.learn();
}

/// A client that was just made, as `Client::create` leaves it, shows a gate that was asked nothing.
pub fn new_clients_are_blank<D: Disk>(client: &Client<D>)
    ensures { (number : ℕ) → HasAsked [] client.now → waits_of client.now ≡ None
        → is_stopped client.now ≡ false → gate_of client.now ≡ number
        → IsShownBy number blank client.now }
{}

/// What one gate does leaves what the client of another shows: so the runs of gates follow one
/// another in any order.
pub fn a_gate_leaves_the_others<D: Disk>(client: &Client<D>)
    ensures { (number other : ℕ) (whole : Whole) (gate : Gate) (more : List Touch)
        → (other ≡ number → ⊥) → IsShownBy other (whole.gates other) client.now
        → IsShownBy other ((gone_in number whole gate more).gates other) client.now }
{}
