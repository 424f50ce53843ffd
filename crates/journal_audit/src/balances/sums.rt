//! What the accepted touches of each card paid in, took from it and gave back.

ghost use Rattle.std.specs.Prelude.{◌≡◌, ◌≤◌, ◌+◌, ◌^◌, List, ◌∷◌, ◌++◌, [], length, replicate};
ghost use Rattle.std.specs.Prelude.{sum_by, IfOk};
ghost use Rattle.station_limits.specs.declared.limits.TheConstants.{HISTORY_LIMIT};
ghost use Rattle.oyster_account.specs.declared.reply.Judged.{Judged};
ghost use Rattle.oyster_account.specs.History.{counts_for};
ghost use Rattle.reply_book.specs.Book.{entries_of, Stands};
ghost use Rattle.reply_book.specs.Legal.{history_of};
ghost use Rattle.journal_audit.specs.Sums.{fall, rise, moved, plus, charge_in, left_in};
ghost use Rattle.journal_audit.specs.Sums.{pence_moved, most_moved};
ghost use Rattle.journal_audit.specs.Sums.{AreMeasured, AreSumsOf};

use oyster_account::Act;
use reply_book::{Book, Entry};
use std::alloc::{AllocError, Global};

/// What touches of a card moved, in pence.
#[derive(Clone, Copy, Debug, PartialEq, Eq)]
pub(crate) struct Sums {
    /// What top-ups paid in.
    pub(crate) paid_in: u64,
    /// What other touches took from the card.
    pub(crate) taken: u64,
    /// What other touches gave back to the card.
    pub(crate) returned: u64,
}

/// No pence.
pub(crate) const NOTHING: Sums = Sums {
    paid_in: 0,
    taken: 0,
    returned: 0,
};

impl Sums {
    /// What an accepted touch moved.
    fn moved_by(entry: &Entry) -> Sums
        ensures value { result
            ≡ moved (record { touch = entry.now.touch; reply = entry.now.reply }) }
        ensures most { pence_moved result ≤ 2 ^ 32 }
    {
        let change = entry.reply.change;
        match entry.touch.act {
            Act::TopUp { pence, .. } => Sums {
                paid_in: pence as u64,
                taken: 0,
                returned: 0,
            },
            Act::Enter { .. } | Act::Leave { .. } | Act::Issue { .. } | Act::Revise { .. } => Sums {
                paid_in: 0,
                taken: fall(change) as u64,
                returned: rise(change) as u64,
            },
        }
    }

    /// These sums and those together.
    pub(crate) fn plus(self, more: Sums) -> Sums
        requires { pence_moved self + pence_moved more ≤ 2 ^ 63 }
        ensures { result ≡ plus self more }
    {
        Sums {
            paid_in: self.paid_in + more.paid_in,
            taken: self.taken + more.taken,
            returned: self.returned + more.returned,
        }
    }

    /// What was charged: what was taken, less what was given back.
    pub(crate) fn charge(&self) -> i64
        requires { pence_moved self.now ≤ most_moved HISTORY_LIMIT }
        ensures { result ≡ charge_in self.now }
    {
        self.taken as i64 - self.returned as i64
    }

    /// What is left of what was paid in: that less what was charged.
    pub(crate) fn left(&self) -> i64
        requires { pence_moved self.now ≤ most_moved HISTORY_LIMIT }
        ensures { result ≡ left_in self.now }
    {
        self.paid_in as i64 - self.charge()
    }
}

/// How far a change is below 0.
fn fall(change: i32) -> u32
    ensures { result ≡ fall change }
{
    if change < 0 { change.unsigned_abs() } else { 0 }
}

/// How far a change is above 0.
fn rise(change: i32) -> u32
    ensures { result ≡ rise change }
{
    if change > 0 { change as u32 } else { 0 }
}

/// The sums of each card of a book, that of card 1 at place 0.
pub(crate) fn sums_of(alloc: Global, cards: u32, book: &Book) -> Result<Vec<Sums>, AllocError>
    requires { Stands book.now }
    ensures cards { IfOk result (λ all. length all.items ≡ cards) }
    ensures sums { IfOk result (λ all. AreSumsOf (history_of (entries_of book.now)) all.items) }
    ensures measured { IfOk result (λ all. AreMeasured all.items) }
{
    let mut all = nothing_moved(alloc, cards)?;
    let mut place = 0;
    while let Some(entry) = book.entry(place) {
        add_entry(&mut all, &entry);
        place += 1;
    }
    Ok(all)
}

/// The sums of so many cards before the first touch.
fn nothing_moved(alloc: Global, cards: u32) -> Result<Vec<Sums>, AllocError>
    ensures { IfOk result (λ all. all.items ≡ replicate cards NOTHING) }
{
    vec![in alloc; NOTHING; cards as usize]
}

/// Adds what a touch moved to the sums of its card, where it was accepted.
fn add_entry(all: &mut Vec<Sums>, entry: &Entry)
    requires { sum_by pence_moved all.old.items + 2 ^ 32 ≤ 2 ^ 63 }
    ensures sums { (history : List Judged) → AreSumsOf history all.old.items → AreSumsOf
        (history ++ record { touch = entry.now.touch; reply = entry.now.reply } ∷ [])
        all.new.items }
    ensures cards { length all.new.items ≡ length all.old.items }
    ensures measured { sum_by pence_moved all.new.items
        ≤ sum_by pence_moved all.old.items + 2 ^ 32 }
{
    let cards = all.len();
    let card = entry.touch.card as usize;
    if !counts(entry) || card == 0 || card > cards {
        return;
    }
    all[card - 1] = all[card - 1].plus(Sums::moved_by(entry));
}

/// Whether a touch counts for the card of its number: it was accepted, and is no revision.
fn counts(entry: &Entry) -> bool
    ensures { result ≡ counts_for entry.now.touch.card
        (record { touch = entry.now.touch; reply = entry.now.reply }) }
{
    !entry.touch.is_revision() && entry.reply.is_accepted()
}
