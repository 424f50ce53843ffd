//! A seat, with the receipts that were filed for it.
ghost use Rattle.std.specs.Prelude.{◌≡◌, ◌↔◌, ◌-◌, ◌^◌, ◌<◌, ◌≤◌};
ghost use Rattle.std.specs.Prelude.{true, length, IsTrue};
ghost use Rattle.std.specs.List.{All};
ghost use Rattle.reply_book.specs.Book.{entries_of};
ghost use Rattle.tap_office.specs.Seat.{fresh_seat};
ghost use Rattle.tap_office.specs.Close.{AreAtPlaces, IsAtPlace, IsReady, entry_of};

use crate::name::{Named, Numbers};
use crate::receipt::Filed;
use reply_book::{Book, Entry};
use std::alloc::Global;
use std::marker::Model;
use std::sync::ledger::Share;

/// From where touches are committed, one after the other. It keeps a receipt for each new one.
///
/// The receipts are what `close` accounts by: 80 bytes a touch, for as long as the seat is there.
pub struct Seat<N: Named> {
    pub(crate) number: u16,
    pub(crate) seen: u32,
    pub(crate) receipts: Vec<Filed>,
    /// One part of the ledger of receipts, with as many as were filed.
    pub(crate) share: Share<N>,
    /// One part of the ledger of numbers.
    pub(crate) mark: Share<Numbers<N>>,
}

/// By hand, so that it is one call wherever one is dropped.
impl<N: Named> Drop for Seat<N> {
    fn drop(self) {
        let Seat {
            number: _,
            seen: _,
            receipts: _,
            share: _,
            mark: _,
        } = self;
    }
}

impl<N: Named> Model for Seat<N> {
    ghost use Rattle.std.specs.Prelude.{◌≡◌, ◌-◌, ◌^◌, ◌≤◌, true, length};
    ghost use Rattle.tap_office.specs.Seat.{SeatState, rises};

    ghost Value = { SeatState };

    ghost view = { λ s. record { number = s.number; seen = s.seen; receipts = s.receipts.items } };

    ghost invariant = { λ s. (1 ≤ s.number) × (rises 0 s.seen s.receipts.items ≡ true)
        × (s.share.parts ≡ 1) × (s.share.amount ≡ length s.receipts.items) × (s.mark.parts ≡ 1)
        × (s.mark.amount ≡ 2 ^ (s.number - 1)) };
}

impl<N: Named> Seat<N> {
    /// A seat without receipts.
    pub(crate) fn new(
        alloc: Global,
        number: u16,
        share: Share<N>,
        mark: Share<Numbers<N>>,
    ) -> Seat<N>
        requires number { 1 ≤ number }
        requires share { (share.parts ≡ 1) × (share.amount ≡ 0) }
        requires mark { (mark.parts ≡ 1) × (mark.amount ≡ 2 ^ (number - 1)) }
        ensures { result ≡ fresh_seat number }
    {
        Seat {
            number,
            seen: 0,
            receipts: Vec::new(alloc),
            share,
            mark,
        }
    }

    /// The receipts of the new touches that were committed from here, in their order. No memory is
    /// taken.
    pub fn receipts(&self) -> &[Filed]
        ensures { result.now ≡ self.now.receipts }
    {
        &self.receipts
    }

    /// The largest front that was answered here, 0 at first. No later answer's front is below it.
    pub fn seen(&self) -> u32
        ensures { result ≡ self.now.seen }
    {
        self.seen
    }

    /// Makes room for one receipt more, where memory is given. A commit then takes none for it, and
    /// else asks again.
    pub(crate) fn make_room(&mut self)
        ensures { self.new ≡ self.old }
    {
        let _ = self.receipts.reserve(1);
    }

    /// Whether every receipt stands at its place, as an entry with this seat's number.
    pub(crate) fn stands(&self, book: &Book) -> bool
        ensures stands { IsTrue result ↔ AreAtPlaces (entries_of book.now) self.now }
        ensures ready { IsTrue result → IsReady (entries_of book.now) self.now }
    {
        are_at_places(book, self.number, &self.receipts)
    }

    /// The seat's shares, at its end.
    pub(crate) fn into_shares(self) -> (Share<N>, Share<Numbers<N>>)
        ensures parts { result.0.parts ≡ 1 }
        ensures amount { result.0.amount ≡ length self.receipts }
        ensures marks { result.1.parts ≡ 1 }
        ensures weight { result.1.amount ≡ 2 ^ (self.number - 1) }
    {
        let Seat {
            number: _,
            seen: _,
            receipts: _,
            share,
            mark,
        } = self;
        (share, mark)
    }
}

/// Whether each of these receipts stands at its place, as an entry with this seat's number.
fn are_at_places(book: &Book, number: u16, receipts: &[Filed]) -> bool
    ensures { IsTrue result ↔ All (IsAtPlace (entries_of book.now) number) receipts.now }
{
    for filed in receipts {
        if !is_at_place(book, number, filed) {
            return false;
        }
    }
    true
}

/// Whether this receipt does.
fn is_at_place(book: &Book, number: u16, filed: &Filed) -> bool
    ensures { IsTrue result ↔ IsAtPlace (entries_of book.now) number filed.now }
{
    match book.entry(filed.place) {
        Some(entry) => is_entry_of(&entry, number, filed),
        None => false,
    }
}

/// Whether the entry is the one that a receipt of this seat is for.
fn is_entry_of(entry: &Entry, number: u16, filed: &Filed) -> bool
    ensures { IsTrue result ↔ (entry.now ≡ entry_of number filed.now) }
{
    if entry.touch != filed.touch {
        return false;
    }
    if entry.reply != filed.reply {
        return false;
    }
    entry.seat == number
}
