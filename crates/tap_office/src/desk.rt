//! Where balances are asked for, with no lock and no memory.
ghost use Rattle.std.specs.Prelude.{◌≡◌, ◌∷◌, [], IsTrue, IfOk, IfErr, IfSome, IfNone};
ghost use mathlib.Core.List.{IsPrefix};
ghost use Rattle.reply_book.specs.Book.{entries_of, cards_of};
ghost use Rattle.tap_desk.specs.CommitLog.{logged, table_of};
ghost use Rattle.tap_desk.specs.Listed.{BeginsWith, HaveGrownTo};
ghost use Rattle.tap_desk.specs.LogPoints.{logged_at};
ghost use Rattle.tap_desk.specs.Publishing.{IsTableOf};
ghost use Rattle.tap_office.specs.Enquiry.{IsTableFor, IsAnswerFrom};
ghost use Rattle.tap_office.specs.Opening.{AreNewDesks, IsShort};

use crate::name::Named;
use crate::receipt::Receipt;
use crate::refusal::SubmitRefusal;
use reply_book::Book;
use std::alloc::Global;
use std::marker::Model;
use std::sync::Wait;
use tap_desk::{CommitLog, Enquiry, Publisher};
use tap_journal::JournalFault;

/// From where balances are asked for: an opening makes one for each seat.
///
/// Contracts see it as its list, what its last answered enquiry saw (the recovered history at
/// first), and its log points, those of the receipts and of the refusals that it learnt.
pub struct Desk<N: Named> {
    desk: tap_desk::Desk<N>,
}

/// By hand, so that it is one call wherever one is dropped.
impl<N: Named> Drop for Desk<N> {
    fn drop(self) {
        let Desk { desk: _ } = self;
    }
}

impl<N: Named> Model for Desk<N> {
    ghost use mathlib.Core.List.{IsPrefix};
    ghost use Rattle.tap_desk.specs.Desks.{DeskState};
    ghost use Rattle.tap_office.specs.Enquiry.{IsTableFor};

    ghost Value = { DeskState };

    ghost view = { λ d. d.desk };

    ghost invariant = { λ d. IsPrefix N.opened.recovered d.desk.list
        × IsTableFor N.opened N.table };
}

impl<N: Named> Desk<N> {
    /// A desk of what was found at the opening.
    pub(crate) fn new(desk: tap_desk::Desk<N>) -> Desk<N>
        requires list { desk.list ≡ N.opened.recovered }
        requires table { IsTableFor N.opened N.table }
        ensures { result ≡ desk }
    {
        Desk { desk }
    }

    /// Adds the receipt's log point to the desk's: no later answer is of less. The receipt's
    /// numbers, touch and reply are read before.
    pub fn learn(&mut self, receipt: Receipt<N>)
        ensures list { self.new.list ≡ self.old.list }
        ensures points { self.new.points ≡ logged_at receipt.point ∷ self.old.points }
    {
        self.desk.learn(receipt.point);
    }

    /// Adds the refusal's log point to the desk's, as `learn` does. The refusal's fault is read
    /// before.
    pub fn learn_refusal(&mut self, refusal: SubmitRefusal<N>)
        ensures list { self.new.list ≡ self.old.list }
        ensures points { self.new.points ≡ logged_at refusal.point ∷ self.old.points }
    {
        self.desk.learn(refusal.point);
    }

    /// Whether the published list is seen to begin with each of the desk's log points, and each of
    /// them with all that the desk learnt before.
    pub(crate) fn is_in(&self, publisher: &Publisher<N>) -> bool
        ensures { IsTrue result → HaveGrownTo self.now.points publisher.now.list }
    {
        publisher.has_points_of(&self.desk)
    }

    /// What is seen of a card after all entries that are published, and how many these are. A
    /// number that no card has is vacant, with nothing on it.
    ///
    /// The answer is of a legal history that begins with the recovered one, with what this desk
    /// answered from before, and with each log point that it learnt. No lock is taken, and no
    /// memory. None comes once the office is closed; tests show that it comes only then.
    pub fn enquire(&mut self, card: u32) -> Option<Enquiry>
        ensures answer { IfSome result (IsAnswerFrom N.opened self.new.list card) }
        ensures list { IfSome result (λ _. IsPrefix self.old.list self.new.list) }
        ensures begins { IfSome result (λ _. BeginsWith self.old.points self.new.list) }
        ensures points { self.new.points ≡ self.old.points }
        ensures none { IfNone result (self.new.list ≡ self.old.list) }
    {
        self.desk.enquire(card)
    }
}

/// Publishes the entries of a book, whose commit log this is, and makes so many desks.
///
/// `Memory` comes where it was refused, and `NoDesk` where there was no place for a desk.
pub(crate) fn open_desks<N: Named, R: Wait>(
    alloc: Global,
    rt: &R,
    commit_log: CommitLog,
    book: &Book,
    cards: u32,
    count: u16,
) -> Result<(Publisher<N>, Vec<Desk<N>>), JournalFault>
    requires logged { logged commit_log.seen.log ≡ entries_of book.now }
    requires by { table_of commit_log.seen.log ≡ N.table }
    requires fresh { commit_log.steps ≡ 0 }
    requires named { commit_log.seen.book ≡ N.commit_log }
    requires table { IsTableOf N.table book.now }
    requires cards { cards ≡ cards_of book.now }
    requires found { entries_of book.now ≡ N.opened.recovered }
    requires opened { IsTableFor N.opened N.table }
    ensures list { IfOk result (λ r. r.0.list ≡ entries_of book.now) }
    ensures none { IfOk result (λ r. r.0.waiting ≡ []) }
    ensures desks { IfOk result (λ r. AreNewDesks count (entries_of book.now) r.1.items) }
    ensures fault { IfErr result IsShort }
{
    let Ok(mut publisher) = Publisher::open(alloc, rt, commit_log, book, cards, count) else {
        return Err(JournalFault::Memory);
    };
    match make_desks(alloc, &mut publisher, count) {
        Ok(desks) => Ok((publisher, desks)),
        Err(cause) => {
            let _published = publisher.close(rt);
            Err(cause)
        }
    }
}

/// As many desks over what is published.
fn make_desks<N: Named>(
    alloc: Global,
    publisher: &mut Publisher<N>,
    count: u16,
) -> Result<Vec<Desk<N>>, JournalFault>
    requires list { publisher.old.list ≡ N.opened.recovered }
    requires table { IsTableFor N.opened N.table }
    ensures desks { IfOk result (λ desks. AreNewDesks count N.opened.recovered desks.items) }
    ensures same { publisher.new ≡ publisher.old }
    ensures fault { IfErr result IsShort }
{
    let Ok(mut desks) = Vec::with_capacity(alloc, count as usize) else {
        return Err(JournalFault::Memory);
    };
    for _ in 0..count {
        let Some(desk) = publisher.desk() else {
            return Err(JournalFault::NoDesk);
        };
        let Ok(()) = desks.push(Desk::new(desk)) else {
            return Err(JournalFault::Memory);
        };
    }
    Ok(desks)
}
