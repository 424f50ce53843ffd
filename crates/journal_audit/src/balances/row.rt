//! The rows of the cards that were issued.

ghost use Rattle.std.specs.Prelude.{◌≡◌, ◌≤◌, ◌<◌, ◌+◌, ◌^◌, ◌↔◌, length, take, sum_by, All};
ghost use Rattle.std.specs.Prelude.{IsTrue, IfOk, IfErr};
ghost use Rattle.station_limits.specs.declared.limits.TheConstants.{HISTORY_LIMIT};
ghost use Rattle.reply_book.specs.Book.{entries_of, cards_of, tables_of, Stands};
ghost use Rattle.reply_book.specs.Legal.{history_of};
ghost use Rattle.journal_audit.specs.declared.fault.AuditFault.TheVariants.{Memory};
ghost use Rattle.journal_audit.specs.Sums.{pence_moved, most_moved, AreMeasured, AreSumsOf};
ghost use Rattle.journal_audit.specs.BalancesRows.{is_issued, row_of, rows_of, IsBalanced};
ghost use Rattle.journal_audit.specs.BalancesRows.{AreMeasuredRows};

use crate::balances::sums::{Sums, sums_of};
use crate::fault::AuditFault;
use oyster_account::{CardState, CardView};
use reply_book::Book;
use std::alloc::Global;

/// What is told of a card.
#[derive(Clone, Copy, Debug, PartialEq, Eq)]
pub(crate) struct Row {
    /// The card's number.
    pub(crate) card: u32,
    /// Where it is and what it holds.
    pub(crate) view: CardView,
    /// What its accepted touches moved.
    pub(crate) sums: Sums,
}

impl Row {
    /// Whether the card was issued.
    fn is_issued(&self) -> bool
        ensures { result ≡ is_issued self.now }
    {
        match self.view.state {
            CardState::Vacant => false,
            CardState::Outside => true,
            CardState::Inside => true,
        }
    }

    /// Whether what was paid in, less what was charged, is what the card holds.
    fn is_balanced(&self) -> bool
        requires { pence_moved self.now.sums ≤ most_moved HISTORY_LIMIT }
        ensures { IsTrue result ↔ IsBalanced self.now }
    {
        self.sums.left() == self.view.balance
    }
}

/// The rows of the cards of a book that were issued, by ascending number, each of them balanced.
/// That is looked at, though the account's rules make it so: `Balance` never comes.
pub(crate) fn rows_of(alloc: Global, cards: u32, book: &Book) -> Result<Vec<Row>, AuditFault>
    requires stands { Stands book.now }
    requires cards { cards_of book.now ≡ cards }
    ensures rows { IfOk result (λ rows. rows.items ≡ rows_of (tables_of book.now) cards
        (history_of (entries_of book.now))) }
    ensures balanced { IfOk result (λ rows. All IsBalanced rows.items) }
    ensures measured { IfOk result (λ rows. AreMeasuredRows rows.items) }
    ensures few { IfOk result (λ rows. length rows.items ≤ cards) }
    ensures fault { IfErr result (λ fault. fault ≡ Memory) }
{
    let sums = sums_of(alloc, cards, book)?;
    rows_by(alloc, cards, book, &sums)
}

/// The same, by the sums of each card.
fn rows_by(alloc: Global, cards: u32, book: &Book, sums: &[Sums]) -> Result<Vec<Row>, AuditFault>
    requires stands { Stands book.now }
    requires cards { cards_of book.now ≡ cards }
    requires each { length sums.now ≡ cards }
    requires sums { AreSumsOf (history_of (entries_of book.now)) sums.now }
    requires measured { AreMeasured sums.now }
    ensures rows { IfOk result (λ rows. rows.items ≡ rows_of (tables_of book.now) cards
        (history_of (entries_of book.now))) }
    ensures balanced { IfOk result (λ rows. All IsBalanced rows.items) }
    ensures measured { IfOk result (λ rows. AreMeasuredRows rows.items) }
    ensures few { IfOk result (λ rows. length rows.items ≤ cards) }
    ensures fault { IfErr result (λ fault. fault ≡ Memory) }
{
    let mut rows = Vec::new(alloc);
    for place in 0..cards {
        let row = row_at(book, place, sums);
        if row.is_issued() {
            if !row.is_balanced() {
                return Err(AuditFault::Balance(row.card));
            }
            rows.push(row)?;
        }
    }
    Ok(rows)
}

/// The row of the card at a place, which is card 1 at place 0.
fn row_at(book: &Book, place: u32, sums: &[Sums]) -> Row
    requires stands { Stands book.now }
    requires there { place < length sums.now }
    requires few { length sums.now < 2 ^ 32 }
    requires sums { AreSumsOf (history_of (entries_of book.now)) sums.now }
    requires measured { AreMeasured sums.now }
    ensures row { result ≡ row_of (tables_of book.now) (cards_of book.now)
        (history_of (entries_of book.now)) (place + 1) }
    ensures moved { sum_by pence_moved (take place sums.now) + pence_moved result.sums
        ≡ sum_by pence_moved (take (place + 1) sums.now) }
    ensures measured { pence_moved result.sums ≤ most_moved HISTORY_LIMIT }
{
    Row {
        card: place + 1,
        view: book.view(place + 1),
        sums: sums[place as usize],
    }
}
