//! A touch that a book has judged and not yet entered.

use money_time::Stamp;
use oyster_account::{Card, CardView, Reply, Touch};

/// A touch that a book has judged and not yet entered: `Book::judge` makes it, and `Book::enter`
/// takes it up.
#[derive(Clone, Copy, Debug)]
pub struct JudgedTouch {
    /// The touch.
    pub touch: Touch,
    /// The stamp of its moment, by the tables in force.
    pub stamp: Stamp,
    /// Its reply.
    pub reply: Reply,
    /// What is seen of the card of its number once it is entered.
    pub view: CardView,
    /// Its card once it is entered. None for a revision, and where no card has its number.
    pub(crate) next: Option<Card>,
}
