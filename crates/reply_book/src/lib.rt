//! The book of a station: each touch once with its first reply, oldest first, and the cards that
//! these touches made. Its main promise is that of `Book::add`: the book stays a legal history, in
//! which no gate and number stands twice and each reply is the account's judgement at that point.
#![tactic(auto)]

mod answering;
mod book;
mod entry;
mod fault;
mod hashing;
mod judged;
mod kept;
mod laws;
mod reached;
mod replay;

pub use answering::{AnswerFault, Answered};
pub use book::Book;
pub use entry::{Entry, Found};
pub use fault::ReplayFault;
pub use hashing::{NameHasher, NameHashing};
pub use judged::JudgedTouch;
pub use laws::{
    books_grow, finds_exactly, first_for_ever, first_table_alone, legs_take_nothing, one_book,
    refusals_change_nothing, revisions_alone_revise, revisions_are_unseen, travel_never_back,
    travel_stays,
};
