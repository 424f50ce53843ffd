//! The command `statement`: a card's statement from a journal that is only read, as text, as
//! comma-separated values or as JSON. `write_statement` writes it from the journal's bytes. Its
//! lines are those of the card's statement, and what they print as comma-separated values is a
//! stated function of them.
#![tactic(auto)]

mod card;
mod command;
mod csv;
mod days;
mod journal;
mod json;
mod laws;
mod line;
mod lines;
mod printing;
mod put;
mod station;
mod text;
mod words;

pub use command::{explained_statement, tell_statement};
pub use days::Days;
pub use journal::write_statement;
pub use laws::sums_are_those_of_balances;
