//! The command line of the program: what its words ask for, with each number within its limits.
//!
//! `arguments_of` carries it. It stands on `clap`, `hex` and `station_limits`, and on `money_time`
//! for a date.
#![tactic(auto)]

mod arguments;
mod balances;
mod check;
mod commands;
mod history;
mod number;
mod seal;
mod serve;
mod statement;

pub use arguments::{Arguments, Migrate, Verify, arguments_of, refuse_command, words_of};
pub use balances::Balances;
pub use check::{Check, Journey};
pub use history::{History, HistoryFormat};
pub use seal::{Seal, Sealed};
pub use serve::Serve;
pub use statement::{Statement, StatementFormat};
