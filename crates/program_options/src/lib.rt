//! What the command lines of programs have in common: the version, the words that a program was
//! started with, options, and their numbers, each within its limits. It stands on `clap` alone.
#![tactic(auto)]

mod number;
mod options;
mod version;
mod words;

pub use number::{NOT_DECIMAL, number_given, number_in};
pub use options::{flag, option};
pub use version::VERSION;
pub use words::{refuse_bytes, words_of};
