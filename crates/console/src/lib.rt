//! What each command of the program has in common: the files that its arguments name, standard
//! output, why the system refuses either, and in which words a fault is told (`TrialFault`).
#![tactic(auto)]

mod detail;
mod fault;
mod files;
mod output;
mod refusal;

pub use detail::Detail;
pub use fault::{TrialFault, tell_fault};
pub use files::{LimitedFiles, SystemFiles, TURNS, WholeFiles};
pub use output::Output;
pub use refusal::{SystemRefusal, open_refusal};
