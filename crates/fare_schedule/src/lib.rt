//! Fare tables with the fare days from which they count: on each fare day one of them is in force.
//!
//! [`Schedule::on`] is the table of the last revision whose day is at most the fare day, as
//! TABLE.md says under "Revised tables".
#![tactic(auto)]

mod dated;
mod digest;
mod fault;
mod laws;
mod schedule;
mod stations;

pub use fault::SupplyFault;
pub use laws::last_revision_counts;
pub use schedule::{Schedule, TABLE_LIMIT};
