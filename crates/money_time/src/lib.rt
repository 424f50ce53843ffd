//! Moments, fare days and windows: what a zone's clock shows, and what fares make of it.
//!
//! [`Zone::stamp`] gives a moment's fare day, minute and window, as FARES.md says.
#![tactic(auto)]

mod date;
mod fault;
mod span;
mod spans;
mod stamp;
mod zone;

pub use date::{DAY_SECONDS, day_of};
pub use fault::TimeFault;
pub use stamp::{FARE_DAY_START, Stamp, Window};
pub use zone::Zone;
