//! The command `check --door`, and the door that the arguments of a command name: what a door's
//! rules are, or why a file is none, with the place of its fault.
//!
//! `check_door` carries the report, over any writer, and `door_of` gives the door itself.
#![tactic(auto)]

mod check;
mod fault;
mod items;
mod limits;
mod lines;
mod name;
mod open;
mod standing;

pub use check::check_door;
pub use fault::NoDoor;
pub use open::door_of;
