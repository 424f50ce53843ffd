//! The door of a station, as its lines share it: for each rule how many connections are open, and
//! the bucket with which the next one begins. The main promise is that of `StationDoor::enter`: a
//! connection gets a place by the rule of its name, else by that of `*`.
#![tactic(auto)]

mod entrance;
mod laws;
mod pass;
mod places;
mod shut_out;
mod station;

pub use laws::{a_place_is_free_again, nothing_is_refilled};
pub use pass::Pass;
pub use shut_out::ShutOut;
pub use station::StationDoor;
