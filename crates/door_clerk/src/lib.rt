//! A door before a clerk: it lets through what the rule of a connection's name allows, and keeps
//! out the rest. The main promise is that of `DoorClerk`: what is let through is answered as the
//! clerk behind the door answers it, and what is kept out is answered by fault 7 and changes
//! nothing behind the door.
#![tactic(auto)]

mod bucket;
mod door;
mod laws;
mod reading;
mod refusal;
mod rule;
mod session;
mod surroundings;

pub use bucket::{Bucket, TICKS_PER_SECOND};
pub use door::DoorClerk;
pub use laws::{
    a_request_is_kept_out, a_second_is_enough, all_is_let_through, later_allows_the_same,
    sessions_are_sorted, the_rate_is_kept,
};
pub use reading::{Clocks, Standing};
pub use refusal::DoorRefusal;
pub use rule::{GateRange, Kinds, Rate, Rule};
pub use session::serve_at_door;
pub use surroundings::Surroundings;
