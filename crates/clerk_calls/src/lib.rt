//! What a session of the program's own clerk is, as steps of the law over a gate and its station
//! (`gate_law`): others' touches are entered, and each request is answered from the office's log
//! as it is then. Its main promise is that of `serve_from_log`; by that of `close_over_sessions`
//! the sessions of all connections have one order.
#![tactic(auto)]

mod behind;
mod closing;
mod order;
mod session;

pub use behind::sessions_behind_a_door_are_of_a_log;
pub use closing::close_over_sessions;
pub use order::{schedules_are_runs, sessions_follow_one_another};
pub use session::{serve_from_log, serve_then_enquire};
