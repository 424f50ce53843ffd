//! Which steps of the law over a station and its gates (`gate_law`) the calls of a keeper are: a
//! commit, whatever comes of it, a crash at any moment of it, and the opening that follows; and
//! rounds of a gate and a station, through crashes of both. Its main promises are those of
//! `commit_in_steps`, `read_in_steps` and `round_in_steps`.
#![tactic(auto)]

mod commit;
mod crashes;
mod laws;
mod opening;
mod settling;

pub use commit::commit_in_steps;
pub use crashes::{Plan, Round, reopen_in_steps, round_in_steps};
pub use laws::{gates_leave_the_keeper, new_ones_begin, told_touches_survive};
pub use opening::{keeper_in_steps, read_in_steps};
pub use settling::settle_in_steps;
