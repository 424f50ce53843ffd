//! The gates of a station, served from its office: all lines at once, on each one connection after
//! the other. Its main promises are that each answer of a session is its request's (`OfficeClerk`),
//! and that of `serve_all`: each line keeps its seat and its desk, and counts its sessions.
#![tactic(auto)]

mod ahead;
mod begun;
mod beside;
mod clerk;
mod connection;
mod days;
mod fault;
mod gate_line;
mod kept_out;
mod lent;
mod looks;
mod notice;
mod notices;
mod pace;
mod post;
mod posts;
mod reason;
mod report;
mod rounds;
mod serving;
mod sessions;
mod tally;
mod watched_door;

pub use clerk::{OfficeClerk, code_of};
pub use connection::Connection;
pub use fault::ServeFault;
pub use gate_line::{GateLine, TcpLines};
pub use kept_out::BETWEEN_LINES;
pub use lent::Lent;
pub use notice::{Lines, Notice, Standing, SystemSaid, Watch};
pub use notices::{Notices, Watched};
pub use post::{Post, Service, serve_all};
pub use posts::{new_post, seats_and_desks, tallies_of};
pub use reason::Reason;
pub use report::{write_opened, write_report};
pub use serving::serve_office;
pub use tally::Tally;
pub use watched_door::WatchedDoor;
