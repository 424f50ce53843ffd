//! The command of a gate: it reads what to ask for as lines, keeps each touch in the gate's file,
//! sends it to a station over TCP until its reply is there, and prints the reply. What it sends and
//! tells is proved in `gate_client`; here are the command line, the file, sockets and times.
#![tactic(auto)]

mod arguments;
mod fault;
mod file;
mod lines;
mod station;

pub use arguments::{Arguments, arguments_of, words_of};
pub use fault::{Detail, SendFault, tell_fault};
pub use file::gate_file;
pub use lines::{Sent, send_lines};
