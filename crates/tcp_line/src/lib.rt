//! Connections of gates, one after the other, over TCP: what a line of a server waits for.
//!
//! `TcpLine` carries it.
#![tactic(auto)]

mod hang_up;
mod keep_alive;
mod line;
mod patience;
mod place;
mod reader;
mod shortage;
mod unhindered;
mod writer;

pub use line::TcpLine;
pub use reader::GateReader;
pub use shortage::Shortage;
pub use unhindered::Unhindered;
pub use writer::GateWriter;

#[cfg(test)]
mod tests;
