//! Readers and writers for tests, which give and take little, end early or fail.
//!
//! `Pieces` gives bytes piece by piece, and `Taker` takes so many and keeps them. No program stands
//! on this crate.
#![tactic(auto)]

mod pieces;
mod taker;

pub use pieces::Pieces;
pub use taker::Taker;
