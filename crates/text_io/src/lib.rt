//! A whole input that is read, and a whole text that is written, over any reader and writer.
//!
//! `read_all` gives all bytes of a reader or says why not, and `write_text` writes all of a text or
//! a beginning of it.
#![tactic(auto)]

mod fault;
mod read;
mod write;

pub use fault::RunFault;
pub use read::{read_all, read_piece};
pub use write::{WriteFault, write_text, write_whole};
