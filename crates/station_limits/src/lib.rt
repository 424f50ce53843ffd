//! The limits and sizes that several crates have in common, each written once.
//!
//! The crate has no function and depends on nothing. A number that one crate alone needs is a
//! constant of that crate.
#![tactic(auto)]

mod digest;
mod limits;

pub use digest::{DIGEST_SIZE, Digest};
pub use limits::{CARDS_LIMIT, CERTIFICATE_NAME_LIMIT, HISTORY_LIMIT, LINES_LIMIT};
