//! A TOML text and the values of its tree, for the readers of files in this form.
//!
//! [`parse`] has the tree of a text, and [`items_at`], [`text_in`] and [`whole_in`] read its
//! values. What a file's keys mean, and which values they may have, is its own reader's.
#![tactic(auto)]

mod document;
mod range;
mod tree;

pub use document::{TreeFault, parse};
pub use range::{are_whole, is_count, whole_in};
pub use tree::{items_at, text_in, value_at};
