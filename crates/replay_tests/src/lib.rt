//! The tests of text_io, gate_session, reply_book and line_replay, in a crate of their own: a
//! module for each.
#![tactic(auto)]

#[cfg(test)]
mod tests;
