//! The tests of door_check, in a crate of their own.
#![tactic(auto)]

#[cfg(test)]
mod tests;
