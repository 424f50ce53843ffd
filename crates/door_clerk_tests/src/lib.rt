//! The tests of door_clerk, in a crate of their own.
#![tactic(auto)]

#[cfg(test)]
mod tests;
