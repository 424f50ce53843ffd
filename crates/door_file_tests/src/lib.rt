//! The tests of door_file, in a crate of their own.
#![tactic(auto)]

#[cfg(test)]
mod tests;
