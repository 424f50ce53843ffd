//! The tests of station_door, in a crate of their own.
#![tactic(auto)]

#[cfg(test)]
mod tests;
