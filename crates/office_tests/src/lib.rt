//! The tests of tap_desk and tap_office, in a crate of their own: a module for each.
#![tactic(auto)]

#[cfg(test)]
mod tests;
