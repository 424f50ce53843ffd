//! The tests of gate_command, in a crate of their own.
#![tactic(auto)]

#[cfg(test)]
mod tests;
