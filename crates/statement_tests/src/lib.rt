//! The tests of statement_command, in a crate of their own.
#![tactic(auto)]

#[cfg(test)]
mod tests;
