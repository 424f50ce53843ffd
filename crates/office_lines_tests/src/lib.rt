//! The tests of office_lines, in a crate of their own.
#![tactic(auto)]

#[cfg(test)]
mod tests;
