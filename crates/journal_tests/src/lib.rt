//! The tests of tap_journal and journal_audit, in a crate of their own: a module for each.
#![tactic(auto)]

#[cfg(test)]
mod tests;
