//! The tests of command_line, console, table_check and the command of line_replay, in a crate of
//! their own: a module for each.
#![tactic(auto)]

#[cfg(test)]
mod tests;
