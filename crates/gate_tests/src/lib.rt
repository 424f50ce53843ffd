//! The tests of gate_client, gate_law and station_calls, in a crate of their own: a module for
//! each.
#![tactic(auto)]

#[cfg(test)]
mod tests;
