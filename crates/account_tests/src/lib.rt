//! The tests of money_time, fare_table, fare_schedule and oyster_account, in a crate of their own:
//! a module for each.
#![tactic(auto)]

#[cfg(test)]
mod tests;
