//! The tests of proxy_header, in a crate of their own.
#![tactic(auto)]

#[cfg(test)]
mod tests;
