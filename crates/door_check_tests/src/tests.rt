//! The tests of door_check, of its public names alone.

mod fakes;
mod faults;
mod refused;
mod reports;
