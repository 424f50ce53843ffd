//! The door of a station: who may send which requests, read from a TOML file and checked whole.
//!
//! [`Door::read`] accepts exactly the files that mean a door, and [`Door::rule_for`] is the rule of
//! a connection's name.
#![tactic(auto)]

mod checks;
mod document;
mod door;
mod fault;
mod gates;
mod key;
mod kind;
mod laws;
mod name;
mod problems;
mod reading;
mod repeats;
mod rule;
mod tree;
mod unknown;

pub use checks::is_known;
pub use door::{Door, MOST_BYTES};
pub use fault::{DoorFault, Place, Problem};
pub use gates::range_in;
pub use key::{Key, RULE_KEYS, Shape};
pub use kind::Kind;
pub use laws::door_texts;
pub use name::Text;
pub use rule::NamedRule;
