//! The options of a command line, each by its name behind two hyphens.

use clap::{Arg, ArgAction};
use std::alloc::Global;

/// An option of this name with a value.
pub fn option<'a>(alloc: Global, name: &'a str) -> Arg<'a> {
    Arg::new(alloc, name).long(name).action(ArgAction::Set)
}

/// An option of this name without a value.
pub fn flag<'a>(alloc: Global, name: &'a str) -> Arg<'a> {
    Arg::new(alloc, name).long(name).action(ArgAction::SetTrue)
}
