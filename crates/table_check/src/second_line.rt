//! The second line of a fault in a document, without the file's name: the line of the place, the
//! value there, and what is allowed there.

use crate::found::Found;
use std::fmt;
use std::fmt::Display;

/// What is at a place of a document.
#[derive(Clone, Copy)]
pub enum PlaceContent<'a> {
    /// This value.
    Value(Found<'a>),
    /// This value, at a key that is printed with it.
    Named(&'static str, Found<'a>),
    /// Nothing at this key.
    Nothing(&'static str),
    /// A key that isn't known.
    Unknown(&'a str),
}

/// The place of a fault in a document, with what is there and what is allowed there. It prints as
/// the second line of the fault, without the file's name.
#[derive(Clone, Copy)]
pub struct SecondLine<S, A> {
    /// The line, from 1, where it is known.
    pub line: Option<usize>,
    /// What is there.
    pub standing: S,
    /// What is allowed there.
    pub allowed: A,
}

impl<'a> Display for PlaceContent<'a> {
    fn fmt<W: fmt::Write>(&self, f: &mut fmt::Formatter<W>) -> fmt::Result {
        match *self {
            PlaceContent::Value(found) => write!(f, "{found}"),
            PlaceContent::Named(key, found) => write!(f, "{key}: {found}"),
            PlaceContent::Nothing(key) => write!(f, "no {key}"),
            PlaceContent::Unknown(name) => {
                let name = name.escape_debug();
                write!(f, "unknown key {name}")
            }
        }
    }
}

impl<S: Display, A: Display> Display for SecondLine<S, A> {
    fn fmt<W: fmt::Write>(&self, f: &mut fmt::Formatter<W>) -> fmt::Result {
        let (standing, allowed) = (&self.standing, &self.allowed);
        if let Some(line) = self.line {
            write!(f, "line {line}: ")?;
        }
        write!(f, "{standing}; {allowed}")
    }
}
