//! What is told of a fault on a line of its own, behind the fault's line.

ghost use Rattle.std.specs.Prelude.{◌≡◌};
ghost use Rattle.console.specs.Detail.{no_detail};

use std::alloc::Global;
use std::fmt;
use std::fmt::Display;

/// The line behind a fault's: of which file or address it is, and what the system says of it, or
/// where in the file it is. Where there is nothing to tell, or no memory for it, there is no line.
#[derive(Debug, Drop)]
pub struct Detail {
    line: Option<String>,
}

/// What is said of a file or an address. It prints as a line behind a fault's.
#[derive(Drop)]
pub struct Said<'a, T> {
    /// The path or the address, as it was given.
    pub name: &'a str,
    /// What is said of it.
    pub said: &'a T,
}

impl Detail {
    /// No line.
    pub fn none() -> Detail
        ensures { result ≡ no_detail }
    {
        Detail { line: None }
    }

    /// The line that names a file or an address, and what is said of it. Without memory there is
    /// none.
    pub fn of<T: Display>(alloc: Global, name: &str, said: &T) -> Detail {
        let line = Said { name, said }.to_string(alloc);
        Detail { line: line.ok() }
    }

    /// The line that names a file alone. Without memory there is none.
    pub fn of_file(alloc: Global, path: &str) -> Detail {
        let line = format!(in alloc; "  {path}");
        Detail { line: line.ok() }
    }

    /// The line, without its line feed.
    pub fn line(&self) -> Option<&str> {
        self.line.as_deref()
    }
}

impl<'a, T: Display> Display for Said<'a, T> {
    fn fmt<W: fmt::Write>(&self, f: &mut fmt::Formatter<W>) -> fmt::Result {
        let (name, said) = (self.name, self.said);
        write!(f, "  {name}: {said}")
    }
}
