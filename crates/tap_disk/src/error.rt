//! What the system answered at a call that failed.

ghost use Rattle.std.specs.Prelude.{◌≡◌, option_map};
ghost use Rattle.std.specs.IoError.{raw_os_error};
ghost use Rattle.tap_disk.specs.Errors.{error_by};

use std::fmt::Display;
use std::{fmt, io};

/// The longest text of an error that is told, in bytes.
const TEXT_LIMIT: usize = 128;

/// An error of the system, by its number (`errno`). It prints as the system's text for it, or with
/// its number where the system has none.
#[derive(Clone, Copy, Debug, PartialEq, Eq)]
pub struct SystemError {
    /// The number.
    pub number: i32,
}

impl SystemError {
    /// The system's error that one of std stands for. `None` where std made it itself.
    pub fn of(error: &io::Error) -> Option<SystemError>
        ensures { result ≡ option_map error_by (raw_os_error error.now) }
    {
        match error.raw_os_error() {
            Some(number) => Some(SystemError { number }),
            None => None,
        }
    }
}

impl Display for SystemError {
    fn fmt<W: fmt::Write>(&self, f: &mut fmt::Formatter<W>) -> fmt::Result {
        let mut text = [0; TEXT_LIMIT];
        let size = os::error_text(self.number, &mut text);
        match str::from_utf8(&text[..size]) {
            Ok(said) => f.write_str(said),
            Err(_) => {
                let number = self.number;
                write!(f, "error {number} of the system")
            }
        }
    }
}
