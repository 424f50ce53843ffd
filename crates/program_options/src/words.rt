//! The words of a command line.

ghost use Rattle.std.specs.Prelude.{◌≡◌, IfOk};
ghost use Rattle.clap.specs.Values.{kind_of};
ghost use Rattle.clap.specs.declared.error.kind.ErrorKind.TheVariants.{InvalidValue};

use clap::error::ErrorKind;
use clap::{Command, Error};
use std::alloc::AllocError;
use std::rt::Env;
use std::{env, io};

/// The text of Rust's `clap` for this.
const NOT_UTF8: &str = "invalid UTF-8 was detected in one or more arguments";

/// The words of the command line, the program's name first.
///
/// One that isn't UTF-8 is refused as this command's `clap` refuses a command line, and want of
/// memory is an error of that kind.
pub fn words_of<R: AllocGlobal + Env>(
    rt: &R,
    command: &mut Command<'_>,
) -> Result<Vec<String>, Error> {
    match env::args(rt) {
        Ok(words) => Ok(words.collect(rt.alloc())?),
        Err(error) if error.kind() == io::ErrorKind::OutOfMemory => Err(AllocError.into()),
        Err(_) => Err(refuse_bytes(command)?),
    }
}

/// The refusal of a command line with a word that isn't UTF-8.
pub fn refuse_bytes(command: &mut Command<'_>) -> Result<Error, Error>
    ensures { IfOk result (λ error. kind_of error ≡ InvalidValue) }
{
    Ok(command.error(ErrorKind::InvalidValue, NOT_UTF8)?)
}
