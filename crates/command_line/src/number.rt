//! The numbers that the words of a command line have, each within its limits.

ghost use Rattle.std.specs.Prelude.{◌≤◌, IfSome};
ghost use Rattle.program_options.specs.Numbers.{IsWithin};

use clap::ArgMatches;
use program_options::number_in;
use std::fmt;

/// The value of an option that isn't a number as the option takes it. It prints as why it is
/// refused.
#[derive(Clone, Copy)]
pub(crate) struct WrongNumber<'a> {
    /// The option's name.
    pub(crate) option: &'static str,
    /// How the help names its value.
    pub(crate) value: &'static str,
    /// What it was given.
    pub(crate) text: &'a str,
    /// The largest number that it takes. The least is 1.
    pub(crate) most: u32,
}

impl fmt::Display for WrongNumber<'_> {
    fn fmt<W: fmt::Write>(&self, f: &mut fmt::Formatter<W>) -> fmt::Result {
        let (option, value, text, most) = (self.option, self.value, self.text, self.most);
        write!(f, "invalid value '{text}' for '--{option} <{value}>': ")?;
        write!(
            f,
            "a whole number from 1 to {most}, in the digits 0 to 9 alone"
        )
    }
}

/// The value of this option, where it is given and isn't a number from 1 to this limit, in decimal
/// digits alone.
pub(crate) fn wrong_value<'a>(matches: &ArgMatches<'a>, name: &str, most: u32) -> Option<&'a str> {
    let text = matches.get_str(name)?;
    match number_in(text, 1, most) {
        Some(_) => None,
        None => Some(text),
    }
}

/// The number that an option has. `None` where it isn't from 1 to this limit, or isn't written in
/// decimal digits alone.
pub(crate) fn number_asked(matches: &ArgMatches<'_>, name: &str, limit: u32) -> Option<u32>
    ensures { IfSome result (IsWithin limit) }
{
    number_in(matches.get_str(name)?, 1, limit)
}

/// The number of 16 bits that a text is in decimal digits alone, from the least on.
pub(crate) fn short_in(text: &str, least: u16) -> Option<u16>
    ensures { IfSome result (λ number. least ≤ number) }
{
    let number = number_in(text, u32::from(least), u32::from(u16::MAX))?;
    Some(number as u16)
}
