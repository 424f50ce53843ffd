//! The numbers that the words of a command line have, each within its limits.

ghost use Rattle.std.specs.Prelude.{IfSome};
ghost use Rattle.program_options.specs.Numbers.{IsBetween};

use clap::ArgMatches;

/// What is said of a number that has a sign.
pub const NOT_DECIMAL: &str = "a number is written in the digits 0 to 9 alone";

/// The number that an option has which may be left out. `None` where it is given and isn't from
/// the least to the most, or isn't written in decimal digits alone.
pub fn number_given(
    matches: &ArgMatches<'_>,
    name: &str,
    least: u32,
    most: u32,
) -> Option<Option<u32>>
    ensures { IfSome result (λ given. IfSome given (IsBetween least most)) }
{
    match matches.get_str(name) {
        Some(text) => Some(Some(number_in(text, least, most)?)),
        None => Some(None),
    }
}

/// The number that a text is in decimal digits alone, from the least to the most: a parser of
/// numbers takes a sign as well.
pub fn number_in(text: &str, least: u32, most: u32) -> Option<u32>
    ensures { IfSome result (IsBetween least most) }
{
    let number = text.parse::<u32>().ok()?;
    let is_decimal = text.bytes().all(|byte| byte.is_ascii_digit());
    if is_decimal && least <= number && number <= most {
        Some(number)
    } else {
        None
    }
}
