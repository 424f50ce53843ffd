//! The seal of a journal that the words of a command line ask for.

ghost use Rattle.std.specs.Prelude.{◌≡◌, IfSome, Ok};
ghost use Rattle.hex.specs.Hex.{decode_sized};
ghost use Rattle.station_limits.specs.declared.digest.TheConstants.{DIGEST_SIZE};
ghost use Rattle.command_line.specs.Arguments.{IsSealAllowed, IsSealedAllowed};

use clap::ArgMatches;
use hex::FromHex;
use program_options::number_in;
use station_limits::{Digest, HISTORY_LIMIT};

/// What is asked of the seal of a journal.
#[derive(Clone, Copy, Debug, PartialEq, Eq)]
pub struct Seal {
    /// Whether one is made, of all touches.
    pub made: bool,
    /// The seal that the journal is held against, where there is one.
    pub kept: Option<Sealed>,
}

/// A seal that was made.
#[derive(Clone, Copy, Debug, PartialEq, Eq)]
pub struct Sealed {
    /// How many touches it was made of.
    pub touches: u32,
    /// The digest of the header and their slots.
    pub digest: Digest,
}

/// The seal that the matches of a command ask for. `None` where a seal is named that is none.
pub(crate) fn seal_asked(matches: &ArgMatches<'_>) -> Option<Seal>
    ensures { IfSome result IsSealAllowed }
{
    let made = matches.get_flag("seal");
    let kept = kept_asked(matches)?;
    Some(Seal { made, kept })
}

/// The seal that a journal is held against, where one is named. `None` where it is none.
fn kept_asked(matches: &ArgMatches<'_>) -> Option<Option<Sealed>>
    ensures { IfSome result (λ kept. IfSome kept IsSealedAllowed) }
{
    match matches.get_strs("sealed") {
        Some([touches, digest]) => Some(Some(sealed_in(touches, digest)?)),
        Some(_) => None,
        None => Some(None),
    }
}

/// The seal of so many touches with this digest, as they are written.
fn sealed_in(touches: &str, digest: &str) -> Option<Sealed>
    ensures { IfSome result IsSealedAllowed }
{
    let touches = number_in(touches, 0, HISTORY_LIMIT)?;
    let digest = digest_in(digest)?;
    Some(Sealed { touches, digest })
}

/// The digest that a text of hexadecimal digits is, in either case.
fn digest_in(text: &str) -> Option<Digest>
    ensures { IfSome result (λ digest. decode_sized text.now DIGEST_SIZE ≡ Ok digest) }
{
    <Digest as FromHex>::from_hex(text).ok()
}
