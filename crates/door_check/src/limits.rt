//! The parts of a rule's line, as they are printed.

ghost use Rattle.std.specs.Prelude.{◌≡◌, Some};
ghost use Rattle.door_check.specs.Lines.{printed_range, printed_word, printed_kinds};
ghost use Rattle.door_check.specs.Lines.{printed_limit, printed_rate};

use door_clerk::{GateRange, Kinds, Rate};
use door_file::Kind;
use std::fmt;

/// A range of gates. It prints as the number of one gate, or as the first and the last.
#[derive(Clone, Copy)]
pub(crate) struct Range(pub GateRange);

/// A kind of request that a rule allows or doesn't. It prints as a space and the kind's word, or as
/// nothing.
#[derive(Clone, Copy)]
struct Word {
    /// Whether the rule allows it.
    allowed: bool,
    /// The kind.
    kind: Kind,
}

/// The kinds of request that a rule allows. They print as their words, a space before each.
#[derive(Clone, Copy)]
pub(crate) struct KindWords(pub Kinds);

/// A number that a rule has or leaves out. It prints as a part with its name, or as nothing.
#[derive(Clone, Copy)]
pub(crate) struct Limit {
    /// The name of the key.
    pub name: &'static str,
    /// The number.
    pub number: Option<u32>,
}

/// The rate that a rule has or leaves out. It prints as a part with both numbers, or as nothing.
#[derive(Clone, Copy)]
pub(crate) struct Pace(pub Option<Rate>);

impl fmt::Display for Range {
    ghost output = { λ range. Some (printed_range range.0) };

    fn fmt<W: fmt::Write>(&self, f: &mut fmt::Formatter<W>) -> fmt::Result {
        let GateRange { first, last } = self.0;
        if first == last {
            write!(f, "{first}")
        } else {
            write!(f, "{first}-{last}")
        }
    }
}

impl fmt::Display for Word {
    ghost output = { λ word. Some (printed_word word.allowed word.kind) };

    fn fmt<W: fmt::Write>(&self, f: &mut fmt::Formatter<W>) -> fmt::Result {
        if self.allowed {
            let word = self.kind.word();
            write!(f, " {word}")
        } else {
            Ok(())
        }
    }
}

impl fmt::Display for KindWords {
    ghost output = { λ kinds. Some (printed_kinds kinds.0) };

    fn fmt<W: fmt::Write>(&self, f: &mut fmt::Formatter<W>) -> fmt::Result {
        let enter = if_allowed(self.0.enter, Kind::Enter);
        let leave = if_allowed(self.0.leave, Kind::Leave);
        let top_up = if_allowed(self.0.top_up, Kind::TopUp);
        let issue = if_allowed(self.0.issue, Kind::Issue);
        let revise = if_allowed(self.0.revise, Kind::Revise);
        let enquire = if_allowed(self.0.enquire, Kind::Enquire);
        write!(f, "{enter}{leave}{top_up}{issue}{revise}{enquire}")
    }
}

/// The word of a kind of request that a rule allows or doesn't.
fn if_allowed(allowed: bool, kind: Kind) -> Word
    ensures allowed { result.allowed ≡ allowed }
    ensures kind { result.kind ≡ kind }
{
    Word { allowed, kind }
}

impl fmt::Display for Limit {
    ghost output = { λ limit. Some (printed_limit limit.name.now limit.number) };

    fn fmt<W: fmt::Write>(&self, f: &mut fmt::Formatter<W>) -> fmt::Result {
        match self.number {
            Some(number) => {
                let name = self.name;
                write!(f, "; {name} {number}")
            }
            None => Ok(()),
        }
    }
}

impl fmt::Display for Pace {
    ghost output = { λ pace. Some (printed_rate pace.0) };

    fn fmt<W: fmt::Write>(&self, f: &mut fmt::Formatter<W>) -> fmt::Result {
        match self.0 {
            Some(Rate { touches, burst }) => write!(f, "; rate {touches} burst {burst}"),
            None => Ok(()),
        }
    }
}
