//! The line of a reply: the fields of a row of `history` from the gate on.
ghost use Rattle.std.specs.Prelude.{Some};
ghost use Rattle.gate_client.specs.Told.{told_text, given_up_text, act_text, verdict_text};

use oyster_account::{Act, Reply, Touch, verdict_name};
use std::fmt;
use std::fmt::Display;

/// A reply to a touch. It prints as its line, without a line feed: gate, number, card, act,
/// station, pence, verdict, change and balance, with commas between.
#[derive(Clone, Copy, Debug, PartialEq, Eq)]
pub struct Told {
    /// The touch.
    pub touch: Touch,
    /// What it was answered.
    pub reply: Reply,
}

/// A touch that was given up. It prints as its line, without a line feed: as a reply's, with
/// `given-up` in the verdict's place, and without change and balance.
#[derive(Clone, Copy, Debug, PartialEq, Eq)]
pub struct GivenUpTold {
    /// The touch.
    pub touch: Touch,
}

/// An act, with its station and its pence, each empty where it has none.
#[derive(Clone, Copy)]
struct ActFields(Act);

/// The name of a verdict by its code, or the number of one that has no name yet.
#[derive(Clone, Copy)]
struct VerdictName(u8);

impl Display for Told {
    ghost output = { λ told. Some (told_text told.touch told.reply) };

    fn fmt<W: fmt::Write>(&self, f: &mut fmt::Formatter<W>) -> fmt::Result {
        let (gate, number, card) = (self.touch.gate, self.touch.number, self.touch.card);
        let (act, verdict) = (ActFields(self.touch.act), VerdictName(self.reply.verdict));
        let (change, balance) = (self.reply.change, self.reply.balance);
        write!(
            f,
            "{gate},{number},{card},{act},{verdict},{change},{balance}"
        )
    }
}

impl Display for GivenUpTold {
    ghost output = { λ told. Some (given_up_text told.touch) };

    fn fmt<W: fmt::Write>(&self, f: &mut fmt::Formatter<W>) -> fmt::Result {
        let (gate, number, card) = (self.touch.gate, self.touch.number, self.touch.card);
        let act = ActFields(self.touch.act);
        write!(f, "{gate},{number},{card},{act},given-up,,")
    }
}

impl Display for ActFields {
    ghost output = { λ fields. Some (act_text fields.0) };

    fn fmt<W: fmt::Write>(&self, f: &mut fmt::Formatter<W>) -> fmt::Result {
        match self.0 {
            Act::Enter { station, .. } => write!(f, "in,{station},"),
            Act::Leave { station, .. } => write!(f, "out,{station},"),
            Act::TopUp { pence, .. } => write!(f, "top-up,,{pence}"),
            Act::Issue { .. } => f.write_str("issue,,"),
            Act::Revise { .. } => f.write_str("revision,,"),
        }
    }
}

impl Display for VerdictName {
    ghost output = { λ verdict. Some (verdict_text verdict.0) };

    fn fmt<W: fmt::Write>(&self, f: &mut fmt::Formatter<W>) -> fmt::Result {
        match verdict_name(self.0) {
            Some(name) => f.write_str(name),
            None => write!(f, "verdict {}", self.0),
        }
    }
}
