//! An enquiry: what a card holds, asked over a line. No file keeps it, and it changes nothing.
ghost use Rattle.std.specs.Prelude.{◌≡◌, ◌⊎◌, ℕ, Some, IfOk, IfSome, Err};
ghost use Rattle.std.specs.Io.KnownBytes.{Consumes};
ghost use Rattle.gate_session.specs.declared.answer.Answer.TheVariants as answers;
ghost use Rattle.gate_session.specs.declared.answer.FaultCode.TheVariants as faults;
ghost use Rattle.gate_session.specs.Answers.{answer_frame, fault_code};
ghost use Rattle.text_io.specs.Writing.{Wrote};
ghost use Rattle.gate_client.specs.declared.attempt.TryFault.TheVariants.{Cut, Unheard};
ghost use Rattle.gate_client.specs.declared.fault.HearFault.TheVariants.{Refused};
ghost use Rattle.gate_client.specs.declared.enquiry.EnquireFault.TheVariants.{NotAllowed, Tries};
ghost use Rattle.gate_client.specs.declared.settling.Line.{Line};
ghost use Rattle.gate_client.specs.Enquiring.{Enquires, HasEnquired, HasAnswered};
ghost use Rattle.gate_client.specs.Enquiring.{holding_text, state_text, IsRefusedOver};
ghost use Rattle.gate_client.specs.Enquiring.{last_enquiry_fault, printed_enquire_fault};

use crate::HearFault;
use crate::asking::number_in;
use crate::attempt::TryFault;
use crate::enquiry_line::{read_holding, write_enquiry};
use crate::settling::{Line, Station, line_for};
use gate_session::FaultCode;
use oyster_account::{CardState, CardView};
use std::fmt;
use std::fmt::Display;
use std::io::{Read, Write};
use thiserror::Error;

/// What a card holds, as a station answered it.
#[derive(Clone, Copy, Debug, PartialEq, Eq)]
pub struct Holding {
    /// Where the card is, and its balance in pence.
    pub view: CardView,
    /// How many touches the station's history had for it.
    pub front: u32,
}

/// What a card holds, as it is told to whoever asked by a gate's program. It prints as its line,
/// without a line feed, in the fields of a reply's line.
#[derive(Clone, Copy, Debug, PartialEq, Eq)]
pub struct HoldingTold {
    /// The gate.
    pub gate: u16,
    /// The number of the card.
    pub card: u32,
    /// What it holds.
    pub holding: Holding,
}

/// Where a card is, in a word.
#[derive(Clone, Copy)]
struct StateName(CardState);

/// Why an enquiry isn't answered. Nothing waits.
#[derive(Clone, Copy, Debug, PartialEq, Eq, Error)]
pub enum EnquireFault {
    /// The station doesn't allow it over this line, which repeats don't change.
    NotAllowed,
    /// So many tries as were allowed brought no answer.
    Tries(u32),
}

/// Prints what stands behind `fault enquiry ` in the line of the fault, as a touch's does.
impl fmt::Display for EnquireFault {
    ghost output = { λ fault. Some (printed_enquire_fault fault) };

    fn fmt<W: fmt::Write>(&self, f: &mut fmt::Formatter<W>) -> fmt::Result {
        match *self {
            EnquireFault::NotAllowed => f.write_str("answer 7 NotAllowed"),
            EnquireFault::Tries(tries) => write!(f, "tries {tries}"),
        }
    }
}

impl Display for HoldingTold {
    ghost output = { λ told. Some (holding_text told.gate told.card told.holding) };

    fn fmt<W: fmt::Write>(&self, f: &mut fmt::Formatter<W>) -> fmt::Result {
        let (gate, card) = (self.gate, self.card);
        let state = StateName(self.holding.view.state);
        let balance = self.holding.view.balance;
        write!(f, "{gate},,{card},enquiry,,,{state},,{balance}")
    }
}

impl Display for StateName {
    ghost output = { λ name. Some (state_text name.0) };

    fn fmt<W: fmt::Write>(&self, f: &mut fmt::Formatter<W>) -> fmt::Result {
        match self.0 {
            CardState::Vacant => f.write_str("vacant"),
            CardState::Outside => f.write_str("outside"),
            CardState::Inside => f.write_str("inside"),
        }
    }
}

/// The card that a line asks after, as `enquire 3`. The line is without its line feed.
pub fn enquired_by(line: &str) -> Option<u32>
    ensures some { IfSome result (Enquires line.now) }

    // It is the only one, and no line that asks for it is refused.
    ensures only { (card : ℕ) → Enquires line.now card → result ≡ Some card }
{
    let (word, rest) = line.split_once(' ')?;
    if word == "enquire" {
        number_in(rest)
    } else {
        None
    }
}

/// Asks over a line what a card holds, and reads one answer.
///
/// At a fault the line is done: write nothing more to it, and read nothing more from it. But after
/// the station's fault (`Refused`) it can carry on.
pub fn enquire<R: Read, W: Write>(
    card: u32,
    reader: &mut R,
    writer: &mut W,
) -> Result<Holding, TryFault>
    // The frame was written whole, and its answer was read, and nothing else.
    ensures sent { Wrote (W.contents writer.old) (W.contents writer.new)
        (λ text. HasEnquired card text result) }
    ensures answered { IfOk result (λ holding. HasAnswered card holding
        (R.remaining reader.old) (R.remaining reader.new)
        (W.contents writer.old) (W.contents writer.new)) }

    // A fault of the station is one that is of no touch; behind a cut frame nothing is read.
    ensures refused { (code : ℕ) → result ≡ Err (Unheard (Refused code))
        → Consumes (R.remaining reader.old) (R.remaining reader.new)
        (answer_frame (answers.Fault code 0 0)) }
    ensures cut { result ≡ Err Cut → reader.new ≡ reader.old }
{
    let Ok(()) = write_enquiry(writer, card) else {
        return Err(TryFault::Cut);
    };
    match read_holding(reader) {
        Ok(holding) => Ok(holding),
        Err(fault) => Err(TryFault::Unheard(fault)),
    }
}

/// Asks what a card holds, over a new line after each fault, until it is answered. It begins with
/// `line`, where there is one.
///
/// After Ok the line can carry the next request. A line on which no answer came is dropped. The
/// station's fault 7 ends it, since repeats don't change it, and so do so many tries.
pub fn ask_after<R: Read + Drop, W: Write + Drop, S: Station<R, W>>(
    card: u32,
    station: &mut S,
    line: Option<Line<R, W>>,
    tries: u32,
) -> Result<(Holding, Line<R, W>), EnquireFault>
    // Over the line that is handed back the enquiry was written, and its answer was read.
    ensures answered { IfOk result (λ done.
        (begun : Line R W) × ((line ≡ Some begun) ⊎ S.made begun)
        × HasAnswered card done.0 (R.remaining begun.reader) (R.remaining done.1.reader)
        (W.contents begun.writer) (W.contents done.1.writer)) }
    ensures tries { (n : ℕ) → result ≡ Err (Tries n) → n ≡ tries }

    // That it isn't allowed was read over the line that was handed in, or over one that was made.
    ensures refused { result ≡ Err NotAllowed → IsRefusedOver R.remaining
        (λ (begun : Line R W). (line ≡ Some begun) ⊎ S.made begun) (fault_code faults.NotAllowed) }
{
    let mut ready = line;
    for _ in 0..tries {
        let line = line_for(station, ready);
        ready = None;
        match enquire_over(card, line) {
            Ok(done) => return Ok(done),
            Err(fault) => {
                if let Some(last) = last_enquiry_fault(fault) {
                    return Err(last);
                }
                station.failed(fault);
            }
        }
    }
    Err(EnquireFault::Tries(tries))
}

/// One try of an enquiry. At a fault the line is dropped.
fn enquire_over<R: Read + Drop, W: Write + Drop>(
    card: u32,
    line: Option<Line<R, W>>,
) -> Result<(Holding, Line<R, W>), TryFault>
    ensures answered { IfOk result (λ done. (begun : Line R W) × (line ≡ Some begun)
        × HasAnswered card done.0 (R.remaining begun.reader) (R.remaining done.1.reader)
        (W.contents begun.writer) (W.contents done.1.writer)) }
    ensures refused { (code : ℕ) → result ≡ Err (Unheard (Refused code))
        → IsRefusedOver R.remaining (λ (begun : Line R W). line ≡ Some begun) code }
{
    let Some(mut line) = line else {
        return Err(TryFault::Unreached);
    };
    let holding = enquire(card, &mut line.reader, &mut line.writer)?;
    Ok((holding, line))
}

/// The fault that ends the asking where a try met this one. `None` where it goes on.
fn last_enquiry_fault(fault: TryFault) -> Option<EnquireFault>
    ensures { result ≡ last_enquiry_fault fault }
{
    let TryFault::Unheard(HearFault::Refused(code)) = fault else {
        return None;
    };
    if code == FaultCode::NotAllowed.code() {
        Some(EnquireFault::NotAllowed)
    } else {
        None
    }
}
