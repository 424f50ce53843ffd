//! What is written of an enquiry, and read of its answer (PROTOCOL.md, "Frames").
ghost use Rattle.std.specs.Prelude.{◌≡◌, ℕ, Err, IfOk, IfSome};
ghost use Rattle.std.specs.Io.KnownBytes.{Consumes};
ghost use Rattle.gate_session.specs.declared.answer.Answer.TheVariants as answers;
ghost use Rattle.gate_session.specs.Answers.{answer_frame};
ghost use Rattle.text_io.specs.Writing.{Wrote};
ghost use Rattle.gate_client.specs.Enquiring.{IsEnquired, enquiry_frame, holding_frame};

use crate::line::{fault_in, read_frame, whole};
use crate::{HearFault, Holding, LineFault};
use byteorder::{BigEndian, ByteOrder};
use gate_session::{
    ANSWER_SIZE, Answer, ENQUIRY_LENGTH, HOLDING_LENGTH, KIND_ENQUIRY, LENGTH_SIZE, STATE_INSIDE,
    STATE_OUTSIDE, STATE_VACANT,
};
use oyster_account::{CardState, CardView, read_u16, read_u32};
use std::io::{Read, Write};
use text_io::write_whole;

/// The bytes of an enquiry's frame.
const ENQUIRY_SIZE: usize = LENGTH_SIZE + ENQUIRY_LENGTH;
/// The bytes of the frame of an enquiry's answer.
const HOLDING_SIZE: usize = LENGTH_SIZE + HOLDING_LENGTH as usize;

/// Writes the frame of an enquiry.
pub(crate) fn write_enquiry<W: Write>(writer: &mut W, card: u32) -> Result<(), LineFault>
    ensures { Wrote (W.contents writer.old) (W.contents writer.new)
        (λ text. IsEnquired card text result) }
{
    let frame = frame_of_enquiry(card);
    match write_whole(writer, &frame) {
        Ok(()) => Ok(()),
        Err(_) => Err(LineFault),
    }
}

/// The frame of an enquiry.
fn frame_of_enquiry(card: u32) -> [u8; ENQUIRY_SIZE]
    ensures { result ≡ enquiry_frame card }
{
    let mut frame = [0; ENQUIRY_SIZE];
    BigEndian::write_u16(&mut frame[..LENGTH_SIZE], ENQUIRY_LENGTH as u16);
    frame[LENGTH_SIZE] = KIND_ENQUIRY;
    BigEndian::write_u32(&mut frame[LENGTH_SIZE + 1..], card);
    frame
}

/// Reads the answer to an enquiry.
///
/// `NoAnswer` comes where a read failed or the input ended, or what was read is neither such an
/// answer's frame nor a fault's; `Stray` where it is a fault of a touch, and `Refused` where it is
/// one of no touch.
pub(crate) fn read_holding<R: Read>(reader: &mut R) -> Result<Holding, HearFault>
    ensures ok { IfOk result (λ holding. Consumes (R.remaining reader.old)
        (R.remaining reader.new) (holding_frame holding)) }
    ensures refused { (code : ℕ) → result ≡ Err (HearFault.Refused code)
        → Consumes (R.remaining reader.old) (R.remaining reader.new)
        (answer_frame (answers.Fault code 0 0)) }
{
    let mut frame = [0; ANSWER_SIZE];
    match read_frame(reader, &mut frame) {
        Some(size) => holding_by(&frame[..size]),
        None => Err(HearFault::NoAnswer),
    }
}

/// What a card holds, where these bytes are the frame that says it.
fn holding_by(frame: &[u8]) -> Result<Holding, HearFault>
    ensures ok { IfOk result (λ holding. frame.now ≡ holding_frame holding) }
    ensures refused { (code : ℕ) → result ≡ Err (HearFault.Refused code)
        → frame.now ≡ answer_frame (answers.Fault code 0 0) }
{
    match enquiry_answer_in(frame) {
        Some(Answer::Holding { view, front }) => Ok(Holding { view, front }),
        Some(Answer::Fault { code, gate, number }) if gate == 0 && number == 0 => {
            Err(HearFault::Refused(code))
        }
        Some(_) => Err(HearFault::Stray),
        None => Err(HearFault::NoAnswer),
    }
}

/// The answer to an enquiry whose frame these bytes are. `None` where they are no such frame.
fn enquiry_answer_in(frame: &[u8]) -> Option<Answer>
    ensures { IfSome result (λ answer. frame.now ≡ answer_frame answer) }
{
    let answer = if frame.len() == HOLDING_SIZE {
        holding_in(frame)?
    } else {
        fault_in(frame)?
    };
    whole(frame, answer)
}

/// What a card holds, whose fields stand behind a length and a kind.
fn holding_in(frame: &[u8]) -> Option<Answer> {
    let (_length, rest) = read_u16(frame)?;
    let (_kind, rest) = rest.split_first()?;
    let (state, rest) = rest.split_first()?;
    let state = state_by(*state)?;
    let (balance, rest) = rest.split_first_chunk::<8>()?;
    let (front, _rest) = read_u32(rest)?;
    Some(Answer::Holding {
        view: CardView {
            state,
            balance: i64::from_be_bytes(*balance),
        },
        front,
    })
}

/// Where a card is, by its byte.
fn state_by(code: u8) -> Option<CardState> {
    match code {
        STATE_VACANT => Some(CardState::Vacant),
        STATE_OUTSIDE => Some(CardState::Outside),
        STATE_INSIDE => Some(CardState::Inside),
        _ => None,
    }
}
