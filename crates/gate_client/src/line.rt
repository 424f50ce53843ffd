//! What a client writes of its touch, and reads of an answer (PROTOCOL.md, "Frames").
ghost use Rattle.std.specs.Prelude.{◌≡◌, ◌≤◌, ◌<◌, ◌^◌, ℕ, ℤ, List, ◌++◌, Some, Result, Ok, Err};
ghost use Rattle.std.specs.Prelude.{IfOk, IfErr, IfSome, IsSomeAnd, take};
ghost use Rattle.std.specs.Int.{w64, to_be_bytes, cast_unsigned};
ghost use Rattle.std.specs.Int.RustNames.{FitsSigned};
ghost use Rattle.std.specs.Io.KnownBytes.{Consumes};
ghost use Rattle.oyster_account.specs.declared.touch.TheConstants.{TOUCH_SIZE};
ghost use Rattle.oyster_account.specs.declared.reply.Reply.{Reply};
ghost use Rattle.oyster_account.specs.Touch.{Fits};
ghost use Rattle.gate_session.specs.declared.answer.Answer.TheVariants as answers;
ghost use Rattle.gate_session.specs.declared.frame.TheConstants.{ANSWER_SIZE, REQUEST_SIZE};
ghost use Rattle.gate_session.specs.Answers.{AnswerFits, answer_frame};
ghost use Rattle.text_io.specs.Writing.{IsBeginning, Wrote};
ghost use Rattle.gate_client.specs.Heard.{frame_of, IsSent, IsUnder};

use crate::{HearFault, LineFault};
use byteorder::{BigEndian, ByteOrder};
use gate_session::{ANSWER_SIZE, Answer, LENGTH_SIZE, REQUEST_SIZE};
use oyster_account::{Reply, TOUCH_SIZE, Touch, read_i32, read_u16, read_u32};
use std::io::{Read, Write};
use text_io::write_whole;

/// The most bytes of an answer behind its length.
const BODY_SIZE: usize = ANSWER_SIZE - LENGTH_SIZE;

/// Writes the frame of a touch.
pub(crate) fn write_touch<W: Write>(writer: &mut W, touch: &Touch) -> Result<(), LineFault>
    ensures written { Wrote (W.contents writer.old) (W.contents writer.new)
        (λ text. IsSent touch.now text result) }
    ensures fits { Fits touch.now }
{
    let mut frame = [0; REQUEST_SIZE];
    let size = write_frame(touch, &mut frame);
    match write_whole(writer, &frame[..size]) {
        Ok(()) => Ok(()),
        Err(_) => Err(LineFault),
    }
}

/// Writes the frame of a touch to the front of `frame`, and answers how many bytes it has.
pub(crate) fn write_frame(touch: &Touch, frame: &mut [u8; REQUEST_SIZE]) -> usize
    ensures within { result ≤ REQUEST_SIZE }
    ensures written { take result frame.new ≡ frame_of touch.now }

    // The law that a frame is of one request needs it.
    ensures fits { Fits touch.now }
{
    let mut body = [0; TOUCH_SIZE];
    let size = touch.write_into(&mut body);
    BigEndian::write_u16(&mut frame[..LENGTH_SIZE], size as u16);
    frame[LENGTH_SIZE..].copy_from_slice(&body);
    LENGTH_SIZE + size
}

/// Reads the answer to a touch: a reply or a fault.
///
/// `NoAnswer` comes where a read failed or the input ended, or what was read is neither's frame.
pub(crate) fn read_answer<R: Read>(reader: &mut R) -> Result<Answer, HearFault>
    ensures read { IfOk result (λ answer. Consumes (R.remaining reader.old)
        (R.remaining reader.new) (answer_frame answer)) }
    ensures none { IfErr result (λ fault. fault ≡ HearFault.NoAnswer) }
{
    let mut frame = [0; ANSWER_SIZE];
    match read_frame(reader, &mut frame) {
        Some(size) => answer_in(&frame[..size]).ok_or(HearFault::NoAnswer),
        None => Err(HearFault::NoAnswer),
    }
}

/// Reads a length and as many bytes behind it to the front of `frame`, and answers how many bytes
/// these are together. `None` where a read failed or the input ended, or no answer is so long.
pub(crate) fn read_frame<R: Read>(reader: &mut R, frame: &mut [u8; ANSWER_SIZE]) -> Option<usize>
    ensures within { IfSome result (λ size. size ≤ ANSWER_SIZE) }
    ensures read { IfSome result (λ size. Consumes (R.remaining reader.old)
        (R.remaining reader.new) (take size frame.new)) }
{
    let mut length = [0; LENGTH_SIZE];
    let Ok(()) = reader.read_exact(&mut length) else {
        return None;
    };
    let size = BigEndian::read_u16(&length) as usize;
    if size > BODY_SIZE {
        return None;
    }
    let mut body = [0; BODY_SIZE];
    let Ok(()) = reader.read_exact(&mut body[..size]) else {
        return None;
    };
    frame[..LENGTH_SIZE].copy_from_slice(&length);
    frame[LENGTH_SIZE..].copy_from_slice(&body);
    Some(LENGTH_SIZE + size)
}

/// The answer to a touch whose frame these bytes begin with. `None` where they begin with none.
pub(crate) fn answer_at(bytes: &[u8]) -> Option<Answer>
    ensures some { IfSome result (λ answer. IsBeginning (answer_frame answer) bytes.now) }
    ensures reply { (gate number : ℕ) (reply : Reply) (rest : List ℕ)
        → AnswerFits (answers.Reply gate number reply)
        → bytes.now ≡ answer_frame (answers.Reply gate number reply) ++ rest
        → result ≡ Some (answers.Reply gate number reply) }
    ensures fault { (code gate number : ℕ) (rest : List ℕ)
        → AnswerFits (answers.Fault code gate number)
        → bytes.now ≡ answer_frame (answers.Fault code gate number) ++ rest
        → result ≡ Some (answers.Fault code gate number) }
{
    let (length, _rest) = read_u16(bytes)?;
    let frame = bytes.get(..LENGTH_SIZE + length as usize)?;
    answer_in(frame)
}

/// The answer to a touch whose frame these bytes are. `None` where they are no such frame.
fn answer_in(frame: &[u8]) -> Option<Answer>
    ensures some { IfSome result (λ answer. frame.now ≡ answer_frame answer) }
    ensures reply { (gate number : ℕ) (reply : Reply) → AnswerFits (answers.Reply gate number reply)
        → frame.now ≡ answer_frame (answers.Reply gate number reply)
        → result ≡ Some (answers.Reply gate number reply) }
    ensures fault { (code gate number : ℕ) → AnswerFits (answers.Fault code gate number)
        → frame.now ≡ answer_frame (answers.Fault code gate number)
        → result ≡ Some (answers.Fault code gate number) }
{
    let answer = if frame.len() == ANSWER_SIZE {
        reply_in(frame)?
    } else {
        fault_in(frame)?
    };
    whole(frame, answer)
}

/// This answer, where these bytes are its whole frame.
pub(crate) fn whole(frame: &[u8], answer: Answer) -> Option<Answer>
    ensures some { IfSome result (λ given. (given ≡ answer) × (frame.now ≡ answer_frame given)) }
    ensures all { frame.now ≡ answer_frame answer → result ≡ Some answer }
{
    let mut written = [0; ANSWER_SIZE];
    let size = answer.write_into(&mut written);
    if frame == &written[..size] {
        Some(answer)
    } else {
        None
    }
}

/// The reply whose fields stand behind a length and a kind.
fn reply_in(frame: &[u8]) -> Option<Answer>
    ensures again { (gate number : ℕ) (reply : Reply) → AnswerFits (answers.Reply gate number reply)
        → frame.now ≡ answer_frame (answers.Reply gate number reply)
        → result ≡ Some (answers.Reply gate number reply) }
{
    let (_length, rest) = read_u16(frame)?;
    let (_kind, rest) = rest.split_first()?;
    let (gate, rest) = read_u16(rest)?;
    let (number, rest) = read_u32(rest)?;
    let (verdict, rest) = rest.split_first()?;
    let (change, rest) = read_i32(rest)?;
    let (balance, _rest) = read_i64(rest)?;
    Some(Answer::Reply {
        gate,
        number,
        reply: Reply {
            verdict: *verdict,
            change,
            balance,
        },
    })
}

/// The fault whose fields stand behind a length and a kind.
pub(crate) fn fault_in(frame: &[u8]) -> Option<Answer>
    ensures again { (code gate number : ℕ) → AnswerFits (answers.Fault code gate number)
        → frame.now ≡ answer_frame (answers.Fault code gate number)
        → result ≡ Some (answers.Fault code gate number) }
{
    let (_length, rest) = read_u16(frame)?;
    let (_kind, rest) = rest.split_first()?;
    let (code, rest) = rest.split_first()?;
    let (gate, rest) = read_u16(rest)?;
    let (number, _rest) = read_u32(rest)?;
    Some(Answer::Fault {
        code: *code,
        gate,
        number,
    })
}

/// The number of 64 bits and of two's complement in the first eight bytes, and the bytes after it.
/// `None` where there are fewer.
fn read_i64(bytes: &[u8]) -> Option<(i64, &[u8])>
    ensures { (n : ℤ) (rest : List ℕ) → FitsSigned w64 n
        → bytes.now ≡ to_be_bytes w64 (cast_unsigned w64 n) ++ rest
        → IsSomeAnd result (λ p. (p.0 ≡ n) × (p.1.now ≡ rest)) }
{
    let (number, rest) = read_u64(bytes)?;
    Some((number.cast_signed(), rest))
}

/// The number in the first eight bytes, and the bytes after it. `None` where there are fewer.
fn read_u64(bytes: &[u8]) -> Option<(u64, &[u8])>
    ensures { (n : ℕ) (rest : List ℕ) → n < 2 ^ 64 → bytes.now ≡ to_be_bytes w64 n ++ rest
        → IsSomeAnd result (λ p. (p.0 ≡ n) × (p.1.now ≡ rest)) }
{
    let [a, b, c, d, e, f, g, h, rest @ ..] = bytes else {
        return None;
    };
    let number = u64::from_be_bytes([*a, *b, *c, *d, *e, *f, *g, *h]);
    Some((number, rest))
}

/// What an answer says of a touch: the reply that is under its gate and number.
///
/// `Stray` comes where it is under another, and `Refused` with a fault's code.
pub(crate) fn reply_to(touch: &Touch, answer: &Answer) -> Result<Reply, HearFault>
    ensures ok { IfOk result (λ reply.
        answer.now ≡ answers.Reply touch.now.gate touch.now.number reply) }
    ensures refused { (code : ℕ) → result ≡ Err (HearFault.Refused code)
        → answer.now ≡ answers.Fault code touch.now.gate touch.now.number }
    ensures stray { result ≡ Err HearFault.Stray
        → IsUnder touch.now.gate touch.now.number answer.now → ⊥ }
    ensures some { result ≡ Err HearFault.NoAnswer → ⊥ }

    // An answer under its gate and number is what is said of it.
    ensures heard { (reply : Reply)
        → answer.now ≡ answers.Reply touch.now.gate touch.now.number reply → result ≡ Ok reply }
    ensures told { (code : ℕ) → answer.now ≡ answers.Fault code touch.now.gate touch.now.number
        → result ≡ Err (HearFault.Refused code) }
{
    match answer {
        Answer::Reply {
            gate,
            number,
            reply,
        } if *gate == touch.gate && *number == touch.number => Ok(*reply),
        Answer::Fault { code, gate, number } if *gate == touch.gate && *number == touch.number => {
            Err(HearFault::Refused(*code))
        }
        _ => Err(HearFault::Stray),
    }
}
