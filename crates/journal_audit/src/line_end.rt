//! The end of a line, which grows towards the line's beginning: a number's digits come last first,
//! so each byte is written where it stays, and a whole line is added to a text at once.

ghost use Rattle.std.specs.Prelude.{◌≡◌, ◌≤◌, ◌+◌, ◌*◌, ◌++◌, [], ℕ, List, length, drop};
ghost use Rattle.std.specs.Fmt.{decimal, signed_decimal};
ghost use Rattle.hex.specs.Hex.{encode_lower};
ghost use Rattle.journal_audit.specs.declared.line_end.TheConstants.{LINE_ROOM, NUMBER_LIMIT};
ghost use Rattle.journal_audit.specs.declared.line_end.TheConstants.{SIGNED_LIMIT};

use itoa::write_digits;
use std::marker::Model;

/// Room for a line. A row is the longest.
const LINE_ROOM: usize = 224;
/// The most digits of a number of 32 bits.
pub(crate) const NUMBER_LIMIT: usize = 10;
/// The most bytes of a signed number of 64 bits: a sign and 19 digits.
pub(crate) const SIGNED_LIMIT: usize = 20;

/// What is written of a line: its end. What is put next stands before that.
#[derive(Drop)]
pub(crate) struct LineEnd {
    bytes: [u8; LINE_ROOM],
    start: usize,
}

impl Model for LineEnd {
    ghost Value = { List ℕ };

    ghost view = { λ line. drop line.start line.bytes };

    ghost invariant = { λ line. line.start ≤ LINE_ROOM };
}

impl LineEnd {
    /// That of a line of which nothing is written.
    pub(crate) fn new() -> LineEnd
        ensures { result ≡ [] }
    {
        LineEnd {
            bytes: [0; LINE_ROOM],
            start: LINE_ROOM,
        }
    }

    /// The bytes that are written.
    pub(crate) fn as_bytes(&self) -> &[u8]
        ensures { result.now ≡ self.now }
    {
        &self.bytes[self.start..]
    }

    /// Puts bytes before it.
    #[inline(always)]
    pub(crate) fn put(&mut self, bytes: &[u8])
        requires { length bytes.now + length self.old ≤ LINE_ROOM }
        ensures text { self.new ≡ bytes.now ++ self.old }
        ensures length { length self.new ≡ length bytes.now + length self.old }
    {
        let start = self.start - bytes.len();
        self.bytes[start..self.start].copy_from_slice(bytes);
        self.start = start;
    }

    /// Puts a number before it, in decimal.
    #[tactic(auto, using(crate::proofs::LineEndLemmas::number_short))]
    pub(crate) fn put_number(&mut self, number: u32)
        requires { NUMBER_LIMIT + length self.old ≤ LINE_ROOM }
        ensures text { self.new ≡ decimal number ++ self.old }
        ensures room { length self.new ≤ NUMBER_LIMIT + length self.old }
    {
        self.put_digits(u64::from(number));
    }

    /// Puts a number before it, in decimal, behind `-` where it is negative.
    #[tactic(auto, using(crate::proofs::LineEndLemmas::amount_short))]
    pub(crate) fn put_signed(&mut self, number: i64)
        requires { SIGNED_LIMIT + length self.old ≤ LINE_ROOM }
        ensures text { self.new ≡ signed_decimal number ++ self.old }
        ensures room { length self.new ≤ SIGNED_LIMIT + length self.old }
    {
        self.put_digits(number.unsigned_abs());
        if number < 0 {
            self.put(b"-");
        }
    }

    /// Puts a number before it, in decimal, for which there is room.
    fn put_digits(&mut self, number: u64)
        requires { length (decimal number) + length self.old ≤ LINE_ROOM }
        ensures text { self.new ≡ decimal number ++ self.old }
        ensures length { length self.new ≡ length (decimal number) + length self.old }
    {
        self.start = write_digits(number, &mut self.bytes, self.start);
    }

    /// Puts bytes before it, in lower-case hexadecimal digits.
    pub(crate) fn put_hex(&mut self, bytes: &[u8])
        requires { 2 * length bytes.now + length self.old ≤ LINE_ROOM }
        ensures text { self.new ≡ encode_lower bytes.now ++ self.old }
        ensures length { length self.new ≡ 2 * length bytes.now + length self.old }
    {
        let start = self.start - 2 * bytes.len();
        match hex::encode_to_slice(bytes, &mut self.bytes[start..self.start]) {
            Ok(()) => {}
            Err(_) => unreachable!(),
        }
        self.start = start;
    }
}
