ghost use Rattle.std.specs.Prelude.{◌≡◌, ℕ, ◌+◌, ◌<◌, ◌≤◌, List, [], ◌∷◌, ◌++◌, length, drop};
ghost use Rattle.std.specs.Fmt.{decimal, signed_decimal};
ghost use Rattle.printout.specs.Words.{shown, remark};

use itoa::write_digits;
use std::marker::Model;

// The bytes that a line has at most.
pub(crate) const ROOM: usize = 80;

// A line in the making. It grows from its end to its front, as the digits of a number do, so that each part is written where it stays:
// the bytes from `start` on.
#[derive(Drop)]
pub(crate) struct Text {
    bytes: [u8; ROOM],
    start: usize,
}

impl Model for Text {
    ghost Value = { List ℕ };

    ghost view = { λ t. drop t.start t.bytes };

    ghost invariant = { λ t. t.start ≤ 80 };
}

impl Text {
    // The byte that ends a line.
    pub(crate) fn end() -> Text
        ensures { result ≡ 10 ∷ [] }
    {
        Text {
            bytes: [b'\n'; ROOM],
            start: ROOM - 1,
        }
    }

    // The text so far.
    pub(crate) fn as_bytes(&self) -> &[u8]
        ensures { result.now ≡ self.now }
    {
        &self.bytes[self.start..]
    }

    // Puts a word before the text.
    pub(crate) fn word(&mut self, word: &str)
        requires { length word.now + length self.old ≤ ROOM }
        ensures { self.new ≡ word.now ++ self.old }
    {
        let start = self.start - word.len();
        self.bytes[start..self.start].copy_from_slice(word.as_bytes());
        self.start = start;
    }

    // Puts a blank and a number before the text.
    #[tactic(auto, using(crate::proofs::Widths::ten_digits))]
    pub(crate) fn count(&mut self, number: u32)
        requires { length self.old + 11 ≤ ROOM }
        ensures text { self.new ≡ 32 ∷ (decimal number ++ self.old) }
        ensures room { length self.new ≤ length self.old + 11 }
    {
        self.digits(number as u64);
        self.byte(b' ');
    }

    // The same, with a sign before a negative number.
    #[tactic(auto, using(crate::proofs::Widths::nineteen_digits))]
    pub(crate) fn signed(&mut self, number: i64)
        requires { length self.old + 21 ≤ ROOM }
        ensures text { self.new ≡ 32 ∷ (signed_decimal number ++ self.old) }
        ensures room { length self.new ≤ length self.old + 21 }
    {
        self.digits(number.unsigned_abs());
        if number < 0 {
            self.byte(b'-');
        }
        self.byte(b' ');
    }

    // Puts a blank and a reason before the text; nothing of an empty one.
    pub(crate) fn remark(&mut self, reason: &[u8])
        requires { length self.old + 1 + length reason.now ≤ ROOM }
        ensures text { self.new ≡ remark reason.now ++ self.old }
        ensures room { length self.new ≤ length self.old + 1 + length reason.now }
    {
        if reason.is_empty() {
            return;
        }
        let mut left = reason;
        while let [rest @ .., last] = left {
            self.byte(shown_as(*last));
            left = rest;
        }
        self.byte(b' ');
    }

    // Puts a byte before the text.
    fn byte(&mut self, byte: u8)
        requires { length self.old < ROOM }
        ensures text { self.new ≡ byte ∷ self.old }
        ensures room { length self.new ≡ 1 + length self.old }
    {
        self.start -= 1;
        self.bytes[self.start] = byte;
    }

    // Puts the digits of a number before the text.
    fn digits(&mut self, number: u64)
        requires { length (decimal number) + length self.old ≤ ROOM }
        ensures text { self.new ≡ decimal number ++ self.old }
        ensures room { length self.new ≡ length (decimal number) + length self.old }
    {
        self.start = write_digits(number, &mut self.bytes, self.start);
    }
}

// A byte as it is printed.
fn shown_as(byte: u8) -> u8
    ensures { result ≡ shown byte }
{
    match byte {
        32..=126 => byte,
        _ => b'?',
    }
}
