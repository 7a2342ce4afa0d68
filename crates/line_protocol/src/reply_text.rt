//! Short texts on the stack.
ghost use Rattle.std.specs.Prelude.{◌≡◌, ◌+◌, ◌<◌, ◌≤◌, [], ◌++◌, length, decimal};

use itoa::Buffer;
use std::marker::Model;

/// A text of at most 128 bytes, in which a reply is gathered.
#[derive(Drop)]
pub(crate) struct ReplyText {
    bytes: [u8; ReplyText::ROOM],
    /// The text is `bytes[..len]`.
    len: usize,
}

impl Model for ReplyText {
    ghost use Rattle.std.specs.Prelude.{◌≤◌, ℕ, List, take};

    ghost Value = { List ℕ };

    ghost view = { λ t. take t.len t.bytes };

    ghost invariant = { λ t. t.len ≤ 128 };
}

impl ReplyText {
    /// The most bytes.
    pub(crate) const ROOM: usize = 128;

    /// No text yet.
    #[inline(always)]
    pub(crate) fn new() -> ReplyText
        ensures { result ≡ [] }
    {
        ReplyText {
            bytes: [0; ReplyText::ROOM],
            len: 0,
        }
    }

    /// How many bytes there are.
    #[inline(always)]
    pub(crate) fn len(&self) -> usize
        ensures { result ≡ length self.now }
    {
        self.len
    }

    /// The bytes of the text.
    #[inline(always)]
    pub(crate) fn as_bytes(&self) -> &[u8]
        ensures text { result.now ≡ self.now }
        ensures short { length self.now ≤ 128 }
    {
        &self.bytes[..self.len]
    }

    /// Takes all bytes away.
    #[inline(always)]
    pub(crate) fn clear(&mut self)
        ensures { self.new ≡ [] }
    {
        self.len = 0;
    }

    /// Adds these bytes.
    #[inline(always)]
    pub(crate) fn push(&mut self, piece: &[u8])
        requires { length self.old + length piece.now ≤ 128 }
        ensures { self.new ≡ self.old ++ piece.now }
    {
        let end = self.len + piece.len();
        self.bytes[self.len..end].copy_from_slice(piece);
        self.len = end;
    }

    /// Adds at most 4 bytes, and a number after them.
    #[inline(always)]
    pub(crate) fn push_before_number(&mut self, piece: &[u8], number: u64)
        requires piece { length piece.now ≤ 4 }
        requires room { length self.old ≤ 104 }
        ensures text { self.new ≡ self.old ++ (piece.now ++ decimal number) }
        ensures short { length self.new ≤ length self.old + (length piece.now + 20) }
    {
        self.push(piece);
        self.push_number(number);
    }

    /// Adds a number in decimal digits.
    #[inline(always)]
    pub(crate) fn push_number(&mut self, number: u64)
        requires { length self.old ≤ 108 }
        ensures text { self.new ≡ self.old ++ decimal number }
        ensures short { length self.new ≤ length self.old + 20 }
    {
        if number < 10 {
            self.push(&[b'0' + number as u8]);
        } else {
            self.push_digits(number);
        }
    }

    /// Adds the digits of a number of two digits or more. Up to four are made here, which is what most numbers have.
    fn push_digits(&mut self, number: u64)
        requires many { 10 ≤ number }
        requires room { length self.old ≤ 108 }
        ensures text { self.new ≡ self.old ++ decimal number }
        ensures short { length self.new ≤ length self.old + 20 }
    {
        let (tens, last) = (number / 10, digit(number % 10));
        if tens < 10 {
            return self.push(&[digit(tens), last]);
        }
        let (hundreds, third) = (tens / 10, digit(tens % 10));
        if hundreds < 10 {
            return self.push(&[digit(hundreds), third, last]);
        }
        let (thousands, second) = (hundreds / 10, digit(hundreds % 10));
        if thousands < 10 {
            return self.push(&[digit(thousands), second, third, last]);
        }
        self.push_long(number);
    }

    /// Adds the digits of a number.
    #[inline(never)]
    fn push_long(&mut self, number: u64)
        requires { length self.old ≤ 108 }
        ensures text { self.new ≡ self.old ++ decimal number }
        ensures short { length self.new ≤ length self.old + 20 }
    {
        let mut digits = Buffer::new();
        self.push(digits.format(number).as_bytes());
    }
}

/// The character of a digit.
#[inline(always)]
fn digit(value: u64) -> u8
    requires { value < 10 }
    ensures { result ≡ 48 + value }
{
    b'0' + value as u8
}
