//! Cursors over the text of a stamp.
ghost use Rattle.std.specs.Prelude.{◌≡◌, ℕ, ◌+◌, ◌^◌, ◌<◌, ◌≤◌, false, List, ◌∷◌, ◌++◌, length, drop, slice_index_or, None, IfOk, IsTrue};
ghost use Rattle.stamp_codec.specs.StampText.{IsWrittenNumber};
ghost use Rattle.stamp_codec.specs.Faults.{greatest_sum};
ghost use Rattle.stamp_codec.specs.Looks.{ReadsNumber, IsFirstWith};
ghost use Rattle.stamp_codec.specs.Scan.{is_digit_byte};

use crate::taking::take_number;

/// What is left of a text, and what was found on the way there.
#[derive(Drop)]
pub struct Cursor<'a> {
    rest: &'a [u8],
    /// How many bytes of the text come before the rest.
    pub place: usize,
    /// The place of the first node so far that is not normal.
    pub uneven: Option<usize>,
}

impl<'a> Cursor<'a> {
    /// A cursor at the start of the text.
    pub fn new(text: &'a [u8]) -> Cursor<'a>
        ensures rest { result.rest.now ≡ text.now }
        ensures place { result.place ≡ 0 }
        ensures uneven { result.uneven ≡ None }
    {
        Cursor {
            rest: text,
            place: 0,
            uneven: None,
        }
    }

    /// The next byte, or 0 at the end of the text.
    pub fn first(&self) -> u8
        ensures { result ≡ slice_index_or self.now.rest.now 0 0 }
    {
        match self.rest {
            [first, ..] => *first,
            [] => 0,
        }
    }

    /// Goes behind the next byte, if there is one.
    pub fn skip(&mut self)
        requires { self.old.place + length self.old.rest.now < 2 ^ 64 }
        ensures rest { self.new.rest.now ≡ drop 1 self.old.rest.now }
        ensures end { self.new.place + length self.new.rest.now ≡ self.old.place + length self.old.rest.now }
        ensures uneven { self.new.uneven ≡ self.old.uneven }
    {
        if let [_, rest @ ..] = self.rest {
            self.rest = rest;
            self.place += 1;
        }
    }

    /// Goes behind the number that comes next and this byte behind it. It is an error if the number is above `most`, which
    /// gives the place of the number.
    pub fn number(&mut self, end: u8, most: u64) -> Result<u64, usize>
        requires fits { self.old.place + length self.old.rest.now < 2 ^ 64 }
        requires most { most ≤ greatest_sum }
        requires end { is_digit_byte end ≡ false }
        ensures exact { (digits behind : List ℕ) → IsWrittenNumber digits → self.old.rest.now ≡ digits ++ (end ∷ behind)
            → ReadsNumber result most digits self.old.place self.new.rest.now behind }
        ensures small { IfOk result (λ number. number ≤ most) }
        ensures end { IfOk result (λ _. self.new.place + length self.new.rest.now ≡ self.old.place + length self.old.rest.now) }
        ensures uneven { self.new.uneven ≡ self.old.uneven }
    {
        let before = self.rest.len();
        match take_number(&mut self.rest, end, most) {
            Ok(number) => {
                self.place += before - self.rest.len();
                Ok(number)
            }
            Err(_) => Err(self.place),
        }
    }

    /// Notes that the node at `start` is not normal, if that is so.
    pub fn note(&mut self, start: usize, is_uneven: bool)
        ensures rest { self.new.rest.now ≡ self.old.rest.now }
        ensures place { self.new.place ≡ self.old.place }
        ensures uneven { IsFirstWith self.old.uneven (λ place. IsTrue is_uneven × (place ≡ start)) self.new.uneven }
    {
        if !is_uneven {
            return;
        }
        match self.uneven {
            Some(earlier) if earlier <= start => {}
            _ => self.uneven = Some(start),
        }
    }
}
