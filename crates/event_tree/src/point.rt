//! Points of 128 levels.
ghost use Rattle.std.specs.Prelude.{◌≡◌};
ghost use Rattle.event_tree.specs.PointCode.{halves_of};

use std::marker::Model;

/// A point at which trees are read: the half in which it lies at each of 128 levels, from the root down. Below these
/// levels it goes on to the left.
#[derive(Debug, Drop)]
pub struct Point {
    /// The halves of the upper 64 levels, the uppermost as the lowest bit: 0 is left, 1 is right.
    upper: u64,
    /// The halves of the 64 levels below these.
    lower: u64,
}

/// A point that an event raised, and the value there.
#[derive(Debug, Drop)]
pub struct RaisedPoint {
    /// A point of the id that had the event.
    pub point: Point,
    /// The value there after the event.
    pub value: u64,
}

impl RaisedPoint {
    /// An equal value. It takes no memory.
    pub fn share(&self) -> RaisedPoint
        ensures { result ≡ self.now }
    {
        RaisedPoint {
            point: self.point.share(),
            value: self.value,
        }
    }
}

/// How many levels a point has.
pub(crate) const LEVELS: u64 = 128;

/// How many values a word has.
const WORD: u128 = 1 << 64;

impl Model for Point {
    ghost use Rattle.trace_types.specs.clock.Points.{Point as Halves};
    ghost use Rattle.event_tree.specs.PointCode.{halves_of_words};

    ghost Value = { Halves };

    ghost view = { λ point. halves_of_words point.upper point.lower };
}

impl Point {
    /// The point whose halves are the bits of the number, with the uppermost as the lowest.
    pub(crate) fn of(halves: u128) -> Point
        ensures { result ≡ halves_of 128 halves }
    {
        Point {
            upper: (halves % WORD) as u64,
            lower: (halves / WORD) as u64,
        }
    }

    /// The number whose bits are the halves.
    pub(crate) fn halves(&self) -> u128
        ensures { halves_of 128 result ≡ self.now }
    {
        u128::from(self.upper) + WORD * u128::from(self.lower)
    }

    /// An equal point. It takes no memory.
    pub fn share(&self) -> Point
        ensures { result ≡ self.now }
    {
        Point {
            upper: self.upper,
            lower: self.lower,
        }
    }
}
