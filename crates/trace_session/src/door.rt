//! Doors, from which connections come.
ghost use Rattle.std.specs.Prelude.{◌≡◌, ◌+◌, ◌≤◌, ℕ, IfOk, IfNone, MatchResult, MatchOption};

use line_protocol::{Sink, Source};
use std::sync::Wait;
use thiserror::Error;

/// The fault of a door: no connection could be accepted.
#[derive(Clone, Copy, Debug, PartialEq, Eq, Error)]
#[error("accept fault")]
pub struct DoorFault;

/// Gives connections, one after another.
pub trait Door {
    /// What a connection is read from.
    type Reader: Source + Drop + Send;

    /// What is written to it.
    type Writer: Sink + Drop + Send;

    // how many connections it gave
    ghost given: { Self → ℕ };

    // how often it failed
    ghost failures: { Self → ℕ };

    // how many connections it is to give before it closes, where that is known
    ghost most: { Self → ℕ } = { λ _. 0 };

    /// The next connection, or `None` if no more will come. It may wait for one.
    fn accept<R: Wait>(&mut self, rt: &R) -> Result<Option<(Self::Reader, Self::Writer)>, DoorFault>
        ensures given { MatchResult result
            (λ came. MatchOption came (given self.new ≡ given self.old) (λ _. given self.new ≡ given self.old + 1))
            (λ _. given self.new ≡ given self.old) }
        ensures failures { MatchResult result (λ _. failures self.new ≡ failures self.old) (λ _. failures self.new ≡ failures self.old + 1) }
        ensures most { most self.new ≡ most self.old }
        ensures closed { failures self.old ≡ 0 → IfOk result (λ came. IfNone came (most self.new ≤ given self.new)) };
}
