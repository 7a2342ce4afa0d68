//! Gates, which let the lines of sessions out.
ghost use Rattle.std.specs.Prelude.{ℕ, MatchBool};

use std::sync::Wait;

/// Lets the lines of sessions out, or holds them back.
pub trait Gate {
    // it may let out a line of the session of this number
    ghost lets_out: { Self → ℕ → Type 0 } = { λ _ _. Unit {0} };

    // it may hold back a line of the session of this number
    ghost holds_back: { Self → ℕ → Type 0 } = { λ _ _. Unit {0} };

    /// Says whether a line of the session of this number may be written. It is asked before each line, and may wait. At
    /// `false` the line is not written, and the session ends with `Gate`.
    fn before_reply<R: Wait>(&self, rt: &R, number: u64) -> bool
        ensures { MatchBool result (lets_out self.now number) (holds_back self.now number) };
}

/// Lets each line out.
pub struct OpenGate;

impl Gate for OpenGate {
    ghost holds_back = { λ _ _. ⊥ };

    fn before_reply<R: Wait>(&self, _rt: &R, _number: u64) -> bool {
        true
    }
}
