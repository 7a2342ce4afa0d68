//! What lines are written to.
ghost use Rattle.std.specs.Prelude.{◌≡◌, ◌≤◌, length, IfOk, MatchBool};
ghost use Rattle.line_protocol.specs.Sink.{Taken, WritesOnce, TakesBoth, FlushesOnce};

use crate::Stop;

/// A writer of bytes. Contracts also see which of its calls failed.
pub trait Sink {
    // what it took, and how its calls ended
    ghost seen: { Self → Taken };

    /// Takes bytes from the front, and returns how many. `Ok(0)` is a failure, unless there are no bytes.
    fn write_some(&mut self, bytes: &[u8]) -> Result<usize, Stop>
        ensures bound { IfOk result (λ n. n ≤ length bytes.now) }
        ensures writes { WritesOnce (seen self.old) (seen self.new) result bytes.now };

    /// Takes two texts whole, as a write of each would, and returns `true`. Else it does nothing, and returns `false`.
    /// The first text ends at `first_len`.
    fn take_both(&mut self, text: &[u8], first_len: usize) -> bool
        requires { first_len ≤ length text.now }
        ensures both { MatchBool result (TakesBoth (seen self.old) (seen self.new) first_len text.now)
            (seen self.new ≡ seen self.old) };

    /// Hands on what it has taken.
    fn flush(&mut self) -> Result<(), Stop>
        ensures flushes { FlushesOnce (seen self.old) (seen self.new) result };
}
