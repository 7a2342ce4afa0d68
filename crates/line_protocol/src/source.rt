//! What lines are read from.
ghost use Rattle.std.specs.Prelude.{◌+◌, ◌-◌, ◌≤◌, ◌<◌, IfOk, length, slice_range, take};
ghost use Rattle.line_protocol.specs.Ends.{Comes};
ghost use Rattle.line_protocol.specs.Source.{CountsRead, Given, ReadsOnce, bytes_read, failure_count, gives_none};

use crate::Stop;

/// A reader of bytes. Contracts also see which of its calls failed.
pub trait Source {
    // what it gave, and how its reads ended
    ghost seen: { Self → Given };

    /// Reads into the front of the buffer, and returns how many bytes. `Ok(0)` is the end of the input, unless the buffer
    /// has no room.
    fn read_some(&mut self, buffer: &mut [u8]) -> Result<usize, Stop>
        ensures bound { IfOk result (λ n. n ≤ length buffer.new) }
        ensures reads { ReadsOnce (seen self.old) (seen self.new) result buffer.new };
}

/// Moves the bytes from `start` to `end` to the front, and makes one read into all the room behind them.
pub(crate) fn refill<R: Source>(
    bytes: &mut [u8],
    start: usize,
    end: usize,
    source: &mut R,
) -> Result<usize, Stop>
    requires from { start ≤ end }
    requires to { end ≤ length bytes.old }
    requires room { end - start < length bytes.old }
    ensures bound { IfOk result (λ n. end - start + n ≤ length bytes.old) }
    ensures comes { Comes (R.seen source.old).bytes (R.seen source.new).bytes (slice_range bytes.old start end)
        (take (end - start + bytes_read result) bytes.new) }
    ensures read { CountsRead (R.seen source.old) (R.seen source.new) (failure_count result) (gives_none result) }
{
    bytes.copy_within(start..end, 0);
    source.read_some(&mut bytes[end - start..])
}
