//! The next line, for which what was written is flushed before it is waited for.
ghost use Rattle.std.specs.Prelude.{◌≡◌, IsTrue, OnOk, MatchResult};
ghost use Rattle.line_protocol.specs.HandingOn.{FindsBehind, HandsOnBefore, KeepsAll};
ghost use Rattle.line_protocol.specs.LineReading.{NeedsRead, ReadsForLine};
ghost use Rattle.line_protocol.specs.Writing.{StopsHandingOn};
ghost use Rattle.line_protocol.specs.declared.flushing.LineFault.TheVariants as variants;

use crate::{Buffer, Line, ReadFault, Sink, Source, WriteFault, flush};
use thiserror::Error;

/// Why no next line is found.
#[derive(Clone, Copy, Debug, PartialEq, Eq, Error)]
pub enum LineFault {
    /// It could not be read. All that was written was flushed before.
    #[error("{0}")]
    Read(ReadFault),
    /// The flush before a read failed, or was interrupted 1048576 times. Nothing was read.
    #[error("write")]
    Write,
}

impl From<WriteFault> for LineFault {
    ghost from_gives = { λ _ line_fault. line_fault ≡ variants.Write };

    fn from(_fault: WriteFault) -> LineFault {
        LineFault::Write
    }
}

impl Buffer {
    /// Finds the next line of the source, as [`Buffer::next_line`] does. It flushes the writer first if that line needs a
    /// read, so nothing is held back while the source is waited for.
    ///
    /// Returns `Write` if the flush failed, and then reads nothing.
    #[inline]
    pub fn next_line_flushing<R: Source, W: Sink>(
        &mut self,
        source: &mut R,
        writer: &mut W,
    ) -> Result<Line, LineFault>
        ensures finds { FindsBehind R.seen source.old source.new self.old self.new result }
        ensures last { OnOk result (ReadsForLine R.seen source.old source.new self.old) }
        ensures at_end { IsTrue self.old.is_ended → (source.new ≡ source.old) × IsTrue self.new.is_ended }
        ensures handed_on { HandsOnBefore self.old result (W.seen writer.old) (W.seen writer.new) }
    {
        self.flush_before_read(writer)?;
        match self.next_line(source) {
            Ok(line) => Ok(line),
            Err(fault) => Err(LineFault::Read(fault)),
        }
    }

    /// Flushes what was written, if the next line needs a read.
    #[inline]
    fn flush_before_read<W: Sink>(&self, writer: &mut W) -> Result<(), WriteFault>
        ensures kept { ¬ NeedsRead self.now → W.seen writer.new ≡ W.seen writer.old }
        ensures flushed { OnOk result (NeedsRead self.now → IsTrue (W.seen writer.new).is_flushed) }
        ensures handed_on { MatchResult result
            (λ _. KeepsAll (W.seen writer.old) (W.seen writer.new)) (λ _. StopsHandingOn (W.seen writer.old) (W.seen writer.new)) }
    {
        if self.needs_read() {
            flush(writer)
        } else {
            Ok(())
        }
    }
}
