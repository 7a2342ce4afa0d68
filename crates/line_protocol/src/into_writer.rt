//! Writers, as sinks.
ghost use Rattle.std.specs.Prelude.{◌≡◌, ◌≤◌, [], ◌++◌, false, length, IfOk, IfSome, Some};
ghost use Rattle.std.specs.Io.KnownBytes.{Keeps, WriteAppends};
ghost use Rattle.line_protocol.specs.Calls.{taken_by};
ghost use Rattle.line_protocol.specs.Sink.{WritesOnce, FlushesOnce};

use crate::log::{Log, count_ending, flush_ending};
use crate::stop::{stopped, stopped_count};
use crate::{Sink, Stop};
use std::io::Write;

/// A writer as a sink. Its calls are counted for contracts alone.
#[derive(Drop)]
pub struct IntoWriter<W: Write + Drop> {
    writer: W,
    log: Log,
}

impl<W: Write + Drop> IntoWriter<W> {
    /// The writer, of which no call is counted yet.
    pub fn new(writer: W) -> IntoWriter<W>
        ensures seen { ⟦<IntoWriter<W> as Sink>⟧.seen result
            ≡ record { bytes = []; began = W.contents writer; is_flushed = false; failures = 0; interruptions = 0; calls = [] } }
        ensures writer { result.writer ≡ writer }
    {
        IntoWriter {
            writer,
            log: Log::new(),
        }
    }

    /// Gives the writer back. It has what it had at first and all that was taken since.
    pub fn into_inner(self) -> W
        ensures holds { IfSome (⟦<IntoWriter<W> as Sink>⟧.seen self).began
            (λ first. W.contents result ≡ Some (first ++ (⟦<IntoWriter<W> as Sink>⟧.seen self).bytes)) }
    {
        self.writer
    }
}

impl<W: Write + Drop> Sink for IntoWriter<W> {
    ghost seen = { λ s. taken_by (W.contents s.writer) s.log.calls };

    fn write_some(&mut self, bytes: &[u8]) -> Result<usize, Stop>
        ensures bound { IfOk result (λ n. n ≤ length bytes.now) }
        ensures writes { WritesOnce (taken_by (W.contents self.old.writer) self.old.log.calls) (taken_by (W.contents self.new.writer) self.new.log.calls) result bytes.now }
        // What was taken is what the writer's own bytes grew by.
        ensures bytes { WriteAppends (W.contents self.old.writer) (W.contents self.new.writer) result bytes.now }
    {
        let outcome = stopped_count(self.writer.write(bytes));
        let count = outcome.unwrap_or(0);
        self.log
            .note(&[count_ending(outcome, bytes.len())], &bytes[..count]);
        outcome
    }

    fn take_both(&mut self, _text: &[u8], _first_len: usize) -> bool {
        false
    }

    fn flush(&mut self) -> Result<(), Stop>
        ensures flushes { FlushesOnce (taken_by (W.contents self.old.writer) self.old.log.calls) (taken_by (W.contents self.new.writer) self.new.log.calls) result }
        ensures bytes { Keeps (W.contents self.old.writer) (W.contents self.new.writer) }
    {
        let outcome = stopped(self.writer.flush());
        self.log.note(&[flush_ending(outcome)], &[]);
        outcome
    }
}
