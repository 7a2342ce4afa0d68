//! Readers, as sources.
ghost use Rattle.std.specs.Prelude.{◌≡◌, ◌≤◌, [], false, length, IfOk};
ghost use Rattle.std.specs.Io.KnownBytes.{ReadConsumes};
ghost use Rattle.line_protocol.specs.Calls.{given_by};
ghost use Rattle.line_protocol.specs.Source.{ReadsOnce};

use crate::log::{Log, count_ending};
use crate::stop::stopped_count;
use crate::{Source, Stop};
use std::io::Read;

/// A reader as a source. Its calls are counted for contracts alone.
#[derive(Drop)]
pub struct FromReader<R: Read + Drop> {
    reader: R,
    log: Log,
}

impl<R: Read + Drop> FromReader<R> {
    /// The reader, of which no call is counted yet.
    pub fn new(reader: R) -> FromReader<R>
        ensures seen { ⟦<FromReader<R> as Source>⟧.seen result
            ≡ record { bytes = []; whole = R.remaining reader; has_ended = false; ends = 0; reads = 0; failures = 0; interruptions = 0 } }
        ensures reader { result.reader ≡ reader }
    {
        FromReader {
            reader,
            log: Log::new(),
        }
    }
}

impl<R: Read + Drop> Source for FromReader<R> {
    ghost seen = { λ s. given_by s.log.calls (R.remaining s.reader) };

    fn read_some(&mut self, buffer: &mut [u8]) -> Result<usize, Stop>
        ensures bound { IfOk result (λ n. n ≤ length buffer.new) }
        ensures reads { ReadsOnce (given_by self.old.log.calls (R.remaining self.old.reader))
            (given_by self.new.log.calls (R.remaining self.new.reader)) result buffer.new }
        // The reader's own bytes are those that were given.
        ensures bytes { ReadConsumes (R.remaining self.old.reader) (R.remaining self.new.reader) result buffer.new }
    {
        let outcome = stopped_count(self.reader.read(buffer));
        let count = outcome.unwrap_or(0);
        self.log
            .note(&[count_ending(outcome, buffer.len())], &buffer[..count]);
        outcome
    }
}
