//! Line readers, which remember their fault.
ghost use Rattle.std.specs.Prelude.{◌≡◌, ◌≤◌, ◌^◌, ◌↔◌, IsTrue, [], false, None, Err, IfOk, IfSome, IfNone};
ghost use Rattle.std.specs.Result.{result_err};
ghost use Rattle.line_protocol.specs.HandingOn.{FindsBehind, HandsOnBefore, read_fault_in};
ghost use Rattle.line_protocol.specs.Held.{fresh_held, fresh_within};
ghost use Rattle.line_protocol.specs.LineReading.{FindsNext, NeedsRead};

use crate::line_buffer::Buffer;
use crate::{Line, LineFault, Sink, Source};
use std::alloc::Global;
use thiserror::Error;
use trace_types::Memory;

/// Why a line reader gives no line. It gives none from then on.
#[derive(Clone, Copy, Debug, PartialEq, Eq, Error)]
pub enum ReadFault {
    /// A read failed.
    #[error("read")]
    Read,
    /// All the reads that the line reader may make were made, 2^30 for requests.
    #[error("input too long")]
    TooLong,
}

/// Reads lines from a source that it borrows. After a fault it returns that fault again, and reads no more.
///
/// The buffer is a parameter so that a caller's proof knows the source once the line reader is dropped.
pub struct LineReader<'a, R: Source, B: Drop = Buffer> {
    source: &'a mut R,
    buffer: B,
    fault: Option<ReadFault>,
}

impl<'a, R: Source, B: Drop> Drop for LineReader<'a, R, B> {
    fn drop(self)
        ensures { self.exit.0.now ≡ self.entry.source.now }
    {
        let LineReader {
            source: _source,
            buffer: _buffer,
            fault: _fault,
        } = self;
    }
}

impl<'a, R: Source> LineReader<'a, R> {
    /// A line reader that has read nothing, for requests: lines of at most 200 bytes, and at most 2^30 reads. Returns
    /// `Memory` if it runs out of memory.
    pub fn new(alloc: Global, source: &'a mut R) -> Result<LineReader<'a, R>, Memory>
        ensures same_source { IfOk result (λ reader. reader.source.ghost_name ≡ source.entry.ghost_name) }
        ensures source { IfOk result (λ reader. reader.source.now ≡ source.old) }
        ensures held { IfOk result (λ reader. reader.buffer ≡ fresh_held) }
        ensures fault { IfOk result (λ reader. reader.fault ≡ None) }
    {
        LineReader::with_bounds(alloc, source, Buffer::MOST_BYTES, Buffer::MOST_READS)
    }

    /// A line reader that has read nothing, for lines of at most `bytes` bytes and at most `reads` reads. Returns
    /// `Memory` if it runs out of memory.
    pub fn with_bounds(
        alloc: Global,
        source: &'a mut R,
        bytes: usize,
        reads: u64,
    ) -> Result<LineReader<'a, R>, Memory>
        requires bytes { (1 ≤ bytes) × (bytes ≤ 65536) }
        requires reads { (1 ≤ reads) × (reads ≤ 2 ^ 30) }
        ensures same_source { IfOk result (λ reader. reader.source.ghost_name ≡ source.entry.ghost_name) }
        ensures source { IfOk result (λ reader. reader.source.now ≡ source.old) }
        ensures held { IfOk result (λ reader. reader.buffer ≡ fresh_within (record { bytes = bytes; reads = reads })) }
        ensures fault { IfOk result (λ reader. reader.fault ≡ None) }
    {
        let buffer = Buffer::with_bounds(alloc, bytes, reads)?;
        Ok(LineReader::over(source, buffer))
    }

    /// A line reader that takes its lines from the buffer first, and then from the source. It takes no memory.
    pub fn over(source: &'a mut R, buffer: Buffer) -> LineReader<'a, R>
        ensures same_source { result.source.ghost_name ≡ source.entry.ghost_name }
        ensures source { result.source.now ≡ source.old }
        ensures held { result.buffer ≡ buffer }
        ensures fault { result.fault ≡ None }
    {
        LineReader {
            source,
            buffer,
            fault: None,
        }
    }

    /// Finds the next line, which [`LineReader::line`] then lends. It takes no memory.
    ///
    /// Returns `Read` if a read failed, and `TooLong` if all the reads that may be made were made.
    pub fn next(&mut self) -> Result<Line, ReadFault>
        ensures same_source { self.new.source.ghost_name ≡ self.old.source.ghost_name }
        // What is found is the first line of what was left and came. A fault loses no line that has its end.
        ensures finds { IfNone self.old.fault
            (FindsNext (R.seen self.old.source.now) (R.seen self.new.source.now) self.old.buffer self.new.buffer result) }
        // A fault is answered again, and then nothing changes.
        ensures fault { self.new.fault ≡ result_err result }
        ensures again { IfSome self.old.fault (λ fault. (result ≡ Err fault)
            × (self.new.source.now ≡ self.old.source.now) × (self.new.buffer ≡ self.old.buffer)) }
        // Once the source has told the end, it is read no more.
        ensures at_end { IsTrue self.old.buffer.is_ended →
            (self.new.source.now ≡ self.old.source.now) × IsTrue self.new.buffer.is_ended }
    {
        if let Some(fault) = self.fault {
            return Err(fault);
        }
        let found = self.buffer.next_line(self.source);
        if let Err(fault) = found {
            self.fault = Some(fault);
        }
        found
    }

    /// Finds the next line, as [`LineReader::next`] does. It flushes the writer first if that line needs a read, so
    /// nothing is held back while the source is waited for.
    ///
    /// Returns `Write` if the flush failed, and then reads nothing. It may be called again after that fault.
    pub fn next_flushing<W: Sink>(&mut self, writer: &mut W) -> Result<Line, LineFault>
        ensures same_source { self.new.source.ghost_name ≡ self.old.source.ghost_name }
        ensures finds { IfNone self.old.fault
            (FindsBehind R.seen self.old.source.now self.new.source.now self.old.buffer self.new.buffer result) }
        ensures handed_on { IfNone self.old.fault
            (HandsOnBefore self.old.buffer result (W.seen writer.old) (W.seen writer.new)) }
        // A fault of reading is answered again, and then nothing changes.
        ensures fault { self.new.fault ≡ read_fault_in result }
        ensures again { IfSome self.old.fault (λ fault. (result ≡ Err (LineFault.Read fault)) × (writer.new ≡ writer.old)
            × (self.new.source.now ≡ self.old.source.now) × (self.new.buffer ≡ self.old.buffer)) }
        // Once the source has told the end, it is read no more.
        ensures at_end { IsTrue self.old.buffer.is_ended →
            (self.new.source.now ≡ self.old.source.now) × IsTrue self.new.buffer.is_ended }
    {
        if let Some(fault) = self.fault {
            return Err(LineFault::Read(fault));
        }
        let found = self.buffer.next_line_flushing(self.source, writer);
        if let Err(LineFault::Read(fault)) = found {
            self.fault = Some(fault);
        }
        found
    }

    /// Whether the next line cannot be given without a read.
    pub fn needs_read(&self) -> bool
        ensures { IsTrue result ↔ NeedsRead self.now.buffer }
    {
        self.buffer.needs_read()
    }

    /// The fault that is returned from now on, if there was one.
    pub fn fault(&self) -> Option<ReadFault>
        ensures { result ≡ self.now.fault }
    {
        self.fault
    }

    /// The line that was found last, without its end.
    pub fn line(&self) -> &[u8]
        ensures { result.now ≡ self.now.buffer.line }
    {
        self.buffer.line()
    }
}
