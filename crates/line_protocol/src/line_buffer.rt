//! Buffers, in which lines lie as they were read.
ghost use Rattle.std.specs.Prelude.{◌≡◌, ◌↔◌, ◌+◌, ◌-◌, ◌≤◌, ◌<◌, ◌^◌, IsTrue, [], false, IfOk, OnOk, OnErr, length, take, drop};
ghost use Rattle.trace_types.specs.text.Lines.{without_return};
ghost use Rattle.line_protocol.specs.Held.{fresh_held, fresh_within};
ghost use Rattle.line_protocol.specs.LineReading.{FindsNext, FindsEnd, SkipsLine, FillsOnce, NeedsRead, ReadsForLine, ReadsUntil, work_left};
ghost use Rattle.line_protocol.specs.Ends.{IsEnd, Comes, Skipped, kind_of, last_line};
ghost use Rattle.line_protocol.specs.Source.{CountsRead, LastRead, failure_count};

use crate::ends::{first_end, kind_of, length_without_return};
use crate::source::refill;
use crate::{Line, ReadFault, Source, Stop};
use std::alloc::Global;
use std::marker::Model;
use trace_types::Memory;

/// The bytes that were read and are still needed. A contract sees what a line reader holds.
#[derive(Drop)]
pub struct Buffer {
    bytes: Vec<u8>,
    /// The line that was found last is `bytes[line_start..line_end]`.
    line_start: usize,
    line_end: usize,
    /// The bytes that belong to no line yet are `bytes[start..end]`.
    start: usize,
    end: usize,
    /// The place of their first end of line.
    line_feed: Option<usize>,
    is_ended: bool,
    reads: u64,
    most_bytes: usize,
    most_reads: u64,
}

impl Model for Buffer {
    ghost use Rattle.std.specs.Prelude.{◌≡◌, ◌+◌, ◌≤◌, ◌^◌, ◌==◌, position, slice_range, vec_len};
    ghost use Rattle.line_protocol.specs.Held.{Held};

    ghost Value = { Held };

    ghost view = { λ b. record {
      line = slice_range b.bytes.items b.line_start b.line_end;
      left = slice_range b.bytes.items b.start b.end;
      is_ended = b.is_ended;
      reads = b.reads;
      bounds = record { bytes = b.most_bytes; reads = b.most_reads };
    } };

    ghost invariant = { λ b. record {
      line_from : b.line_start ≤ b.line_end;
      line_to : b.line_end ≤ vec_len b.bytes;
      left_from : b.start ≤ b.end;
      left_to : b.end ≤ vec_len b.bytes;
      room : b.most_bytes + 2 ≤ vec_len b.bytes;
      room_to : vec_len b.bytes ≤ 65538;
      reads : b.reads ≤ b.most_reads;
      most_bytes : b.most_bytes ≤ 65536;
      most_reads : b.most_reads ≤ 2 ^ 30;
      line_feed : b.line_feed ≡ position (λ byte. byte == 10) (slice_range b.bytes.items b.start b.end);
    } };
}

impl Buffer {
    /// The least room, in bytes.
    const LEAST_ROOM: usize = 65536;

    /// The most reads into one buffer.
    pub const MOST_READS: u64 = 1 << 30;

    /// The most bytes of a line of requests.
    pub(crate) const MOST_BYTES: usize = 200;

    /// A buffer that has read nothing, for requests: lines of at most 200 bytes, and at most 2^30 reads. Returns `Memory`
    /// if it runs out of memory.
    pub fn new(alloc: Global) -> Result<Buffer, Memory>
        ensures { IfOk result (λ buffer. buffer ≡ fresh_held) }
    {
        Buffer::with_bounds(alloc, Buffer::MOST_BYTES, Buffer::MOST_READS)
    }

    /// A buffer that has read nothing, for lines of at most `bytes` bytes and at most `reads` reads. Returns `Memory` if
    /// it runs out of memory.
    ///
    /// It takes 65536 bytes, or two more than the longest line if that is more.
    pub fn with_bounds(alloc: Global, bytes: usize, reads: u64) -> Result<Buffer, Memory>
        requires bytes { (1 ≤ bytes) × (bytes ≤ 65536) }
        requires reads { (1 ≤ reads) × (reads ≤ 2 ^ 30) }
        ensures { IfOk result (λ buffer. buffer ≡ fresh_within (record { bytes = bytes; reads = reads })) }
    {
        // A line of the most bytes fits with its carriage return and its end.
        let room = Buffer::LEAST_ROOM.max(bytes + 2);
        Ok(Buffer {
            bytes: vec![in alloc; 0; room]?,
            line_start: 0,
            line_end: 0,
            start: 0,
            end: 0,
            line_feed: None,
            is_ended: false,
            reads: 0,
            most_bytes: bytes,
            most_reads: reads,
        })
    }

    /// The line that was found last, without its end.
    pub fn line(&self) -> &[u8]
        ensures { result.now ≡ self.now.line }
    {
        &self.bytes[self.line_start..self.line_end]
    }

    /// Whether the next line cannot be given without a read.
    pub fn needs_read(&self) -> bool
        ensures { IsTrue result ↔ NeedsRead self.now }
    {
        !self.is_ended && self.end_of_line().is_none()
    }

    /// Finds the next line of the source. It takes no memory, and makes an interrupted read again.
    ///
    /// Returns `Read` if a read failed, and `TooLong` if all the reads that may be made into this buffer were made.
    pub fn next_line<R: Source>(&mut self, source: &mut R) -> Result<Line, ReadFault>
        ensures finds { FindsNext (R.seen source.old) (R.seen source.new) self.old self.new result }
        ensures last { OnOk result (ReadsForLine R.seen source.old source.new self.old) }
        ensures at_end { IsTrue self.old.is_ended → (source.new ≡ source.old) × IsTrue self.new.is_ended }
    {
        match self.find_end(source)? {
            Some(at) => Ok(self.take_line(at)),
            None if self.is_ended => Ok(self.take_rest()),
            None => {
                self.skip_line(source)?;
                Ok(Line::TooLong)
            }
        }
    }

    /// Reads until the line has its end, is too long, or is the last one. Gives the place of the end.
    fn find_end<R: Source>(&mut self, source: &mut R) -> Result<Option<usize>, ReadFault>
        ensures comes { Comes (R.seen source.old).bytes (R.seen source.new).bytes self.old.left self.new.left }
        ensures found { FindsEnd self.old self.new result }
        ensures last { OnOk result (ReadsForLine R.seen source.old source.new self.old) }
        ensures reads { ReadsUntil (R.seen source.old) (R.seen source.new) self.old self.new result }
        ensures at_end { IsTrue self.old.is_ended → (source.new ≡ source.old) × (self.new ≡ self.old) }
    {
        loop {
            let end = self.end_of_line();
            if end.is_some() || self.is_ended || self.left_len() > self.most_bytes + 1 {
                return Ok(end);
            }
            self.read_more(source)?;
        }
    }

    /// The place of the first end of line in the bytes that are left.
    fn end_of_line(&self) -> Option<usize>
        ensures { IsEnd self.now.left result }
    {
        self.line_feed
    }

    /// Takes the first `at` bytes that are left as a line, and the end of line after them.
    fn take_line(&mut self, at: usize) -> Line
        requires { at < length self.old.left }
        ensures line { self.new.line ≡ without_return (take at self.old.left) }
        ensures left { self.new.left ≡ drop (at + 1) self.old.left }
        ensures same { (self.new.is_ended ≡ self.old.is_ended) × (self.new.reads ≡ self.old.reads) }
        ensures bounds { self.new.bounds ≡ self.old.bounds }
        ensures kind { result ≡ kind_of self.new.bounds.bytes self.new.line }
    {
        let piece = &self.bytes[self.start..self.start + at];
        let len = length_without_return(piece);
        self.line_start = self.start;
        self.line_end = self.start + len;
        self.start += at + 1;
        self.line_feed = first_end(&self.bytes[self.start..self.end]);
        kind_of(len, self.most_bytes)
    }

    /// Takes all that is left as the last line, if there is any.
    fn take_rest(&mut self) -> Line
        ensures line { self.new.line ≡ self.old.left }
        ensures left { self.new.left ≡ [] }
        ensures same { (self.new.is_ended ≡ self.old.is_ended) × (self.new.reads ≡ self.old.reads) }
        ensures bounds { self.new.bounds ≡ self.old.bounds }
        ensures kind { result ≡ last_line self.new.bounds.bytes self.old.left }
    {
        let len = self.end - self.start;
        self.line_start = self.start;
        self.line_end = self.end;
        self.start = self.end;
        self.line_feed = None;
        if len == 0 {
            Line::End
        } else {
            kind_of(len, self.most_bytes)
        }
    }

    /// Reads on until the line that is left has its end, and keeps nothing of it.
    fn skip_line<R: Source>(&mut self, source: &mut R) -> Result<(), ReadFault>
        requires { self.old.is_ended ≡ false }
        ensures skips { SkipsLine (R.seen source.old).bytes (R.seen source.new).bytes self.new result }
        ensures last { OnOk result (LastRead R.seen source.new (Skipped (R.seen source.old).bytes)) }
        ensures less { work_left self.new + length self.old.left ≤ work_left self.old }
        ensures reads { ReadsUntil (R.seen source.old) (R.seen source.new) self.old self.new result }
    {
        while !self.is_ended {
            self.drop_left();
            self.read_more(source)?;
            if let Some(at) = self.end_of_line() {
                self.drop_front(at + 1);
                return Ok(());
            }
        }
        self.drop_left();
        Ok(())
    }

    /// How many bytes are left.
    fn left_len(&self) -> usize
        ensures { result ≡ length self.now.left }
    {
        self.end - self.start
    }

    /// Drops the first bytes that are left.
    fn drop_front(&mut self, count: usize)
        requires { count ≤ length self.old.left }
        ensures { self.new ≡ record self.old { left = drop count self.old.left } }
    {
        self.start += count;
        self.line_feed = first_end(&self.bytes[self.start..self.end]);
    }

    /// Drops the bytes that are left.
    fn drop_left(&mut self)
        ensures { self.new ≡ record self.old { left = [] } }
    {
        self.start = self.end;
        self.line_feed = None;
    }

    /// Reads once. An interrupted read is made again.
    fn read_more<R: Source>(&mut self, source: &mut R) -> Result<(), ReadFault>
        requires room { length self.old.left ≤ self.old.bounds.bytes + 1 }
        requires open { self.old.is_ended ≡ false }
        ensures comes { Comes (R.seen source.old).bytes (R.seen source.new).bytes self.old.left self.new.left }
        ensures same { OnErr result (self.new.left ≡ self.old.left) }
        ensures progress { OnOk result (self.old.reads < self.new.reads) }
        ensures last { OnOk result (LastRead R.seen source.new (λ given. given ≡ (R.seen source.old).bytes)) }
        ensures reads { ReadsUntil (R.seen source.old) (R.seen source.new) self.old self.new result }
    {
        while self.reads < self.most_reads {
            match self.fill(source) {
                Ok(()) => return Ok(()),
                Err(Stop::Interrupted) => {}
                Err(Stop::Failed) => return Err(ReadFault::Read),
            }
        }
        Err(ReadFault::TooLong)
    }

    /// Makes one read into all free room, with what is left moved to the front.
    fn fill<R: Source>(&mut self, source: &mut R) -> Result<(), Stop>
        requires room { length self.old.left ≤ self.old.bounds.bytes + 1 }
        requires open { self.old.is_ended ≡ false }
        requires reads { self.old.reads < self.old.bounds.reads }
        ensures comes { Comes (R.seen source.old).bytes (R.seen source.new).bytes self.old.left self.new.left }
        ensures read { CountsRead (R.seen source.old) (R.seen source.new) (failure_count result) self.new.is_ended }
        ensures held { FillsOnce self.old self.new result }
    {
        let kept = self.end - self.start;
        let count = refill(&mut self.bytes, self.start, self.end, source);
        self.start = 0;
        self.end = kept;
        self.line_start = 0;
        self.line_end = 0;
        self.reads += 1;
        self.line_feed = first_end(&self.bytes[..self.end]);
        let count = count?;
        self.end += count;
        self.line_feed = first_end(&self.bytes[..self.end]);
        self.is_ended = count == 0;
        Ok(())
    }
}
