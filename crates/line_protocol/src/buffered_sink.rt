//! Buffered sinks.
ghost use Rattle.std.specs.Prelude.{◌≡◌, ◌+◌, ◌≤◌, [], ◌++◌, length, IfOk, IsTrue, OnOk, drop, vec_capacity, vec_len};
ghost use Rattle.std.specs.Io.KnownBytes.{Keeps};
ghost use Rattle.line_protocol.specs.Buffered.{held_back};
ghost use Rattle.line_protocol.specs.Calls.{sink_calls};
ghost use Rattle.line_protocol.specs.Sink.{bytes_taken, write_failure_count};
ghost use Rattle.line_protocol.specs.Source.{failure_count, interruption_count};

use crate::log::{Log, count_ending, flush_ending};
use crate::{Sink, Stop};
use std::alloc::Global;
use trace_types::Memory;

/// The most bytes that are gathered.
const ROOM: usize = 65536;

/// A sink that gathers up to 65536 bytes. It hands them on at a flush, and if there is no more room. What it holds is
/// lost if it is dropped.
#[derive(Drop)]
pub struct Buffered<W: Sink + Drop> {
    sink: W,
    /// What is held is `bytes[start..]`.
    bytes: Vec<u8>,
    start: usize,
    log: Log,
    ghost room: { 65536 ≤ vec_capacity bytes },
    ghost within: { vec_len bytes ≤ 65536 },
    ghost begins: { start ≤ vec_len bytes },
}

impl<W: Sink + Drop> Buffered<W> {
    /// The sink, with nothing held. Returns `Memory` if it runs out of memory for the 65536 bytes.
    pub fn new(alloc: Global, sink: W) -> Result<Buffered<W>, Memory>
        ensures { IfOk result (λ buffered. ⟦<Buffered<W> as Sink>⟧.seen buffered ≡ held_back [] [] (W.seen sink)) }
    {
        let bytes = Vec::with_capacity(alloc, ROOM)?;
        Ok(Buffered {
            sink,
            bytes,
            start: 0,
            log: Log::new(),
        })
    }

    /// Hands on what is held, until a call stops.
    fn hand_on(&mut self) -> Result<(), Stop>
        ensures taken { (⟦<Buffered<W> as Sink>⟧.seen self.new).bytes ≡ (⟦<Buffered<W> as Sink>⟧.seen self.old).bytes }
        ensures held { OnOk result (self.new.bytes.items ≡ []) }
        ensures failures { (W.seen self.new.sink).failures ≡ (W.seen self.old.sink).failures + failure_count result }
        ensures interruptions { (W.seen self.new.sink).interruptions
            ≡ (W.seen self.old.sink).interruptions + interruption_count result }
        ensures began { Keeps (W.seen self.old.sink).began (W.seen self.new.sink).began }
        ensures log { self.new.log.calls ≡ self.old.log.calls }
    {
        while self.start < self.bytes.len() {
            let count = self.sink.write_some(&self.bytes[self.start..])?;
            if count == 0 {
                return Err(Stop::Failed);
            }
            self.start += count;
        }
        self.bytes.clear();
        self.start = 0;
        Ok(())
    }

    /// Takes bytes from the front. It hands on what it holds first, if they have no room.
    #[inline(always)]
    fn gather(&mut self, bytes: &[u8]) -> Result<usize, Stop>
        ensures bound { IfOk result (λ n. n ≤ length bytes.now) }
        ensures taken { (⟦<Buffered<W> as Sink>⟧.seen self.new).bytes
            ≡ (⟦<Buffered<W> as Sink>⟧.seen self.old).bytes ++ bytes_taken result bytes.now }
        ensures failures { (W.seen self.new.sink).failures
            ≡ (W.seen self.old.sink).failures + write_failure_count result bytes.now }
        ensures interruptions { (W.seen self.new.sink).interruptions
            ≡ (W.seen self.old.sink).interruptions + interruption_count result }
        ensures began { Keeps (W.seen self.old.sink).began (W.seen self.new.sink).began }
        ensures log { self.new.log.calls ≡ self.old.log.calls }
    {
        if bytes.len() > ROOM - self.bytes.len() {
            self.hand_on()?;
        }
        let count = bytes.len().min(ROOM - self.bytes.len());
        match self.bytes.extend_from_slice(&bytes[..count]) {
            Ok(()) => Ok(count),
            Err(_) => Err(Stop::Failed),
        }
    }

    /// Hands on what is held, and flushes.
    fn hand_on_all(&mut self) -> Result<(), Stop>
        ensures taken { (⟦<Buffered<W> as Sink>⟧.seen self.new).bytes ≡ (⟦<Buffered<W> as Sink>⟧.seen self.old).bytes }
        ensures flushed { OnOk result (IsTrue (⟦<Buffered<W> as Sink>⟧.seen self.new).is_flushed) }
        ensures failures { (W.seen self.new.sink).failures ≡ (W.seen self.old.sink).failures + failure_count result }
        ensures interruptions { (W.seen self.new.sink).interruptions
            ≡ (W.seen self.old.sink).interruptions + interruption_count result }
        ensures began { Keeps (W.seen self.old.sink).began (W.seen self.new.sink).began }
        ensures log { self.new.log.calls ≡ self.old.log.calls }
    {
        self.hand_on()?;
        self.sink.flush()
    }
}

impl<W: Sink + Drop> Sink for Buffered<W> {
    ghost seen = { λ b. held_back (drop b.start b.bytes.items) (sink_calls b.log.calls) (W.seen b.sink) };

    #[inline]
    fn write_some(&mut self, bytes: &[u8]) -> Result<usize, Stop> {
        let outcome = self.gather(bytes);
        let count = outcome.unwrap_or(0);
        self.log
            .note(&[count_ending(outcome, bytes.len())], &bytes[..count]);
        outcome
    }

    #[inline]
    fn take_both(&mut self, text: &[u8], first_len: usize) -> bool {
        if text.len() > ROOM - self.bytes.len() || self.bytes.extend_from_slice(text).is_err() {
            return false;
        }
        self.log.note(&[0], &text[..first_len]);
        self.log.note(&[0], &text[first_len..]);
        true
    }

    fn flush(&mut self) -> Result<(), Stop> {
        let outcome = self.hand_on_all();
        self.log.note(&[flush_ending(outcome)], &[]);
        outcome
    }
}
