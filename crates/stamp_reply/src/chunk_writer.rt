//! Texts that are taken piece by piece and written in chunks.
ghost use Rattle.std.specs.Prelude.{◌≡◌, ◌+◌, ◌<◌, ◌≤◌, [], ◌∷◌, IfSome, MatchOption, length};
ghost use Rattle.line_protocol.specs.Patience.{waits_since_bytes};
ghost use Rattle.stamp_reply.specs.Chunks.{GathersOn, StopsGathering};

use crate::chunk::Chunk;
use line_protocol::{MOST_INTERRUPTIONS, Sink, write_piece};
use stamp_codec::TakeBytes;

/// Takes the bytes of one text, and writes them to a sink in chunks.
#[derive(Drop)]
pub(crate) struct ChunkWriter<'a, W> {
    writer: &'a mut W,
    /// How many more interruptions end the writing. It is 0 once they have.
    patience: u64,
    /// What was taken and is not written yet.
    chunk: Chunk,
}

impl<'a, W: Sink> ChunkWriter<'a, W> {
    /// Nothing is taken yet.
    #[inline(always)]
    pub(crate) fn new(writer: &'a mut W) -> ChunkWriter<'a, W>
        ensures same_writer { result.writer.ghost_name ≡ writer.entry.ghost_name }
        ensures writer { result.writer.now ≡ writer.old }
        ensures patience { result.patience ≡ 1048576 }
        ensures none { result.chunk ≡ [] }
    {
        ChunkWriter {
            writer,
            patience: MOST_INTERRUPTIONS,
            chunk: Chunk::new(),
        }
    }

    /// Takes the last byte of the text, and writes what is not written yet.
    pub(crate) fn end_with(&mut self, byte: u8) -> Option<()>
        ensures gathers { MatchOption result (StopsGathering W.seen self.old self.new (byte ∷ [])) (λ _. GathersOn W.seen self.old self.new (byte ∷ [])) }
        ensures all { IfSome result (λ _. self.new.chunk ≡ []) }
        ensures no_wait { IfSome result (λ _. waits_since_bytes (W.seen self.new.writer.now).calls ≡ 0) }
    {
        self.hold(&[byte])?;
        self.write_held()
    }

    /// Holds these bytes. It makes room for them first if they have none, and else it writes nothing.
    #[inline(always)]
    fn hold(&mut self, bytes: &[u8]) -> Option<()>
        requires { length bytes.now ≤ 1024 }
        ensures gathers { MatchOption result (StopsGathering W.seen self.old self.new bytes.now) (λ _. GathersOn W.seen self.old self.new bytes.now) }
        ensures held { IfSome result (λ _. length bytes.now ≤ length self.new.chunk) }
        ensures no_write { length self.old.chunk + length bytes.now ≤ 1024 → W.seen self.new.writer.now ≡ W.seen self.old.writer.now }
    {
        if !self.chunk.has_room(bytes.len()) {
            self.write_held()?;
        }
        self.chunk.push(bytes);
        Some(())
    }

    /// Writes what is held, so that there is room again.
    #[inline(never)]
    fn write_held(&mut self) -> Option<()>
        ensures gathers { MatchOption result (StopsGathering W.seen self.old self.new []) (λ _. GathersOn W.seen self.old self.new []) }
        ensures all { IfSome result (λ _. self.new.chunk ≡ []) }
        ensures patience { IfSome result (λ _. 0 < self.new.patience) }
        ensures no_wait { IfSome result (λ _. 0 < length self.old.chunk → waits_since_bytes (W.seen self.new.writer.now).calls ≡ 0) }
    {
        if self.patience == 0 {
            return None;
        }
        write_piece(self.writer, &mut self.patience, self.chunk.as_bytes()).ok()?;
        self.chunk.clear();
        Some(())
    }
}

impl<'a, W: Sink> TakeBytes for ChunkWriter<'a, W> {
    ghost use Rattle.stamp_reply.specs.Chunks.{GathersOn, StopsGathering};
    ghost use Rattle.stamp_reply.specs.Chunking.{GathersOn-both, StopsGathering-front, StopsGathering-others};

    ghost takes = { λ before after bytes. GathersOn W.seen before after bytes };

    ghost refuses = { λ before after bytes. StopsGathering W.seen before after bytes };

    #[inline(always)]
    fn take_one(&mut self, byte: u8) -> Option<()> {
        self.hold(&[byte])
    }

    #[inline(always)]
    fn take_two(&mut self, byte: u8, next: u8) -> Option<()> {
        self.hold(&[byte, next])
    }

    fn take_all(&mut self, bytes: &[u8]) -> Option<()> {
        if bytes.len() <= Chunk::ROOM {
            return self.hold(bytes);
        }
        self.write_held()?;
        write_piece(self.writer, &mut self.patience, bytes).ok()
    }

    ghost takes_both = { λ before between after first others taken more. GathersOn-both first others taken more };

    ghost refuses_front = { λ before after first others stops. StopsGathering-front first others stops };

    ghost refuses_others = { λ before between after first others taken stops. StopsGathering-others first others taken stops };
}
