//! Texts on the stack that are written in one piece.
ghost use Rattle.std.specs.Prelude.{◌≡◌, ◌↔◌, ◌+◌, ◌≤◌, [], ◌++◌, IsTrue, length};

use std::marker::Model;

/// A text of at most 1024 bytes, in which a long one is gathered until it is written.
#[derive(Drop)]
pub(crate) struct Chunk {
    bytes: [u8; Chunk::ROOM],
    /// The text is `bytes[..len]`.
    len: usize,
}

impl Model for Chunk {
    ghost use Rattle.std.specs.Prelude.{◌≤◌, ℕ, List, take};

    ghost Value = { List ℕ };

    ghost view = { λ chunk. take chunk.len chunk.bytes };

    ghost invariant = { λ chunk. chunk.len ≤ 1024 };
}

impl Chunk {
    /// The most bytes.
    pub(crate) const ROOM: usize = 1024;

    /// No text yet.
    #[inline(always)]
    pub(crate) fn new() -> Chunk
        ensures { result ≡ [] }
    {
        Chunk {
            bytes: [0; Chunk::ROOM],
            len: 0,
        }
    }

    /// Whether so many bytes can be added.
    #[inline(always)]
    pub(crate) fn has_room(&self, count: usize) -> bool
        ensures { IsTrue result ↔ (length self.now + count ≤ 1024) }
    {
        count <= Chunk::ROOM - self.len
    }

    /// The bytes of the text.
    #[inline(always)]
    pub(crate) fn as_bytes(&self) -> &[u8]
        ensures { result.now ≡ self.now }
    {
        &self.bytes[..self.len]
    }

    /// Takes all bytes away.
    pub(crate) fn clear(&mut self)
        ensures { self.new ≡ [] }
    {
        self.len = 0;
    }

    /// Adds these bytes.
    #[inline(always)]
    pub(crate) fn push(&mut self, piece: &[u8])
        requires { length self.old + length piece.now ≤ 1024 }
        ensures { self.new ≡ self.old ++ piece.now }
    {
        let end = self.len + piece.len();
        self.bytes[self.len..end].copy_from_slice(piece);
        self.len = end;
    }
}
