//! The bytes of a file cut into chunks.
ghost use Rattle.std.specs.Prelude.{◌≡◌, ◌↔◌, ◌≤◌, [], length, IsTrue, IfOk};
ghost use Rattle.tg_filedag.specs.Chunks.{cleared, fed_with, taken_of};
ghost use Rattle.tg_cid.specs.Limits.{max_block_len};

use std::alloc::{AllocError, Global};
use std::marker::Model;

/// A chunk of a file that fills with the bytes that are fed. It holds one buffer, which is taken when it is made.
#[derive(Drop)]
pub struct Chunker {
    size: usize,
    bytes: Vec<u8>,
}

impl Model for Chunker {
    ghost use Rattle.std.specs.Prelude.{◌≤◌, length, vec_capacity};
    ghost use Rattle.tg_cid.specs.Limits.{max_block_len};
    ghost use Rattle.tg_filedag.specs.Chunks.{ChunkerState};

    ghost Value = { ChunkerState };

    ghost view = { λ c. record { size = c.size; bytes = c.bytes.items } };

    ghost invariant = { λ c. (c.size ≤ max_block_len) × (length c.bytes.items ≤ c.size)
        × (c.size ≤ vec_capacity c.bytes) };
}

impl Chunker {
    /// A chunker without a byte, for chunks of `size` bytes, from 1 to 2,097,152. The error is want of memory.
    pub fn new(alloc: Global, size: u32) -> Result<Chunker, AllocError>
        requires low { 1 ≤ size }
        requires high { size ≤ max_block_len }
        ensures { IfOk result (λ chunker. chunker ≡ record { size = size; bytes = [] }) }
    {
        let size = size as usize;
        Ok(Chunker {
            size,
            bytes: Vec::with_capacity(alloc, size)?,
        })
    }

    /// Takes the bytes of the piece that there is room for, and says how many and whether the chunk is full then. It
    /// takes no memory.
    pub fn feed(&mut self, piece: &[u8]) -> (usize, bool)
        ensures taken { result.0 ≡ length (taken_of self.old piece.now) }
        ensures fed { self.new ≡ fed_with self.old piece.now }
        ensures full { IsTrue result.1 ↔ (length self.new.bytes ≡ self.new.size) }
    {
        let taken = piece.len().min(self.size - self.bytes.len());
        if self.bytes.extend_from_slice(&piece[..taken]).is_err() {
            unreachable!()
        }
        (taken, self.bytes.len() == self.size)
    }

    /// The bytes of the chunk at hand, at most 2,097,152.
    pub fn chunk(&self) -> &[u8]
        ensures bytes { result.now ≡ self.now.bytes }
        ensures most { length result.now ≤ self.now.size }
        ensures limit { self.now.size ≤ max_block_len }
    {
        self.bytes.as_slice()
    }

    /// Removes the bytes of the chunk. The room for the next one stays.
    pub fn clear(&mut self)
        ensures { self.new ≡ cleared self.old }
    {
        self.bytes.clear();
    }
}
