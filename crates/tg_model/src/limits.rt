//! The limits of a query.
ghost use Rattle.std.specs.Prelude.{◌≡◌, ◌≤◌};
ghost use Rattle.tg_model.specs.LimitNumbers.{number_of, with_number, standard};

use std::marker::Model;
use tg_cid::MAX_BLOCK_LEN;

/// What a limit counts.
#[derive(Clone, Copy, Debug, PartialEq, Eq)]
pub enum LimitKind {
    /// Bytes of one block: 2,097,152.
    Block,
    /// Blocks from the root to one block, both counted, shards included: 512.
    Depth,
    /// Entries of one listed or bundled directory: 1,048,576.
    Entries,
    /// Bytes of the names of one listed or bundled directory: 268,435,456.
    Names,
    /// Bytes that were fed: 2^40.
    Received,
    /// Bytes of the answer that were to be written: 2^40.
    Output,
    /// Blocks that are remembered where each is sent once: 1,048,576.
    SeenBlocks,
    /// Bytes of blocks that are remembered where each is sent once: 2^30.
    SeenBytes,
    /// Places that took a remembered block: 16,777,216.
    Reused,
}

/// A number for each kind of limit, at most the standard one. A limit is passed where the next step would make what is
/// counted greater than the number.
#[derive(Clone, Copy, PartialEq, Eq)]
pub struct Limits {
    block: u64,
    depth: u64,
    entries: u64,
    names: u64,
    received: u64,
    output: u64,
    seen_blocks: u64,
    seen_bytes: u64,
    reused: u64,
}

impl Model for Limits {
    ghost use Rattle.tg_model.specs.LimitNumbers.{LimitNumbers, AreWithin, standard};

    ghost Value = { LimitNumbers };

    ghost view = { λ l. record {
      block = l.block;
      depth = l.depth;
      entries = l.entries;
      names = l.names;
      received = l.received;
      output = l.output;
      seen_blocks = l.seen_blocks;
      seen_bytes = l.seen_bytes;
      reused = l.reused;
    } };

    ghost invariant = { λ l. AreWithin standard (record {
      block = l.block;
      depth = l.depth;
      entries = l.entries;
      names = l.names;
      received = l.received;
      output = l.output;
      seen_blocks = l.seen_blocks;
      seen_bytes = l.seen_bytes;
      reused = l.reused;
    }) };

    ghost inverse = { λ n. record {
      block = n.block;
      depth = n.depth;
      entries = n.entries;
      names = n.names;
      received = n.received;
      output = n.output;
      seen_blocks = n.seen_blocks;
      seen_bytes = n.seen_bytes;
      reused = n.reused;
    } };
}

impl Limits {
    /// The standard number of each kind.
    pub fn standard() -> Limits
        ensures { result ≡ standard }
    {
        Limits {
            block: MAX_BLOCK_LEN as u64,
            depth: 512,
            entries: 1_048_576,
            names: 268_435_456,
            received: 1 << 40,
            output: 1 << 40,
            seen_blocks: 1_048_576,
            seen_bytes: 1 << 30,
            reused: 16_777_216,
        }
    }

    /// These limits with another number of one kind, which is at most the standard one.
    pub fn with(self, kind: LimitKind, number: u64) -> Limits
        requires { number ≤ number_of kind standard }
        ensures { result ≡ with_number kind number self }
    {
        let mut limits = self;
        match kind {
            LimitKind::Block => limits.block = number,
            LimitKind::Depth => limits.depth = number,
            LimitKind::Entries => limits.entries = number,
            LimitKind::Names => limits.names = number,
            LimitKind::Received => limits.received = number,
            LimitKind::Output => limits.output = number,
            LimitKind::SeenBlocks => limits.seen_blocks = number,
            LimitKind::SeenBytes => limits.seen_bytes = number,
            LimitKind::Reused => limits.reused = number,
        }
        limits
    }

    /// The number of one kind.
    pub fn number(&self, kind: LimitKind) -> u64
        ensures number { result ≡ number_of kind self.now }
        ensures most { result ≤ number_of kind standard }
    {
        match kind {
            LimitKind::Block => self.block,
            LimitKind::Depth => self.depth,
            LimitKind::Entries => self.entries,
            LimitKind::Names => self.names,
            LimitKind::Received => self.received,
            LimitKind::Output => self.output,
            LimitKind::SeenBlocks => self.seen_blocks,
            LimitKind::SeenBytes => self.seen_bytes,
            LimitKind::Reused => self.reused,
        }
    }
}
