//! What the limits of a query count.
ghost use Rattle.std.specs.Prelude.{◌≡◌, ◌++◌, ◌+◌, ◌∷◌, ◌≤◌, [], All, List as Items, OnOk, length};
ghost use Rattle.tg_model.specs.LimitNumbers.{AreWithin, standard};
ghost use Rattle.tg_model.specs.Traversal.{ListedEntry};
ghost use Rattle.tg_verify.specs.Counting.{AreDirectories, HasMet, IsPassedFirst, IsTakenOut, blocks_added, bytes_added};
ghost use Rattle.tg_verify.specs.Counting.{met_above, numbers_of, reused_added};
ghost use Rattle.tg_verify.specs.State.{told};

use std::alloc::{AllocError, Global};
use tg_model::{LimitKind, Limits};

/// Where the block of a place comes from.
#[derive(Clone, Copy, PartialEq, Eq)]
pub(crate) enum Source {
    /// A section brought it.
    Section,
    /// It was received before, and is remembered.
    Remembered,
    /// It is the digest of its CID.
    Digest,
}

/// The entries of a directory that were met, and the bytes of their names. The directory is told by the bytes of its
/// path.
#[derive(Clone, Copy)]
pub(crate) struct Directory {
    pub(crate) path: u64,
    pub(crate) entries: u64,
    pub(crate) names: u64,
}

/// What is counted of the blocks that were opened: the entries of one directory and the bytes of their names, each at
/// most; the bytes of the answer; and where each block is sent once the blocks that are remembered, their bytes, and
/// the places that took one. Each number stands still at 2^64 - 1.
#[derive(Drop)]
pub(crate) struct Counts {
    /// The directories that aren't done with, each below the one before it.
    pub(crate) directories: Vec<Directory>,
    pub(crate) entries: u64,
    pub(crate) names: u64,
    pub(crate) output: u64,
    pub(crate) seen_blocks: u64,
    pub(crate) seen_bytes: u64,
    pub(crate) reused: u64,
}

impl Counts {
    /// The counts before the first block.
    pub(crate) fn new(alloc: Global) -> Counts
        ensures met { HasMet result [] }
        ensures output { result.output ≡ 0 }
        ensures seen_blocks { result.seen_blocks ≡ 0 }
        ensures seen_bytes { result.seen_bytes ≡ 0 }
        ensures reused { result.reused ≡ 0 }
    {
        Counts {
            directories: Vec::new(alloc),
            entries: 0,
            names: 0,
            output: 0,
            seen_blocks: 0,
            seen_bytes: 0,
            reused: 0,
        }
    }

    /// Counts an entry that is met in a directory whose path has so many bytes. The error is want of memory.
    pub(crate) fn meet(&mut self, directory: u64, name: &[u8]) -> Result<(), AllocError>
        ensures met { (m : ListedEntry) (before : Items ListedEntry) → length m.directory ≡ directory
            → length m.name ≡ length name.now → HasMet self.old before → OnOk result (HasMet self.new (before ++ m ∷ [])) }
        ensures output { self.new.output ≡ self.old.output }
        ensures seen_blocks { self.new.seen_blocks ≡ self.old.seen_blocks }
        ensures seen_bytes { self.new.seen_bytes ≡ self.old.seen_bytes }
        ensures reused { self.new.reused ≡ self.old.reused }
    {
        self.leave(directory);
        let mut counted = self.take_out(directory);
        counted.entries = counted.entries.saturating_add(1);
        counted.names = counted.names.saturating_add(name.len() as u64);
        self.directories.push(counted)?;
        self.entries = self.entries.max(counted.entries);
        self.names = self.names.max(counted.names);
        Ok(())
    }

    /// Counts bytes of the answer.
    pub(crate) fn say(&mut self, bytes: u64)
        ensures { self.new ≡ record self.old { output = told (self.old.output + bytes) } }
    {
        self.output = self.output.saturating_add(bytes);
    }

    /// Counts a block that is opened, of so many bytes; where repeats are sent none is remembered.
    pub(crate) fn open(&mut self, dups: bool, source: Source, block: &[u8])
        ensures seen_blocks { self.new.seen_blocks ≡ told (self.old.seen_blocks + blocks_added dups source) }
        ensures seen_bytes { self.new.seen_bytes ≡ told (self.old.seen_bytes + bytes_added dups source block.now) }
        ensures reused { self.new.reused ≡ told (self.old.reused + reused_added dups source) }
        ensures others { self.new ≡ record self.old {
          seen_blocks = self.new.seen_blocks;
          seen_bytes = self.new.seen_bytes;
          reused = self.new.reused;
        } }
    {
        let (blocks, bytes, reused) = match source {
            _ if dups => (0, 0, 0),
            Source::Section => (1, block.len() as u64, 0),
            Source::Remembered => (0, 0, 1),
            Source::Digest => (0, 0, 0),
        };
        self.seen_blocks = self.seen_blocks.saturating_add(blocks);
        self.seen_bytes = self.seen_bytes.saturating_add(bytes);
        self.reused = self.reused.saturating_add(reused);
    }

    /// The first kind of limit, in the order of the kinds, whose number is below what is counted.
    pub(crate) fn passed(&self, limits: &Limits) -> Option<LimitKind>
        ensures first { IsPassedFirst limits.now (numbers_of self.now) result }
        ensures small { AreWithin standard limits.now }
    {
        are_small(limits);
        if self.entries > limits.number(LimitKind::Entries) {
            return Some(LimitKind::Entries);
        }
        if self.names > limits.number(LimitKind::Names) {
            return Some(LimitKind::Names);
        }
        if self.output > limits.number(LimitKind::Output) {
            return Some(LimitKind::Output);
        }
        if self.seen_blocks > limits.number(LimitKind::SeenBlocks) {
            return Some(LimitKind::SeenBlocks);
        }
        if self.seen_bytes > limits.number(LimitKind::SeenBytes) {
            return Some(LimitKind::SeenBytes);
        }
        if self.reused > limits.number(LimitKind::Reused) {
            return Some(LimitKind::Reused);
        }
        None
    }

    /// Forgets the directories whose paths are longer, which are done with.
    fn leave(&mut self, directory: u64)
        ensures met { (met : Items ListedEntry) → AreDirectories self.old.directories.items met
            → AreDirectories self.new.directories.items (met_above directory met) }
        ensures others { self.new ≡ record self.old { directories = self.new.directories } }
    {
        while let Some(inner) = self.directories.last() {
            if inner.path <= directory {
                break;
            }
            self.directories.pop();
        }
    }

    /// Takes out the innermost directory where its path has so many bytes, and else gives one of which nothing is
    /// counted yet. No path is longer.
    fn take_out(&mut self, directory: u64) -> Directory
        ensures taken { (met : Items ListedEntry) → AreDirectories self.old.directories.items met
            → All (λ m. length m.directory ≤ directory) met
            → IsTakenOut directory met result self.new.directories.items }
        ensures others { self.new ≡ record self.old { directories = self.new.directories } }
    {
        match self.directories.last().copied() {
            Some(inner) if inner.path == directory => {
                self.directories.pop();
                inner
            }
            _ => Directory {
                path: directory,
                entries: 0,
                names: 0,
            },
        }
    }
}

/// The limits are at most the standard ones.
fn are_small(limits: &Limits)
    ensures { AreWithin standard limits.now }
{
    let _block = limits.number(LimitKind::Block);
    let _depth = limits.number(LimitKind::Depth);
    let _entries = limits.number(LimitKind::Entries);
    let _names = limits.number(LimitKind::Names);
    let _received = limits.number(LimitKind::Received);
    let _output = limits.number(LimitKind::Output);
    let _seen_blocks = limits.number(LimitKind::SeenBlocks);
    let _seen_bytes = limits.number(LimitKind::SeenBytes);
    let _reused = limits.number(LimitKind::Reused);
}
