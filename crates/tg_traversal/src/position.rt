//! Where a block stands that is wanted, and what is asked of it.
ghost use Rattle.std.specs.Prelude.{◌≡◌, ◌<◌, ◌++◌, ◌∷◌, [], length};

use arrayvec::ArrayVec;
use std::marker::Model;
use tg_bytes::Bytes;
use tg_cid::Cid;

/// The slots of shards that were passed to a block: at most 8, of which contracts see the list.
///
/// UnixFS specification, HAMTDirectory.
#[derive(Drop)]
pub(crate) struct Passed {
    slots: ArrayVec<u8, 8>,
}

impl Model for Passed {
    ghost use Rattle.std.specs.Prelude.{ℕ, List, ◌≤◌, length};

    ghost Value = { List ℕ };

    ghost view = { λ passed. passed.slots.items };

    ghost invariant = { λ passed. length passed.slots.items ≤ 8 };
}

impl Passed {
    /// No slot.
    pub(crate) fn none() -> Passed
        ensures { result ≡ [] }
    {
        Passed {
            slots: ArrayVec::new(),
        }
    }

    /// The slots that were passed, and behind them this one.
    pub(crate) fn below(above: &[u8], slot: u8) -> Passed
        requires { length above.now < 8 }
        ensures { result ≡ above.now ++ slot ∷ [] }
    {
        let mut slots = ArrayVec::new();
        for passed in above {
            slots.push(*passed);
        }
        slots.push(slot);
        Passed { slots }
    }

    /// The slots in order.
    pub(crate) fn as_slice(&self) -> &[u8]
        ensures { result.now ≡ self.now }
    {
        self.slots.as_slice()
    }
}

/// Where a block stands: at the root or as a directory's entry, as a part of a file with the size that is declared for
/// it, or as a child of a shard behind the slots that were passed.
///
/// UnixFS specification, File and HAMTDirectory.
#[derive(Drop)]
pub(crate) enum Position {
    Top,
    Part(u64),
    Child(Passed),
}

/// What is asked of a node below the terminal: all below a directory, as records of a bundle under this path; all of a
/// file's content or a symbolic link's target; its bytes from one up to another; or a directory's entries.
///
/// Trustless Gateway specification, dag-scope and entity-bytes.
#[derive(Drop)]
pub(crate) enum Reach {
    Bundled(Bytes),
    Entire,
    Ranged(u64, u64),
    Listed,
}

/// What is asked of a place: the step with the segment of this index; what the query asks of its terminal; or this much
/// of a node below it.
#[derive(Drop)]
pub(crate) enum Ask {
    Segment(usize, Position),
    Terminal,
    Node(Reach, Position),
}

/// A block that is wanted: its CID, how many blocks there are from the root to it, both counted, and what is asked of
/// it.
#[derive(Drop)]
pub(crate) struct Place {
    pub(crate) cid: Cid,
    pub(crate) depth: u64,
    pub(crate) ask: Ask,
}

/// A block that is wanted: its CID, and how many blocks there are from the root to it, both counted.
#[derive(Clone, Copy)]
pub struct Wanted {
    pub cid: Cid,
    pub depth: u64,
}

/// What a block below the terminal is where no range is asked: a directory's entry that is bundled, a part of a file, or
/// a child of a shard behind so many slots.
///
/// Trustless Gateway specification, dag-scope; UnixFS specification, File and HAMTDirectory.
#[derive(Clone, Copy, PartialEq, Eq)]
pub enum Role {
    Entry,
    Part,
    Child(u64),
}

/// A segment of the path, told by its index, that leads nowhere.
///
/// Path Gateway specification, Path Resolution.
#[derive(Clone, Copy)]
pub enum Miss {
    /// The directory has no such entry.
    NoEntry(u32),
    /// There is no directory.
    NoDirectory(u32),
}
