//! What a block is read as.
use tg_bytes::{Bytes, List};
use tg_cid::Cid;

/// A part of a file: the CID of its block, and how many bytes of content are declared for it.
///
/// UnixFS specification, File: a link with its blocksize.
#[derive(Clone, Copy, Debug, PartialEq, Eq)]
pub struct Part {
    pub cid: Cid,
    pub size: u64,
}

/// An entry of a directory that is one block.
///
/// UnixFS specification, Directory.
#[derive(Drop)]
pub struct Entry {
    pub name: Bytes,
    pub cid: Cid,
}

/// A used slot of a shard: an entry with its name, or, without a name, a child shard.
///
/// UnixFS specification, HAMTDirectory.
#[derive(Drop)]
pub struct Slot {
    pub slot: u8,
    pub name: Option<Bytes>,
    pub cid: Cid,
}

/// What a block is read as under its CID.
///
/// UnixFS specification, Data Format and node types.
#[derive(Drop)]
pub enum Kind {
    /// Plain bytes: the block itself is the content.
    Raw,
    /// A file: its inline bytes, the size of all of its content where it is told, and the parts that follow the inline
    /// bytes in order.
    File {
        inline: Bytes,
        filesize: Option<u64>,
        parts: List<Part>,
    },
    /// A directory in one block.
    Basic {
        entries: List<Entry>,
    },
    /// A shard of a directory: its used slots in ascending order.
    Shard {
        slots: List<Slot>,
    },
    /// A symbolic link.
    Symlink {
        target: Bytes,
    },
}

/// Where one step of a path walk leads.
#[derive(Clone, Copy, Debug, PartialEq, Eq)]
pub enum Step {
    /// To the entry of that name.
    Found(Cid),
    /// To the child shard in the slot of the name.
    Down(Cid),
    /// Nowhere: the directory has no such entry.
    Absent,
    /// Nowhere: the block is no directory.
    NotFolder,
}

/// What a writer made: the CID of the root, how many bytes of content a file has (0 for a directory), and the length of
/// the root's block with the Tsizes of its links.
#[derive(Clone, Copy, Debug, PartialEq, Eq)]
pub struct Made {
    pub cid: Cid,
    pub content: u64,
    pub tsize: u64,
}

/// An entry of a directory that is to be made.
#[derive(Drop)]
pub struct NewEntry {
    pub name: Bytes,
    pub cid: Cid,
    pub tsize: u64,
}
