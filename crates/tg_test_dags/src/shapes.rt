//! Small DAGs by their names.
use crate::blocks::{Block, Dag};
use crate::stored::{Stored, store};
use crate::{CHILD_SHARD, HELLO_SHARD, NO_SLOT, SLOT_0};
use std::alloc::{AllocError, Global};

/// A DAG whose blocks are stored in an order of their own.
#[derive(Clone, Copy, Debug)]
pub enum Shape {
    /// The empty directory.
    Empty,
    /// A raw block of no bytes.
    NoBytes,
    /// The raw block `hello world`.
    OneBlock,
    /// The file `hello world` in chunks of 4 bytes: the root, and the leaves from 1 on.
    Hello,
    /// The leaves of that file behind a root that says 12 bytes, where its parts have 11.
    OwnSize,
    /// The same, where the root says 5 bytes of the second leaf.
    PartSize,
    /// That file with `Lell` as the block of its first leaf.
    ChangedLeaf,
    /// Its last leaf and its root.
    NoLeaves,
    /// Its second leaf and its root.
    OneLeaf,
    /// Its root, its last leaf and its first.
    NoMiddle,
    /// Nothing of it.
    NoRoot,
    /// The leaf `aaaa`, and the file that has it twice.
    Twins,
    /// The leaf `hell`, one of no bytes, and the file that has the first one twice and the other between.
    PartedTwins,
    /// The leaves of `hello world`, the file of the first two, and a file with the inline bytes `> `, that file and
    /// the last leaf.
    FileInFile,
    /// The empty directory, and a file that has it as its part.
    FolderAsPart,
    /// The file `hello world` in chunks, and the directory that has it as `h`.
    Folder,
    /// The root of that file, the directory, and the first leaf.
    FolderOneLeaf,
    /// The file `hello world` as a raw block, and the directory that has it as `h`.
    SmallFolder,
    /// That raw block, and the shard that has it as `hello`.
    OneEntry,
    /// That raw block, the file of it, the shard that has the file as `hello`, and the directory that has the shard as
    /// `d`: the last three with the mode 493 and a modification time.
    Dated,
    /// The empty directory with the mode 493, in a block that another program writes.
    WithMode,
    /// That raw block, and a shard that has it as `hellp` in the slot of `hello`.
    Misplaced,
    /// A child, the files of a shard, and the shard: in its slot 91 is the entry `m`, and in its slot BC the child
    /// with `q` in the slot 3E and `g` in 5D, by a Python model of the hash. The files are `1`, `2` and `3` of `m`,
    /// `q` and `g`.
    TwoLevels,
    /// The same without the child.
    NoChild,
    /// The same with the empty directory as the child.
    NoShard,
    /// The same with a symbolic link as the child.
    LinkAsChild,
    /// The same with a file as the child.
    FileAsChild,
    /// A symbolic link to `target`.
    Link,
    /// That link, one with no text, the file `x`, and the directory that has them as `s`, `t` and `u`.
    Links,
    /// The file `x`, a directory that has it as `%` and `-._~`, and a directory that has that one as `a b` and the
    /// file as `é` and `+`.
    Escaped,
    /// The empty directory, and one that has it as `e` by its CIDv0.
    OldEntry,
    /// A part, the leaf `hell`, a file of that leaf and the part, and a directory that has the file as `f`: the root
    /// is the file.
    Part(OddPart),
    /// The same, of which the root is the directory.
    PartBelow(OddPart),
    /// A block without a kind, and the directory that has it as `o`.
    NoKind,
    /// A file, a shard that has it in another slot than that of its name, and the directory that has the shard as `s`.
    MisplacedBelow,
    /// Nine shards, one in another: the root is the eighth.
    EightLevels,
    /// The same, of which the root is the ninth.
    NineLevels,
}

/// What is no part of a file.
#[derive(Clone, Copy, Debug)]
pub enum OddPart {
    /// The empty directory.
    Folder,
    /// A symbolic link.
    Link,
    /// A shard without a slot.
    Shard,
    /// A shard that has an entry in another slot than that of its name.
    Misplaced,
}

impl Shape {
    /// Stores the DAG.
    pub fn store(self, alloc: Global) -> Result<Stored, AllocError> {
        store(alloc, &self.dag())
    }

    /// Its blocks. The root is the last one, but of two shapes the one before it.
    fn dag(self) -> Dag {
        let (blocks, stored) = self.blocks();
        let last = blocks.len().saturating_sub(1);
        let root = match self {
            Shape::Part(_) | Shape::EightLevels => last.saturating_sub(1),
            _ => last,
        };
        Dag {
            blocks,
            stored,
            root,
        }
    }

    /// Its blocks, and the numbers of those that are stored.
    fn blocks(self) -> (&'static [Block], &'static [usize]) {
        match self {
            Shape::Empty => (EMPTY, &[0]),
            Shape::NoBytes => (NO_BYTES, &[0]),
            Shape::OneBlock => (ONE_BLOCK, &[0]),
            Shape::Hello => (HELLO, &[3, 0, 1, 2]),
            Shape::OwnSize => (OWN_SIZE, &[3, 0, 1, 2]),
            Shape::PartSize => (PART_SIZE, &[3, 0, 1, 2]),
            Shape::ChangedLeaf => (CHANGED_LEAF, &[3, 0, 1, 2]),
            Shape::NoLeaves => (HELLO, &[2, 3]),
            Shape::OneLeaf => (HELLO, &[1, 3]),
            Shape::NoMiddle => (HELLO, &[3, 2, 0]),
            Shape::NoRoot => (HELLO, &[]),
            Shape::Twins => (TWINS, &[0, 1]),
            Shape::PartedTwins => (PARTED_TWINS, &[0, 1, 2]),
            Shape::FileInFile => (FILE_IN_FILE, &[0, 1, 2, 3, 4]),
            Shape::FolderAsPart => (FOLDER_AS_PART, &[0, 1]),
            Shape::Folder => (FOLDER, &[3, 0, 1, 2, 4]),
            Shape::FolderOneLeaf => (FOLDER, &[3, 4, 0]),
            Shape::SmallFolder => (SMALL_FOLDER, &[0, 1]),
            Shape::OneEntry => (ONE_ENTRY, &[0, 1]),
            Shape::Dated => (DATED, &[0, 1, 2, 3]),
            Shape::WithMode => (WITH_MODE, &[0]),
            Shape::Misplaced => (MISPLACED, &[0, 1]),
            Shape::TwoLevels => (TWO_LEVELS, &[3, 0, 1, 2, 4]),
            Shape::NoChild => (TWO_LEVELS, &[0, 1, 2, 4]),
            Shape::NoShard => (NO_SHARD, &[3, 0, 1, 2, 4]),
            Shape::LinkAsChild => (LINK_AS_CHILD, &[3, 0, 1, 2, 4]),
            Shape::FileAsChild => (FILE_AS_CHILD, &[3, 0, 1, 2, 4]),
            Shape::Link => (LINK, &[0]),
            Shape::Links => (LINKS, &[0, 1, 2, 3]),
            Shape::Escaped => (ESCAPED, &[0, 1, 2]),
            Shape::OldEntry => (OLD_ENTRY, &[0, 2]),
            Shape::Part(part) | Shape::PartBelow(part) => (part.blocks(), &[0, 1, 2, 3]),
            Shape::NoKind => (NO_KIND, &[0, 1]),
            Shape::MisplacedBelow => (MISPLACED_BELOW, &[0, 1, 2]),
            Shape::EightLevels | Shape::NineLevels => (LEVELS, &[0, 1, 2, 3, 4, 5, 6, 7, 8]),
        }
    }
}

impl OddPart {
    /// The part, and the blocks that lead to it.
    fn blocks(self) -> &'static [Block] {
        match self {
            OddPart::Folder => FOLDER_PART,
            OddPart::Link => LINK_PART,
            OddPart::Shard => SHARD_PART,
            OddPart::Misplaced => MISPLACED_PART,
        }
    }
}

const HELL: Block = Block::Raw(b"hell");

const O_WO: Block = Block::Raw(b"o wo");

const RLD: Block = Block::Raw(b"rld");

const WORLD: Block = Block::Raw(b"hello world");

/// The empty directory.
const NO_ENTRIES: Block = Block::Node(&[], b"\x08\x01");

/// The root of the file `hello world` in chunks of 4 bytes.
const HELLO_ROOT: Block = Block::Node(
    &[("", 0, 4), ("", 1, 4), ("", 2, 3)],
    b"\x08\x02\x18\x0b\x20\x04\x20\x04\x20\x03",
);

const EMPTY: &[Block] = &[NO_ENTRIES];

const NO_BYTES: &[Block] = &[Block::Raw(b"")];

const ONE_BLOCK: &[Block] = &[WORLD];

const HELLO: &[Block] = &[HELL, O_WO, RLD, HELLO_ROOT];

const OWN_SIZE: &[Block] = &[
    HELL,
    O_WO,
    RLD,
    Block::Node(
        &[("", 0, 4), ("", 1, 4), ("", 2, 3)],
        b"\x08\x02\x18\x0c\x20\x04\x20\x04\x20\x03",
    ),
];

const PART_SIZE: &[Block] = &[
    HELL,
    O_WO,
    RLD,
    Block::Node(
        &[("", 0, 4), ("", 1, 4), ("", 2, 3)],
        b"\x08\x02\x18\x0c\x20\x04\x20\x05\x20\x03",
    ),
];

const CHANGED_LEAF: &[Block] = &[Block::Changed(b"hell", b"Lell"), O_WO, RLD, HELLO_ROOT];

const TWINS: &[Block] = &[
    Block::Raw(b"aaaa"),
    Block::Node(
        &[("", 0, 4), ("", 0, 4)],
        b"\x08\x02\x18\x08\x20\x04\x20\x04",
    ),
];

const PARTED_TWINS: &[Block] = &[
    HELL,
    Block::Raw(b""),
    Block::Node(
        &[("", 0, 4), ("", 1, 0), ("", 0, 4)],
        b"\x08\x02\x18\x08\x20\x04\x20\x00\x20\x04",
    ),
];

const FILE_IN_FILE: &[Block] = &[
    HELL,
    O_WO,
    RLD,
    Block::Node(
        &[("", 0, 4), ("", 1, 4)],
        b"\x08\x02\x18\x08\x20\x04\x20\x04",
    ),
    Block::Node(
        &[("", 3, 100), ("", 2, 3)],
        b"\x08\x02\x12\x02> \x18\x0d\x20\x08\x20\x03",
    ),
];

const FOLDER_AS_PART: &[Block] = &[
    NO_ENTRIES,
    Block::Node(&[("", 0, 4)], b"\x08\x02\x18\x04\x20\x04"),
];

const FOLDER: &[Block] = &[
    HELL,
    O_WO,
    RLD,
    HELLO_ROOT,
    Block::Node(&[("h", 3, 155)], b"\x08\x01"),
];

const SMALL_FOLDER: &[Block] = &[WORLD, Block::Node(&[("h", 0, 11)], b"\x08\x01")];

const ONE_ENTRY: &[Block] = &[WORLD, Block::Node(&[("CBhello", 0, 11)], HELLO_SHARD)];

/// Behind the data of each node stand the mode 493, and 1,700,000,000 seconds with 500,000,000 nanoseconds.
const DATED: &[Block] = &[
    WORLD,
    Block::Node(
        &[("", 0, 11)],
        b"\x08\x02\x18\x0b\x20\x0b\x38\xed\x03\x42\x0b\x08\x80\xe2\xcf\xaa\x06\x15\0\x65\xcd\x1d",
    ),
    Block::Node(
        &[("CBhello", 1, 83)],
        b"\x08\x05\x12\x1a\x08\0\0\0\0\0\0\0\0\0\0\0\0\0\0\0\0\0\0\0\0\0\0\0\0\0\x28\x22\x30\x80\x02\
            \x38\xed\x03\x42\x0b\x08\x80\xe2\xcf\xaa\x06\x15\0\x65\xcd\x1d",
    ),
    Block::Node(
        &[("d", 2, 200)],
        b"\x08\x01\x38\xed\x03\x42\x0b\x08\x80\xe2\xcf\xaa\x06\x15\0\x65\xcd\x1d",
    ),
];

const WITH_MODE: &[Block] = &[Block::DagPb(b"\x0a\x05\x08\x01\x38\xed\x03")];

const MISPLACED: &[Block] = &[WORLD, Block::Node(&[("CBhellp", 0, 11)], HELLO_SHARD)];

/// A shard with the slots 91 and BC.
const PARENT: Block = Block::Node(
    &[("91m", 0, 1), ("BC", 3, 119)],
    b"\x08\x05\x12\x18\x10\0\0\0\0\x02\0\0\0\0\0\0\0\0\0\0\0\0\0\0\0\0\0\0\x28\x22\x30\x80\x02",
);

const TWO_LEVELS: &[Block] = &[
    Block::Raw(b"1"),
    Block::Raw(b"2"),
    Block::Raw(b"3"),
    Block::Node(&[("3Eq", 1, 1), ("5Dg", 2, 1)], CHILD_SHARD),
    PARENT,
];

const NO_SHARD: &[Block] = &[
    Block::Raw(b"1"),
    Block::Raw(b"2"),
    Block::Raw(b"3"),
    NO_ENTRIES,
    PARENT,
];

const LINK_AS_CHILD: &[Block] = &[
    Block::Raw(b"1"),
    Block::Raw(b"2"),
    Block::Raw(b"3"),
    Block::Node(&[], b"\x08\x04"),
    PARENT,
];

const FILE_AS_CHILD: &[Block] = &[
    Block::Raw(b"1"),
    Block::Raw(b"2"),
    Block::Raw(b"3"),
    Block::Node(&[], b"\x08\x02"),
    PARENT,
];

const LINK: &[Block] = &[Block::Node(&[], b"\x08\x04\x12\x06target")];

const LINKS: &[Block] = &[
    Block::Node(&[], b"\x08\x04\x12\x06target"),
    Block::Node(&[], b"\x08\x04"),
    Block::Raw(b"x"),
    Block::Node(&[("s", 0, 0), ("t", 1, 0), ("u", 2, 1)], b"\x08\x01"),
];

const ESCAPED: &[Block] = &[
    Block::Raw(b"x"),
    Block::Node(&[("%", 0, 1), ("-._~", 0, 1)], b"\x08\x01"),
    Block::Node(&[("a b", 1, 1), ("\u{e9}", 0, 1), ("+", 0, 1)], b"\x08\x01"),
];

const OLD_ENTRY: &[Block] = &[
    NO_ENTRIES,
    Block::Old(0),
    Block::Node(&[("e", 1, 4)], b"\x08\x01"),
];

/// A file of the leaf `hell` and the part with the number 0.
const PARTED: Block = Block::Node(&[("", 1, 4), ("", 0, 4)], b"\x08\x02\x20\x04\x20\x04");

const FOLDER_OF_PARTED: Block = Block::Node(&[("f", 2, 8)], b"\x08\x01");

const FOLDER_PART: &[Block] = &[NO_ENTRIES, HELL, PARTED, FOLDER_OF_PARTED];

const LINK_PART: &[Block] = &[
    Block::Node(&[], b"\x08\x04"),
    HELL,
    PARTED,
    FOLDER_OF_PARTED,
];

const SHARD_PART: &[Block] = &[Block::Node(&[], NO_SLOT), HELL, PARTED, FOLDER_OF_PARTED];

// The entry leads to no block of the DAG.
const MISPLACED_PART: &[Block] = &[
    Block::Node(&[("00m", 9, 1)], SLOT_0),
    HELL,
    PARTED,
    FOLDER_OF_PARTED,
];

const NO_KIND: &[Block] = &[
    Block::DagPb(b"\x1a\0"),
    Block::Node(&[("o", 0, 1)], b"\x08\x01"),
];

const MISPLACED_BELOW: &[Block] = &[
    Block::Raw(b"1"),
    Block::Node(&[("00m", 0, 1)], SLOT_0),
    Block::Node(&[("s", 1, 1)], b"\x08\x01"),
];

const LEVELS: &[Block] = &[
    Block::Node(&[], NO_SLOT),
    Block::Node(&[("00", 0, 1)], SLOT_0),
    Block::Node(&[("00", 1, 1)], SLOT_0),
    Block::Node(&[("00", 2, 1)], SLOT_0),
    Block::Node(&[("00", 3, 1)], SLOT_0),
    Block::Node(&[("00", 4, 1)], SLOT_0),
    Block::Node(&[("00", 5, 1)], SLOT_0),
    Block::Node(&[("00", 6, 1)], SLOT_0),
    Block::Node(&[("00", 7, 1)], SLOT_0),
];
