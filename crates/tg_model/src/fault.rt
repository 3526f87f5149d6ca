//! Why a block has no kind, or can't stand where it stands.
ghost use Rattle.std.specs.Prelude.{◌≡◌};

use std::alloc::AllocError;
use tg_pbtable::PbFault;
use tg_unixfs::UnixFault;
use thiserror::Error;

/// Why a block has no kind under its CID, or can't stand where it stands in a DAG. Of several the first is told.
/// Indexes of links and slots count from 0; no inner fault is want of memory.
#[derive(Clone, Copy, Debug, PartialEq, Eq, Error)]
pub enum BlockFault {
    /// The block is no DAG-PB node.
    #[error("BadNode")]
    BadNode(PbFault),
    /// The hash of the link `at` isn't the bytes of a CID.
    #[error("BadLink")]
    BadLink { at: u64 },
    /// The node has no data.
    #[error("NoUnix")]
    NoUnix,
    /// The node's data is no UnixFS data.
    #[error("BadUnix")]
    BadUnix(UnixFault),
    /// A file has another number of blocksizes than of links.
    #[error("BadSizes")]
    BadSizes { links: u64, sizes: u64 },
    /// The inline bytes and blocksizes of a file come to 2^63 or more.
    #[error("HugeSizes")]
    HugeSizes,
    /// The name of the link `at` is no name of an entry; in a shard, what follows the two digits of its slot.
    #[error("BadName")]
    BadName { at: u64 },
    /// The link `at` of a directory has the name of an earlier one.
    #[error("DoubledName")]
    DoubledName { at: u64 },
    /// A shard has another number of used slots than of links, or more than 32 bytes of bits.
    #[error("BadBits")]
    BadBits { bits: u64, links: u64 },
    /// The name of the link `at` of a shard doesn't begin with the digits of its slot.
    #[error("BadSlot")]
    BadSlot { at: u64 },
    /// A UnixFS Raw or Symlink with links.
    #[error("BadShape")]
    BadShape,
    /// A shard stands below level 7.
    #[error("BelowEight")]
    BelowEight,
    /// The entry in the slot `at` of a shard isn't behind the slots of its name.
    #[error("Misplaced")]
    Misplaced { at: u64 },
    /// The child of a shard is no shard.
    #[error("NotShard")]
    NotShard,
    /// The part of a file is neither a raw block nor a file.
    #[error("NotPart")]
    NotPart,
    /// No memory was found.
    #[error("OutOfMemory")]
    OutOfMemory,
}

impl From<AllocError> for BlockFault {
    ghost use Rattle.tg_model.specs.declared.fault.BlockFault.TheVariants.{OutOfMemory};

    ghost from_gives = { λ _ e. e ≡ OutOfMemory };

    fn from(_fault: AllocError) -> BlockFault {
        BlockFault::OutOfMemory
    }
}

impl From<PbFault> for BlockFault {
    ghost use Rattle.tg_model.specs.InnerFaults.{block_fault_of_pb};

    ghost from_gives = { λ fault e. e ≡ block_fault_of_pb fault };

    fn from(fault: PbFault) -> BlockFault {
        match fault {
            PbFault::OutOfMemory => BlockFault::OutOfMemory,
            fault => BlockFault::BadNode(fault),
        }
    }
}

impl From<UnixFault> for BlockFault {
    ghost use Rattle.tg_model.specs.InnerFaults.{block_fault_of_unix};

    ghost from_gives = { λ fault e. e ≡ block_fault_of_unix fault };

    fn from(fault: UnixFault) -> BlockFault {
        match fault {
            UnixFault::OutOfMemory => BlockFault::OutOfMemory,
            fault => BlockFault::BadUnix(fault),
        }
    }
}
