//! Why a walk gives no more blocks.
use std::alloc::AllocError;
use tg_cid::Cid;
use tg_model::{BlockFault, BlocksFault};
use thiserror::Error;

/// Why a walk over a store gives no more blocks. Segments count from 0. No inner fault is want of memory.
#[derive(Clone, Copy, Debug, PartialEq, Eq, Error)]
pub enum WalkFault {
    /// The block under the CID has no kind, or can't stand where it stands.
    #[error("BadBlock")]
    BadBlock { cid: Cid, fault: BlockFault },
    /// No block is stored under the CID.
    #[error("Gone")]
    Gone { cid: Cid },
    /// The next block lies more than 512 blocks deep.
    #[error("TooDeep")]
    TooDeep,
    /// The store gave no answer.
    #[error("Store")]
    Store(BlocksFault),
    /// The directory has no entry with the segment's name.
    #[error("NotThere")]
    NotThere { segment: u32 },
    /// The segment is looked for where there is no directory.
    #[error("NotFolder")]
    NotFolder { segment: u32 },
    /// No memory was found.
    #[error("OutOfMemory")]
    OutOfMemory,
}

impl From<AllocError> for WalkFault {
    ghost use Rattle.std.specs.Prelude.{◌≡◌};
    ghost use Rattle.tg_walk.specs.declared.fault.WalkFault.TheVariants.{OutOfMemory};

    ghost from_gives = { λ _ fault. fault ≡ OutOfMemory };

    fn from(_: AllocError) -> WalkFault {
        WalkFault::OutOfMemory
    }
}

impl From<BlocksFault> for WalkFault {
    ghost use Rattle.std.specs.Prelude.{◌≡◌};
    ghost use Rattle.tg_walk.specs.Walks.{fault_of_store};

    ghost from_gives = { λ fault given. given ≡ fault_of_store fault };

    fn from(fault: BlocksFault) -> WalkFault {
        match fault {
            BlocksFault::OutOfMemory => WalkFault::OutOfMemory,
            BlocksFault::Changed { .. } | BlocksFault::Failed => WalkFault::Store(fault),
        }
    }
}

/// Why a path doesn't lead to a stored block. Segments count from 0. No inner fault is want of memory.
#[derive(Clone, Copy, Debug, PartialEq, Eq, Error)]
pub enum ResolveFault {
    /// The root isn't stored.
    #[error("NoRoot")]
    NoRoot,
    /// The directory has no entry with the segment's name.
    #[error("NotThere")]
    NotThere { segment: u32 },
    /// The segment is looked for where there is no directory.
    #[error("NotFolder")]
    NotFolder { segment: u32 },
    /// The block under the CID has no kind, or can't stand where it stands.
    #[error("BadBlock")]
    BadBlock { cid: Cid, fault: BlockFault },
    /// A block below the root isn't stored.
    #[error("Gone")]
    Gone { cid: Cid },
    /// The store gave no answer.
    #[error("Store")]
    Store(BlocksFault),
    /// No memory was found.
    #[error("OutOfMemory")]
    OutOfMemory,
}

impl From<AllocError> for ResolveFault {
    ghost use Rattle.std.specs.Prelude.{◌≡◌};
    ghost use Rattle.tg_walk.specs.declared.fault.ResolveFault.TheVariants.{OutOfMemory};

    ghost from_gives = { λ _ fault. fault ≡ OutOfMemory };

    fn from(_: AllocError) -> ResolveFault {
        ResolveFault::OutOfMemory
    }
}

impl From<BlocksFault> for ResolveFault {
    ghost use Rattle.std.specs.Prelude.{◌≡◌};
    ghost use Rattle.tg_walk.specs.Resolving.{refusal_of_store};

    ghost from_gives = { λ fault given. given ≡ refusal_of_store fault };

    fn from(fault: BlocksFault) -> ResolveFault {
        match fault {
            BlocksFault::OutOfMemory => ResolveFault::OutOfMemory,
            BlocksFault::Changed { .. } | BlocksFault::Failed => ResolveFault::Store(fault),
        }
    }
}

impl From<WalkFault> for ResolveFault {
    ghost use Rattle.std.specs.Prelude.{◌≡◌};
    ghost use Rattle.tg_walk.specs.Resolving.{refusal_of_walk};

    ghost from_gives = { λ fault given. given ≡ refusal_of_walk fault };

    /// The refusal of the same name. A walk along a path isn't too deep: its depth is bounded by the number of
    /// segments.
    fn from(fault: WalkFault) -> ResolveFault {
        match fault {
            WalkFault::BadBlock { cid, fault } => ResolveFault::BadBlock { cid, fault },
            WalkFault::Gone { cid } => ResolveFault::Gone { cid },
            WalkFault::Store(fault) => ResolveFault::Store(fault),
            WalkFault::NotThere { segment } => ResolveFault::NotThere { segment },
            WalkFault::NotFolder { segment } => ResolveFault::NotFolder { segment },
            WalkFault::TooDeep | WalkFault::OutOfMemory => ResolveFault::OutOfMemory,
        }
    }
}
