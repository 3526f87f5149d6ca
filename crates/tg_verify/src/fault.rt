//! Why a verifier takes no more sections.
use std::alloc::AllocError;
use tg_cid::Cid;
use tg_listing::ListingFault;
use tg_model::{BlockFault, LimitKind};
use thiserror::Error;

/// Why a verifier takes no more sections; `Verifier::section` says in which order it checks. `Truncated` says that no
/// more came. Segments count from 0. No inner fault is want of memory.
#[derive(Clone, Copy, Debug, PartialEq, Eq, Error)]
pub enum Refusal {
    /// A section came after the last wanted one; so many were taken before it.
    #[error("Extra {sections}")]
    Extra { sections: u64 },
    /// What a limit of this kind counts would be greater than its number.
    #[error("Limit {kind:?} {number}")]
    Limit { kind: LimitKind, number: u64 },
    /// The section's CID doesn't name its block.
    #[error("BadDigest")]
    BadDigest { cid: Cid },
    /// Another block is wanted than the one that came.
    #[error("WrongBlock")]
    WrongBlock { want: Cid, got: Cid },
    /// The block under the CID has no kind, or can't stand where it is wanted.
    #[error("BadBlock")]
    BadBlock { cid: Cid, fault: BlockFault },
    /// The size that is declared for a part by its parent, or by a file for itself, isn't its own.
    #[error("BadSize {declared} {actual}")]
    BadSize { declared: u64, actual: u64 },
    /// The segment is looked for where there is no directory.
    #[error("NotFolder {segment}")]
    NotFolder { segment: u32 },
    /// The directory has no entry with the segment's name.
    #[error("NotThere {segment}")]
    NotThere { segment: u32 },
    /// A fault of out was counted.
    #[error("SinkFault")]
    SinkFault,
    /// No more sections come, and the block under this CID is wanted; so many sections were taken.
    #[error("Truncated {sections}")]
    Truncated { want: Cid, sections: u64 },
    /// No memory was found.
    #[error("OutOfMemory")]
    OutOfMemory,
}

impl From<AllocError> for Refusal {
    ghost use Rattle.std.specs.Prelude.{◌≡◌};
    ghost use Rattle.tg_verify.specs.declared.fault.Refusal.TheVariants.{OutOfMemory};

    ghost from_gives = { λ _ refusal. refusal ≡ OutOfMemory };

    fn from(_: AllocError) -> Refusal {
        Refusal::OutOfMemory
    }
}

impl From<ListingFault> for Refusal {
    ghost use Rattle.std.specs.Prelude.{◌≡◌};
    ghost use Rattle.tg_verify.specs.Steps.{refusal_of_listing};

    ghost from_gives = { λ fault refusal. refusal ≡ refusal_of_listing fault };

    fn from(fault: ListingFault) -> Refusal {
        match fault {
            ListingFault::SinkFault => Refusal::SinkFault,
            ListingFault::OutOfMemory => Refusal::OutOfMemory,
        }
    }
}
