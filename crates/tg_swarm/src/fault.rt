//! Why a swarm ends without the file.
use std::alloc::AllocError;
use tg_faults::Failed;
use tg_model::{BlockFault, LimitKind};
use thiserror::Error;

/// Why a swarm ends without the file. No inner fault is want of memory.
#[derive(Clone, Copy, Debug, PartialEq, Eq, Error)]
pub enum SwarmFault {
    /// Each peer was refused, and a job isn't done with. The swarm tells why each was.
    #[error("NoPeerLeft")]
    NoPeerLeft,
    /// The root is a directory, a shard or a symbolic link.
    #[error("NotFile")]
    NotFile,
    /// The root's block has no kind under its CID.
    #[error("BadRoot {0}")]
    BadRoot(BlockFault),
    /// The file has more bytes than the limit of kind `Output`.
    #[error("Limit {kind:?} {number}")]
    Limit { kind: LimitKind, number: u64 },
    /// A fault of out was counted. A front of the file was put.
    #[error("SinkFault")]
    SinkFault,
    /// No memory was found.
    #[error("OutOfMemory")]
    OutOfMemory,
}

impl From<AllocError> for SwarmFault {
    ghost use Rattle.std.specs.Prelude.{◌≡◌};
    ghost use Rattle.tg_swarm.specs.declared.fault.SwarmFault.TheVariants.{OutOfMemory};

    ghost from_gives = { λ _ fault. fault ≡ OutOfMemory };

    fn from(_: AllocError) -> SwarmFault {
        SwarmFault::OutOfMemory
    }
}

impl From<Failed> for SwarmFault {
    ghost use Rattle.std.specs.Prelude.{◌≡◌};
    ghost use Rattle.tg_swarm.specs.declared.fault.SwarmFault.TheVariants.{SinkFault};

    ghost from_gives = { λ _ fault. fault ≡ SinkFault };

    fn from(_: Failed) -> SwarmFault {
        SwarmFault::SinkFault
    }
}
