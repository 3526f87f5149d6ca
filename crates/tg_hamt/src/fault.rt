//! Why a sharded directory isn't made.
ghost use Rattle.std.specs.Prelude.{◌≡◌};

use std::alloc::AllocError;
use tg_bytes::Bytes;
use tg_model::KeepFault;
use thiserror::Error;

/// Why a sharded directory isn't made.
#[derive(Debug, Drop, Error)]
pub enum HamtFault {
    /// Two names have one 64-bit hash, so that no level of shards tells them apart. They are in the order of their
    /// bytes.
    #[error("SameHash")]
    SameHash { first: Bytes, second: Bytes },
    /// The store failed. Want of memory is never wrapped.
    #[error("Keep {0}")]
    Keep(KeepFault),
    /// No memory was found.
    #[error("OutOfMemory")]
    OutOfMemory,
}

impl From<AllocError> for HamtFault {
    ghost use Rattle.tg_hamt.specs.declared.fault.HamtFault.{HamtFault};

    ghost from_gives = { λ _ fault. fault ≡ HamtFault.OutOfMemory };

    fn from(_: AllocError) -> Self {
        HamtFault::OutOfMemory
    }
}
