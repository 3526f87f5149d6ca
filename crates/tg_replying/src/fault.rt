//! Why a reply isn't put to its end.
use std::alloc::AllocError;
use tg_faults::Failed;
use thiserror::Error;

/// Why a reply isn't put to its end.
#[derive(Clone, Copy, Debug, PartialEq, Eq, Error)]
pub enum ReplyFault {
    /// A fault of out was counted. A front of the reply was put.
    #[error("SinkFault")]
    SinkFault,
    /// No memory was found. A front of the reply was put.
    #[error("OutOfMemory")]
    OutOfMemory,
}

impl From<AllocError> for ReplyFault {
    ghost use Rattle.std.specs.Prelude.{◌≡◌};
    ghost use Rattle.tg_replying.specs.declared.fault.ReplyFault.TheVariants.{OutOfMemory};

    ghost from_gives = { λ _ fault. fault ≡ OutOfMemory };

    fn from(_: AllocError) -> ReplyFault {
        ReplyFault::OutOfMemory
    }
}

impl From<Failed> for ReplyFault {
    ghost use Rattle.std.specs.Prelude.{◌≡◌};
    ghost use Rattle.tg_replying.specs.declared.fault.ReplyFault.TheVariants.{SinkFault};

    ghost from_gives = { λ _ fault. fault ≡ SinkFault };

    fn from(_: Failed) -> ReplyFault {
        ReplyFault::SinkFault
    }
}
