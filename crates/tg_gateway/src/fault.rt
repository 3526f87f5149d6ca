//! Why a session goes on no more.
use std::alloc::AllocError;
use tg_faults::Failed;
use tg_replying::ReplyFault;
use thiserror::Error;

/// Why a session goes on no more.
#[derive(Clone, Copy, Debug, PartialEq, Eq, Error)]
pub enum GatewayFault {
    /// A fault of the link was counted.
    #[error("LinkFault")]
    LinkFault,
    /// More bytes came than may be received.
    #[error("Limit Received {number}")]
    Limit { number: u64 },
    /// No memory was found.
    #[error("OutOfMemory")]
    OutOfMemory,
}

impl From<AllocError> for GatewayFault {
    ghost use Rattle.std.specs.Prelude.{◌≡◌};
    ghost use Rattle.tg_gateway.specs.declared.fault.GatewayFault.TheVariants.{OutOfMemory};

    ghost from_gives = { λ _ fault. fault ≡ OutOfMemory };

    fn from(_: AllocError) -> GatewayFault {
        GatewayFault::OutOfMemory
    }
}

impl From<Failed> for GatewayFault {
    ghost use Rattle.std.specs.Prelude.{◌≡◌};
    ghost use Rattle.tg_gateway.specs.declared.fault.GatewayFault.TheVariants.{LinkFault};

    ghost from_gives = { λ _ fault. fault ≡ LinkFault };

    fn from(_: Failed) -> GatewayFault {
        GatewayFault::LinkFault
    }
}

impl From<ReplyFault> for GatewayFault {
    ghost use Rattle.std.specs.Prelude.{◌≡◌};
    ghost use Rattle.tg_gateway.specs.Steps.{fault_of_reply};

    ghost from_gives = { λ fault given. given ≡ fault_of_reply fault };

    fn from(fault: ReplyFault) -> GatewayFault {
        match fault {
            ReplyFault::SinkFault => GatewayFault::LinkFault,
            ReplyFault::OutOfMemory => GatewayFault::OutOfMemory,
        }
    }
}
