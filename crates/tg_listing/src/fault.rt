//! Why a listing isn't put to its end.
use std::alloc::AllocError;
use tg_faults::Failed;
use thiserror::Error;

/// Why a listing isn't put to its end.
#[derive(Clone, Copy, Debug, PartialEq, Eq, Error)]
pub enum ListingFault {
    /// A fault of out was counted. A front of the listing was put.
    #[error("SinkFault")]
    SinkFault,
    /// No memory was found. Nothing was put.
    #[error("OutOfMemory")]
    OutOfMemory,
}

impl From<AllocError> for ListingFault {
    ghost use Rattle.std.specs.Prelude.{◌≡◌};
    ghost use Rattle.tg_listing.specs.declared.fault.ListingFault.TheVariants.{OutOfMemory};

    ghost from_gives = { λ _ fault. fault ≡ OutOfMemory };

    fn from(_: AllocError) -> ListingFault {
        ListingFault::OutOfMemory
    }
}

impl From<Failed> for ListingFault {
    ghost use Rattle.std.specs.Prelude.{◌≡◌};
    ghost use Rattle.tg_listing.specs.declared.fault.ListingFault.TheVariants.{SinkFault};

    ghost from_gives = { λ _ fault. fault ≡ SinkFault };

    fn from(_: Failed) -> ListingFault {
        ListingFault::SinkFault
    }
}
