//! Why bytes are no CAR.
ghost use Rattle.std.specs.Prelude.{◌≡◌};

use std::alloc::AllocError;
use thiserror::Error;

/// Why bytes are no CAR within a reader's limit. `at` is an offset from the first byte that was fed, and stands still
/// at 2 ^ 64 - 1.
#[derive(Clone, Copy, Debug, PartialEq, Eq, Error)]
pub enum CarFault {
    /// No CAR goes on so inside its header; `at` is 0.
    #[error("BadHeader {at}")]
    BadHeader { at: u64 },
    /// No CAR goes on so inside the section whose length begins at `at`.
    #[error("BadSection {at}")]
    BadSection { at: u64 },
    /// The section whose length begins at `at` declares a block of more bytes than `number`, the limit.
    #[error("BlockLimit {at} {number}")]
    BlockLimit { at: u64, number: u64 },
    /// The bytes end inside the header, where `at` is 0, or inside the section whose length begins at `at`.
    #[error("Torn {at}")]
    Torn { at: u64 },
    /// No memory was found for the bytes of the header or for a block.
    #[error("OutOfMemory")]
    OutOfMemory,
}

impl From<AllocError> for CarFault {
    ghost use Rattle.tg_car.specs.declared.fault.CarFault.TheVariants.{OutOfMemory};

    ghost from_gives = { λ _ e. e ≡ OutOfMemory };

    fn from(_: AllocError) -> CarFault {
        CarFault::OutOfMemory
    }
}
