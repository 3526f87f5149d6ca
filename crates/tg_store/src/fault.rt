//! Why a pack can't be made a store.
use tg_car::CarFault;
use thiserror::Error;

/// Why a pack can't be made, finished or attached as a store. `at` is the offset of a section, 0 for the header, and
/// stands still at 2 ^ 64 - 1.
#[derive(Clone, Copy, Debug, PartialEq, Eq, Error)]
pub enum PackFault {
    /// No CAR goes on so inside the header or the section at `at`.
    #[error("NotCar {at}")]
    NotCar { at: u64 },
    /// The CID of the section at `at` doesn't name its block.
    #[error("BadDigest {at}")]
    BadDigest { at: u64 },
    /// The only root is the one of packs that aren't finished.
    #[error("Unfinished")]
    Unfinished,
    /// The pack ends inside the header or the section at `at`.
    #[error("Truncated {at}")]
    Truncated { at: u64 },
    /// The pack failed and counted it.
    #[error("Failed")]
    Failed,
    /// The section at `at` declares a block of more than 2,097,152 bytes.
    #[error("BlockLimit {at}")]
    BlockLimit { at: u64 },
    /// No memory was found.
    #[error("OutOfMemory")]
    OutOfMemory,
}

/// A pack that can't be made a store, and why.
#[derive(Drop)]
pub struct PackRefused<P> {
    pub fault: PackFault,
    pub pack: P,
}

impl From<CarFault> for PackFault {
    ghost use Rattle.std.specs.Prelude.{◌≡◌};
    ghost use Rattle.tg_store.specs.Attaching.{pack_fault};

    ghost from_gives = { λ fault e. e ≡ pack_fault fault };

    fn from(fault: CarFault) -> PackFault {
        match fault {
            CarFault::BadHeader { at } => PackFault::NotCar { at },
            CarFault::BadSection { at } => PackFault::NotCar { at },
            CarFault::BlockLimit { at, .. } => PackFault::BlockLimit { at },
            CarFault::Torn { at } => PackFault::Truncated { at },
            CarFault::OutOfMemory => PackFault::OutOfMemory,
        }
    }
}
