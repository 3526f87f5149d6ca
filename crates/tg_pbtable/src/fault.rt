//! Why a text is no message under a table.
ghost use Rattle.std.specs.Prelude.{◌≡◌, ◌+◌, ◌<◌, ◌^◌};
ghost use Rattle.tg_pbtable.specs.Faults.{moved_by, place_of};
ghost use Rattle.tg_pbtable.specs.declared.fault.PbFault.TheVariants.{OutOfMemory};

use std::alloc::{AllocError, AllocFailed};
use thiserror::Error;

/// Why a text is no message under a table. `at` is the offset of the first byte of the field's key.
#[derive(Clone, Copy, Debug, PartialEq, Eq, Error)]
pub enum PbFault {
    /// The text ends inside the field at `at`.
    #[error("Short {at}")]
    Short { at: u64 },
    /// The key, the number or the length of the field has more than 10 bytes, isn't the shortest spelling, or spells
    /// 2 ^ 64 or more.
    #[error("BadVarint {at}")]
    BadVarint { at: u64 },
    /// No rule has the field's number.
    #[error("Unknown {at} {number}")]
    Unknown { at: u64, number: u64 },
    /// The rule of the field's number has another wire type.
    #[error("WrongWire {at}")]
    WrongWire { at: u64 },
    /// The field stands behind one that has to follow it.
    #[error("OutOfOrder {at}")]
    OutOfOrder { at: u64 },
    /// The field directly before it has the same number, which may stand once alone.
    #[error("Doubled {at}")]
    Doubled { at: u64 },
    /// The lowest number of which a field is asked for and none is there.
    #[error("Missing {number}")]
    Missing { number: u64 },
    /// No memory was found for the fields.
    #[error("OutOfMemory")]
    OutOfMemory,
}

impl PbFault {
    /// The fault of a text that begins at `start` of another one, with its place in that other one. It takes no memory.
    pub fn moved_by(self, start: usize) -> PbFault
        requires { start + place_of self < 2 ^ 64 }
        ensures { result ≡ moved_by start self }
    {
        let start = start as u64;
        match self {
            PbFault::Short { at } => PbFault::Short { at: start + at },
            PbFault::BadVarint { at } => PbFault::BadVarint { at: start + at },
            PbFault::Unknown { at, number } => PbFault::Unknown {
                at: start + at,
                number,
            },
            PbFault::WrongWire { at } => PbFault::WrongWire { at: start + at },
            PbFault::OutOfOrder { at } => PbFault::OutOfOrder { at: start + at },
            PbFault::Doubled { at } => PbFault::Doubled { at: start + at },
            PbFault::Missing { number } => PbFault::Missing { number },
            PbFault::OutOfMemory => PbFault::OutOfMemory,
        }
    }
}

impl<T: Drop> From<AllocFailed<T>> for PbFault {
    ghost from_gives = { λ _ e. e ≡ OutOfMemory };

    fn from(_: AllocFailed<T>) -> Self {
        PbFault::OutOfMemory
    }
}

impl From<AllocError> for PbFault {
    ghost from_gives = { λ _ e. e ≡ OutOfMemory };

    fn from(_: AllocError) -> Self {
        PbFault::OutOfMemory
    }
}
