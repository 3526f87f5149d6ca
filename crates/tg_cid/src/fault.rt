//! Why bytes or a text are no CID.
use tg_base32::Base32Fault;
use thiserror::Error;

/// Why bytes or a text are no CID: the first place, from the left, at which the grammar is broken. Places count from 0.
#[derive(Clone, Copy, Debug, PartialEq, Eq, Error)]
pub enum CidFault {
    /// A text without the leading `b`, or whose rest isn't base 32.
    #[error("BadText")]
    BadText,
    /// A version other than 0 and 1.
    #[error("BadVersion {number}")]
    BadVersion { number: u64 },
    /// A codec other than raw and dag-pb.
    #[error("BadCodec {number}")]
    BadCodec { number: u64 },
    /// A hash other than sha2-256 and identity.
    #[error("BadHash {number}")]
    BadHash { number: u64 },
    /// A length other than 32 of a sha2-256 digest, or above 128 of an identity digest.
    #[error("BadLength {number}")]
    BadLength { number: u64 },
    /// More bytes stand behind the CID, from `at` on.
    #[error("Trailing {at}")]
    Trailing { at: u64 },
    /// The bytes end inside a CID, at `at`.
    #[error("Short {at}")]
    Short { at: u64 },
    /// The varint at `at` has more than nine bytes or isn't the shortest spelling.
    #[error("BadVarint {at}")]
    BadVarint { at: u64 },
    /// No memory was found for the bytes of a text.
    #[error("OutOfMemory")]
    OutOfMemory,
}

impl From<Base32Fault> for CidFault {
    ghost use Rattle.std.specs.Prelude.{◌≡◌};
    ghost use Rattle.tg_cid.specs.Faults.{cid_fault_of};

    ghost from_gives = { λ fault given. given ≡ cid_fault_of fault };

    fn from(fault: Base32Fault) -> CidFault {
        match fault {
            Base32Fault::OutOfMemory => CidFault::OutOfMemory,
            Base32Fault::BadChar { .. } | Base32Fault::BadLength | Base32Fault::BadTail => {
                CidFault::BadText
            }
        }
    }
}
