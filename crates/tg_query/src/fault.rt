//! Why a text asks for nothing.
use std::alloc::AllocError;
use tg_cid::CidFault;
use thiserror::Error;

/// Why a target, an `Accept` field, a word or a range is refused.
///
/// Path Gateway and Trustless Gateway specifications.
#[derive(Clone, Copy, Debug, PartialEq, Eq, Error)]
pub enum QueryFault {
    /// The front isn't `/ipfs/`, a segment is no name of an entry, or there are more than 128.
    #[error("BadPath")]
    BadPath,
    /// The root is no CID. Want of memory is never wrapped.
    #[error("BadCid")]
    BadCid(CidFault),
    /// Neither the target nor `Accept` tells a known format.
    #[error("NoFormat")]
    NoFormat,
    /// A format other than `raw` and `car`.
    #[error("BadFormat")]
    BadFormat,
    /// A scope other than `block`, `entity` and `all`.
    #[error("BadScope")]
    BadScope,
    /// No range of bytes.
    #[error("BadRange")]
    BadRange,
    /// A known key stands twice.
    #[error("Doubled")]
    Doubled,
    /// A parameter of the CAR type has a value that isn't served.
    #[error("BadParam")]
    BadParam,
    /// A raw block is asked for behind a path.
    #[error("RawPath")]
    RawPath,
    /// No memory was found.
    #[error("OutOfMemory")]
    OutOfMemory,
}

impl From<AllocError> for QueryFault {
    ghost use Rattle.std.specs.Prelude.{◌≡◌};
    ghost use Rattle.tg_query.specs.declared.fault.QueryFault.TheVariants.{OutOfMemory};

    ghost from_gives = { λ _ fault. fault ≡ OutOfMemory };

    fn from(_: AllocError) -> QueryFault {
        QueryFault::OutOfMemory
    }
}

impl From<CidFault> for QueryFault {
    ghost use Rattle.std.specs.Prelude.{◌≡◌};
    ghost use Rattle.tg_query.specs.Faults.{query_fault_of};

    ghost from_gives = { λ fault given. given ≡ query_fault_of fault };

    fn from(fault: CidFault) -> QueryFault {
        match fault {
            CidFault::OutOfMemory => QueryFault::OutOfMemory,
            CidFault::BadText
            | CidFault::BadVersion { .. }
            | CidFault::BadCodec { .. }
            | CidFault::BadHash { .. }
            | CidFault::BadLength { .. }
            | CidFault::Trailing { .. }
            | CidFault::Short { .. }
            | CidFault::BadVarint { .. } => QueryFault::BadCid(fault),
        }
    }
}
