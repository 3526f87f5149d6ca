//! Why bytes are no HTTP message.
use std::alloc::AllocError;
use thiserror::Error;

/// Why bytes are no head, or no body in its framing.
#[derive(Clone, Copy, Debug, PartialEq, Eq, Error)]
pub enum HttpFault {
    /// A whole head text is no head of the grammar.
    #[error("BadHead")]
    BadHead,
    /// The first 16,384 bytes hold no whole head text, or the head text has more than 64 fields.
    #[error("HeadLimit")]
    HeadLimit,
    /// The bytes are no body in the framing that was stated, or end inside it.
    #[error("BadFraming")]
    BadFraming,
    /// No memory was found.
    #[error("OutOfMemory")]
    OutOfMemory,
}

impl From<AllocError> for HttpFault {
    ghost use Rattle.std.specs.Prelude.{◌≡◌};
    ghost use Rattle.tg_http.specs.declared.fault.HttpFault.TheVariants.{OutOfMemory};

    ghost from_gives = { λ _ fault. fault ≡ OutOfMemory };

    fn from(_: AllocError) -> HttpFault {
        HttpFault::OutOfMemory
    }
}
