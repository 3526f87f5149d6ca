//! Why a reply isn't the answer to a query.
use std::alloc::AllocError;
use tg_car::CarFault;
use tg_client::ClientFault;
use tg_faults::Failed;
use tg_http::HttpFault;
use tg_verify::Refusal;
use thiserror::Error;

/// Why a reply isn't the answer to a query. No inner fault is want of memory.
#[derive(Clone, Copy, Debug, PartialEq, Eq, Error)]
pub enum FetchFault {
    /// The verifier refused a section, or that no more came; or a limit on bytes is passed.
    #[error("{0}")]
    Refused(Refusal),
    /// The reply has this status, and isn't an answer, nor shows that the path leads nowhere.
    #[error("Status {0}")]
    Status(u16),
    /// The reply's media type isn't that of the query's answer, or it states a coding.
    #[error("BadType")]
    BadType,
    /// What came is no head of a reply, or more than 16 interim heads came.
    #[error("BadReplyHead")]
    BadReplyHead,
    /// The reply's body is framed in no way, or breaks its framing, or the link ended inside of it.
    #[error("BadFraming")]
    BadFraming,
    /// The body is no CAR: `BadHeader` or `BadSection`.
    #[error("BadCar")]
    BadCar(CarFault),
    /// A fault of the dial or of its link was counted.
    #[error("PeerFault")]
    PeerFault,
    /// A fault of the keeper was counted.
    #[error("PackFault")]
    KeepFault,
    /// No memory was found.
    #[error("OutOfMemory")]
    OutOfMemory,
}

impl From<AllocError> for FetchFault {
    ghost use Rattle.std.specs.Prelude.{◌≡◌};
    ghost use Rattle.tg_fetch.specs.declared.fault.FetchFault.TheVariants.{OutOfMemory};

    ghost from_gives = { λ _ fault. fault ≡ OutOfMemory };

    fn from(_: AllocError) -> FetchFault {
        FetchFault::OutOfMemory
    }
}

impl From<Failed> for FetchFault {
    ghost use Rattle.std.specs.Prelude.{◌≡◌};
    ghost use Rattle.tg_fetch.specs.declared.fault.FetchFault.TheVariants.{PeerFault};

    ghost from_gives = { λ _ fault. fault ≡ PeerFault };

    fn from(_: Failed) -> FetchFault {
        FetchFault::PeerFault
    }
}

impl From<Refusal> for FetchFault {
    ghost use Rattle.std.specs.Prelude.{◌≡◌};
    ghost use Rattle.tg_fetch.specs.Faults.{fault_of_refusal};

    ghost from_gives = { λ refusal fault. fault ≡ fault_of_refusal refusal };

    fn from(refusal: Refusal) -> FetchFault {
        match refusal {
            Refusal::OutOfMemory => FetchFault::OutOfMemory,
            refusal => FetchFault::Refused(refusal),
        }
    }
}

impl From<ClientFault> for FetchFault {
    ghost use Rattle.std.specs.Prelude.{◌≡◌};
    ghost use Rattle.tg_fetch.specs.Faults.{fault_of_client};

    ghost from_gives = { λ client fault. fault ≡ fault_of_client client };

    /// A fault of an input, of which a reply has none, would be the peer's.
    fn from(client: ClientFault) -> FetchFault {
        match client {
            ClientFault::Refused(refusal) => FetchFault::Refused(refusal),
            ClientFault::BadCar(car) => FetchFault::BadCar(car),
            ClientFault::InputFault => FetchFault::PeerFault,
            ClientFault::KeepFault => FetchFault::KeepFault,
            ClientFault::OutOfMemory => FetchFault::OutOfMemory,
        }
    }
}

impl From<HttpFault> for FetchFault {
    ghost use Rattle.std.specs.Prelude.{◌≡◌};
    ghost use Rattle.tg_fetch.specs.Faults.{fault_of_http};

    ghost from_gives = { λ http fault. fault ≡ fault_of_http http };

    fn from(http: HttpFault) -> FetchFault {
        match http {
            HttpFault::BadHead => FetchFault::BadReplyHead,
            HttpFault::HeadLimit => FetchFault::BadReplyHead,
            HttpFault::BadFraming => FetchFault::BadFraming,
            HttpFault::OutOfMemory => FetchFault::OutOfMemory,
        }
    }
}
