//! Why what came isn't the answer to a query.
use std::alloc::AllocError;
use tg_car::CarFault;
use tg_model::{KeepFault, LimitKind};
use tg_verify::Refusal;
use thiserror::Error;

/// Why what came isn't the answer to a query. No inner fault is want of memory.
#[derive(Clone, Copy, Debug, PartialEq, Eq, Error)]
pub enum ClientFault {
    /// The verifier refused a section, or that no more came; or a limit on bytes is passed.
    #[error("{0}")]
    Refused(Refusal),
    /// What came is no CAR: `BadHeader` or `BadSection`.
    #[error("BadCar")]
    BadCar(CarFault),
    /// A fault of the input was counted.
    #[error("InputFault")]
    InputFault,
    /// A fault of the keeper was counted.
    #[error("PackFault")]
    KeepFault,
    /// No memory was found.
    #[error("OutOfMemory")]
    OutOfMemory,
}

impl From<AllocError> for ClientFault {
    ghost use Rattle.std.specs.Prelude.{◌≡◌};
    ghost use Rattle.tg_client.specs.declared.fault.ClientFault.TheVariants.{OutOfMemory};

    ghost from_gives = { λ _ fault. fault ≡ OutOfMemory };

    fn from(_: AllocError) -> ClientFault {
        ClientFault::OutOfMemory
    }
}

impl From<Refusal> for ClientFault {
    ghost use Rattle.std.specs.Prelude.{◌≡◌};
    ghost use Rattle.tg_client.specs.Ends.{fault_of_refusal};

    ghost from_gives = { λ refusal fault. fault ≡ fault_of_refusal refusal };

    fn from(refusal: Refusal) -> ClientFault {
        match refusal {
            Refusal::OutOfMemory => ClientFault::OutOfMemory,
            refusal => ClientFault::Refused(refusal),
        }
    }
}

impl From<CarFault> for ClientFault {
    ghost use Rattle.std.specs.Prelude.{◌≡◌};
    ghost use Rattle.tg_client.specs.Ends.{fault_of_car};

    ghost from_gives = { λ car fault. fault ≡ fault_of_car car };

    /// A section that declares too large a block is a limit's refusal.
    fn from(car: CarFault) -> ClientFault {
        match car {
            CarFault::BlockLimit { number, .. } => ClientFault::Refused(Refusal::Limit {
                kind: LimitKind::Block,
                number,
            }),
            CarFault::OutOfMemory => ClientFault::OutOfMemory,
            car => ClientFault::BadCar(car),
        }
    }
}

impl From<KeepFault> for ClientFault {
    ghost use Rattle.std.specs.Prelude.{◌≡◌};
    ghost use Rattle.tg_client.specs.Ends.{fault_of_keep};

    ghost from_gives = { λ keep fault. fault ≡ fault_of_keep keep };

    fn from(keep: KeepFault) -> ClientFault {
        match keep {
            KeepFault::Failed => ClientFault::KeepFault,
            KeepFault::OutOfMemory => ClientFault::OutOfMemory,
        }
    }
}
