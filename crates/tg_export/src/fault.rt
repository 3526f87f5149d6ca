//! Why a query's CAR isn't written to its end.
use std::alloc::AllocError;
use tg_faults::Failed;
use tg_model::BlocksFault;
use tg_store::PackFault;
use tg_walk::{ResolveFault, WalkFault};
use thiserror::Error;

/// Why a query's CAR isn't written to its end. No inner fault is want of memory.
#[derive(Clone, Copy, Debug, PartialEq, Eq, Error)]
pub enum ExportFault {
    /// The pack can't be attached. Nothing was written.
    #[error("Pack")]
    Pack(PackFault),
    /// The path doesn't lead to a stored block. Nothing was written.
    #[error("Resolve")]
    Resolve(ResolveFault),
    /// The walk ended before the last block. The header and the sections up to there were written.
    #[error("Walk")]
    Walk(WalkFault),
    /// A fault of out was counted. A front of the CAR was written.
    #[error("SinkFault")]
    SinkFault,
    /// No memory was found.
    #[error("OutOfMemory")]
    OutOfMemory,
}

impl From<AllocError> for ExportFault {
    ghost use Rattle.std.specs.Prelude.{◌≡◌};
    ghost use Rattle.tg_export.specs.declared.fault.ExportFault.TheVariants.{OutOfMemory};

    ghost from_gives = { λ _ fault. fault ≡ OutOfMemory };

    fn from(_: AllocError) -> ExportFault {
        ExportFault::OutOfMemory
    }
}

impl From<Failed> for ExportFault {
    ghost use Rattle.std.specs.Prelude.{◌≡◌};
    ghost use Rattle.tg_export.specs.declared.fault.ExportFault.TheVariants.{SinkFault};

    ghost from_gives = { λ _ fault. fault ≡ SinkFault };

    fn from(_: Failed) -> ExportFault {
        ExportFault::SinkFault
    }
}

impl From<PackFault> for ExportFault {
    ghost use Rattle.std.specs.Prelude.{◌≡◌};
    ghost use Rattle.tg_export.specs.Packed.{fault_of_pack};

    ghost from_gives = { λ fault given. given ≡ fault_of_pack fault };

    fn from(fault: PackFault) -> ExportFault {
        match fault {
            PackFault::OutOfMemory => ExportFault::OutOfMemory,
            PackFault::NotCar { .. }
            | PackFault::BadDigest { .. }
            | PackFault::Unfinished
            | PackFault::Truncated { .. }
            | PackFault::Failed
            | PackFault::BlockLimit { .. } => ExportFault::Pack(fault),
        }
    }
}

impl From<ResolveFault> for ExportFault {
    ghost use Rattle.std.specs.Prelude.{◌≡◌};
    ghost use Rattle.tg_export.specs.Cars.{fault_of_path};

    ghost from_gives = { λ fault given. given ≡ fault_of_path fault };

    fn from(fault: ResolveFault) -> ExportFault {
        match fault {
            ResolveFault::OutOfMemory | ResolveFault::Store(BlocksFault::OutOfMemory) => {
                ExportFault::OutOfMemory
            }
            ResolveFault::NoRoot
            | ResolveFault::NotThere { .. }
            | ResolveFault::NotFolder { .. }
            | ResolveFault::BadBlock { .. }
            | ResolveFault::Gone { .. }
            | ResolveFault::Store(BlocksFault::Changed { .. } | BlocksFault::Failed) => {
                ExportFault::Resolve(fault)
            }
        }
    }
}

impl From<WalkFault> for ExportFault {
    ghost use Rattle.std.specs.Prelude.{◌≡◌};
    ghost use Rattle.tg_export.specs.Cars.{fault_of_walk};

    ghost from_gives = { λ fault given. given ≡ fault_of_walk fault };

    fn from(fault: WalkFault) -> ExportFault {
        match fault {
            WalkFault::OutOfMemory | WalkFault::Store(BlocksFault::OutOfMemory) => {
                ExportFault::OutOfMemory
            }
            WalkFault::BadBlock { .. }
            | WalkFault::Gone { .. }
            | WalkFault::TooDeep
            | WalkFault::NotThere { .. }
            | WalkFault::NotFolder { .. }
            | WalkFault::Store(BlocksFault::Changed { .. } | BlocksFault::Failed) => {
                ExportFault::Walk(fault)
            }
        }
    }
}
