//! Why a file isn't imported.
use tg_faults::Failed;
use tg_model::KeepFault;
use thiserror::Error;

/// Why a file isn't imported.
#[derive(Clone, Copy, Debug, PartialEq, Eq, Error)]
pub enum FileFault {
    /// The folder failed and counted it.
    #[error("Folder")]
    Folder,
    /// The store failed and counted it.
    #[error("Keep")]
    Keep,
    /// The file gives more than 2^40 bytes.
    #[error("TooBig")]
    TooBig,
    /// No memory was found.
    #[error("OutOfMemory")]
    OutOfMemory,
}

impl From<Failed> for FileFault {
    ghost use Rattle.std.specs.Prelude.{◌≡◌};
    ghost use Rattle.tg_import_file.specs.declared.fault.FileFault.TheVariants.{Folder};

    ghost from_gives = { λ _ fault. fault ≡ Folder };

    fn from(_: Failed) -> FileFault {
        FileFault::Folder
    }
}

impl From<KeepFault> for FileFault {
    ghost use Rattle.std.specs.Prelude.{◌≡◌};
    ghost use Rattle.tg_import_file.specs.Files.{fault_of_keep};

    ghost from_gives = { λ fault given. given ≡ fault_of_keep fault };

    fn from(fault: KeepFault) -> FileFault {
        match fault {
            KeepFault::Failed => FileFault::Keep,
            KeepFault::OutOfMemory => FileFault::OutOfMemory,
        }
    }
}
