//! Why a folder isn't imported.
use std::alloc::AllocError;
use tg_bytes::Bytes;
use tg_model::Path;
use thiserror::Error;

/// Why a folder isn't imported. A path leads from the folder to what is at fault.
#[derive(Debug, Drop, Error)]
pub enum ImportFault {
    /// The folder failed and counted it.
    #[error("FolderFault")]
    Folder,
    /// The store failed and counted it.
    #[error("KeepFault")]
    Keep,
    /// A folder lies on level 33, the root being on level 1.
    #[error("TooDeep")]
    TooDeep { path: Path },
    /// A name isn't good, or stands twice in a folder.
    #[error("BadName")]
    BadName { path: Path },
    /// A name has more than 255 bytes.
    #[error("LongName")]
    LongName { path: Path },
    /// Two names of a sharded directory have one hash. They are in the order of their bytes.
    #[error("SameHash")]
    SameHash { first: Bytes, second: Bytes },
    /// An entry is neither a file nor a folder.
    #[error("NotPlain")]
    NotPlain { path: Path },
    /// A file gives more than 2^40 bytes, a folder lists 2^32 entries or more, or the Tsizes of a directory's entries
    /// or a number of the summary would pass 2^62.
    #[error("TooBig")]
    TooBig { path: Path },
    /// No memory was found.
    #[error("OutOfMemory")]
    OutOfMemory,
}

impl From<AllocError> for ImportFault {
    ghost use Rattle.std.specs.Prelude.{◌≡◌};
    ghost use Rattle.tg_import.specs.declared.fault.ImportFault.TheVariants.{OutOfMemory};

    ghost from_gives = { λ _ fault. fault ≡ OutOfMemory };

    fn from(_: AllocError) -> ImportFault {
        ImportFault::OutOfMemory
    }
}
