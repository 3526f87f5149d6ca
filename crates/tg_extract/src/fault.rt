//! Why a text isn't made into a tree.
ghost use Rattle.std.specs.Prelude.{◌≡◌};
ghost use Rattle.tg_extract.specs.Faults.{of_query};
ghost use Rattle.tg_extract.specs.declared.fault.ExtractFault.TheVariants.{BadText, OutOfMemory, Tree};

use std::alloc::AllocError;
use tg_faults::Failed;
use tg_query::QueryFault;
use thiserror::Error;

/// Why a text isn't made into a tree.
#[derive(Clone, Copy, Debug, PartialEq, Eq, Error)]
pub enum ExtractFault {
    /// The new tree failed, and counted it.
    #[error("a tree that is made failed")]
    Tree,
    /// A symbolic link comes, which isn't made.
    #[error("a symbolic link isn't made")]
    NotPlain,
    /// What comes is no record that is made: its path has more than 128 names, or the text isn't a bundle.
    #[error("what comes is no record that is made")]
    BadText,
    /// Memory was wanted.
    #[error("out of memory")]
    OutOfMemory,
}

impl From<Failed> for ExtractFault {
    ghost from_gives = { λ _ e. e ≡ Tree };

    fn from(_e: Failed) -> ExtractFault {
        ExtractFault::Tree
    }
}

impl From<AllocError> for ExtractFault {
    ghost from_gives = { λ _ e. e ≡ OutOfMemory };

    fn from(_e: AllocError) -> ExtractFault {
        ExtractFault::OutOfMemory
    }
}

impl From<QueryFault> for ExtractFault {
    ghost from_gives = { λ fault e. e ≡ of_query fault };

    fn from(e: QueryFault) -> ExtractFault {
        match e {
            QueryFault::OutOfMemory => ExtractFault::OutOfMemory,
            _ => ExtractFault::BadText,
        }
    }
}
