//! Trees of files that are read.
ghost use Rattle.std.specs.Prelude.{◌≡◌, ℕ, All, IfOk, IfErr, OnOk, OnErr};
ghost use Rattle.tg_files.specs.Packs.{ReadAt};
ghost use Rattle.tg_files.specs.Folders.{AttachedAt, FolderCalled, FolderCounts, FolderMeaning, FolderQuiet};
ghost use Rattle.tg_files.specs.Folders.{FolderRose, Leads, Lists, SameFolder, TellsFolder, folder_step};
ghost use Rattle.tg_tree.specs.Tree.{HasFileAt, HasFolderAt, bytes_of, tree_at};
ghost use Rattle.tg_files.specs.declared.folders.FolderFault.TheVariants.{Failed as FolderFailed, OutOfMemory};

use std::alloc::{AllocError, AllocFailed};
use tg_bytes::{Bytes, List};
use tg_faults::Failed;
use tg_tree::Item;
use thiserror::Error;

/// Why a folder isn't listed.
#[derive(Clone, Copy, Debug, PartialEq, Eq, Error)]
pub enum FolderFault {
    /// The folder failed, and counted it.
    #[error("an object of the outside failed")]
    Failed,
    /// Memory was wanted, which isn't counted.
    #[error("out of memory")]
    OutOfMemory,
}

impl From<Failed> for FolderFault {
    ghost from_gives = { λ _ e. e ≡ FolderFailed };

    fn from(_e: Failed) -> FolderFault {
        FolderFault::Failed
    }
}

impl From<AllocError> for FolderFault {
    ghost from_gives = { λ _ e. e ≡ OutOfMemory };

    fn from(_e: AllocError) -> FolderFault {
        FolderFault::OutOfMemory
    }
}

impl<T: Drop> From<AllocFailed<T>> for FolderFault {
    ghost from_gives = { λ _ e. e ≡ OutOfMemory };

    fn from(_e: AllocFailed<T>) -> FolderFault {
        FolderFault::OutOfMemory
    }
}

/// A tree of files that is read. A place in it is a path of names from its top, which is the empty path.
///
/// Its meaning is one record: `tree` is the whole tree, or `None` where it isn't told; `place` is the path at which the
/// last `attach` that answered Ok attached it, and `None` before the first; `faults` counts the calls that failed and
/// stands still at 2 ^ 64 - 1; `calls` counts the calls that were made, or is `None` where that isn't told.
pub trait Folder {
    ghost folder: { FolderMeaning Self };

    /// What it tells is a folder in which, and in each folder below, the names differ. It does nothing and isn't
    /// counted.
    fn tells(&self)
        ensures { TellsFolder (folder.tree self.now) };

    /// Reads the folder at a path of the system from now on, in which, and in each folder below, the names differ. The
    /// error is a fault of the folder, which stays the one that it was.
    fn attach(&mut self, path: &str) -> Result<(), Failed>
        ensures tells { OnOk result (TellsFolder (folder.tree self.new)) }
        ensures at { OnOk result (AttachedAt path.now (folder_step folder self.old self.new)) }
        ensures quiet { OnOk result (FolderQuiet (folder_step folder self.old self.new)) }
        ensures call { FolderCalled (folder_step folder self.old self.new) }
        ensures err_same { OnErr result (SameFolder (folder_step folder self.old self.new)) }
        ensures err_rose { OnErr result (FolderRose (folder_step folder self.old self.new)) };

    /// The names in the folder at a path, each with its sort, in any order. The error is a fault of the folder, or want
    /// of memory.
    fn list(&mut self, path: &[Bytes]) -> Result<List<Item>, FolderFault>
        requires { HasFolderAt (folder.tree self.old) path.now }
        ensures items { IfOk result (λ items. Lists (tree_at (folder.tree self.old) path.now) items) }
        ensures leads { IfOk result (λ items. All (Leads (folder.tree self.old) path.now) items) }
        ensures same { SameFolder (folder_step folder self.old self.new) }
        ensures quiet { OnOk result (FolderQuiet (folder_step folder self.old self.new)) }
        ensures call { FolderCalled (folder_step folder self.old self.new) }
        ensures err_counts { IfErr result (λ e. FolderCounts e (folder_step folder self.old self.new)) };

    /// Reads bytes of the file at a path, from `offset` on, into the front of the buffer and says how many: none on a
    /// buffer that has room says that the file ends at the offset or before it. The error is a fault of the folder.
    fn read_at(&mut self, path: &[Bytes], offset: u64, buf: &mut [u8]) -> Result<usize, Failed>
        requires { HasFileAt (folder.tree self.old) path.now }
        ensures read { let file = bytes_of (tree_at (folder.tree self.old) path.now) in
            IfOk result (λ n. ReadAt file offset n buf.new) }
        ensures same { SameFolder (folder_step folder self.old self.new) }
        ensures quiet { OnOk result (FolderQuiet (folder_step folder self.old self.new)) }
        ensures call { FolderCalled (folder_step folder self.old self.new) }
        ensures err_rose { OnErr result (FolderRose (folder_step folder self.old self.new)) };
}
