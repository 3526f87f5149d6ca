//! What is made in a new tree.
ghost use Rattle.std.specs.Prelude.{◌≡◌, ◌↔◌, IsTrue, OnErr, OnOk};
ghost use Rattle.tg_new_tree.specs.NewTrees.{MoreOf, path_made};
ghost use Rattle.tg_new_tree.specs.declared.made.Made.TheVariants.{Folder as a_folder};

use tg_bytes::{Bytes, List};
use tg_files::FolderFault;

/// A folder, or a file with the bytes that were added to it, each at a path of names below the top, which is the empty path.
#[derive(Drop)]
pub enum Made {
    /// A folder.
    Folder(List<Bytes>),
    /// A file.
    File(List<Bytes>, Bytes),
}

impl Made {
    /// Where it was made.
    pub fn path(&self) -> &[Bytes]
        ensures { result.now ≡ path_made self.now }
    {
        match self {
            Made::Folder(path) => path.as_slice(),
            Made::File(path, _) => path.as_slice(),
        }
    }

    /// Whether it is a folder, made at that path.
    pub(crate) fn is_folder_at(&self, path: &[Bytes]) -> bool
        ensures { IsTrue result ↔ (self.now ≡ a_folder path.now) }
    {
        match self {
            Made::Folder(made) => made.as_slice() == path,
            Made::File(_, _) => false,
        }
    }

    /// Adds bytes to a file. Errors: `Failed`, where it is a folder; `OutOfMemory`. Nothing is added then.
    pub(crate) fn push_all(&mut self, bytes: &[u8]) -> Result<(), FolderFault>
        ensures added { OnOk result (MoreOf self.old bytes.now self.new) }
        ensures err { OnErr result (self.new ≡ self.old) }
    {
        match self {
            Made::File(_, held) => Ok(held.push_all(bytes)?),
            Made::Folder(_) => Err(FolderFault::Failed),
        }
    }
}
