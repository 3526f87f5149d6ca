//! Trees of files in memory.
ghost use Rattle.std.specs.Prelude.{◌≡◌, ◌↔◌, ◌+◌, ◌-◌, Some, IsTrue, IfOk, IfSome, length, min, take, drop, map, []};
ghost use Rattle.std.specs.Prelude.{◌++◌, option_copied};
ghost use Rattle.std.specs.Map.{lookup};
ghost use Rattle.std.specs.Str.{bytes_eq};
ghost use Rattle.tg_tree.specs.Tree.{bytes_of, entries_of, item_of, sort_of, tree_at, NamesDiffer};

use crate::items::{Item, Sort};
use std::alloc::{AllocError, Global};
use tg_bytes::{Bytes, List};

/// A tree of files in memory.
#[derive(Drop)]
pub enum Tree {
    /// The bytes of a file.
    File(Bytes),
    /// The entries of a folder, each with its name.
    Folder(Vec<(Bytes, Tree)>),
    /// The target of a symbolic link.
    Symlink(Bytes),
    /// Anything else, such as a device or a named pipe.
    Other,
}

impl Tree {
    /// What the tree itself is.
    pub fn sort(&self) -> Sort
        ensures { result ≡ sort_of self.now }
    {
        match self {
            Tree::File(_) => Sort::File,
            Tree::Folder(_) => Sort::Folder,
            Tree::Symlink(_) => Sort::Symlink,
            Tree::Other => Sort::Other,
        }
    }

    /// Whether in each folder of the tree the names differ.
    pub fn names_differ(&self) -> bool
        ensures { IsTrue result ↔ NamesDiffer self.now }
    {
        let entries = self.entries();
        for (i, (name, tree)) in entries.iter().enumerate() {
            if find(&entries[..i], name.as_slice()).is_some() || !tree.names_differ() {
                return false;
            }
        }
        true
    }

    /// What stands at a path of names below the tree.
    pub fn at(&self, path: &[Bytes]) -> Option<&Tree>
        ensures { option_copied result ≡ tree_at (Some self.now) path.now }
    {
        let mut found = self;
        for name in path {
            found = find(found.entries(), name.as_slice())?;
        }
        Some(found)
    }

    /// The entries of a folder, and none of anything else.
    pub fn entries(&self) -> &[(Bytes, Tree)]
        ensures { result.now ≡ entries_of self.now }
    {
        match self {
            Tree::Folder(entries) => entries.as_slice(),
            _ => &[],
        }
    }

    /// The bytes of the file at a path of names below the tree, and none where there is no file.
    pub fn bytes_at(&self, path: &[Bytes]) -> &[u8]
        ensures { IfSome (bytes_of (tree_at (Some self.now) path.now)) (λ bytes. result.now ≡ bytes) }
    {
        match self.at(path) {
            Some(Tree::File(bytes)) => bytes.as_slice(),
            _ => &[],
        }
    }
}

/// The first entry of that name.
fn find<'a>(entries: &'a [(Bytes, Tree)], name: &[u8]) -> Option<&'a Tree>
    ensures { option_copied result ≡ lookup (bytes_eq name.now) entries.now }
{
    for (held, tree) in entries {
        if name == held.as_slice() {
            return Some(tree);
        }
    }
    None
}

/// The name of each entry and what has it, in their order.
pub fn list_items(alloc: Global, entries: &[(Bytes, Tree)]) -> Result<List<Item>, AllocError>
    ensures { IfOk result (λ items. items ≡ map item_of entries.now) }
{
    let mut items = List::new(alloc);
    for (name, tree) in entries {
        items.push(Item::of(alloc, name.as_slice(), tree.sort())?)?;
    }
    Ok(items)
}
