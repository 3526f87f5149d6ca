//! Names in folders, and paths of names.
ghost use Rattle.std.specs.Prelude.{◌≡◌, ◌++◌, ◌∷◌, [], IfOk};
ghost use Rattle.std.specs.List.Sorted.{IsPermutation, IsSortedByKey};
ghost use Rattle.tg_bytes.specs.Order.{bytes_cmp};
ghost use Rattle.tg_tree.specs.Tree.{NamesRise};

use std::alloc::{AllocError, Global};
use tg_bytes::{Bytes, List};

/// What a name in a folder stands for.
#[derive(Clone, Copy, Debug, PartialEq, Eq)]
pub enum Sort {
    /// A file with bytes of its own.
    File,
    /// A folder.
    Folder,
    /// A symbolic link, which isn't followed.
    Symlink,
    /// Anything else, such as a device or a named pipe.
    Other,
}

/// A name in a folder.
#[derive(Drop)]
pub struct Item {
    /// The name's bytes.
    pub name: Bytes,
    /// What has the name.
    pub sort: Sort,
}

impl Item {
    /// The item of a name, which is kept whole. The error is want of memory.
    pub fn of(alloc: Global, name: &[u8], sort: Sort) -> Result<Item, AllocError>
        ensures { IfOk result (λ item. item ≡ record { name = name.now; sort = sort }) }
    {
        Ok(Item {
            name: Bytes::of(alloc, name)?,
            sort,
        })
    }
}

/// The path of a folder with one more name, which leads to the entry of that name. The error is want of memory.
pub fn path_of_entry(alloc: Global, path: &[Bytes], name: &[u8]) -> Result<List<Bytes>, AllocError>
    ensures { IfOk result (λ longer. longer ≡ path.now ++ name.now ∷ []) }
{
    let mut longer = List::new(alloc);
    for passed in path {
        longer.push(Bytes::of(alloc, passed.as_slice())?)?;
    }
    longer.push(Bytes::of(alloc, name)?)?;
    Ok(longer)
}

/// Puts the items in the order of their names' bytes. Items of one name come in any order. It takes no memory.
pub fn sort_by_name(items: &mut List<Item>)
    ensures permutation { IsPermutation items.old items.new }
    ensures sorted { IsSortedByKey (λ item. item.name) bytes_cmp items.new }
    ensures rise { NamesRise items.new }
{
    items.sort_unstable_by(|a, b| a.name.cmp(&b.name));
}
