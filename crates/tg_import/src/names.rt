//! The names of a folder's entries.
ghost use Rattle.std.specs.Prelude.{◌≡◌, ◌<◌, ◌↔◌, IfErr, IfOk, IsTrue, OnOk, length};
ghost use Rattle.tg_files.specs.Folders.{FolderQuiet, SameFolder, folder_step};
ghost use Rattle.tg_import.specs.Imported.{AreEntryNames, AreItemsOf};
ghost use Rattle.tg_import.specs.Refused.{entry_limit, item_names};
ghost use Rattle.tg_import.specs.Steps.{IsListCause, IsNamesCause, StandsBefore};
ghost use Rattle.tg_tree.specs.Tree.{HasFolderAt, NamesRise};

use crate::fault::ImportFault;
use std::alloc::{AllocError, Global};
use tg_bytes::{Bytes, List};
use tg_files::{Folder, FolderFault};
use tg_model::{Path, is_good_name};
use tg_tree::{Item, path_of_entry, sort_by_name};

/// How many bytes a name in a directory has at most.
const MAX_NAME_LEN: usize = 255;

/// How many entries a folder lists at most, and one.
const ENTRY_LIMIT: usize = 1 << 32;

/// The names in the folder at a path, in the order of their bytes. All may stand in one directory. Errors: `Folder`
/// where the folder failed and counted it, `TooBig`, `BadName`, `LongName` and `OutOfMemory`.
pub(crate) fn listed<F: Folder>(
    alloc: Global,
    folder: &mut F,
    path: &[Bytes],
) -> Result<List<Item>, ImportFault>
    requires { HasFolderAt (F.folder.tree folder.old) path.now }
    ensures items { IfOk result (AreItemsOf (F.folder.tree folder.old) path.now) }
    ensures names { IfOk result (λ items. AreEntryNames (item_names items)) }
    ensures few { IfOk result (λ items. length items < entry_limit) }
    ensures quiet { OnOk result (FolderQuiet (folder_step F.folder folder.old folder.new)) }
    ensures same { SameFolder (folder_step F.folder folder.old folder.new) }
    ensures cause { IfErr result (λ fault. IsListCause (F.folder.tree folder.old) path.now fault
        (folder_step F.folder folder.old folder.new)) }
{
    let mut items = match folder.list(path) {
        Ok(items) => items,
        Err(FolderFault::Failed) => return Err(ImportFault::Folder),
        Err(FolderFault::OutOfMemory) => return Err(ImportFault::OutOfMemory),
    };
    sort_by_name(&mut items);
    if items.as_slice().len() >= ENTRY_LIMIT {
        return Err(ImportFault::TooBig {
            path: copy_of(alloc, path)?,
        });
    }
    check_names(alloc, path, items.as_slice())?;
    Ok(items)
}

/// Checks that items, in the order of their names' bytes, have names that may stand in one directory. Errors: `BadName`
/// and `LongName` at the first name that may not, and `OutOfMemory`.
fn check_names(alloc: Global, path: &[Bytes], items: &[Item]) -> Result<(), ImportFault>
    requires { NamesRise items.now }
    ensures names { OnOk result (AreEntryNames (item_names items.now)) }
    ensures cause { IfErr result (λ fault. IsNamesCause path.now items.now fault) }
{
    tg_model::laws::good_names();
    for i in 0..items.len() {
        let name = items[i].name.as_slice();
        if !is_good_name(name) || stands_before(items, i) {
            return Err(ImportFault::BadName {
                path: path_of_entry(alloc, path, name)?,
            });
        }
        if name.len() > MAX_NAME_LEN {
            return Err(ImportFault::LongName {
                path: path_of_entry(alloc, path, name)?,
            });
        }
    }
    Ok(())
}

/// Whether the item before this one has its name.
fn stands_before(items: &[Item], i: usize) -> bool
    requires { i < length items.now }
    ensures { IsTrue result ↔ StandsBefore items.now i }
{
    i > 0 && items[i - 1].name == items[i].name
}

/// A copy of the path. The error is want of memory.
pub(crate) fn copy_of(alloc: Global, path: &[Bytes]) -> Result<Path, AllocError>
    ensures { IfOk result (λ copy. copy ≡ path.now) }
{
    let mut copy = List::new(alloc);
    for name in path {
        copy.push(Bytes::of(alloc, name.as_slice())?)?;
    }
    Ok(copy)
}
