//! Folders in memory and of the system that are listed and read, and what generic code knows of any folder.
ghost use Rattle.std.specs.Prelude.{◌≡◌, [], All, IfOk, IfErr};
ghost use Rattle.tg_files.specs.Folders.{FolderCalled, FolderCounts, Leads, Lists, SameFolder, folder_step};
ghost use Rattle.tg_tree.specs.Tree.{tree_at};

use crate::given::{bytes_at, number_at};
use crate::left::{folder_of, has_names};
use crate::rough_files::{RoughFiles, plan_of};
use crate::said::{say_count, say_done};
use crate::trees::tree_of;
use std::alloc::Global;
use std::rt::Files;
use tg_bytes::{Bytes, List};
use tg_faults::Failed;
use tg_files::{Folder, FolderFault, HostFolder, MemFolder, TempNames};
use tg_rows::Answer;
use tg_tree::{Item, Sort, sort_by_name};

/// The names at the top of any folder, also of one that wasn't attached here.
fn top_items<F: Folder>(folder: &mut F) -> Result<List<Item>, FolderFault>
    ensures items { IfOk result (λ items. Lists (tree_at (F.folder.tree folder.old) []) items) }
    ensures leads { IfOk result (λ items. All (Leads (F.folder.tree folder.old) []) items) }
    ensures same { SameFolder (folder_step F.folder folder.old folder.new) }
    ensures call { FolderCalled (folder_step F.folder folder.old folder.new) }
    ensures err_counts { IfErr result (λ e. FolderCounts e (folder_step F.folder folder.old folder.new)) }
{
    folder.tells();
    folder.list(&[])
}

/// Says what is listed: each name and its sort, in the order of the names.
fn say_listed(listed: Result<List<Item>, FolderFault>, answer: &mut Answer) {
    match listed {
        Ok(mut items) => {
            sort_by_name(&mut items);
            say_items(items.as_slice(), answer);
        }
        Err(FolderFault::Failed) => answer.text("Failed"),
        Err(FolderFault::OutOfMemory) => answer.lack(),
    }
}

fn say_items(items: &[Item], answer: &mut Answer) {
    for item in items {
        answer.bytes(item.name.as_slice());
        answer.text(name_of(item.sort));
    }
}

/// The name of a sort.
fn name_of(sort: Sort) -> &'static str {
    match sort {
        Sort::File => "File",
        Sort::Folder => "Folder",
        Sort::Symlink => "Symlink",
        Sort::Other => "Other",
    }
}

/// Says what one read gave into a buffer of 8 bytes.
pub fn say_read(read: Result<usize, Failed>, buf: &[u8], answer: &mut Answer) {
    match read {
        Ok(count) => answer.bytes(buf.get(..count).unwrap_or(buf)),
        Err(Failed) => answer.text("Failed"),
    }
}

/// The offset that a field spells; `most` is the greatest.
pub fn offset_at(given: &[Bytes], at: usize) -> u64 {
    match bytes_at(given, at) {
        b"most" => u64::MAX,
        _ => number_at(given, at).unwrap_or(0),
    }
}

/// The folder with these entries, whose call with this number fails.
pub fn folder_with(alloc: Global, given: &[Bytes]) -> Option<MemFolder> {
    match tree_of(alloc, given.get(1..).unwrap_or(&[])) {
        Some(tree) if has_names(&tree) => Some(folder_of(alloc, tree, number_at(given, 0))),
        _ => None,
    }
}

/// A call to a folder in memory: `attach PATH`, `list NAME ..`, `top`, which is by generic code, `read OFFSET NAME ..`, or
/// `count`, which says how many calls failed.
pub fn answer_memory(folder: &mut MemFolder, verb: &str, given: &[Bytes], answer: &mut Answer) {
    match verb {
        "attach" => say_done(folder.attach("anywhere"), answer),
        "list" => say_listed(folder.list(given), answer),
        "top" => say_listed(top_items(folder), answer),
        "read" => {
            let mut buf = [0; 8];
            let path = given.get(1..).unwrap_or(&[]);
            let read = folder.read_at(path, offset_at(given, 0), &mut buf);
            say_read(read, &buf, answer);
        }
        "count" => answer.number(folder.count()),
        _ => answer.text("an unknown call"),
    }
}

/// A call to a folder of the system: `attach PATH`, of which the path of the system is given, `list NAME ..`, `find NAME
/// NAME ..`, which says the sort of the first name in the folder at a path, `read OFFSET NAME ..`, or `count`.
pub fn answer_host<R: Files + AllocGlobal + Clone + Drop>(
    folder: &mut HostFolder<R>,
    verb: &str,
    path: &str,
    given: &[Bytes],
    answer: &mut Answer,
) {
    match verb {
        "attach" => say_done(folder.attach(path), answer),
        "list" => say_listed(folder.list(given), answer),
        "find" => {
            let listed = folder.list(given.get(1..).unwrap_or(&[]));
            say_found(listed, bytes_at(given, 0), answer);
        }
        "read" => {
            let names = given.get(1..).unwrap_or(&[]);
            read_host(folder, names, offset_at(given, 0), answer);
        }
        "count" => answer.number(folder.count()),
        _ => answer.text("an unknown call"),
    }
}

/// Says what one read of a file gives.
fn read_host<R: Files + AllocGlobal + Clone + Drop>(
    folder: &mut HostFolder<R>,
    path: &[Bytes],
    offset: u64,
    answer: &mut Answer,
) {
    let mut buf = [0; 8];
    let read = folder.read_at(path, offset, &mut buf);
    say_read(read, &buf, answer);
}

/// Says the sort of a name that is listed.
fn say_found(listed: Result<List<Item>, FolderFault>, name: &[u8], answer: &mut Answer) {
    match listed {
        Ok(items) => answer.text(sort_in(items.as_slice(), name)),
        Err(_) => answer.text("Failed"),
    }
}

/// The sort of the item with this name.
fn sort_in(items: &[Item], name: &[u8]) -> &'static str {
    for item in items {
        if item.name.as_slice() == name {
            return name_of(item.sort);
        }
    }
    "absent"
}

/// `rough-folder NAME OFFSET FILE PLAN ..`: what a folder lists whose calls go by a plan, what one read of a file gives then,
/// and how many calls failed.
pub fn answer_rough(alloc: Global, given: &[Bytes], answer: &mut Answer) {
    let plan = plan_of(given.get(3..).unwrap_or(&[]));
    let mut folder = HostFolder::new(RoughFiles { alloc, plan }, TempNames::new(1));
    say_attached(&mut folder, answer);
    let path = given.get(2..3).unwrap_or(&[]);
    read_host(&mut folder, path, offset_at(given, 1), answer);
    answer.number(folder.count());
}

/// Attaches a folder of a plan, and says what it lists.
fn say_attached(folder: &mut HostFolder<RoughFiles>, answer: &mut Answer) {
    match folder.attach("anywhere") {
        Ok(()) => say_listed(folder.list(&[]), answer),
        Err(Failed) => answer.text("not attached"),
    }
}

/// `rough-listing NAME PLAN ..`: what a folder lists whose calls go by a plan, and how many calls failed.
pub fn answer_listing(alloc: Global, given: &[Bytes], answer: &mut Answer) {
    let plan = plan_of(given.get(1..).unwrap_or(&[]));
    let mut folder = HostFolder::new(RoughFiles { alloc, plan }, TempNames::new(1));
    say_attached(&mut folder, answer);
    say_count(folder.count(), answer);
}
