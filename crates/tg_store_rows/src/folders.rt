//! Folders that are imported whole, and folders that aren't imported.
ghost use Rattle.std.specs.Prelude.{◌≤◌};
ghost use Rattle.tg_tree.specs.Tree.{IsFolderOfFiles};

use crate::given::number_up_to;
use crate::left::{
    Fails, Left, MOST_CALLS, NONE, folder_of, has_names, in_folder, in_keeper, log_of, say_numbers,
};
use crate::numbered_log::NumberedLog;
use crate::said::{say_at, say_cid, say_count, say_otherwise};
use crate::trees::tree_of;
use std::alloc::Global;
use tg_bytes::Bytes;
use tg_cid::Cid;
use tg_files::MemFolder;
use tg_import::{ImportFault, Options, Summary, import};
use tg_rows::Answer;
use tg_tree::Tree;

/// What came of an import.
type Found = Result<(Cid, Summary), ImportFault>;

/// What came of an import, and what is left.
#[derive(Drop)]
struct Imported {
    found: Found,
    left: Left,
}

/// Imports the folder with this threshold, in chunks of 4 bytes.
fn found(alloc: Global, folder: &mut MemFolder, log: &mut NumberedLog, shard: u64) -> Found
    requires { shard ≤ 1048576 }
{
    let options = Options {
        chunk: 4,
        width: 1024,
        shard,
    };
    import(alloc, folder, log, options)
}

/// Imports the folder of a tree with this threshold, where these calls fail.
fn import_from(alloc: Global, tree: Tree, shard: u64, fails: Fails) -> Imported
    requires names { IsFolderOfFiles tree }
    requires shard { shard ≤ 1048576 }
{
    let mut folder = folder_of(alloc, tree, fails.folder);
    let mut log = log_of(alloc, fails.keeper);
    let found = found(alloc, &mut folder, &mut log, shard);
    let left = Left::of(alloc, &folder, &log);
    Imported { found, left }
}

/// Imports the folder with these entries, where these calls fail. There is nothing where they make none in which the
/// names differ, or the threshold is too great.
fn import_tree(alloc: Global, entries: &[Bytes], shard: u64, fails: Fails) -> Option<Imported> {
    match tree_of(alloc, entries) {
        Some(tree) if shard <= 1_048_576 && has_names(&tree) => {
            Some(import_from(alloc, tree, shard, fails))
        }
        _ => None,
    }
}

/// `folder NAME SHARD ENTRY ..`: what is made of a folder with this threshold, how many calls of the folder that takes, and
/// how many bytes each block has that is kept. Each call stops it where it fails, and so does each block where it isn't
/// kept, behind those before it.
pub fn answer_folder(alloc: Global, given: &[Bytes], answer: &mut Answer) {
    let [_, shard, entries @ ..] = given else {
        return answer.text("a name, a threshold and entries");
    };
    let shard = number_up_to(shard, 2_000_000);
    match import_tree(alloc, entries, shard, NONE) {
        Some(whole) => {
            say_imported(alloc, &whole, answer);
            say_calls(alloc, entries, shard, &whole, answer);
            say_blocks(alloc, entries, shard, &whole, answer);
        }
        None => answer.text("no folder"),
    }
}

/// `odd NAME SHARD ENTRY ..`: what comes of the import of a folder, and how many bytes each block has that is kept.
pub fn answer_odd(alloc: Global, given: &[Bytes], answer: &mut Answer) {
    let [_, shard, entries @ ..] = given else {
        return answer.text("a name, a threshold and entries");
    };
    match import_tree(alloc, entries, number_up_to(shard, 2_000_000), NONE) {
        Some(whole) => {
            say_imported(alloc, &whole, answer);
            answer.text("blocks");
            say_numbers(whole.left.lengths.as_slice(), answer);
        }
        None => answer.text("no folder"),
    }
}

/// Says what came of an import, and how often the folder failed, and the keeper, where one did.
fn say_imported(alloc: Global, done: &Imported, answer: &mut Answer) {
    match &done.found {
        Ok((root, summary)) => {
            say_cid(alloc, *root, answer);
            say_summary(summary, answer);
        }
        Err(fault) => say_fault(alloc, fault, answer),
    }
    say_count(done.left.folder_faults, answer);
    say_count(done.left.keeper_faults, answer);
}

/// Says how many files there are, how many folders, how many of them are sharded, and how many bytes the files have.
fn say_summary(summary: &Summary, answer: &mut Answer) {
    say_at("files", summary.files, answer);
    say_at("folders", summary.folders, answer);
    say_at("shards", summary.shards, answer);
    say_at("bytes", summary.bytes, answer);
}

/// Says a fault, and the names of its path with a slash before each.
fn say_fault(alloc: Global, fault: &ImportFault, answer: &mut Answer) {
    match fault {
        ImportFault::TooDeep { path }
        | ImportFault::BadName { path }
        | ImportFault::LongName { path }
        | ImportFault::NotPlain { path }
        | ImportFault::TooBig { path } => {
            answer.shown_as(fault);
            say_path(alloc, path.as_slice(), answer);
        }
        ImportFault::SameHash { first, second } => {
            answer.shown_as(fault);
            answer.bytes(first.as_slice());
            answer.bytes(second.as_slice());
        }
        ImportFault::OutOfMemory => answer.lack(),
        ImportFault::Folder | ImportFault::Keep => answer.shown_as(fault),
    }
}

/// Says the names of a path with a slash before each.
fn say_path(alloc: Global, path: &[Bytes], answer: &mut Answer) {
    let mut text = Bytes::new(alloc);
    for name in path {
        if text.push_all(b"/").is_err() || text.push_all(name.as_slice()).is_err() {
            return answer.lack();
        }
    }
    answer.bytes(text.as_slice());
}

/// Says how many calls of the folder there are: up to that number each stops the import where it fails.
fn say_calls(alloc: Global, entries: &[Bytes], shard: u64, whole: &Imported, answer: &mut Answer) {
    for number in 0..MOST_CALLS {
        match import_tree(alloc, entries, shard, in_folder(number)) {
            Some(done) if is_stopped_in_folder(&done) => {}
            Some(done) if is_same(&done, whole) => return say_at("calls", number, answer),
            _ => return say_otherwise(number, answer),
        }
    }
}

/// Says how many bytes each block has: each stops the import where it isn't kept.
fn say_blocks(alloc: Global, entries: &[Bytes], shard: u64, whole: &Imported, answer: &mut Answer) {
    let lengths = whole.left.lengths.as_slice();
    for number in 0..lengths.len() {
        match import_tree(alloc, entries, shard, in_keeper(number as u64)) {
            Some(done) if is_stopped_in_keeper(&done, lengths, number) => {}
            _ => return say_otherwise(number as u64, answer),
        }
    }
    answer.text("blocks");
    say_numbers(lengths, answer);
}

/// Whether a fault of the folder stopped the import.
fn is_stopped_in_folder(done: &Imported) -> bool {
    matches!(&done.found, Err(ImportFault::Folder)) && done.left.failed(1, 0)
}

/// Whether a fault of the keeper stopped the import, behind the first so many of these blocks.
fn is_stopped_in_keeper(done: &Imported, lengths: &[u64], count: usize) -> bool {
    matches!(&done.found, Err(ImportFault::Keep))
        && done.left.failed(0, 1)
        && done.left.has_first(lengths, count)
}

/// Whether the same came of a folder, no call failed, and as many bytes were kept of each block.
fn is_same(done: &Imported, whole: &Imported) -> bool {
    match (&done.found, &whole.found) {
        (Ok(one), Ok(other)) => {
            *one == *other
                && done.left.failed(0, 0)
                && done.left.lengths.as_slice() == whole.left.lengths.as_slice()
        }
        _ => false,
    }
}
