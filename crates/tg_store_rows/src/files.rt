//! Files of a folder that are imported one by one.
ghost use Rattle.std.specs.Prelude.{◌≤◌, IsTrue, Some};
ghost use Rattle.tg_import_file.specs.Files.{IsReady};
ghost use Rattle.tg_tree.specs.Tree.{HasFileAt, IsFolderOfFiles};

use crate::given::number_up_to;
use crate::left::{
    Fails, Left, MOST_CALLS, NONE, folder_of, has_names, in_folder, in_keeper, log_of, say_numbers,
};
use crate::numbered_log::NumberedLog;
use crate::said::{say_at, say_count, say_made, say_otherwise};
use std::alloc::{AllocError, Global};
use tg_bytes::{Bytes, List};
use tg_files::MemFolder;
use tg_import_file::{FileFault, FileWriter};
use tg_model::Made;
use tg_rows::Answer;
use tg_tree::{Sort, Tree, path_of_entry};

/// How a file is imported: its chunk size and width, and the calls that fail.
#[derive(Clone, Copy)]
struct How {
    chunk: u32,
    width: u32,
    fails: Fails,
}

/// What came of a file.
type Found = Result<Made, FileFault>;

/// What came of an import, and what is left.
#[derive(Drop)]
struct Imported {
    made: Found,
    left: Left,
}

/// Whether a file stands at a path of the tree.
fn is_file(tree: &Tree, path: &[Bytes]) -> bool
    ensures { IsTrue result → HasFileAt (Some tree.now) path.now }
{
    match tree.at(path) {
        Some(found) => found.sort() == Sort::File,
        None => false,
    }
}

/// Adds a file with these bytes.
fn add_file(
    entries: &mut List<(Bytes, Tree)>,
    alloc: Global,
    name: &[u8],
    bytes: &[u8],
) -> Result<(), AllocError> {
    let bytes = Bytes::of(alloc, bytes)?;
    let name = Bytes::of(alloc, name)?;
    entries.push((name, Tree::File(bytes)))
}

/// A folder with the files `first` and `second`.
fn two_files(alloc: Global, first: &[u8], second: &[u8]) -> Result<Tree, AllocError> {
    let mut entries = List::new(alloc);
    add_file(&mut entries, alloc, b"first", first)?;
    add_file(&mut entries, alloc, b"second", second)?;
    Ok(Tree::Folder(entries.into_vec()))
}

/// Imports the file at a path with this writer.
fn made(
    writer: &mut FileWriter,
    folder: &mut MemFolder,
    log: &mut NumberedLog,
    path: &[Bytes],
) -> Found
    requires ready { IsReady writer.old }
    requires file { HasFileAt (Some folder.old.tree) path.now }
{
    writer.import(folder, path, log)
}

/// Imports the file at a path of a folder in chunks of this size, where these calls fail.
fn import_with(alloc: Global, folder: &mut MemFolder, path: &[Bytes], how: How) -> Option<Imported>
    requires file { HasFileAt (Some folder.old.tree) path.now }
    requires chunk_low { 1 ≤ how.chunk }
    requires chunk_high { how.chunk ≤ 2097152 }
    requires width_low { 2 ≤ how.width }
    requires width_high { how.width ≤ 4096 }
{
    let mut log = log_of(alloc, how.fails.keeper);
    match FileWriter::new(alloc, how.chunk, how.width) {
        Ok(mut writer) => {
            let made = made(&mut writer, folder, &mut log, path);
            let left = Left::of(alloc, folder, &log);
            Some(Imported { made, left })
        }
        Err(_) => None,
    }
}

/// Imports the file at a path of a tree. There is nothing where there is none, or the numbers are none of a layout,
/// or for want of memory.
fn import_from(alloc: Global, tree: Tree, path: &[Bytes], how: How) -> Option<Imported> {
    if how.chunk < 1 || how.chunk > 2_097_152 || how.width < 2 || how.width > 4096 {
        return None;
    }
    if !has_names(&tree) || !is_file(&tree, path) {
        return None;
    }
    let mut folder = folder_of(alloc, tree, how.fails.folder);
    import_with(alloc, &mut folder, path, how)
}

/// Imports the file `first` of a folder with two files.
fn import(alloc: Global, bytes: &[u8], how: How) -> Option<Imported> {
    match (
        path_of_entry(alloc, &[], b"first"),
        two_files(alloc, bytes, b"other"),
    ) {
        (Ok(path), Ok(tree)) => import_from(alloc, tree, path.as_slice(), how),
        _ => None,
    }
}

/// The numbers of a layout, where a field has one: a chunk size, and a width.
fn how_of(chunk: &Bytes, width: &Bytes) -> How {
    How {
        chunk: number_up_to(chunk, 4_000_000) as u32,
        width: number_up_to(width, 4_000_000) as u32,
        fails: NONE,
    }
}

/// `file NAME BYTES CHUNK WIDTH`: what is made of a file, how many reads that takes, and how many bytes each block has
/// that is kept. Each read stops it where it fails, and so does each block where it isn't kept, behind those before it.
pub fn answer_file(alloc: Global, given: &[Bytes], answer: &mut Answer) {
    let [_, bytes, chunk, width] = given else {
        return answer.text("a name, bytes, a chunk size and a width");
    };
    let how = how_of(chunk, width);
    match import(alloc, bytes.as_slice(), how) {
        Some(whole) => {
            say_found(alloc, whole.made, answer);
            say_left(&whole.left, answer);
            say_reads(alloc, bytes.as_slice(), how, &whole, answer);
            say_blocks(alloc, bytes.as_slice(), how, &whole, answer);
        }
        None => answer.text("no file"),
    }
}

/// Says what came of a file.
fn say_found(alloc: Global, made: Found, answer: &mut Answer) {
    match made {
        Ok(made) => say_made(alloc, made, answer),
        Err(FileFault::OutOfMemory) => answer.lack(),
        Err(fault) => answer.shown_as(&fault),
    }
}

/// Says how often the folder failed, and the keeper, where one did.
fn say_left(left: &Left, answer: &mut Answer) {
    say_count(left.folder_faults, answer);
    say_count(left.keeper_faults, answer);
}

/// Says how many reads there are: up to that number each stops the import where it fails.
fn say_reads(alloc: Global, bytes: &[u8], how: How, whole: &Imported, answer: &mut Answer) {
    for number in 0..MOST_CALLS {
        let fails = in_folder(number);
        match import(alloc, bytes, How { fails, ..how }) {
            Some(done) if is_stopped(&done, FileFault::Folder, (1, 0)) => {}
            Some(done) if is_same(&done, whole) => return say_at("reads", number, answer),
            _ => return say_otherwise(number, answer),
        }
    }
}

/// Says how many bytes each block has: each stops the import where it isn't kept.
fn say_blocks(alloc: Global, bytes: &[u8], how: How, whole: &Imported, answer: &mut Answer) {
    let lengths = whole.left.lengths.as_slice();
    for number in 0..lengths.len() {
        let fails = in_keeper(number as u64);
        match import(alloc, bytes, How { fails, ..how }) {
            Some(done)
                if is_stopped(&done, FileFault::Keep, (0, 1))
                    && done.left.has_first(lengths, number) => {}
            _ => return say_otherwise(number as u64, answer),
        }
    }
    answer.text("blocks");
    say_numbers(lengths, answer);
}

/// Whether the import ended with this fault, and the folder and the keeper failed so often.
fn is_stopped(done: &Imported, fault: FileFault, failed: (u64, u64)) -> bool {
    done.made == Err(fault) && done.left.failed(failed.0, failed.1)
}

/// Whether the same came of a file, no call failed, and as many bytes were kept of each block.
fn is_same(done: &Imported, whole: &Imported) -> bool {
    done.made == whole.made
        && done.left.failed(0, 0)
        && done.left.lengths.as_slice() == whole.left.lengths.as_slice()
}

/// `pair NAME FIRST SECOND CHUNK WIDTH`: what one writer makes of the first file and then of the second, and how many bytes
/// each block has that is kept.
pub fn answer_pair(alloc: Global, given: &[Bytes], answer: &mut Answer) {
    let [_, first, second, chunk, width] = given else {
        return answer.text("a name, two files, a chunk size and a width");
    };
    let how = how_of(chunk, width);
    match (
        path_of_entry(alloc, &[], b"first"),
        path_of_entry(alloc, &[], b"second"),
        two_files(alloc, first.as_slice(), second.as_slice()),
    ) {
        (Ok(first), Ok(second), Ok(tree)) => {
            say_both(
                alloc,
                tree,
                first.as_slice(),
                second.as_slice(),
                how,
                answer,
            );
        }
        _ => answer.lack(),
    }
}

/// Says what one writer makes of two files of a tree.
fn say_both(
    alloc: Global,
    tree: Tree,
    first: &[Bytes],
    second: &[Bytes],
    how: How,
    answer: &mut Answer,
) {
    if how.chunk < 1 || how.chunk > 2_097_152 || how.width < 2 || how.width > 4096 {
        return answer.text("no layout");
    }
    if !has_names(&tree) || !is_file(&tree, first) || !is_file(&tree, second) {
        return answer.text("no files");
    }
    let mut folder = folder_of(alloc, tree, None);
    let mut log = log_of(alloc, None);
    match FileWriter::new(alloc, how.chunk, how.width) {
        Ok(mut writer) => {
            let made = made_both(&mut writer, &mut folder, &mut log, first, second);
            say_found(alloc, made.0, answer);
            say_found(alloc, made.1, answer);
        }
        Err(_) => answer.lack(),
    }
    say_left(&Left::of(alloc, &folder, &log), answer);
    answer.text("blocks");
    say_numbers(Left::of(alloc, &folder, &log).lengths.as_slice(), answer);
}

/// Imports a file of a folder, and another one where the first came.
fn made_both(
    writer: &mut FileWriter,
    folder: &mut MemFolder,
    log: &mut NumberedLog,
    first: &[Bytes],
    second: &[Bytes],
) -> (Found, Found)
    requires ready { IsReady writer.old }
    requires first { HasFileAt (Some folder.old.tree) first.now }
    requires second { HasFileAt (Some folder.old.tree) second.now }
{
    match writer.import(folder, first, log) {
        Ok(made) => (Ok(made), writer.import(folder, second, log)),
        Err(fault) => (Err(fault), Err(fault)),
    }
}
