//! Drawn files as a folder.
ghost use Rattle.std.specs.Prelude.{◌≡◌, ◌+◌, ◌<◌, ◌≤◌, ◌^◌, IfOk, length};
ghost use Rattle.tg_draws.specs.Trees.{AreFilesFrom, IsTreeOf, digit_of, file_name};
ghost use Rattle.tg_tree.specs.Tree.{IsFolderOfFiles};

use crate::drawing::Drawn;
use std::alloc::{AllocError, Global};
use tg_bytes::{Bytes, List};
use tg_tree::Tree;

/// The name of a file of the folder `many`, counted from 0: the letter `f` and six decimal digits. The number is below
/// 1,000,000. The error is want of memory.
pub fn file_name(alloc: Global, number: u32) -> Result<Bytes, AllocError>
    requires { number < 1000000 }
    ensures { IfOk result (λ name. name ≡ file_name number) }
{
    let name = [
        b'f',
        digit_of(100_000, number),
        digit_of(10_000, number),
        digit_of(1_000, number),
        digit_of(100, number),
        digit_of(10, number),
        digit_of(1, number),
    ];
    Bytes::of(alloc, &name)
}

/// The decimal digit of a number that counts so many ones, which are some.
fn digit_of(ones: u32, number: u32) -> u8
    requires { 0 < ones }
    ensures { result ≡ digit_of ones number }
{
    b'0' + (number / ones % 10) as u8
}

/// The folder of drawn files: the file `big`, the folder `many` of at most 1,000,000 files, the empty folder `empty`,
/// and the file `none` of no bytes. The error is want of memory.
pub fn tree_of(alloc: Global, drawn: Drawn) -> Result<Tree, AllocError>
    requires { length drawn.many ≤ 1000000 }
    ensures tree { IfOk result (IsTreeOf drawn) }
    ensures folder { IfOk result IsFolderOfFiles }
{
    let many = files_of(alloc, drawn.many)?;
    let mut entries = Vec::new(alloc);
    entries.push((Bytes::of(alloc, b"big")?, Tree::File(drawn.big)))?;
    entries.push((Bytes::of(alloc, b"many")?, Tree::Folder(many)))?;
    entries.push((Bytes::of(alloc, b"empty")?, Tree::Folder(Vec::new(alloc))))?;
    entries.push((Bytes::of(alloc, b"none")?, Tree::File(Bytes::new(alloc))))?;
    Ok(Tree::Folder(entries))
}

/// The entries of the folder `many`, of at most 1,000,000 files. The error is want of memory.
fn files_of(alloc: Global, many: List<Bytes>) -> Result<Vec<(Bytes, Tree)>, AllocError>
    requires { length many ≤ 1000000 }
    ensures { IfOk result (λ entries. AreFilesFrom 0 many entries.items) }
{
    let mut entries = Vec::new(alloc);
    for bytes in many.into_vec() {
        let name = file_name(alloc, entries.len() as u32)?;
        entries.push((name, Tree::File(bytes)))?;
    }
    Ok(entries)
}
