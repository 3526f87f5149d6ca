//! What is drawn from seeds, the names of files, and a folder of drawn files.
ghost use Rattle.std.specs.Prelude.{IfOk};
ghost use Rattle.tg_tree.specs.Tree.{IsFolderOfFiles};

use std::alloc::{AllocError, Global};
use std::str::from_utf8;
use tg_bytes::{Bytes, List};
use tg_draws::{Drawn, Generator, file_name, tree_of};
use tg_rows::Answer;
use tg_tree::Tree;

/// The number that a row gives first, or 0.
pub fn first_number(given: &[Bytes]) -> u64 {
    match given.first() {
        Some(field) => match from_utf8(field.as_slice()) {
            Ok(text) => text.parse::<u64>().unwrap_or(0),
            Err(_) => 0,
        },
        None => 0,
    }
}

/// Says the first four numbers that are drawn from a seed, and the first eight bytes.
pub fn answer(alloc: Global, given: &[Bytes], answer: &mut Answer) {
    let seed = first_number(given);
    let mut generator = Generator { state: seed };
    for _ in 0..4 {
        answer.number(u64::from(generator.next()));
    }
    match (Generator { state: seed }).bytes(alloc, 8) {
        Ok(bytes) => answer.bytes(bytes.as_slice()),
        Err(_) => answer.lack(),
    }
}

/// Says the name of the file with this number.
pub fn answer_name(alloc: Global, given: &[Bytes], answer: &mut Answer) {
    let number = u32::try_from(first_number(given)).unwrap_or(0);
    match file_name(alloc, number.min(999_999)) {
        Ok(name) => answer.bytes(name.as_slice()),
        Err(_) => answer.lack(),
    }
}

/// The folder of `big`, which holds the byte `b`, and two files, `x` and an empty one.
pub fn drawn_folder(alloc: Global) -> Result<Tree, AllocError>
    ensures { IfOk result IsFolderOfFiles }
{
    let mut many = List::new(alloc);
    many.push(Bytes::of(alloc, b"x")?)?;
    many.push(Bytes::new(alloc))?;
    tree_of(
        alloc,
        Drawn {
            big: Bytes::of(alloc, b"b")?,
            many,
        },
    )
}

/// Says what stands at a path of that folder.
pub fn answer_place(alloc: Global, given: &[Bytes], answer: &mut Answer) {
    match drawn_folder(alloc) {
        Ok(tree) => match tree.at(given) {
            Some(Tree::File(bytes)) => {
                answer.text("file");
                answer.bytes(bytes.as_slice());
            }
            Some(Tree::Folder(_)) => answer.text("folder"),
            Some(_) => answer.text("something else"),
            None => answer.text("nothing"),
        },
        Err(_) => answer.lack(),
    }
}

/// Says how many entries stand at a path of that folder, and their names in order.
pub fn answer_entries(alloc: Global, given: &[Bytes], answer: &mut Answer) {
    match drawn_folder(alloc) {
        Ok(tree) => match tree.at(given) {
            Some(found) => say_entries(found, answer),
            None => answer.text("nothing"),
        },
        Err(_) => answer.lack(),
    }
}

fn say_entries(found: &Tree, answer: &mut Answer) {
    let entries = found.entries();
    answer.number(entries.len() as u64);
    for (name, _) in entries {
        answer.bytes(name.as_slice());
    }
}
