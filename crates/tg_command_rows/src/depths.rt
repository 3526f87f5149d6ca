//! Directories far below one another, of which a tree is made.
use crate::chains::{Named, car_of, root_of};
use crate::runs::{Ran, run_setup};
use crate::said::say_streams;
use crate::setup::Setup;
use std::alloc::{AllocError, Global};
use std::str::from_utf8;
use tg_bytes::{Bytes, List, number_of};
use tg_cid::{Cid, Codec};
use tg_rows::Answer;

/// Says what `verify` with `--into` leaves of the CAR of so many directories `d` in one another below the root, the last of them
/// empty: its status, out and err, how much was made, and how many names the path of the last thing has.
pub fn answer(alloc: Global, given: &[Bytes], answer: &mut Answer) {
    match given.first() {
        Some(levels) => match number_of(levels.as_slice()) {
            Some(levels) => answer_deep(alloc, levels, answer),
            None => answer.text("no number"),
        },
        None => answer.text("no number"),
    }
}

fn answer_deep(alloc: Global, levels: u64, answer: &mut Answer) {
    match deep_setup(alloc, levels) {
        Ok(mut setup) => match run_setup(alloc, &mut setup, 64) {
            Some(ran) => say_deep(&ran, answer),
            None => answer.text("no run"),
        },
        Err(_) => answer.lack(),
    }
}

fn say_deep(ran: &Ran, answer: &mut Answer) {
    say_streams(ran, answer);
    answer.number(ran.made().len() as u64);
    match ran.made().last() {
        Some(last) => answer.number(last.path().len() as u64),
        None => answer.text("nothing"),
    }
}

/// `verify` of the root over the CAR, into a tree.
fn deep_setup(alloc: Global, levels: u64) -> Result<Setup, AllocError> {
    let blocks = nest(alloc, levels)?;
    let root = root_of(blocks.as_slice());
    let text = root.to_text(alloc)?;
    let car = car_of(alloc, root, blocks.as_slice())?;
    let mut setup = Setup::new(alloc);
    setup.add_word("verify");
    setup.add_word(from_utf8(text.as_slice()).unwrap_or(""));
    setup.add_word("--into");
    setup.add_word("F");
    setup.give_input(car.as_slice());
    Ok(setup)
}

/// The empty directory, and above it so many directories, each of which has the one below as `d`.
fn nest(alloc: Global, levels: u64) -> Result<List<Named>, AllocError> {
    let mut blocks = List::new(alloc);
    let mut below = Cid::of_block(Codec::DagPb, EMPTY);
    blocks.push((below, Bytes::of(alloc, EMPTY)?))?;
    for _ in 0..levels {
        let block = directory_over(alloc, below)?;
        below = Cid::of_block(Codec::DagPb, block.as_slice());
        blocks.push((below, block))?;
    }
    Ok(blocks)
}

/// The block of the empty directory.
const EMPTY: &[u8] = b"\x0a\x02\x08\x01";

/// A DAG-PB node of 49 bytes: one link with the name `d` and the Tsize 0, and the data of a directory.
fn directory_over(alloc: Global, below: Cid) -> Result<Bytes, AllocError> {
    let hash = below.to_bytes(alloc)?;
    let mut block = Bytes::of(alloc, b"\x12\x2b\x0a\x24")?;
    block.push_all(hash.as_slice())?;
    block.push_all(b"\x12\x01d\x18\x00\x0a\x02\x08\x01")?;
    Ok(block)
}
