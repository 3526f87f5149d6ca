//! Files whose only leaf lies far below the root.
use crate::runs::run_setup;
use crate::said::{say_ran, say_streams};
use crate::setup::Setup;
use std::alloc::{AllocError, Global};
use std::str::from_utf8;
use tg_bytes::{Bytes, List, number_of};
use tg_cid::{Cid, Codec};
use tg_rows::Answer;

/// Says how many bytes a field has.
pub fn answer_length(given: &[Bytes], answer: &mut Answer) {
    match given.first() {
        Some(field) => answer.number(field.as_slice().len() as u64),
        None => answer.text("no field"),
    }
}

/// Says what `verify` leaves of the CAR of a file of one byte whose leaf lies so many blocks below the root, the root
/// counted.
pub fn answer(alloc: Global, given: &[Bytes], answer: &mut Answer) {
    match given.first() {
        Some(nodes) => match number_of(nodes.as_slice()) {
            Some(nodes) => answer_chain(alloc, nodes, answer),
            None => answer.text("no number"),
        },
        None => answer.text("no number"),
    }
}

fn answer_chain(alloc: Global, nodes: u64, answer: &mut Answer) {
    match chain_setup(alloc, nodes) {
        Ok(mut setup) => match run_setup(alloc, &mut setup, 64) {
            Some(ran) => say_ran(&ran, answer),
            None => answer.text("no run"),
        },
        Err(_) => answer.lack(),
    }
}

/// `verify` of the root over the CAR.
fn chain_setup(alloc: Global, nodes: u64) -> Result<Setup, AllocError> {
    let blocks = chain(alloc, nodes)?;
    let root = root_of(blocks.as_slice());
    let text = root.to_text(alloc)?;
    let car = car_of(alloc, root, blocks.as_slice())?;
    let mut setup = Setup::new(alloc);
    setup.add_word("verify");
    setup.add_word(from_utf8(text.as_slice()).unwrap_or(""));
    setup.give_input(car.as_slice());
    Ok(setup)
}

/// Says the status, out and err of a `mirror` of that file from a peer that replies with its CAR.
pub fn answer_mirrored(alloc: Global, given: &[Bytes], answer: &mut Answer) {
    match given.first() {
        Some(nodes) => match number_of(nodes.as_slice()) {
            Some(nodes) => answer_mirrored_chain(alloc, nodes, answer),
            None => answer.text("no number"),
        },
        None => answer.text("no number"),
    }
}

fn answer_mirrored_chain(alloc: Global, nodes: u64, answer: &mut Answer) {
    match mirror_setup(alloc, nodes) {
        Ok(mut setup) => match run_setup(alloc, &mut setup, 4096) {
            Some(ran) => say_streams(&ran, answer),
            None => answer.text("no run"),
        },
        Err(_) => answer.lack(),
    }
}

/// `mirror` of the root, where the peer replies with the CAR.
fn mirror_setup(alloc: Global, nodes: u64) -> Result<Setup, AllocError> {
    let blocks = chain(alloc, nodes)?;
    let root = root_of(blocks.as_slice());
    let text = root.to_text(alloc)?;
    let car = car_of(alloc, root, blocks.as_slice())?;
    let mut reply = Bytes::of(alloc, CAR_HEAD)?;
    reply.push_all(car.as_slice())?;
    let mut fields = List::new(alloc);
    fields.push(Bytes::of(alloc, b"mirror")?)?;
    fields.push(Bytes::of(alloc, b"a:1")?)?;
    fields.push(text)?;
    fields.push(Bytes::of(alloc, b"p")?)?;
    fields.push(Bytes::of(alloc, b":reply")?)?;
    fields.push(reply)?;
    Ok(Setup::of(alloc, fields.as_slice()))
}

/// The head of a reply whose CAR goes on until the link closes.
const CAR_HEAD: &[u8] = b"HTTP/1.1 200 OK\r\nContent-Type: application/vnd.ipld.car\r\n\r\n";

/// A block and its CID.
pub type Named = (Cid, Bytes);

/// The leaf `x`, and above it so many nodes of files, each of which has the one below as its one part.
fn chain(alloc: Global, nodes: u64) -> Result<List<Named>, AllocError> {
    let mut blocks = List::new(alloc);
    let mut below = Cid::of_block(Codec::Raw, b"x");
    blocks.push((below, Bytes::of(alloc, b"x")?))?;
    for _ in 0..nodes {
        let block = node_over(alloc, below)?;
        below = Cid::of_block(Codec::DagPb, block.as_slice());
        blocks.push((below, block))?;
    }
    Ok(blocks)
}

/// A DAG-PB node of 52 bytes: one link with an empty name and the Tsize 1, and the data of a file of one byte with one part.
fn node_over(alloc: Global, below: Cid) -> Result<Bytes, AllocError> {
    let hash = below.to_bytes(alloc)?;
    let mut block = Bytes::of(alloc, b"\x12\x2a\x0a\x24")?;
    block.push_all(hash.as_slice())?;
    block.push_all(b"\x12\x00\x18\x01\x0a\x06\x08\x02\x18\x01\x20\x01")?;
    Ok(block)
}

/// The CID of the last block.
pub fn root_of(blocks: &[Named]) -> Cid {
    match blocks.last() {
        Some((cid, _)) => *cid,
        None => Cid::of_block(Codec::Raw, b""),
    }
}

/// The CAR of these blocks from the last down, with this root (CARv1 specification).
pub fn car_of(alloc: Global, root: Cid, blocks: &[Named]) -> Result<Bytes, AllocError> {
    let cid = root.to_bytes(alloc)?;
    let mut car = Bytes::of(alloc, b"\x3a\xa2\x65roots\x81\xd8\x2a\x58\x25\x00")?;
    car.push_all(cid.as_slice())?;
    car.push_all(b"\x67version\x01")?;
    for (cid, block) in blocks.iter().rev() {
        push_section(alloc, &mut car, *cid, block.as_slice())?;
    }
    Ok(car)
}

/// Adds a section, whose CID and block have less than 128 bytes.
fn push_section(alloc: Global, car: &mut Bytes, cid: Cid, block: &[u8]) -> Result<(), AllocError> {
    let cid = cid.to_bytes(alloc)?;
    let size = cid.as_slice().len().saturating_add(block.len());
    car.push_all(&[u8::try_from(size).unwrap_or(0)])?;
    car.push_all(cid.as_slice())?;
    car.push_all(block)
}
