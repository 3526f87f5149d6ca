//! Large DAGs: nodes with many links, and many levels.
use crate::dags::{Dag, cid_or, say_added};
use std::alloc::AllocError;
use std::str::from_utf8;
use tg_bytes::{Bytes, List, number_of};
use tg_cid::{Cid, Codec};
use tg_rows::Answer;

/// Adds the blocks of a row of this kind, and says how many bytes the last one has.
pub fn answer(dag: &mut Dag, kind: &[u8], given: &[Bytes], answer: &mut Answer) {
    let added = match from_utf8(kind) {
        Ok("levels") => add_levels(dag, given),
        Ok("chain") => add_chain(dag, given),
        Ok("wide-file") => add_wide_file(dag),
        Ok("wide-directory") => add_wide_directory(dag),
        Ok("fan") => add_fan(dag, given),
        _ => return answer.text("an unknown block"),
    };
    say_added(added, answer);
}

/// Adds a node with this data that has, for each so many bytes of the names, a link to one block; and then the links that
/// are given besides. Each tells a Tsize of 1.
fn add_fan(dag: &mut Dag, given: &[Bytes]) -> Result<usize, AllocError> {
    let [payload, names, size, number, besides @ ..] = given else {
        return Ok(0);
    };
    let size = number_of(size.as_slice()).unwrap_or(1).min(100) as usize;
    let mut links = List::new(dag.alloc);
    for name in names.as_slice().chunks(size.max(1)) {
        links.push(dag.link_of(name, number.as_slice(), 1)?)?;
    }
    for field in besides.chunks(2) {
        if let [name, number] = field {
            links.push(dag.link_of(name.as_slice(), number.as_slice(), 1)?)?;
        }
    }
    dag.add_links(payload.as_slice(), links, true)
}

/// The data of a file of two parts of this size, which is below 2^40.
fn data_of(size: u64, dag: &Dag) -> Result<Vec<u8>, AllocError> {
    let (whole, whole_len) = tg_varint::write(size.saturating_mul(2).min(1 << 41));
    let (part, part_len) = tg_varint::write(size.min(1 << 40));
    let whole = whole.get(..whole_len).unwrap_or(b"");
    let part = part.get(..part_len).unwrap_or(b"");
    let parts: [&[u8]; 6] = [b"\x08\x02\x18", whole, b"\x20", part, b"\x20", part];
    parts.concat(dag.alloc)
}

/// How many nodes are given, of which there are at most 1,000.
fn count_of(given: &[Bytes]) -> u64 {
    match given.first() {
        Some(count) => number_of(count.as_slice()).unwrap_or(0).min(1_000),
        None => 0,
    }
}

/// Adds so many nodes over the last block, which has one byte: each has the one below as its only part.
fn add_chain(dag: &mut Dag, given: &[Bytes]) -> Result<usize, AllocError> {
    let mut added = 0;
    for _ in 0..count_of(given) {
        let link = dag.link_to(dag.root(), b"", 1)?;
        let mut links = List::new(dag.alloc);
        links.push(link)?;
        added = dag.add_links(b"\x08\x02\x18\x01\x20\x01", links, true)?;
    }
    Ok(added)
}

/// Adds so many levels of nodes over the last block, which has one byte: each has the one below twice.
fn add_levels(dag: &mut Dag, given: &[Bytes]) -> Result<usize, AllocError> {
    let mut size: u64 = 1;
    let mut added = 0;
    for _ in 0..count_of(given).min(30) {
        added = add_level(dag, size)?;
        size = size.saturating_mul(2);
    }
    Ok(added)
}

/// Adds a node that has the last block, a file of this size, twice. Each link tells a Tsize of 1.
fn add_level(dag: &mut Dag, size: u64) -> Result<usize, AllocError> {
    let cid = dag.root().to_bytes(dag.alloc)?;
    let link: [&[u8]; 3] = [b"\x12\x2a\x0a\x24", cid.as_slice(), b"\x12\x00\x18\x01"];
    let link = link.concat(dag.alloc)?;
    let data = data_of(size, dag)?;
    let length = [u8::try_from(data.len()).unwrap_or(u8::MAX)];
    let parts: [&[u8]; 5] = [
        link.as_slice(),
        link.as_slice(),
        b"\x0a",
        &length,
        data.as_slice(),
    ];
    let block = parts.concat(dag.alloc)?;
    dag.add(
        Cid::of_block(Codec::DagPb, block.as_slice()),
        block.as_slice(),
        true,
    )
}

/// The file `a` as a node of 9 bytes.
const LEAF: &[u8] = b"\x0a\x07\x08\x02\x12\x01a\x18\x01";

/// Adds the leaf under its CIDv0 of 34 bytes, and a file of 50,000 such leaves: with CIDs of 36 bytes it would be larger
/// than a block may be. A link has 38 bytes, with no name and no Tsize, and the data 6 + 100,000.
fn add_wide_file(dag: &mut Dag) -> Result<usize, AllocError> {
    let leaf = Cid::of_block(Codec::DagPb, LEAF);
    let bytes = leaf.to_bytes(dag.alloc)?;
    let leaf = cid_or(leaf, bytes.as_slice().get(2..).unwrap_or(b""));
    dag.add(leaf, LEAF, true)?;
    let cid = leaf.to_bytes(dag.alloc)?;
    let link: [&[u8]; 2] = [b"\x12\x24\x0a\x22", cid.as_slice()];
    let link = link.concat(dag.alloc)?;
    let links = link.as_slice().repeat(dag.alloc, 50_000)?;
    let sizes = b"\x20\x01".repeat(dag.alloc, 50_000)?;
    let parts: [&[u8]; 3] = [
        links.as_slice(),
        b"\x0a\xa6\x8d\x06\x08\x02\x18\xd0\x86\x03",
        sizes.as_slice(),
    ];
    let block = parts.concat(dag.alloc)?;
    dag.add(
        Cid::of_block(Codec::DagPb, block.as_slice()),
        block.as_slice(),
        true,
    )
}

/// The last decimal digit of a number.
fn digit(number: u32) -> u8 {
    b'0' + (number % 10) as u8
}

/// Adds an entry: the file `a` under its identity CID, of which no section comes, with five digits as its name.
fn push_entry(block: &mut Bytes, number: u32) -> Result<(), AllocError> {
    block.push_all(b"\x12\x0e\x0a\x05\x01\x55\x00\x01a\x12\x05")?;
    block.push_all(&[
        digit(number / 10_000),
        digit(number / 1_000),
        digit(number / 100),
        digit(number / 10),
        digit(number),
    ])
}

/// Adds a directory that has the file `a` under the names 49999 down to 00000.
fn add_wide_directory(dag: &mut Dag) -> Result<usize, AllocError> {
    let mut block = Bytes::new(dag.alloc);
    for number in (0..50_000).rev() {
        push_entry(&mut block, number)?;
    }
    block.push_all(b"\x0a\x02\x08\x01")?;
    dag.add(
        Cid::of_block(Codec::DagPb, block.as_slice()),
        block.as_slice(),
        true,
    )
}
