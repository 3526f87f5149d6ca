//! DAGs as tables of their blocks.
use std::alloc::{AllocError, Global};
use tg_bytes::{Bytes, List};
use tg_cid::{Cid, Codec};
use tg_dagpb::{Link, Node};
use tg_oracle::StoredBlock;

/// A link of a node: its name, the number of the block where it leads, and its Tsize. Where no block has the number,
/// the link leads to the raw block of no bytes.
pub type Edge = (&'static str, usize, u64);

/// A block of a DAG.
#[derive(Clone, Copy)]
pub enum Block {
    /// A raw block.
    Raw(&'static [u8]),
    /// A raw block under the CID of the first bytes, that has the other bytes.
    Changed(&'static [u8], &'static [u8]),
    /// A DAG-PB block of these bytes.
    DagPb(&'static [u8]),
    /// A node with these links and this data.
    Node(&'static [Edge], &'static [u8]),
    /// The block with this number under its CIDv0.
    Old(usize),
    /// The block with this number, of less than 128 bytes, under its identity CID.
    Itself(usize),
}

/// A DAG: its blocks, each behind those where its links lead, the numbers of those that are stored, in their order,
/// and the root's number.
#[derive(Clone, Copy)]
pub struct Dag {
    pub blocks: &'static [Block],
    pub stored: &'static [usize],
    pub root: usize,
}

/// Makes the blocks.
pub fn made(alloc: Global, blocks: &[Block]) -> Result<List<StoredBlock>, AllocError> {
    let mut list = List::new(alloc);
    for block in blocks {
        let next = made_behind(alloc, list.as_slice(), block)?;
        list.push(next)?;
    }
    Ok(list)
}

/// Makes a block, behind those where its links lead.
fn made_behind(
    alloc: Global,
    before: &[StoredBlock],
    block: &Block,
) -> Result<StoredBlock, AllocError> {
    match *block {
        Block::Raw(bytes) => stored_under(alloc, Cid::of_block(Codec::Raw, bytes), bytes),
        Block::Changed(name, bytes) => stored_under(alloc, Cid::of_block(Codec::Raw, name), bytes),
        Block::DagPb(bytes) => stored_under(alloc, Cid::of_block(Codec::DagPb, bytes), bytes),
        Block::Node(edges, payload) => node(alloc, before, edges, payload),
        Block::Old(number) => stored_under(alloc, old_form(alloc, cid_at(before, number))?, b""),
        Block::Itself(number) => itself(alloc, before, number),
    }
}

/// The bytes under this CID.
pub fn stored_under(alloc: Global, cid: Cid, bytes: &[u8]) -> Result<StoredBlock, AllocError> {
    let block = Bytes::of(alloc, bytes)?;
    Ok(StoredBlock { cid, block })
}

/// The CID of the block with this number, or that of the raw block of no bytes where there is none.
pub fn cid_at(blocks: &[StoredBlock], number: usize) -> Cid {
    match blocks.get(number) {
        Some(stored) => stored.cid,
        None => Cid::of_block(Codec::Raw, b""),
    }
}

/// The CIDv0 of a DAG-PB block, that is the hash of its CIDv1 alone.
fn old_form(alloc: Global, cid: Cid) -> Result<Cid, AllocError> {
    let bytes = cid.to_bytes(alloc)?;
    Ok(cid_or(cid, bytes.as_slice().get(2..).unwrap_or(b"")))
}

/// The CID of these bytes; the other one, where they are none of a CID.
fn cid_or(other: Cid, bytes: &[u8]) -> Cid {
    match Cid::from_bytes(bytes) {
        Ok(cid) => cid,
        Err(_) => other,
    }
}

/// The block with this number under its identity CID, or no bytes where there is none.
fn itself(alloc: Global, before: &[StoredBlock], number: usize) -> Result<StoredBlock, AllocError> {
    match before.get(number) {
        Some(stored) => {
            let cid = identity_form(alloc, stored.cid, stored.block.as_slice())?;
            stored_under(alloc, cid, stored.block.as_slice())
        }
        None => stored_under(alloc, cid_at(before, number), b""),
    }
}

/// The identity CID of a block of less than 128 bytes that has this CIDv1; of a longer one this CID.
fn identity_form(alloc: Global, cid: Cid, block: &[u8]) -> Result<Cid, AllocError> {
    let named = cid.to_bytes(alloc)?;
    let mut bytes = Bytes::of(alloc, named.as_slice().get(..2).unwrap_or(b""))?;
    bytes.push_all(&[0, u8::try_from(block.len()).unwrap_or(u8::MAX)])?;
    bytes.push_all(block)?;
    Ok(cid_or(cid, bytes.as_slice()))
}

/// A node with these links and this data.
pub fn node(
    alloc: Global,
    before: &[StoredBlock],
    edges: &[Edge],
    payload: &[u8],
) -> Result<StoredBlock, AllocError> {
    let links = links_of(alloc, before, edges)?;
    let block = encoded(alloc, links, payload)?;
    let cid = Cid::of_block(Codec::DagPb, block.as_slice());
    Ok(StoredBlock { cid, block })
}

/// The bytes of a node with these links and this data.
fn encoded(alloc: Global, links: List<Link>, payload: &[u8]) -> Result<Bytes, AllocError> {
    let payload = Some(Bytes::of(alloc, payload)?);
    tg_dagpb::encode(alloc, &Node { links, payload })
}

/// The links of a node.
fn links_of(
    alloc: Global,
    before: &[StoredBlock],
    edges: &[Edge],
) -> Result<List<Link>, AllocError> {
    let mut links = List::new(alloc);
    for (name, number, tsize) in edges {
        links.push(link_of(alloc, name, cid_at(before, *number), *tsize)?)?;
    }
    Ok(links)
}

/// A link.
fn link_of(alloc: Global, name: &str, cid: Cid, tsize: u64) -> Result<Link, AllocError> {
    let hash = cid.to_bytes(alloc)?;
    let name = Some(Bytes::of(alloc, name.as_bytes())?);
    Ok(Link {
        hash,
        name,
        tsize: Some(tsize),
    })
}
