//! Blocks of DAGs that are stored.
use crate::blocks::{Block, Dag, cid_at, made, node, stored_under};
use crate::raw_cid;
use std::alloc::{AllocError, Global};
use tg_bytes::List;
use tg_cid::Cid;
use tg_oracle::StoredBlock;

/// The stored blocks of a DAG, and the CIDs of all of its blocks.
#[derive(Drop)]
pub struct Stored {
    /// The blocks that are stored, in order.
    pub blocks: List<StoredBlock>,
    /// The root's CID.
    pub root: Cid,
    all: List<StoredBlock>,
}

impl Stored {
    /// The CID of the DAG's block with this number, whether it is stored or not.
    pub fn cid(&self, number: usize) -> Cid {
        cid_at(self.all.as_slice(), number)
    }
}

/// Stores a DAG.
pub fn store(alloc: Global, dag: &Dag) -> Result<Stored, AllocError> {
    let all = made(alloc, dag.blocks)?;
    let blocks = chosen(alloc, all.as_slice(), dag.stored)?;
    let root = cid_at(all.as_slice(), dag.root);
    Ok(Stored { blocks, root, all })
}

/// Copies of the blocks with these numbers.
fn chosen(
    alloc: Global,
    all: &[StoredBlock],
    numbers: &[usize],
) -> Result<List<StoredBlock>, AllocError> {
    let mut blocks = List::new(alloc);
    for number in numbers {
        if let Some(stored) = all.get(*number) {
            blocks.push(stored_under(alloc, stored.cid, stored.block.as_slice())?)?;
        }
    }
    Ok(blocks)
}

/// Stores a file of one byte whose only leaf lies so many blocks below the root, the root counted. Each block above
/// the leaf is a node with this data. The leaf is the first, and the root the last.
pub fn chain(alloc: Global, nodes: u32, payload: &[u8]) -> Result<Stored, AllocError> {
    let mut blocks = made(alloc, &[Block::Raw(b"x")])?;
    for below in 0..nodes as usize {
        let next = node(alloc, blocks.as_slice(), &[("", below, 1)], payload)?;
        blocks.push(next)?;
    }
    let root = cid_at(blocks.as_slice(), nodes as usize);
    let all = List::new(alloc);
    Ok(Stored { blocks, root, all })
}

/// Stores a raw block.
pub fn raw_stored(alloc: Global, block: &[u8]) -> Result<Stored, AllocError> {
    let root = raw_cid(block);
    let mut blocks = List::new(alloc);
    blocks.push(stored_under(alloc, root, block)?)?;
    let all = List::new(alloc);
    Ok(Stored { blocks, root, all })
}

/// The numbers of the blocks of such a chain, from the root down.
pub fn chain_down(alloc: Global, nodes: u32) -> Result<Vec<usize>, AllocError> {
    let mut numbers = Vec::new(alloc);
    for number in 0..=nodes as usize {
        numbers.push((nodes as usize).saturating_sub(number))?;
    }
    Ok(numbers)
}

/// The text of a CID.
pub fn text_of(alloc: Global, cid: Cid) -> Result<String, AllocError> {
    let text = cid.to_text(alloc)?;
    String::from_utf8_lossy(alloc, text.as_slice())
}
