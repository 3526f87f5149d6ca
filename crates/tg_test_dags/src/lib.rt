//! Small DAGs of blocks that tests ask for, and what the evaluator of queries says of them.
#![tactic(auto)]

mod asked;
mod blocks;
mod mirrored;
mod shapes;
mod stored;

pub use asked::{ALL, Asked, BLOCK, Case, ENTITY, case_of};
pub use blocks::{Block, Dag, Edge, stored_under};
pub use mirrored::hello_mirrored;
pub use shapes::{OddPart, Shape};
pub use stored::{Stored, chain, chain_down, raw_stored, store, text_of};
use tg_cid::{Cid, Codec};

/// The CID of a raw block.
pub fn raw_cid(block: &[u8]) -> Cid {
    Cid::of_block(Codec::Raw, block)
}

/// The data of a shard with the slot CB. Slot `i` is the bit `i` of the number that the bytes behind `\x12` and the
/// length are.
pub const HELLO_SHARD: &[u8] =
    b"\x08\x05\x12\x1a\x08\0\0\0\0\0\0\0\0\0\0\0\0\0\0\0\0\0\0\0\0\0\0\0\0\0\x28\x22\x30\x80\x02";

/// The data of a shard with the slots 3E and 5D.
pub const CHILD_SHARD: &[u8] = b"\x08\x05\x12\x0c\x20\0\0\0\x40\0\0\0\0\0\0\0\x28\x22\x30\x80\x02";

/// The data of a shard without a slot.
pub const NO_SLOT: &[u8] = b"\x08\x05\x28\x22\x30\x80\x02";

/// The data of a shard with the slot 0.
pub const SLOT_0: &[u8] = b"\x08\x05\x12\x01\x01\x28\x22\x30\x80\x02";
