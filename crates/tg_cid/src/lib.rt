//! CIDs: the self-describing names of blocks.
#![tactic(auto)]

mod cid;
mod computed;
mod fault;
mod front;
pub mod laws;
mod limits;
mod numbers;
mod room;

pub use cid::{Cid, Codec, HashKind};
pub use fault::CidFault;
pub use limits::{MAX_BLOCK_LEN, MAX_CID_LEN, MAX_DIGEST_LEN};
