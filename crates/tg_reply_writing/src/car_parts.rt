//! The parts of a CAR.
ghost use Rattle.std.specs.Prelude.{◌≡◌, ℕ, ◌≤◌, List, ◌++◌, length, take, IfOk};
ghost use Rattle.tg_cid.specs.Limits.{max_block_len};
ghost use Rattle.tg_reply.specs.CarBytes.{car_header, section_bytes};

use std::alloc::{AllocError, Global};
use tg_bytes::Bytes;
use tg_cid::Cid;

/// The header of a CAR with one root, in its version 1 form. The error is want of memory.
///
/// CARv1 specification, Header.
pub fn car_header(alloc: Global, root: &Cid) -> Result<Bytes, AllocError>
    ensures { IfOk result (λ bytes. bytes ≡ car_header root.now) }
{
    tg_reply::car_texts();
    tg_car::header(alloc, root)
}

/// What stands before a block of `size` bytes, at most 2,097,152, in its section: the length and the CID, in the front
/// of an array, and how many bytes they have. It takes no memory.
///
/// CARv1 specification, Data.
pub fn section_front(cid: &Cid, size: u64) -> ([u8; 142], usize)
    requires { size ≤ max_block_len }
    ensures size { result.1 ≤ 142 }
    ensures front { (block : List ℕ) → length block ≡ size
        → take result.1 result.0 ++ block ≡ section_bytes (record { cid = cid.now; block = block }) }
{
    tg_reply::car_texts();
    tg_car::section_head(cid, size)
}
