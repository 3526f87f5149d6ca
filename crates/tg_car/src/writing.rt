//! CARs written: the header, and what stands before a block.
ghost use Rattle.std.specs.Prelude.{◌≡◌, ℕ, ◌+◌, ◌-◌, ◌<◌, ◌≤◌, List, ◌++◌, length, take, drop, replicate, All, IfOk};
ghost use Rattle.tg_cid.specs.Limits.{max_block_len};
ghost use Rattle.tg_car.specs.CarText as texts;
ghost use Rattle.tg_car.specs.CarText.{SectionText};
ghost use Rattle.tg_car.specs.Writing.{HeaderOf};

use crate::section::MAX_HEAD_LEN;
use std::alloc::{AllocError, Global};
use tg_bytes::{Bytes, fill_both};
use tg_cid::Cid;

// The map up to the byte string of its one root, and behind it.
const FRONT: [u8; 10] = [0xa2, 0x65, b'r', b'o', b'o', b't', b's', 0x81, 0xd8, 0x2a];

const BACK: [u8; 9] = [0x67, b'v', b'e', b'r', b's', b'i', b'o', b'n', 1];

/// The header of a CAR with one root, in its version 1 form. The error is want of memory.
///
/// CARv1 specification, Header; DAG-CBOR.
pub fn header(alloc: Global, root: &Cid) -> Result<Bytes, AllocError>
    ensures { IfOk result (λ bytes. HeaderOf root.now bytes) }
{
    tg_cid::laws::length_laws();
    let one = root.to_v1();
    let (name, size) = one.spelling();
    let (head, head_size) = string_head(size as u8 + 1);
    let map = FRONT.len() + head_size + 1 + size + BACK.len();
    let (number, number_size) = tg_varint::write(map as u64);
    let mut bytes = Bytes::of(alloc, &number[..number_size])?;
    bytes.push_all(&FRONT)?;
    bytes.push_all(&head[..head_size])?;
    bytes.push_all(&[0])?;
    bytes.push_all(&name[..size])?;
    bytes.push_all(&BACK)?;
    Ok(bytes)
}

/// The head of a CBOR byte string of `size` bytes, in the front of an array, and how many bytes it has.
fn string_head(size: u8) -> ([u8; 2], usize)
    ensures size { result.1 ≤ 2 }
    ensures head { take result.1 result.0 ≡ texts.string_head size }
{
    if size < 24 {
        return ([0x40 + size, 0], 1);
    }
    ([0x58, size], 2)
}

/// The length and the CID before a block of `size` bytes, at most `MAX_BLOCK_LEN`, in the front of an array whose other
/// bytes are zero, and how many they are. It takes no memory.
///
/// CARv1 specification, Data.
pub fn section_head(cid: &Cid, size: u64) -> ([u8; MAX_HEAD_LEN], usize)
    requires { size ≤ max_block_len }
    ensures size { result.1 ≤ 142 }
    ensures head { (block : List ℕ) → length block ≡ size → All (λ b. b < 256) block
        → SectionText (record { cid = cid.now; block = block }) (take result.1 result.0 ++ block) }
    ensures rest { drop result.1 result.0 ≡ replicate (142 - result.1) 0 }
{
    let (name, name_size) = cid.spelling();
    let (number, number_size) = tg_varint::write(name_size as u64 + size);
    let mut head = [0; MAX_HEAD_LEN];
    fill_both(&mut head, &number[..number_size], &name[..name_size]);
    (head, number_size + name_size)
}
