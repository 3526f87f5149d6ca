//! Packs that are attached: what their stores give, and why they are refused.
use crate::given::{bytes_at, cid_of, fails_at, number_at, number_up_to};
use crate::said::{say_blocks_fault, say_count, say_otherwise, say_pack_fault};
use std::alloc::Global;
use tg_bytes::{Bytes, List};
use tg_cid::Cid;
use tg_files::{MemPack, Pack};
use tg_model::Blocks;
use tg_rows::Answer;
use tg_store::{PackFault, PackStore};
use tg_test_packs::ChangingPack;

/// `get CID`: the block that a store gives under the CID.
pub fn answer_get<B: Blocks>(alloc: Global, store: &mut B, given: &[Bytes], answer: &mut Answer) {
    say_found(alloc, store, bytes_at(given, 0), answer);
}

/// Says the block that a store gives under the CID with this text or these bytes.
pub fn say_found<B: Blocks>(alloc: Global, store: &mut B, cid: &[u8], answer: &mut Answer) {
    match cid_of(alloc, cid) {
        Some(cid) => say_block(store, cid, answer),
        None => answer.text("no CID"),
    }
}

/// Says the block that a store gives under the CID.
fn say_block<B: Blocks>(store: &mut B, cid: Cid, answer: &mut Answer) {
    match store.get(&cid) {
        Ok(Some(block)) => {
            answer.text("has");
            answer.bytes(block.as_slice());
        }
        Ok(None) => answer.text("absent"),
        Err(fault) => say_blocks_fault(fault, answer),
    }
}

/// `attach NAME PACK CID ..`: whether the pack is attached, and what is given under each CID.
pub fn answer_attach(alloc: Global, given: &[Bytes], answer: &mut Answer) {
    match given {
        [_, pack, cids @ ..] => say_pack(alloc, pack.as_slice(), None, cids, answer),
        _ => answer.text("a name, a pack and CIDs"),
    }
}

/// `fails NAME CALL PACK CID ..`: the same where the pack's call with this number fails.
pub fn answer_fails(alloc: Global, given: &[Bytes], answer: &mut Answer) {
    match given {
        [_, _, pack, cids @ ..] => {
            say_pack(alloc, pack.as_slice(), number_at(given, 1), cids, answer);
        }
        _ => answer.text("a name, a call, a pack and CIDs"),
    }
}

/// Says whether these bytes are attached, where this call fails, and what is given under each CID.
fn say_pack(alloc: Global, bytes: &[u8], call: Option<u64>, cids: &[Bytes], answer: &mut Answer) {
    match Bytes::of(alloc, bytes) {
        Ok(bytes) => {
            say_attached(
                alloc,
                MemPack::new(bytes, fails_at(alloc, call)),
                cids,
                answer,
            );
        }
        Err(_) => answer.lack(),
    }
}

/// Says whether a pack is attached, what is given under each CID, and how many calls failed.
fn say_attached(alloc: Global, pack: MemPack, cids: &[Bytes], answer: &mut Answer) {
    match PackStore::attach_pack(alloc, pack) {
        Ok(mut store) => {
            answer.text("attached");
            say_all(alloc, &mut store, cids, answer);
            say_count(store.into_pack().count(), answer);
        }
        Err(refused) => {
            say_pack_fault(refused.fault, answer);
            say_count(refused.pack.count(), answer);
        }
    }
}

/// Says what a store gives under each CID.
fn say_all<P: Pack>(alloc: Global, store: &mut PackStore<P>, cids: &[Bytes], answer: &mut Answer) {
    for cid in cids {
        say_found(alloc, store, cid.as_slice(), answer);
    }
}

/// `cut NAME FRONT PART FROM`: of how many packs is made of the front and so many bytes of the part, from this number on
/// and not all, and why they are refused, which is the same of each.
pub fn answer_cut(alloc: Global, given: &[Bytes], answer: &mut Answer) {
    let [_, front, part, from] = given else {
        return answer.text("a name, a front, a part and a number");
    };
    let part = part.as_slice();
    let from = number_up_to(from, part.len() as u64) as usize;
    let first = cut_fault(alloc, front.as_slice(), part, from);
    for size in from..part.len() {
        if cut_fault(alloc, front.as_slice(), part, size) != first {
            return say_otherwise(size as u64, answer);
        }
    }
    answer.number((part.len() - from) as u64);
    say_comes_to(first, answer);
}

/// Why a pack of a front and so many bytes of a part is refused, if it is.
fn cut_fault(alloc: Global, front: &[u8], part: &[u8], size: usize) -> Option<PackFault> {
    let mut bytes = Bytes::new(alloc);
    let is_held = bytes.push_all(front).is_ok()
        && bytes.push_all(part.get(..size).unwrap_or(part)).is_ok();
    if is_held {
        fault_of(alloc, bytes)
    } else {
        Some(PackFault::OutOfMemory)
    }
}

/// Why a pack of these bytes is refused, if it is.
fn fault_of(alloc: Global, bytes: Bytes) -> Option<PackFault> {
    match PackStore::attach_pack(alloc, MemPack::new(bytes, List::new(alloc))) {
        Ok(_) => None,
        Err(refused) => Some(refused.fault),
    }
}

/// Says that a pack is attached, or why it is refused.
fn say_comes_to(fault: Option<PackFault>, answer: &mut Answer) {
    match fault {
        Some(fault) => say_pack_fault(fault, answer),
        None => answer.text("attached"),
    }
}

/// `turned PACK AT BITS`: whether the pack is attached whose byte there has these bits turned.
pub fn answer_turned(alloc: Global, given: &[Bytes], answer: &mut Answer) {
    let [pack, at, bits] = given else {
        return answer.text("a pack, a place and bits");
    };
    let at = number_up_to(at, 1_000_000) as usize;
    let bits = number_up_to(bits, 255) as u8;
    match turned(alloc, pack.as_slice(), at, bits) {
        Some(bytes) => say_comes_to(fault_of(alloc, bytes), answer),
        None => answer.lack(),
    }
}

/// The bytes, of which that at a place has these bits turned.
fn turned(alloc: Global, bytes: &[u8], at: usize, bits: u8) -> Option<Bytes> {
    let mut turned = Bytes::new(alloc);
    for (place, byte) in bytes.iter().enumerate() {
        let byte = if place == at { *byte ^ bits } else { *byte };
        if turned.push_all(&[byte]).is_err() {
            return None;
        }
    }
    Some(turned)
}

/// `changing NAME PACK PLACE MOST CID`: what a store gives under the CID whose pack gives at most so many bytes at once,
/// and the byte at the place changed once it was read to its end.
pub fn answer_changing(alloc: Global, given: &[Bytes], answer: &mut Answer) {
    let [_, pack, place, most, cid] = given else {
        return answer.text("a name, a pack, a place, a number and a CID");
    };
    let place = number_up_to(place, 1_000_000);
    let most = number_up_to(most, 1_000_000) as usize;
    match Bytes::of(alloc, pack.as_slice()) {
        Ok(bytes) => {
            let pack = ChangingPack::new(alloc, bytes, place, most);
            say_changing(alloc, pack, cid.as_slice(), answer);
        }
        Err(_) => answer.lack(),
    }
}

fn say_changing(alloc: Global, pack: ChangingPack, cid: &[u8], answer: &mut Answer) {
    match PackStore::attach_pack(alloc, pack) {
        Ok(mut store) => say_found(alloc, &mut store, cid, answer),
        Err(refused) => say_pack_fault(refused.fault, answer),
    }
}
