//! CIDs: their bytes, texts and blocks.
use crate::faults::say_cid;
use std::alloc::Global;
use tg_bytes::Bytes;
use tg_cid::{Cid, Codec, HashKind};
use tg_rows::Answer;

/// `cid BYTES BLOCK`: the version, the codec, the kind of hash and the text of the CID with these bytes, which names this
/// block.
pub fn answer_cid(alloc: Global, given: &[Bytes], answer: &mut Answer) {
    let [bytes, block] = given else {
        return answer.text("the bytes of a CID, and a block");
    };
    match Cid::from_bytes(bytes.as_slice()) {
        Ok(cid) => say_parts(alloc, cid, bytes.as_slice(), block.as_slice(), answer),
        Err(fault) => say_cid(alloc, fault, answer),
    }
}

/// Says the parts of a CID.
fn say_parts(alloc: Global, cid: Cid, bytes: &[u8], block: &[u8], answer: &mut Answer) {
    answer.number(u64::from(cid.version()));
    answer.text(codec_name(cid.codec()));
    answer.text(hash_name(cid.hash_kind()));
    say_text(alloc, cid, answer);
    if !is_spelled(alloc, cid, bytes) {
        answer.text("is spelled otherwise");
    }
    if !is_named(cid, block) {
        answer.text("names another block");
    }
}

/// The name of a codec.
fn codec_name(codec: Codec) -> &'static str {
    match codec {
        Codec::Raw => "raw",
        Codec::DagPb => "dag-pb",
    }
}

/// The name of a kind of hash.
fn hash_name(hash: HashKind) -> &'static str {
    match hash {
        HashKind::Sha256 => "sha2-256",
        HashKind::Identity => "identity",
    }
}

/// Says the text of a CID, which is read as its version 1 form.
fn say_text(alloc: Global, cid: Cid, answer: &mut Answer) {
    match cid.to_text(alloc) {
        Ok(text) => {
            answer.bytes(text.as_slice());
            if Cid::from_text(alloc, text.as_slice()) != Ok(cid.to_v1()) {
                answer.text("is read otherwise");
            }
        }
        Err(_) => answer.lack(),
    }
}

/// Whether the CID has these bytes, and is its own version 1 form where its version is 1.
fn is_spelled(alloc: Global, cid: Cid, bytes: &[u8]) -> bool {
    match cid.to_bytes(alloc) {
        Ok(found) => { found.as_slice() == bytes && (cid == cid.to_v1()) == (cid.version() == 1) }
        Err(_) => false,
    }
}

/// Whether the CID names the block, and not another one.
fn is_named(cid: Cid, block: &[u8]) -> bool {
    let is_hash = match cid.hash_kind() {
        HashKind::Sha256 => Cid::of_block(cid.codec(), block) == cid.to_v1(),
        HashKind::Identity => cid.digest() == block,
    };
    is_hash && cid.holds(block) && !cid.holds(b"another")
}

/// `no-cid BYTES`: why they are no CID.
pub fn answer_no_cid(alloc: Global, given: &[Bytes], answer: &mut Answer) {
    let [bytes] = given else {
        return answer.text("some bytes");
    };
    match Cid::from_bytes(bytes.as_slice()) {
        Ok(_) => answer.text("a CID"),
        Err(fault) => say_cid(alloc, fault, answer),
    }
}

/// `cid-text TEXT`: the bytes of the CID with this text, or why there is none.
pub fn answer_text(alloc: Global, given: &[Bytes], answer: &mut Answer) {
    let [text] = given else {
        return answer.text("a text");
    };
    match Cid::from_text(alloc, text.as_slice()) {
        Ok(cid) => say_bytes(alloc, cid, answer),
        Err(fault) => say_cid(alloc, fault, answer),
    }
}

/// Says the bytes of a CID.
fn say_bytes(alloc: Global, cid: Cid, answer: &mut Answer) {
    match cid.to_bytes(alloc) {
        Ok(bytes) => answer.bytes(bytes.as_slice()),
        Err(_) => answer.lack(),
    }
}

/// `fewest BYTES`: how many bytes a CID has at least that begins with these, or that none does.
pub fn answer_fewest(given: &[Bytes], answer: &mut Answer) {
    let [bytes] = given else {
        return answer.text("some bytes");
    };
    match Cid::fewest(bytes.as_slice()) {
        Some(count) => answer.number(count as u64),
        None => answer.text("none"),
    }
}
