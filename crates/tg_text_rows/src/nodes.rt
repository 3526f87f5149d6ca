//! Blocks, and the texts of them.
use crate::listings::codec_of;
use std::alloc::Global;
use tg_bytes::Bytes;
use tg_cid::{Cid, Codec};
use tg_node::{NodeFault, TextFault, node_text};
use tg_rows::Answer;

/// Says the text of a block under its own CID with this codec, or why it has none.
pub fn answer(alloc: Global, given: &[Bytes], answer: &mut Answer) {
    let [codec, block] = given else {
        return answer.text("a codec and a block");
    };
    match codec_of(codec.as_slice()) {
        Some(codec) => say_block(alloc, codec, block.as_slice(), answer),
        None => answer.text("no codec"),
    }
}

fn say_block(alloc: Global, codec: Codec, block: &[u8], answer: &mut Answer) {
    match node_text(alloc, &Cid::of_block(codec, block), block) {
        Ok(text) => answer.bytes(text.as_slice()),
        Err(TextFault::Block(fault)) => say_node_fault(fault, answer),
        Err(TextFault::OutOfMemory) => answer.lack(),
    }
}

/// Says why a block has no text.
fn say_node_fault(fault: NodeFault, answer: &mut Answer) {
    let name = match fault {
        NodeFault::BadNode => "BadNode",
        NodeFault::BadLink => "BadLink",
        NodeFault::BadUnix => "BadUnix",
    };
    answer.text("refused");
    answer.text(name);
    answer.printed(&fault, name);
}
