//! Nodes of DAG-PB.
ghost use Rattle.tg_dagpb.specs.Cursor.{IsCursor};

use crate::faults::say_message;
use std::alloc::Global;
use tg_bytes::Bytes;
use tg_dagpb::{Link, LinkSpan, Node, check, decode, encode, link_at, link_places_at, payload_at};
use tg_pbtable::PbFault;
use tg_rows::Answer;

/// `node BLOCK`: how many links the node has and the parts of each, and its data if it has some; or why the block is no
/// node. A check answers the same, and cursors find the same in the block. Where the node is written otherwise, that is
/// told.
pub fn answer(alloc: Global, given: &[Bytes], answer: &mut Answer) {
    let [block] = given else {
        return answer.text("a block");
    };
    let block = block.as_slice();
    match decode(alloc, block) {
        Ok(node) => {
            say_node(&node, answer);
            say_written(alloc, &node, block, answer);
            if !is_found(block, &node) {
                answer.text("is found otherwise");
            }
        }
        Err(fault) => say_refusal(alloc, block, fault, answer),
    }
}

/// Says why a block is no node.
fn say_refusal(alloc: Global, block: &[u8], fault: PbFault, answer: &mut Answer) {
    say_message(alloc, fault, answer);
    if check(block) != Err(fault) {
        answer.text("is checked otherwise");
    }
}

/// Says the parts of a node.
fn say_node(node: &Node, answer: &mut Answer) {
    answer.number(node.links.as_slice().len() as u64);
    for link in node.links.as_slice() {
        say_link(link, answer);
    }
    if let Some(payload) = &node.payload {
        answer.text("data");
        answer.bytes(payload.as_slice());
    }
}

/// Says the parts of a link.
fn say_link(link: &Link, answer: &mut Answer) {
    answer.text("link");
    answer.bytes(link.hash.as_slice());
    if let Some(name) = &link.name {
        answer.text("name");
        answer.bytes(name.as_slice());
    }
    if let Some(tsize) = link.tsize {
        answer.text("tsize");
        answer.number(tsize);
    }
}

/// Says as what a node is written, where that isn't its block.
fn say_written(alloc: Global, node: &Node, block: &[u8], answer: &mut Answer) {
    match encode(alloc, node) {
        Ok(text) => {
            if text.as_slice() != block {
                answer.text("written");
                answer.bytes(text.as_slice());
            }
        }
        Err(_) => answer.lack(),
    }
}

/// Whether the block is checked, and the node's parts are found in it.
fn is_found(block: &[u8], node: &Node) -> bool {
    match check(block) {
        Ok(()) => {
            begins(block, node.links.as_slice())
                && walks(block, node.links.as_slice())
                && has_payload(block, bytes_of(&node.payload))
        }
        Err(_) => false,
    }
}

/// The bytes, if there are some.
fn bytes_of(bytes: &Option<Bytes>) -> Option<&[u8]> {
    match bytes {
        Some(bytes) => Some(bytes.as_slice()),
        None => None,
    }
}

/// The parts of a link, borrowed.
fn span_of(link: &Link) -> LinkSpan<'_> {
    LinkSpan {
        hash: link.hash.as_slice(),
        name: bytes_of(&link.name),
        tsize: link.tsize,
    }
}

/// Whether these are the links that cursors find from the front on.
fn walks(block: &[u8], links: &[Link]) -> bool
    requires { IsCursor block.now 0 }
{
    let mut at = 0;
    for link in links {
        match link_at(block, at) {
            Some((span, next)) if span == span_of(link) => at = next,
            _ => return false,
        }
    }
    link_at(block, at).is_none()
}

/// Whether the hash of the first link stands where cursors find it.
fn begins(block: &[u8], links: &[Link]) -> bool
    requires { IsCursor block.now 0 }
{
    match (link_places_at(block, 0), links.first()) {
        (Some((places, _)), Some(link)) => {
            block.get(places.hash.start..places.hash.end) == Some(link.hash.as_slice())
        }
        (None, None) => true,
        _ => false,
    }
}

/// Whether the block's data stands where it is found.
fn has_payload(block: &[u8], payload: Option<&[u8]>) -> bool {
    match (payload_at(block), payload) {
        (Ok(Some(place)), Some(payload)) => block.get(place.start..place.end) == Some(payload),
        (Ok(None), None) => true,
        _ => false,
    }
}
