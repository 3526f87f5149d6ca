//! Files whose leaf lies many nodes below one another: what a session sends of one, and how a client ends over that. A
//! node has 52 bytes, so its section has 89, and that of the leaf, which is `x`, 38.
use crate::faults::say_end;
use crate::replies::{Heard, hear, sink_of};
use std::alloc::{AllocError, Global};
use std::mem::drop;
use tg_bytes::{Bytes, List, number_of};
use tg_cid::{Cid, Codec, MAX_BLOCK_LEN};
use tg_gateway::{GatewayFault, Next, Served, Session};
use tg_model::{Keep, Limits, Query, Scope};
use tg_rows::Answer;
use tg_store::MemStore;
use tg_streams::MemSink;

/// A block and its CID.
#[derive(Drop)]
struct Stored {
    cid: Cid,
    block: Bytes,
}

/// The leaf, and the node that has it as its only part, and so on up to the root.
type Chain = List<Stored>;

/// What a node has before the CID of its only part, and behind it: a link of no name with a Tsize of 1, and the data of a
/// file of one byte.
const BEFORE: &[u8] = b"\x12\x2a\x0a\x24";

const BEHIND: &[u8] = b"\x12\x00\x18\x01\x0a\x06\x08\x02\x18\x01\x20\x01";

/// The node above a block.
fn node_above(alloc: Global, below: Cid) -> Result<Stored, AllocError> {
    let part = below.to_bytes(alloc)?;
    let mut block = Bytes::of(alloc, BEFORE)?;
    block.push_all(part.as_slice())?;
    block.push_all(BEHIND)?;
    let cid = Cid::of_block(Codec::DagPb, block.as_slice());
    Ok(Stored { cid, block })
}

/// The chain of so many nodes.
fn chain_of(alloc: Global, nodes: u64) -> Result<Chain, AllocError> {
    let mut chain = List::new(alloc);
    let mut below = Cid::of_block(Codec::Raw, b"x");
    chain.push(Stored {
        cid: below,
        block: Bytes::of(alloc, b"x")?,
    })?;
    for _ in 0..nodes {
        let node = node_above(alloc, below)?;
        below = node.cid;
        chain.push(node)?;
    }
    Ok(chain)
}

/// A store that holds the blocks, or none where memory is wanted.
fn store_of(alloc: Global, chain: &[Stored]) -> Option<MemStore> {
    let mut store = MemStore::new(alloc);
    for stored in chain {
        let block = stored.block.as_slice();
        let is_kept = block.len() <= MAX_BLOCK_LEN
            && stored.cid.holds(block)
            && store.keep(stored.cid, block).is_ok();
        if !is_kept {
            return None;
        }
    }
    Some(store)
}

/// Adds what is given, and a chunk of a section behind these bytes, which are its line and the section's length.
fn push_chunk(reply: &mut Bytes, line: &[u8], cid: &[u8], block: &[u8]) -> Result<(), AllocError> {
    reply.push_all(line)?;
    reply.push_all(cid)?;
    reply.push_all(block)?;
    reply.push_all(b"\r\n")
}

/// The reply behind this front with a chunk for each node, from the root down.
fn nodes_of(alloc: Global, front: &[u8], chain: &[Stored]) -> Result<Bytes, AllocError> {
    let mut reply = Bytes::of(alloc, front)?;
    for node in chain.get(1..).unwrap_or(&[]).iter().rev() {
        let cid = node.cid.to_bytes(alloc)?;
        push_chunk(
            &mut reply,
            b"59\r\n\x58",
            cid.as_slice(),
            node.block.as_slice(),
        )?;
    }
    Ok(reply)
}

/// The same with the leaf and the end of the body behind them.
fn whole_of(alloc: Global, nodes: &[u8]) -> Result<Bytes, AllocError> {
    let mut reply = Bytes::of(alloc, nodes)?;
    let leaf = Cid::of_block(Codec::Raw, b"x").to_bytes(alloc)?;
    push_chunk(&mut reply, b"26\r\n\x25", leaf.as_slice(), b"x")?;
    reply.push_all(b"0\r\n\r\n")?;
    Ok(reply)
}

/// What a session sends, its answer, and the numbers of its replies.
type Sent = (MemSink, Result<Next, GatewayFault>, Served);

/// What a session over the blocks sends for this request.
fn sent(alloc: Global, chain: &[Stored], request: &[u8]) -> Option<Sent> {
    let (Ok(mut session), Some(mut store)) = (
        Session::new(alloc, Limits::standard()),
        store_of(alloc, chain),
    ) else {
        return None;
    };
    let mut out = sink_of(alloc, 65_536);
    let last = session.feed(request, &mut store, &mut out);
    let served = session.served();
    drop(session);
    Some((out, last, served))
}

/// How a client ends over these bytes, and what it puts.
fn heard_of(alloc: Global, root: Cid, bytes: &[u8]) -> Option<Heard> {
    let query = Query::car(root, List::new(alloc), Scope::All, None, true);
    hear(alloc, &query, Limits::standard(), bytes, (4096, 65_536))
}

/// Given how many nodes there are, the request for all of the file, and the front of the reply, up to the chunk of its
/// CAR's header: says whether a session sends a whole reply or one that is cut before the leaf, its answer and the numbers
/// of its replies; how a client ends over that, and what it puts; and the same of the whole reply.
pub fn answer(alloc: Global, given: &[Bytes], answer: &mut Answer) {
    let [nodes, request, front] = given else {
        return answer.text("how many nodes, a request, and the front of a reply");
    };
    let nodes = number_of(nodes.as_slice()).unwrap_or(0).min(1000);
    match chain_of(alloc, nodes) {
        Ok(chain) => answer_chain(
            alloc,
            chain.as_slice(),
            request.as_slice(),
            front.as_slice(),
            answer,
        ),
        Err(_) => answer.lack(),
    }
}

/// Answers of this chain.
fn answer_chain(
    alloc: Global,
    chain: &[Stored],
    request: &[u8],
    front: &[u8],
    answer: &mut Answer,
) {
    let (Some(root), Ok(cut)) = (chain.last(), nodes_of(alloc, front, chain)) else {
        return answer.lack();
    };
    match whole_of(alloc, cut.as_slice()) {
        Ok(whole) => {
            answer_sent(
                alloc,
                chain,
                request,
                (cut.as_slice(), whole.as_slice()),
                answer,
            );
            say_heard(alloc, root.cid, whole.as_slice(), answer);
        }
        Err(_) => answer.lack(),
    }
}

/// Says what a session sends of these replies, and how a client ends over it.
fn answer_sent(
    alloc: Global,
    chain: &[Stored],
    request: &[u8],
    replies: (&[u8], &[u8]),
    answer: &mut Answer,
) {
    let (Some(root), Some((out, last, served))) = (chain.last(), sent(alloc, chain, request)) else {
        return answer.lack();
    };
    answer.text(if out.held() == replies.1 {
        "whole"
    } else if out.held() == replies.0 {
        "cut"
    } else {
        "otherwise"
    });
    say_served(last, served, answer);
    say_heard(alloc, root.cid, out.held(), answer);
}

/// Says a session's answer and the numbers of its replies.
fn say_served(last: Result<Next, GatewayFault>, served: Served, answer: &mut Answer) {
    match last {
        Ok(Next::More) => answer.text("more"),
        Ok(Next::Close) => answer.text("close"),
        Err(fault) => answer.shown_as(&fault),
    }
    answer.number(served.requests);
    answer.number(served.broken);
    answer.number(served.store);
}

/// Says how a client ends over these bytes, and what it puts.
fn say_heard(alloc: Global, root: Cid, bytes: &[u8], answer: &mut Answer) {
    match heard_of(alloc, root, bytes) {
        Some(found) => {
            say_end(alloc, found.end, answer);
            answer.bytes(found.out.held());
        }
        None => answer.lack(),
    }
}
