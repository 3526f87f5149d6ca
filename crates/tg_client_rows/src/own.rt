//! What a session of the gateway sends for a client's request, handed to that client.
use crate::asking::{Given, addr};
use crate::faults::say_cid;
use crate::replies::{answer_bytes, sink_of};
use std::alloc::Global;
use std::mem::drop;
use std::str::from_utf8;
use tg_bytes::Bytes;
use tg_cid::{Cid, Codec, MAX_BLOCK_LEN};
use tg_fetch::Client;
use tg_gateway::{Next, Session};
use tg_model::{Keep, Limits, Query};
use tg_rows::Answer;
use tg_store::MemStore;
use tg_streams::MemSink;

/// Keeps a block of a codec, `raw` or `dag-pb`, and says the text of its CID.
pub fn keep(alloc: Global, store: &mut MemStore, given: &[Bytes], answer: &mut Answer) {
    let [codec, block] = given else {
        return answer.text("a codec and a block");
    };
    match from_utf8(codec.as_slice()) {
        Ok("raw") => keep_block(alloc, store, Codec::Raw, block.as_slice(), answer),
        Ok("dag-pb") => keep_block(alloc, store, Codec::DagPb, block.as_slice(), answer),
        _ => answer.text("an unknown codec"),
    }
}

/// Keeps a block of this codec.
fn keep_block(
    alloc: Global,
    store: &mut MemStore,
    codec: Codec,
    block: &[u8],
    answer: &mut Answer,
) {
    let cid = Cid::of_block(codec, block);
    if block.len() > MAX_BLOCK_LEN || store.keep(cid, block).is_err() {
        return answer.text("not kept");
    }
    say_cid(alloc, cid, answer);
}

/// The request for a query.
fn request_for(alloc: Global, query: &Query) -> Option<Bytes> {
    match Client::new(alloc, query, Limits::standard()) {
        Ok(client) => {
            let request = client.request(addr());
            drop(client);
            request.ok()
        }
        Err(_) => None,
    }
}

/// What a session over the store sends for a request, where it closes behind it.
fn reply_to(alloc: Global, store: &mut MemStore, request: &Bytes) -> Option<MemSink> {
    let Ok(mut session) = Session::new(alloc, Limits::standard()) else {
        return None;
    };
    let mut out = sink_of(alloc, 4096);
    match session.feed(request.as_slice(), store, &mut out) {
        Ok(Next::Close) => Some(out),
        _ => None,
    }
}

/// Says how a client ends over what a session sends for its request, and what it puts.
pub fn answer(alloc: Global, store: &mut MemStore, given: &Given, answer: &mut Answer) {
    let Some(query) = given.query() else {
        return answer.text("no query");
    };
    let Some(request) = request_for(alloc, &query) else {
        return answer.lack();
    };
    match reply_to(alloc, store, &request) {
        Some(reply) => answer_bytes(alloc, &query, given.limits, reply.held(), answer),
        None => answer.text("the session stays open"),
    }
}
