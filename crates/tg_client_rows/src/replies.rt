//! Clients that are fed replies in pieces.
use crate::asking::Given;
use crate::faults::say_end;
use std::alloc::Global;
use std::mem::drop;
use tg_bytes::List;
use tg_fetch::{Client, FetchFault};
use tg_model::{Limits, Query};
use tg_rows::Answer;
use tg_streams::MemSink;
use tg_verify::Progress;

/// In pieces of how many bytes a client is fed, and how many bytes one put moves.
pub type Pieces = (usize, usize);

/// The pieces of a reply.
const PIECES: &[Pieces] = &[(1, 1), (1, 4096), (7, 3), (64, 4096), (4096, 4096)];

/// How a client ends over bytes, and what it puts.
#[derive(Drop)]
pub struct Heard {
    pub end: Result<(), FetchFault>,
    pub out: MemSink,
}

/// A sink of which one put moves at most so many bytes, and at least 1.
pub fn sink_of(alloc: Global, piece: usize) -> MemSink {
    MemSink::new(alloc, piece.max(1), List::new(alloc))
}

/// Feeds a client these bytes in pieces of so many, at least 1, until the reply is whole, and ends it else.
pub fn fed(
    client: &mut Client,
    bytes: &[u8],
    piece: usize,
    out: &mut MemSink,
) -> Result<(), FetchFault> {
    for front in bytes.chunks(piece.max(1)) {
        match client.feed(front, out) {
            Ok(Progress::Done) => return Ok(()),
            Ok(Progress::More) => {}
            Err(fault) => return Err(fault),
        }
    }
    client.end(out)
}

/// How a client with these limits ends that is fed these bytes so, and what is put; none where memory is wanted, or where
/// it ends otherwise once more.
pub fn hear(
    alloc: Global,
    query: &Query,
    limits: Limits,
    bytes: &[u8],
    pieces: Pieces,
) -> Option<Heard> {
    let Ok(mut client) = Client::new(alloc, query, limits) else {
        return None;
    };
    let mut out = sink_of(alloc, pieces.1);
    let end = fed(&mut client, bytes, pieces.0, &mut out);
    let again = client.end(&mut out);
    drop(client);
    if again != end {
        return None;
    }
    Some(Heard { end, out })
}

/// Whether a client ends so over these bytes, and puts this.
fn is_heard(
    alloc: Global,
    query: &Query,
    limits: Limits,
    bytes: &[u8],
    pieces: Pieces,
    wanted: &Heard,
) -> bool {
    match hear(alloc, query, limits, bytes, pieces) {
        Some(found) => is_same(&found, wanted),
        None => false,
    }
}

/// Whether both ended alike, and put the same.
pub fn is_same(one: &Heard, other: &Heard) -> bool {
    one.end == other.end && one.out.held() == other.out.held()
}

/// How a client ends over these bytes, and what it puts; or the first ones of these pieces in which that is otherwise than
/// in the first of them.
pub fn heard_each(
    alloc: Global,
    query: &Query,
    limits: Limits,
    bytes: &[u8],
    cuts: &[Pieces],
) -> Result<Heard, Pieces> {
    let first = cuts.first().copied().unwrap_or((1, 1));
    let Some(found) = hear(alloc, query, limits, bytes, first) else {
        return Err(first);
    };
    match differing(alloc, query, limits, bytes, cuts, &found) {
        Some(pieces) => Err(pieces),
        None => Ok(found),
    }
}

/// The first of these pieces in which a client ends otherwise over these bytes, or puts something else.
fn differing(
    alloc: Global,
    query: &Query,
    limits: Limits,
    bytes: &[u8],
    cuts: &[Pieces],
    wanted: &Heard,
) -> Option<Pieces> {
    for pieces in cuts.get(1..).unwrap_or(&[]) {
        if !is_heard(alloc, query, limits, bytes, *pieces, wanted) {
            return Some(*pieces);
        }
    }
    None
}

/// Says how a client ends over the reply that is given, and what it puts.
pub fn answer(alloc: Global, given: &Given, answer: &mut Answer) {
    match given.query() {
        Some(query) => answer_bytes(alloc, &query, given.limits, given.reply.as_slice(), answer),
        None => answer.text("no query"),
    }
}

/// Says how a client ends over these bytes, and what it puts, where that is the same in whatever pieces they come and go.
pub fn answer_bytes(
    alloc: Global,
    query: &Query,
    limits: Limits,
    bytes: &[u8],
    answer: &mut Answer,
) {
    match heard_each(alloc, query, limits, bytes, PIECES) {
        Ok(found) => {
            say_end(alloc, found.end, answer);
            answer.bytes(found.out.held());
        }
        Err(pieces) => {
            answer.text("otherwise in pieces of");
            answer.number(pieces.0 as u64);
            answer.number(pieces.1 as u64);
        }
    }
}
