//! Sessions that are fed streams in pieces.
use crate::exchanges::Stream;
use crate::stores::{Breaks, TestStore};
use std::alloc::Global;
use tg_bytes::List;
use tg_gateway::{GatewayFault, Next, Served, Session};
use tg_model::Limits;
use tg_rows::Answer;
use tg_streams::MemSink;

/// What a session told at last: its answer, and the numbers of its replies.
#[derive(Clone, Copy)]
pub struct Told {
    pub last: Result<Next, GatewayFault>,
    pub served: Served,
}

/// Whether two sessions told the same.
pub fn is_same(one: Told, other: Told) -> bool {
    one.last == other.last && one.served == other.served
}

/// In pieces of how many bytes a session is fed, and how many bytes one put moves.
pub type Pieces = (usize, usize);

pub const PIECES: &[Pieces] = &[
    (1, 7),
    (1, 100_000),
    (7, 7),
    (7, 100_000),
    (100_000, 7),
    (100_000, 100_000),
];

/// Those of long heads.
pub const FEW_CUTS: &[Pieces] = &[
    (1, 100_000),
    (7, 7),
    (1000, 100_000),
    (16_384, 7),
    (100_000, 100_000),
];

/// A sink of which one put moves at most so many bytes, and at least 1.
pub fn sink_of(alloc: Global, piece: usize) -> MemSink {
    MemSink::new(alloc, piece.max(1), List::new(alloc))
}

/// Feeds a session all of these bytes in pieces of so many, at least 1, and gives the last answer, which is `More` where
/// there are none.
pub fn feed_all(
    session: &mut Session,
    bytes: &[u8],
    piece: usize,
    store: &mut TestStore,
    out: &mut MemSink,
) -> Result<Next, GatewayFault> {
    let mut last = Ok(Next::More);
    for front in bytes.chunks(piece.max(1)) {
        last = session.feed(front, store, out);
    }
    last
}

/// What a session with these limits tells that is fed these requests in pieces; none where it puts other bytes, or where
/// it goes on no more and tells or puts something else once it is fed another request.
pub fn told_in(
    alloc: Global,
    limits: Limits,
    bytes: (&[u8], &[u8]),
    pieces: Pieces,
    store: &mut TestStore,
) -> Option<Told> {
    let Ok(mut session) = Session::new(alloc, limits) else {
        return None;
    };
    let mut out = sink_of(alloc, pieces.1);
    let last = feed_all(&mut session, bytes.0, pieces.0, store, &mut out);
    let first = told_by(&session, last, &out, bytes.1);
    let again = match last {
        Ok(Next::More) => first,
        _ => {
            let last = session.feed(MORE, store, &mut out);
            told_by(&session, last, &out, bytes.1)
        }
    };
    both(first, again)
}

const MORE: &[u8] = b"GET /ipfs/bafkqaaa?format=raw HTTP/1.1\r\n\r\n";

/// What a session told, where these bytes were put.
fn told_by(
    session: &Session,
    last: Result<Next, GatewayFault>,
    out: &MemSink,
    put: &[u8],
) -> Option<Told> {
    if out.held() == put {
        Some(Told {
            last,
            served: session.served(),
        })
    } else {
        None
    }
}

/// What was told, where the same was told both times.
pub fn both(first: Option<Told>, again: Option<Told>) -> Option<Told> {
    match (first, again) {
        (Some(first), Some(again)) if is_same(first, again) => Some(first),
        _ => None,
    }
}

/// Says what is told of a stream, where it is the same and the replies are put, in whatever pieces it comes and goes.
pub fn answer(
    alloc: Global,
    store: &mut TestStore,
    stream: &Stream,
    cuts: &[Pieces],
    answer: &mut Answer,
) {
    match told_each(alloc, store, stream, Breaks::Never, cuts) {
        Ok(told) => say_told(told, answer),
        Err(pieces) => say_pieces("other replies in pieces of", pieces, answer),
    }
}

/// What is told of a stream in each of these pieces, or the first ones in which it is something else.
pub fn told_each(
    alloc: Global,
    store: &mut TestStore,
    stream: &Stream,
    breaks: Breaks,
    cuts: &[Pieces],
) -> Result<Told, Pieces> {
    let bytes = (stream.requests.as_slice(), stream.replies.as_slice());
    let mut found = None;
    for pieces in cuts {
        store.begin(breaks);
        let next = told_in(alloc, Limits::standard(), bytes, *pieces, store);
        found = match found {
            Some(_) => both(found, next),
            None => next,
        };
        if found.is_none() {
            return Err(*pieces);
        }
    }
    found.ok_or((0, 0))
}

/// Says what a session told: its last answer, how many replies it sent, how many are broken, and at how many the store
/// failed.
pub fn say_told(told: Told, answer: &mut Answer) {
    say_last(told.last, answer);
    say_served(told.served, answer);
}

pub fn say_served(served: Served, answer: &mut Answer) {
    answer.number(served.requests);
    answer.number(served.broken);
    answer.number(served.store);
}

pub fn say_last(last: Result<Next, GatewayFault>, answer: &mut Answer) {
    match last {
        Ok(Next::More) => answer.text("more"),
        Ok(Next::Close) => answer.text("close"),
        Err(fault) => answer.shown_as(&fault),
    }
}

pub fn say_pieces(text: &str, pieces: Pieces, answer: &mut Answer) {
    answer.text(text);
    answer.number(pieces.0 as u64);
    answer.number(pieces.1 as u64);
}
