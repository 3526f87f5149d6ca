//! Sessions over links in memory.
use crate::exchanges::Stream;
use crate::feeding::say_served;
use crate::stores::{Breaks, TestStore};
use std::alloc::{AllocError, Global};
use tg_bytes::{Bytes, List};
use tg_gateway::{GatewayFault, Served, serve_link};
use tg_links::{Call, MemLink};
use tg_model::{LimitKind, Limits};
use tg_rows::Answer;

/// How a stream was served over a link: whether the peer was heard to its end, and the numbers of the replies.
#[derive(Clone, Copy)]
struct Ended {
    over: bool,
    served: Served,
}

/// What was heard and said over a link, how it was served, and how that ended.
type Outcome = (Call, Served, Result<(), GatewayFault>);

/// Bytes that a peer says, how many one call moves at most, and the calls that fail.
type Peer<'a> = (&'a [u8], usize, &'a [u64]);

fn link_of(alloc: Global, peer: Peer) -> Result<MemLink, AllocError> {
    let fails = List::from(Vec::from_slice(alloc, peer.2)?);
    Ok(MemLink::new(alloc, Bytes::of(alloc, peer.0)?, peer.1.max(1), fails))
}

/// What was heard and said over a link to such a peer; none where memory is wanted.
fn served_over(
    alloc: Global,
    store: &mut TestStore,
    limits: Limits,
    peer: Peer,
) -> Option<Outcome> {
    let Ok(mut held) = link_of(alloc, peer) else {
        return None;
    };
    store.begin(Breaks::Never);
    let (served, end) = serve_link(alloc, store, &mut held, limits);
    let (call, _) = held.into_call();
    Some((call, served, end))
}

/// How all of a stream was served: it was said and heard, up to the reply that closes.
fn ended_whole(stream: &Stream, outcome: &Outcome) -> Option<Ended> {
    let (call, served, end) = outcome;
    let heard = call.heard.as_slice();
    let requests = stream.requests.as_slice();
    let replies = stream.replies.as_slice();
    let is_whole = *end == Ok(())
        && !call.failed
        && call.said.as_slice() == replies
        && served.requests == stream.replied()
        && requests.starts_with(heard)
        && stream.replies_within(heard.len()).0 == replies.len()
        && (!call.over || heard.len() == requests.len());
    if !is_whole {
        return None;
    }
    Some(Ended {
        over: call.over,
        served: *served,
    })
}

/// Says how a stream is served, where it is so over links of which one call moves any number of bytes, where a front is
/// where a call fails, and no more is heard than may be received.
pub fn answer(alloc: Global, store: &mut TestStore, stream: &Stream, answer: &mut Answer) {
    let calls = stream.replies.as_slice().len();
    let rows: [(usize, u64); 3] = [
        (1, calls as u64),
        (7, calls.div_ceil(7) as u64),
        (100_000, stream.replied()),
    ];
    let mut found = None;
    for (piece, calls) in &rows {
        match served_as(alloc, store, stream, *piece, *calls, found) {
            Ok(whole) => found = Some(whole),
            Err(text) => {
                answer.text(text);
                return answer.number(*piece as u64);
            }
        }
    }
    if let Some(whole) = found {
        answer.text(if whole.over { "more" } else { "close" });
        say_served(whole.served, answer);
    }
}

/// How a stream is served over a link of which one call moves so many bytes, as over the one before, or what is otherwise.
fn served_as(
    alloc: Global,
    store: &mut TestStore,
    stream: &Stream,
    piece: usize,
    calls: u64,
    before: Option<Ended>,
) -> Result<Ended, &'static str> {
    let whole = served_at(alloc, store, stream, piece, calls)?;
    match before {
        Some(before) if !is_same(before, whole) => Err("otherwise than in smaller pieces of"),
        _ => Ok(whole),
    }
}

/// Whether a stream was served the same both times.
fn is_same(one: Ended, other: Ended) -> bool {
    one.over == other.over && one.served == other.served
}

/// How a stream is served over a link of which one call moves so many bytes, or what is otherwise.
fn served_at(
    alloc: Global,
    store: &mut TestStore,
    stream: &Stream,
    piece: usize,
    calls: u64,
) -> Result<Ended, &'static str> {
    let Some(whole) = served_whole(alloc, store, stream, piece, &[]) else {
        return Err("otherwise in pieces of");
    };
    if !is_broken_each(alloc, store, stream, piece, calls, whole) {
        return Err("otherwise where a call fails, in pieces of");
    }
    if piece > 1 && !is_limited_each(alloc, store, stream, piece, whole) {
        return Err("otherwise where it is limited, in pieces of");
    }
    Ok(whole)
}

fn served_whole(
    alloc: Global,
    store: &mut TestStore,
    stream: &Stream,
    piece: usize,
    fails: &[u64],
) -> Option<Ended> {
    let peer = (stream.requests.as_slice(), piece, fails);
    let outcome = served_over(alloc, store, Limits::standard(), peer)?;
    ended_whole(stream, &outcome)
}

/// Whether a front was said of what is said for what was heard, and the replies were counted that are whole in it.
fn is_front(stream: &Stream, outcome: &Outcome) -> bool {
    let (call, served, end) = outcome;
    let said = call.said.as_slice();
    *end == Err(GatewayFault::LinkFault)
        && call.failed
        && stream.replies.as_slice().starts_with(said)
        && said.len() <= stream.replies_within(call.heard.as_slice().len()).0
        && served.requests == stream.whole_within(said.len())
}

/// How a stream is served where the call with this number fails: to its end, with a front, or otherwise.
#[derive(Clone, Copy, PartialEq, Eq)]
enum Way {
    Whole,
    Front,
    Other,
}

fn way_of(stream: &Stream, outcome: &Outcome, whole: Ended) -> Way {
    if is_front(stream, outcome) {
        return Way::Front;
    }
    match ended_whole(stream, outcome) {
        Some(found) if is_same(found, whole) => Way::Whole,
        _ => Way::Other,
    }
}

fn way_at(
    alloc: Global,
    store: &mut TestStore,
    stream: &Stream,
    piece: usize,
    fail: u64,
    whole: Ended,
) -> Way {
    let peer: Peer = (stream.requests.as_slice(), piece, &[fail]);
    match served_over(alloc, store, Limits::standard(), peer) {
        Some(outcome) => way_of(stream, &outcome, whole),
        None => Way::Other,
    }
}

/// Whether a front of a stream is served where each call of the link fails in turn, of which there are at least so many,
/// and all of it where none does.
fn is_broken_each(
    alloc: Global,
    store: &mut TestStore,
    stream: &Stream,
    piece: usize,
    calls: u64,
    whole: Ended,
) -> bool {
    for fail in 0..5000_u64 {
        match way_at(alloc, store, stream, piece, fail, whole) {
            Way::Front => {}
            Way::Whole => return fail >= calls,
            Way::Other => return false,
        }
    }
    false
}

/// Whether a stream of which so many bytes may be received is served up to them.
fn is_limited(stream: &Stream, outcome: &Outcome, whole: Ended, most: usize, number: u64) -> bool {
    let (call, served, end) = outcome;
    let (size, count) = stream.replies_within(most);
    let closes = !whole.over && count == stream.replied();
    let wanted = if closes || stream.requests.as_slice().len() <= most {
        Ok(())
    } else {
        Err(GatewayFault::Limit { number })
    };
    *end == wanted
        && !call.failed
        && served.requests == count
        && Some(call.said.as_slice()) == stream.replies.as_slice().get(..size)
}

/// Whether a stream is limited at each of its bytes.
fn is_limited_each(
    alloc: Global,
    store: &mut TestStore,
    stream: &Stream,
    piece: usize,
    whole: Ended,
) -> bool {
    for most in 0..=stream.requests.as_slice().len() {
        if !is_limited_at(alloc, store, stream, piece, whole, most) {
            return false;
        }
    }
    true
}

fn is_limited_at(
    alloc: Global,
    store: &mut TestStore,
    stream: &Stream,
    piece: usize,
    whole: Ended,
    most: usize,
) -> bool {
    let number = (most as u64).min(1 << 40);
    let limits = Limits::standard().with(LimitKind::Received, number);
    let peer: Peer = (stream.requests.as_slice(), piece, &[]);
    match served_over(alloc, store, limits, peer) {
        Some(outcome) => is_limited(stream, &outcome, whole, most, number),
        None => false,
    }
}
