//! A CAR of a million tiny sections, which a peer makes as it goes: a file of 1,000 parts, each of them the same file
//! of 1,000 parts `a`. The lengths are counted.
use crate::asking::Given;
use crate::cars::{is_section_added, sink_of};
use crate::ends::say_put;
use std::alloc::{AllocError, Global};
use std::mem::drop;
use tg_bytes::Bytes;
use tg_car::header;
use tg_cid::{Cid, Codec};
use tg_client::CarBody;
use tg_rows::Answer;
use tg_streams::MemSink;
use tg_test_dags::raw_cid;

/// A node of 1,000 links to one block, each with a Tsize of 1: before the sizes of its parts this is its data, and this
/// is said of each part.
fn node_of(alloc: Global, below: Cid, data: &[u8], part: &[u8]) -> Result<Vec<u8>, AllocError> {
    let cid = below.to_bytes(alloc)?;
    let link: [&[u8]; 3] = [b"\x12\x2a\x0a\x24", cid.as_slice(), b"\x12\x00\x18\x01"];
    let link = link.concat(alloc)?;
    let links = link.as_slice().repeat(alloc, 1_000)?;
    let sizes = part.repeat(alloc, 1_000)?;
    let parts: [&[u8]; 3] = [links.as_slice(), data, sizes.as_slice()];
    parts.concat(alloc)
}

/// The file of 1,000 bytes, in 46,008 bytes: its data has 5 + 2,000 bytes.
fn inner_of(alloc: Global) -> Result<Vec<u8>, AllocError> {
    let data = b"\x0a\xd5\x0f\x08\x02\x18\xe8\x07";
    node_of(alloc, raw_cid(b"a"), data, b"\x20\x01")
}

/// The file of 1,000,000 bytes, in 47,009 bytes: its data has 6 + 3,000 bytes.
fn outer_of(alloc: Global, inner: Cid) -> Result<Vec<u8>, AllocError> {
    let data = b"\x0a\xbe\x17\x08\x02\x18\xc0\x84\x3d";
    node_of(alloc, inner, data, b"\x20\xe8\x07")
}

/// What a peer sends: the root's CID; the header and the root's section; and what comes 1,000 times behind them, a
/// part's section and those of its leaves.
#[derive(Drop)]
struct Peer {
    root: Cid,
    front: Bytes,
    turn: Bytes,
}

/// Adds the sections of 1,000 leaves. Whether there was memory.
fn are_leaves_added(turn: &mut Bytes) -> bool {
    for _ in 0..1_000 {
        if !is_section_added(turn, &raw_cid(b"a"), b"a") {
            return false;
        }
    }
    true
}

/// The peer, or none where memory is wanted.
fn peer_of(alloc: Global) -> Option<Peer> {
    let inner = inner_of(alloc).ok()?;
    let part = Cid::of_block(Codec::DagPb, inner.as_slice());
    let outer = outer_of(alloc, part).ok()?;
    let root = Cid::of_block(Codec::DagPb, outer.as_slice());
    let mut front = header(alloc, &root).ok()?;
    let mut turn = Bytes::new(alloc);
    let is_made = is_section_added(&mut front, &root, outer.as_slice())
        && is_section_added(&mut turn, &part, inner.as_slice())
        && are_leaves_added(&mut turn);
    if is_made {
        Some(Peer { root, front, turn })
    } else {
        None
    }
}

/// Hands bytes over in pieces of 4,096. Whether they are taken.
fn is_fed(body: &mut CarBody, bytes: &[u8], out: &mut MemSink) -> bool {
    for piece in bytes.chunks(4_096) {
        if body.feed(piece, out).is_err() {
            return false;
        }
    }
    true
}

/// Hands over all that the peer sends. Whether it is taken.
fn is_taken(body: &mut CarBody, peer: &Peer, out: &mut MemSink) -> bool {
    if !is_fed(body, peer.front.as_slice(), out) {
        return false;
    }
    for _ in 0..1_000 {
        if body.is_whole() || !is_fed(body, peer.turn.as_slice(), out) {
            return false;
        }
    }
    true
}

/// Says how many sections a verifier takes of all that the peer sends, whether that is all, and what is put.
pub fn answer(alloc: Global, given: &Given, answer: &mut Answer) {
    match peer_of(alloc) {
        Some(peer) => answer_peer(alloc, &peer, given, answer),
        None => answer.lack(),
    }
}

/// Says it of this peer.
fn answer_peer(alloc: Global, peer: &Peer, given: &Given, answer: &mut Answer) {
    let Some(query) = given.query(peer.root) else {
        return answer.text("no query");
    };
    let Ok(mut body) = CarBody::new(alloc, &query, given.limits) else {
        return answer.lack();
    };
    let mut out = sink_of(alloc);
    let is_accepted = is_taken(&mut body, peer, &mut out) && body.is_whole();
    let sections = body.sections();
    let is_ended = body.end() == Ok(());
    drop(body);
    answer.text(if is_accepted && is_ended {
        "done"
    } else {
        "otherwise"
    });
    answer.number(sections);
    say_put(out.held(), answer);
}
