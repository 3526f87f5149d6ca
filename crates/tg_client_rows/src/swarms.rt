//! Swarms that are asked and told step by step.
use crate::asking::addr;
use std::alloc::Global;
use std::str::from_utf8;
use tg_bytes::{Bytes, List, number_of};
use tg_cid::Cid;
use tg_model::{LimitKind, Limits, Query};
use tg_query::print_request;
use tg_rows::Answer;
use tg_streams::MemSink;
use tg_swarm::{PeerEvent, Swarm};
use tg_verify::Progress;

/// Goes through steps of three fields each, a word, a peer's number and bytes, with a swarm for the file under a root, by parts of
/// so many bytes, from so many peers, with a limit on output and a number of the put that fails: behind `ask` the target of the
/// query is said that is asked of the peer, or `none`; behind `say`, which hands the bytes in, `end` and `fail` whether more is
/// wanted, or all was put, or why not, and why the peer is refused, where it is. At last what was put is said.
pub fn answer(alloc: Global, given: &[Bytes], answer: &mut Answer) {
    let [root, part, peers, output, fails, steps @ ..] = given else {
        return answer.text("no root, part, peers, output and fails");
    };
    let Ok(root) = Cid::from_text(alloc, root.as_slice()) else {
        return answer.text("no CID");
    };
    let Some(part) = number_of(part.as_slice()) else {
        return answer.text("no size of a part");
    };
    let Some(peers) = number_of(peers.as_slice()) else {
        return answer.text("no number of peers");
    };
    if part == 0 || part > 1 << 24 || peers == 0 || peers > 16 {
        return answer.text("such parts and peers there are none");
    }
    let mut limits = Limits::standard();
    if let Some(most) = number_of(output.as_slice()) {
        if most <= limits.number(LimitKind::Output) {
            limits = limits.with(LimitKind::Output, most);
        }
    }
    let Ok(swarm) = Swarm::new(alloc, root, part, peers as u32, limits) else {
        return answer.lack();
    };
    let mut swarm = swarm;
    let mut out = MemSink::new(alloc, 4096, fails_of(alloc, fails.as_slice()));
    for step in steps.chunks(3) {
        take_step(alloc, &mut swarm, &mut out, step, answer);
    }
    answer.bytes(out.held());
}

/// The number of the put that fails, or none.
fn fails_of(alloc: Global, fails: &[u8]) -> List<u64> {
    let mut list = List::new(alloc);
    if let Some(number) = number_of(fails) {
        let _ = list.push(number);
    }
    list
}

/// Takes one step, and says what came of it.
fn take_step(
    alloc: Global,
    swarm: &mut Swarm,
    out: &mut MemSink,
    step: &[Bytes],
    answer: &mut Answer,
) {
    let [word, peer, bytes] = step else {
        return answer.text("no step");
    };
    let Some(peer) = number_of(peer.as_slice()) else {
        return answer.text("no peer");
    };
    let peer = peer as usize;
    if peer >= swarm.peer_count() {
        return answer.text("no such peer");
    }
    match from_utf8(word.as_slice()) {
        Ok("ask") => ask(alloc, swarm, peer, answer),
        Ok("say") => tell(swarm, peer, PeerEvent::Piece(bytes.as_slice()), out, answer),
        Ok("end") => tell(swarm, peer, PeerEvent::Ended, out, answer),
        Ok("fail") => tell(swarm, peer, PeerEvent::Failed, out, answer),
        _ => answer.text("an unknown step"),
    }
}

/// Asks a peer, and says for what.
fn ask(alloc: Global, swarm: &mut Swarm, peer: usize, answer: &mut Answer) {
    if peer >= swarm.peer_count() {
        return;
    }
    match swarm.ask(peer) {
        Ok(Some(query)) => say_target(alloc, &query, answer),
        Ok(None) => answer.text("none"),
        Err(_) => answer.text("OutOfMemory"),
    }
}

/// Says the target of the request for a query.
fn say_target(alloc: Global, query: &Query, answer: &mut Answer) {
    let Ok(request) = print_request(alloc, query, addr()) else {
        return answer.lack();
    };
    let mut words = request.as_slice().split(|byte| *byte == b' ');
    let _method = words.next();
    match words.next() {
        Some(target) => answer.bytes(target),
        None => answer.text("no target"),
    }
}

/// Tells of what happened at a peer, and says what came of it.
fn tell(
    swarm: &mut Swarm,
    peer: usize,
    event: PeerEvent<'_>,
    out: &mut MemSink,
    answer: &mut Answer,
) {
    if !swarm.is_busy(peer) {
        return answer.text("not asked");
    }
    match swarm.event(peer, event, out) {
        Ok(Progress::More) => answer.text("more"),
        Ok(Progress::Done) => answer.text("done"),
        Err(fault) => answer.shown_as(&fault),
    }
    if peer >= swarm.peer_count() {
        return;
    }
    if let Some(fault) = swarm.refusal(peer) {
        answer.shown_as(&fault);
    }
}
