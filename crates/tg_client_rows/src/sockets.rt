//! A client over a real socket, on one thread: it dials the port of a door, whose link a session serves.
use crate::asking::{Given, addr};
use crate::replies::sink_of;
use std::alloc::Global;
use std::mem::drop;
use std::rt::HostRuntime;
use tg_bytes::zeros;
use tg_dials::{Dial, TcpDial};
use tg_doors::{Door, TcpDoor};
use tg_fetch::Client;
use tg_gateway::serve_link;
use tg_links::Link;
use tg_model::Limits;
use tg_rows::Answer;
use tg_store::MemStore;
use tg_streams::{MemSink, put_all, take_piece};
use tg_verify::Progress;

/// Whether a client takes the reply from a link.
fn takes<K: Link>(client: &mut Client, link: &mut K, room: &mut [u8], out: &mut MemSink) -> bool {
    for _ in 0..100 {
        let Ok(size) = take_piece(link, room) else {
            return false;
        };
        let Some(piece) = room.get(..size) else {
            return false;
        };
        match client.feed(piece, out) {
            Ok(Progress::Done) => return true,
            Ok(Progress::More) => {}
            Err(_) => return false,
        }
    }
    false
}

/// The address of a port of this machine.
fn address(rt: &HostRuntime, port: u16) -> Option<String> {
    format!(in rt.alloc(); "127.0.0.1:{port}").ok()
}

/// Whether a client asks over a link, a session replies over its peer's, and the client takes the reply.
fn is_replied<K: Link, L: Link>(
    alloc: Global,
    client: &mut Client,
    store: &mut MemStore,
    link: &mut K,
    peer: &mut L,
    out: &mut MemSink,
) -> bool {
    let (Ok(request), Ok(mut room)) = (client.request(addr()), zeros(alloc, 512)) else {
        return false;
    };
    if put_all(link, request.as_slice()).is_err() {
        return false;
    }
    let (_, end) = serve_link(alloc, store, peer, Limits::standard());
    end == Ok(()) && takes(client, link, room.as_mut_slice(), out)
}

/// Whether a client that dials a door gets its reply from a session.
fn is_called(
    rt: &HostRuntime,
    client: &mut Client,
    store: &mut MemStore,
    out: &mut MemSink,
) -> bool {
    let (mut door, mut dial) = (TcpDoor::new(*rt), TcpDial::new(*rt));
    let Ok(port) = door.bind(0) else {
        return false;
    };
    let Some(there) = address(rt, port) else {
        return false;
    };
    let Ok(mut link) = dial.dial(there.as_str()) else {
        return false;
    };
    let Ok(Some(mut peer)) = door.admit() else {
        return false;
    };
    let replied = is_replied(rt.alloc(), client, store, &mut link, &mut peer, out);
    dial.done(link);
    door.done(peer);
    replied && dial.count() == 0
}

/// Says what a client puts that dials a door, where it gets its reply.
pub fn answer(rt: &HostRuntime, store: &mut MemStore, given: &Given, answer: &mut Answer) {
    let alloc = rt.alloc();
    let Some(query) = given.query() else {
        return answer.text("no query");
    };
    let Ok(mut client) = Client::new(alloc, &query, given.limits) else {
        return answer.lack();
    };
    let mut out = sink_of(alloc, 4096);
    let is_answered = is_called(rt, &mut client, store, &mut out);
    drop(client);
    answer.text(if is_answered { "answer" } else { "none" });
    answer.bytes(out.held());
}
