//! In pieces of how many bytes an input, a reply and requests are taken, and what is put before each is: where one take gives
//! as many bytes as its room holds.
use crate::asking::{Given, addr};
use crate::faults::say_end;
use crate::noting::{NotedDial, NotedDoor, NotedLink, NotedSink, NotedSource, Notes};
use std::alloc::{AllocError, Global};
use std::mem::replace;
use tg_bytes::{Bytes, List};
use tg_client::verify_car;
use tg_dials::MemDial;
use tg_doors::MemDoor;
use tg_fetch::{Unwatched, fetch};
use tg_gateway::serve_link;
use tg_lanes::Lanes;
use tg_links::MemLink;
use tg_model::Limits;
use tg_rows::Answer;
use tg_serve::{Turns, serve_lanes};
use tg_store::MemStore;
use tg_streams::{MemSink, MemSource};

/// A sink whose puts are noted.
fn sink_of(alloc: Global, notes: &Notes) -> NotedSink {
    NotedSink {
        inner: MemSink::new(alloc, usize::MAX, List::new(alloc)),
        notes,
    }
}

/// The list of these bytes alone.
fn list_of(alloc: Global, bytes: &[u8]) -> Result<List<Bytes>, AllocError> {
    let mut list = List::new(alloc);
    list.push(Bytes::of(alloc, bytes)?)?;
    Ok(list)
}

/// Says how a CAR on an input is verified, what its takes were handed and what was put before each.
pub fn answer_car(alloc: Global, given: &Given, answer: &mut Answer) {
    let (Some(query), Ok(bytes)) = (given.query(), Bytes::of(alloc, given.reply.as_slice())) else {
        return answer.text("no query");
    };
    let notes = Notes::new();
    let mut input = NotedSource {
        inner: MemSource::new(bytes, usize::MAX, List::new(alloc)),
        notes: &notes,
    };
    let mut out = sink_of(alloc, &notes);
    match verify_car(alloc, &query, given.limits, &mut input, &mut out) {
        Ok(()) => answer.text("done"),
        Err(fault) => answer.shown_as(&fault),
    }
    notes.tell(answer);
}

/// Says the same of a fetch over a dial to a peer that replies so.
pub fn answer_fetch(alloc: Global, given: &Given, answer: &mut Answer) {
    let (Some(query), Ok(replies)) = (given.query(), list_of(alloc, given.reply.as_slice())) else {
        return answer.text("no query");
    };
    let notes = Notes::new();
    let mut dial = NotedDial {
        inner: MemDial::new(alloc, replies, usize::MAX, List::new(alloc)),
        notes: &notes,
    };
    let mut out = sink_of(alloc, &notes);
    let end = fetch(
        alloc,
        &query,
        given.limits,
        addr(),
        &mut dial,
        &mut out,
        &mut Unwatched,
    );
    say_end(alloc, end, answer);
    notes.tell(answer);
}

/// Says the same of a session over a link to a peer that says this.
pub fn answer_link(alloc: Global, store: &mut MemStore, given: &[Bytes], answer: &mut Answer) {
    let [asked] = given else {
        return answer.text("what is asked");
    };
    let Ok(bytes) = Bytes::of(alloc, asked.as_slice()) else {
        return answer.lack();
    };
    let notes = Notes::new();
    let mut link = NotedLink {
        inner: MemLink::new(alloc, bytes, usize::MAX, List::new(alloc)),
        notes: &notes,
        says: true,
    };
    let (served, end) = serve_link(alloc, store, &mut link, Limits::standard());
    match end {
        Ok(()) => answer.number(served.requests),
        Err(fault) => answer.shown_as(&fault),
    }
    notes.tell(answer);
}

/// Says the same of a lane over such a link, which comes through a door.
pub fn answer_lane(alloc: Global, store: &mut MemStore, given: &[Bytes], answer: &mut Answer) {
    let [asked] = given else {
        return answer.text("what is asked");
    };
    let Ok(links) = list_of(alloc, asked.as_slice()) else {
        return answer.lack();
    };
    let notes = Notes::new();
    let door = MemDoor::new(alloc, links, usize::MAX, List::new(alloc));
    serve(alloc, store, door, &notes, answer);
    notes.tell(answer);
}

/// Serves the one link of a door in one lane over the store, which comes back, and says whether the door did well.
fn serve(alloc: Global, store: &mut MemStore, door: MemDoor, notes: &Notes, answer: &mut Answer) {
    let mut door = NotedDoor { inner: door, notes };
    let Ok(turns) = Turns::new(alloc, 1, 1) else {
        return answer.lack();
    };
    let held = replace(store, MemStore::new(alloc));
    match Lanes::new(alloc, held, 1, 1, Limits::standard()) {
        Ok(lanes) => {
            let mut lanes = lanes;
            let happened = serve_lanes(&mut lanes, turns, &mut door);
            answer.text(if happened.fault { "fault" } else { "well" });
            *store = lanes.into_blocks();
        }
        Err(refused) => {
            *store = refused.blocks;
            answer.lack();
        }
    }
}
