//! The rows of `tg_gateway`: sessions that are fed streams of requests in pieces of any lengths, over stores that fail,
//! sinks that fail and a limit on what may be received, and sessions over links in memory and over a socket; of
//! `tg_lanes`, step by step; of `tg_serve`, through a door that marks lanes by a script; and of `tg_streams`, `tg_links`,
//! `tg_doors` and `tg_dials` in memory, step by step.
#![tactic(auto)]

mod breaks;
mod dials;
mod doors;
mod exchanges;
mod feeding;
mod fields;
mod gathered;
mod lanes;
mod marking;
mod over_links;
mod over_std;
mod packs;
mod peers;
mod puts;
mod received;
mod serving;
mod sockets;
mod sources;
mod splits;
mod stores;
mod turns;

use crate::dials::Dials;
use crate::doors::Doors;
use crate::exchanges::{Stream, stream_of};
use crate::feeding::{FEW_CUTS, PIECES};
use crate::peers::Peer;
use crate::sources::Streams;
use crate::stores::TestStore;
use std::process::ExitCode;
use std::rt::HostRuntime;
use std::str::from_utf8;
use tg_bytes::Bytes;
use tg_rows::{Answer, Judge, run};

fn main(rt: HostRuntime) -> ExitCode {
    let alloc = rt.alloc();
    let mut judge = Gateway {
        rt,
        store: TestStore::empty(alloc),
        empty: TestStore::empty(alloc),
        memory: Memory {
            streams: Streams::new(alloc),
            peer: Peer::new(alloc),
            doors: Doors::new(alloc),
            dials: Dials::new(alloc),
        },
    };
    run(&rt, &mut judge)
}

/// A store of blocks that rows keep, and one that stays empty; and what steps in memory leave.
#[derive(Drop)]
struct Gateway {
    rt: HostRuntime,
    store: TestStore,
    empty: TestStore,
    memory: Memory,
}

/// A source and a sink, a peer, a door and a dial, as the steps before left them.
#[derive(Drop)]
struct Memory {
    streams: Streams,
    peer: Peer,
    doors: Doors,
    dials: Dials,
}

impl Judge for Gateway {
    fn answer(&mut self, given: &[Bytes], answer: &mut Answer) {
        let [kind, given @ ..] = given else {
            return answer.text("no kind");
        };
        match from_utf8(kind.as_slice()) {
            Ok(kind) => answer_kind(self, kind, given, answer),
            Err(_) => answer.text("an unknown kind"),
        }
    }
}

/// Answers a row of this kind: a step, or one that has a name.
fn answer_kind(judge: &mut Gateway, kind: &str, given: &[Bytes], answer: &mut Answer) {
    let alloc = judge.rt.alloc();
    match kind {
        "source" | "take" | "sink" | "put" => judge.memory.streams.answer(kind, given, answer),
        "peer" | "hear" | "say" => judge.memory.peer.answer(kind, given, answer),
        "door" | "bind" | "admit" => judge.memory.doors.answer(kind, given, answer),
        "dials" | "dial" | "calls" => judge.memory.dials.answer(kind, given, answer),
        "gather" => gathered::answer(alloc, given, answer),
        "reader" | "writer" | "silent" => over_std::answer(alloc, kind, given, answer),
        _ => answer_named(judge, kind, given, answer),
    }
}

/// Answers a row of this kind that has a name.
fn answer_named(judge: &mut Gateway, kind: &str, given: &[Bytes], answer: &mut Answer) {
    let alloc = judge.rt.alloc();
    let [_, given @ ..] = given else {
        return answer.text("no name");
    };
    match kind {
        "block" => judge.store.keep(alloc, given, answer),
        "breaks" => breaks::answer(alloc, &mut judge.store, given, answer),
        "lanes" => lanes::answer(alloc, &mut judge.store, given, answer),
        "parted" => turns::answer_parted(alloc, &mut judge.store, given, answer),
        "rounds" => turns::answer_rounds(alloc, &mut judge.store, given, answer),
        "serves" => serving::answer(alloc, given, answer),
        "turns" => serving::answer_turns(alloc, &mut judge.store, given, answer),
        _ => {
            let stream = stream_of(alloc, given);
            if stream.is_bad {
                answer.text("no requests and replies");
            } else {
                answer_stream(judge, kind, &stream, answer);
            }
        }
    }
}

/// Answers a row of this kind about a stream.
fn answer_stream(judge: &mut Gateway, kind: &str, stream: &Stream, answer: &mut Answer) {
    let alloc = judge.rt.alloc();
    match kind {
        "stream" => feeding::answer(alloc, &mut judge.store, stream, PIECES, answer),
        "alone" => feeding::answer(alloc, &mut judge.empty, stream, PIECES, answer),
        "head" => {
            feeding::answer(alloc, &mut judge.empty, stream, FEW_CUTS, answer);
            answer.number(stream.second_length());
        }
        "split" => splits::answer(alloc, &mut judge.empty, stream, answer),
        "puts" => puts::answer(alloc, &mut judge.store, stream, puts::PIECES, answer),
        "parts" => {
            feeding::answer(alloc, &mut judge.store, stream, PIECES, answer);
            puts::answer(alloc, &mut judge.store, stream, puts::PARTS, answer);
        }
        "link" => over_links::answer(alloc, &mut judge.store, stream, answer),
        "received" => received::answer(alloc, &mut judge.store, stream, answer),
        "socket" => sockets::answer(&judge.rt, &mut judge.store, stream, answer),
        _ => answer.text("an unknown kind"),
    }
}
