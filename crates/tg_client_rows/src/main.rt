//! The rows of `tg_fetch`: clients that are fed replies in pieces of any lengths, own ones and those of a peer that lies,
//! fetches over dials in memory, whose calls fail in turn, and over a socket; in which pieces inputs, replies and requests are
//! taken; and swarms of `tg_swarm`, step by step.
#![tactic(auto)]

mod asking;
mod chains;
mod cuts;
mod faults;
mod fetching;
mod noting;
mod own;
mod pieces;
mod replies;
mod sockets;
mod swarms;

use crate::asking::{Given, given_of};
use std::process::ExitCode;
use std::rt::HostRuntime;
use std::str::from_utf8;
use tg_bytes::Bytes;
use tg_rows::{Answer, Judge, run};
use tg_store::MemStore;

fn main(rt: HostRuntime) -> ExitCode {
    let mut judge = Replied {
        rt,
        store: MemStore::new(rt.alloc()),
    };
    run(&rt, &mut judge)
}

/// A store of blocks that rows keep.
#[derive(Drop)]
struct Replied {
    rt: HostRuntime,
    store: MemStore,
}

impl Judge for Replied {
    fn answer(&mut self, given: &[Bytes], answer: &mut Answer) {
        let [kind, _, given @ ..] = given else {
            return answer.text("no kind and name");
        };
        match from_utf8(kind.as_slice()) {
            Ok(kind) => answer_kind(self, kind, given, answer),
            Err(_) => answer.text("an unknown kind"),
        }
    }
}

/// Answers a row of this kind.
fn answer_kind(judge: &mut Replied, kind: &str, given: &[Bytes], answer: &mut Answer) {
    let alloc = judge.rt.alloc();
    match kind {
        "block" => own::keep(alloc, &mut judge.store, given, answer),
        "chain" => chains::answer(alloc, given, answer),
        "swarm" => swarms::answer(alloc, given, answer),
        "link" => pieces::answer_link(alloc, &mut judge.store, given, answer),
        "lane" => pieces::answer_lane(alloc, &mut judge.store, given, answer),
        _ => {
            let given = given_of(alloc, given);
            if given.is_bad {
                return answer.text("an unknown mark, or no number");
            }
            answer_asked(judge, kind, &given, answer);
        }
    }
}

/// Answers a row of this kind about what is asked.
fn answer_asked(judge: &mut Replied, kind: &str, given: &Given, answer: &mut Answer) {
    let alloc = judge.rt.alloc();
    match kind {
        "reply" => replies::answer(alloc, given, answer),
        "cut" => cuts::answer(alloc, given, answer),
        "car" => pieces::answer_car(alloc, given, answer),
        "fetched" => pieces::answer_fetch(alloc, given, answer),
        "own" => own::answer(alloc, &mut judge.store, given, answer),
        "fetch" => fetching::answer(alloc, given, answer),
        "each" => fetching::answer_each(alloc, given, answer),
        "socket" => sockets::answer(&judge.rt, &mut judge.store, given, answer),
        _ => answer.text("an unknown kind"),
    }
}
