//! The rows of the block model: blocks with their kinds or faults, and queries of small DAGs, which an evaluator, walks
//! over a store and steps answer.
#![tactic(auto)]

mod chains;
mod dags;
mod faults;
mod kinds;
mod queries;
mod ranges;
mod shards;
mod steps;
mod walks;

use crate::dags::Dags;
use std::alloc::Global;
use std::process::ExitCode;
use std::rt::HostRuntime;
use std::str::from_utf8;
use tg_bytes::Bytes;
use tg_rows::{Answer, Judge, run};

fn main(rt: HostRuntime) -> ExitCode {
    let mut judge = Model {
        dags: Dags::new(rt.alloc()),
    };
    run(&rt, &mut judge)
}

/// The blocks that rows have made.
#[derive(Drop)]
struct Model {
    dags: Dags,
}

impl Judge for Model {
    fn answer(&mut self, given: &[Bytes], answer: &mut Answer) {
        let [kind, given @ ..] = given else {
            return answer.text("no kind");
        };
        match from_utf8(kind.as_slice()) {
            Ok(kind) => answer_dags(&mut self.dags, kind, given, answer),
            Err(_) => answer.text("an unknown kind"),
        }
    }
}

/// Answers a row about blocks that rows have made.
fn answer_dags(dags: &mut Dags, kind: &str, given: &[Bytes], answer: &mut Answer) {
    match kind {
        "block" => dags.answer_block(given, answer),
        "store" => dags.answer_store(given, answer),
        "ask" => queries::answer_ask(dags, given, answer),
        "sized" => queries::answer_sized(dags, given, answer),
        "both" => queries::answer_both(dags, given, answer),
        "walk" => queries::answer_walk(dags, given, answer),
        _ => answer_alone(dags.alloc(), kind, given, answer),
    }
}

/// Answers a row that has all that it is about.
fn answer_alone(alloc: Global, kind: &str, given: &[Bytes], answer: &mut Answer) {
    match kind {
        "chain" => chains::answer(alloc, given, answer),
        "shards" => shards::answer(alloc, given, answer),
        "read" => kinds::answer_read(alloc, given, answer),
        "kind" => kinds::answer_kind(alloc, given, answer),
        "place" => kinds::answer_place(alloc, given, answer),
        "bounds" => ranges::answer_bounds(given, answer),
        "range" => ranges::answer_range(given, answer),
        "path" => ranges::answer_path(alloc, given, answer),
        "path-of" => ranges::answer_path_of(alloc, given, answer),
        _ => answer.text("an unknown kind"),
    }
}
