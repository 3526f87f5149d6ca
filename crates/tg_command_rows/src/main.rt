//! The rows of the program's commands: every command through `run`, over streams, a folder, a pack, a tree, a door and a
//! dial in memory, and each call of each of these objects failing in turn; and what an audit draws, keeps, asks and tells.
#![tactic(auto)]

mod asking;
mod audits;
mod chains;
mod changing;
mod cuts;
mod depths;
mod draws;
mod each;
mod folders;
mod groups;
mod runs;
mod said;
mod setup;
mod steps;
mod waiting;

use std::alloc::Global;
use std::process::ExitCode;
use std::rt::HostRuntime;
use std::str::from_utf8;
use tg_bytes::Bytes;
use tg_rows::{Answer, Judge, run};

fn main(rt: HostRuntime) -> ExitCode {
    let mut judge = Commands { alloc: rt.alloc() };
    run(&rt, &mut judge)
}

/// What runs commands.
#[derive(Clone, Copy)]
struct Commands {
    alloc: Global,
}

impl Judge for Commands {
    fn answer(&mut self, given: &[Bytes], answer: &mut Answer) {
        let Some((kind, given)) = given.split_first() else {
            return answer.text("no kind");
        };
        match from_utf8(kind.as_slice()) {
            Ok(kind) => answer_kind(self.alloc, kind, given, answer),
            Err(_) => answer.text("an unknown kind"),
        }
    }
}

/// Answers a row of this kind, behind which its name stands where it is about a run.
fn answer_kind(alloc: Global, kind: &str, given: &[Bytes], answer: &mut Answer) {
    let fields = given.get(1..).unwrap_or(&[]);
    match kind {
        "words" => steps::answer(alloc, given, answer),
        "run" => steps::answer(alloc, fields, answer),
        "packs" => steps::answer_size(alloc, fields, answer),
        "each" => each::answer(alloc, given, answer),
        "cuts" => cuts::answer(alloc, fields, answer),
        "changing" => changing::answer(alloc, fields, answer),
        "chain" => chains::answer(alloc, given, answer),
        "mirrored-chain" => chains::answer_mirrored(alloc, given, answer),
        "length" => chains::answer_length(given, answer),
        "deep" => depths::answer(alloc, given, answer),
        _ => answer_audit(alloc, kind, given, answer),
    }
}

/// Answers a row of this kind about the parts of an audit.
fn answer_audit(alloc: Global, kind: &str, given: &[Bytes], answer: &mut Answer) {
    match kind {
        "draws" => draws::answer(alloc, given, answer),
        "named" => draws::answer_name(alloc, given, answer),
        "place" => draws::answer_place(alloc, given, answer),
        "entries" => draws::answer_entries(alloc, given, answer),
        "imported" => audits::answer_imported(alloc, answer),
        "kept" => audits::answer_kept(alloc, given, answer),
        "tells" => audits::answer_text(alloc, given, answer),
        "query" => asking::answer_query(alloc, given, answer),
        "asked" => asking::answer_asked(alloc, given, answer),
        "look-up" => asking::answer_look_up(alloc, given, answer),
        _ => answer.text("an unknown kind"),
    }
}
