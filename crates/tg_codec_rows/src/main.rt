//! The rows of the codecs: spellings of numbers, of bytes, of names and of CIDs, messages under their tables, nodes and
//! their data, and CARs that are written and read.
#![tactic(auto)]

mod cars;
mod cids;
mod faults;
mod fields;
mod headers;
mod nodes;
mod payloads;
mod readings;
mod spellings;

use std::alloc::Global;
use std::process::ExitCode;
use std::rt::HostRuntime;
use std::str::from_utf8;
use tg_bytes::Bytes;
use tg_rows::{Answer, Judge, run};

fn main(rt: HostRuntime) -> ExitCode {
    let mut judge = Asked { alloc: rt.alloc() };
    run(&rt, &mut judge)
}

/// What gives the codecs memory.
#[derive(Clone, Copy)]
struct Asked {
    alloc: Global,
}

impl Judge for Asked {
    fn answer(&mut self, given: &[Bytes], answer: &mut Answer) {
        let [kind, given @ ..] = given else {
            return answer.text("no kind");
        };
        match from_utf8(kind.as_slice()) {
            Ok(kind) => answer_spelling(self.alloc, kind, given, answer),
            Err(_) => answer.text("an unknown kind"),
        }
    }
}

/// Answers a row of a number, of bytes, of a name or of a CID.
fn answer_spelling(alloc: Global, kind: &str, given: &[Bytes], answer: &mut Answer) {
    match kind {
        "varint" => spellings::answer_varint(given, answer),
        "number" => spellings::answer_number(alloc, given, answer),
        "base32" => spellings::answer_base32(alloc, given, answer),
        "bytes" => spellings::answer_bytes(alloc, given, answer),
        "hash" => spellings::answer_hash(alloc, given, answer),
        "hash-of-length" => spellings::answer_hash_of_length(alloc, given, answer),
        "slots" => spellings::answer_slots(alloc, given, answer),
        "cid" => cids::answer_cid(alloc, given, answer),
        "no-cid" => cids::answer_no_cid(alloc, given, answer),
        "cid-text" => cids::answer_text(alloc, given, answer),
        "fewest" => cids::answer_fewest(given, answer),
        _ => answer_message(alloc, kind, given, answer),
    }
}

/// Answers a row of a message or of a CAR.
fn answer_message(alloc: Global, kind: &str, given: &[Bytes], answer: &mut Answer) {
    match kind {
        "fields" => fields::answer_fields(alloc, given, answer),
        "field-at" => fields::answer_field_at(alloc, given, answer),
        "cursor" => fields::answer_cursor(alloc, given, answer),
        "node" => nodes::answer(alloc, given, answer),
        "payload" => payloads::answer(alloc, given, answer),
        "header" => headers::answer(alloc, given, answer),
        "header-of" => cars::answer_header_of(alloc, given, answer),
        "head-of" => cars::answer_head_of(given, answer),
        "car" => cars::answer_car(alloc, given, answer),
        "fronts" => cars::answer_fronts(alloc, given, answer),
        _ => answer.text("an unknown kind"),
    }
}
