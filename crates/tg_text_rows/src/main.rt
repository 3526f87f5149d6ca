//! The rows of texts and of HTTP: words, targets, `Accept` fields, media types, printed requests and command lines, each
//! with what it asks or why it is refused; names, listings and blocks with their texts; heads, bodies and lines of chunks.
#![tactic(auto)]

mod alike;
mod bodies;
mod commands;
mod faults;
mod heads;
mod helps;
mod listings;
mod nodes;
mod operands;
mod printed;
mod queries;
mod words;

use std::alloc::Global;
use std::process::ExitCode;
use std::rt::HostRuntime;
use std::str::from_utf8;
use tg_bytes::Bytes;
use tg_rows::{Answer, Judge, run};

fn main(rt: HostRuntime) -> ExitCode {
    let mut judge = Texts { alloc: rt.alloc() };
    run(&rt, &mut judge)
}

/// What reads and writes texts.
#[derive(Clone, Copy)]
struct Texts {
    alloc: Global,
}

impl Judge for Texts {
    fn answer(&mut self, given: &[Bytes], answer: &mut Answer) {
        let Some((kind, given)) = given.split_first() else {
            return answer.text("no kind");
        };
        match from_utf8(kind.as_slice()) {
            Ok(kind) => answer_query(self.alloc, kind, given, answer),
            Err(_) => answer.text("an unknown kind"),
        }
    }
}

/// Answers a row of this kind about words, paths and queries, or of another kind.
fn answer_query(alloc: Global, kind: &str, given: &[Bytes], answer: &mut Answer) {
    match kind {
        "words" => commands::answer(alloc, given, answer),
        "operands" => operands::answer(alloc, given, answer),
        "options" => helps::answer(alloc, given, answer),
        "word" => words::answer_word(alloc, given, answer),
        "span" => words::answer_span(given, answer),
        "wrap" => faults::answer_wrap(given, answer),
        "target" => queries::answer_target(alloc, given, answer),
        "type" => queries::answer_type(alloc, given, answer),
        "print" => printed::answer_printed(alloc, given, answer),
        "print-and-read" => printed::answer_again(alloc, given, answer),
        _ => answer_text(alloc, kind, given, answer),
    }
}

/// Answers a row of this kind about names, blocks and HTTP.
fn answer_text(alloc: Global, kind: &str, given: &[Bytes], answer: &mut Answer) {
    match kind {
        "escape" => listings::answer_escaped(alloc, given, answer),
        "listing" => listings::answer_listing(alloc, given, answer),
        "many-lines" => listings::answer_many(alloc, given, answer),
        "node" => nodes::answer(alloc, given, answer),
        "request" => heads::answer_request(alloc, given, answer),
        "request-front" => heads::answer_front(alloc, given, answer),
        "reply" => heads::answer_reply(alloc, given, answer),
        "byte-by-byte" => alike::answer(alloc, given, answer),
        "body" => bodies::answer_body(alloc, given, answer),
        "chunk-line" => bodies::answer_line(given, answer),
        _ => answer.text("an unknown kind"),
    }
}
