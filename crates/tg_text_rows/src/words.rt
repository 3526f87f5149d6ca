//! Words and ranges.
use crate::faults::say_fault;
use std::alloc::Global;
use tg_bytes::Bytes;
use tg_cid::Cid;
use tg_model::{Span, SpanFrom};
use tg_query::{parse_span, parse_word};
use tg_rows::Answer;

/// Says the root and the path of a word.
pub fn answer_word(alloc: Global, given: &[Bytes], answer: &mut Answer) {
    let [word] = given else {
        return answer.text("one word");
    };
    match parse_word(alloc, word.as_slice()) {
        Ok((root, path)) => {
            say_root(alloc, root, answer);
            say_path(path.as_slice(), answer);
        }
        Err(fault) => say_fault(fault, answer),
    }
}

/// Says the text of a root.
pub fn say_root(alloc: Global, root: Cid, answer: &mut Answer) {
    match root.to_text(alloc) {
        Ok(text) => answer.bytes(text.as_slice()),
        Err(_) => answer.lack(),
    }
}

/// Says the segments of a path.
pub fn say_path(path: &[Bytes], answer: &mut Answer) {
    for segment in path {
        answer.bytes(segment.as_slice());
    }
}

/// Says the range of a text.
pub fn answer_span(given: &[Bytes], answer: &mut Answer) {
    let [text] = given else {
        return answer.text("one text");
    };
    match parse_span(text.as_slice()) {
        Ok(span) => say_span(&span, answer),
        Err(fault) => say_fault(fault, answer),
    }
}

/// Says where a range begins, and its last byte.
pub fn say_span(span: &Span, answer: &mut Answer) {
    match span.from() {
        SpanFrom::Start(from) => {
            answer.text("from");
            answer.number(from);
        }
        SpanFrom::Last(count) => {
            answer.text("last");
            answer.number(count);
        }
    }
    match span.to() {
        Some(to) => {
            answer.text("to");
            answer.number(to);
        }
        None => answer.text("on"),
    }
}
