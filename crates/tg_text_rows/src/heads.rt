//! Heads of requests and of replies.
use crate::faults::say_http_fault;
use std::alloc::Global;
use tg_bytes::{Bytes, number_of};
use tg_http::{Framing, HttpFault, ReplyHead, RequestHead, read_reply, read_request};
use tg_rows::Answer;

/// Says what is read of the bytes as a request.
pub fn answer_request(alloc: Global, given: &[Bytes], answer: &mut Answer) {
    let [bytes] = given else {
        return answer.text("the bytes of a request");
    };
    say_request(&read_request(alloc, bytes.as_slice()), answer);
}

/// Says how many bytes a request has, and what is read of so many at its front.
pub fn answer_front(alloc: Global, given: &[Bytes], answer: &mut Answer) {
    let [size, bytes] = given else {
        return answer.text("a number and the bytes of a request");
    };
    let bytes = bytes.as_slice();
    answer.number(bytes.len() as u64);
    match number_of(size.as_slice()) {
        Some(size) => say_front(alloc, bytes, size, answer),
        None => answer.text("no number"),
    }
}

fn say_front(alloc: Global, bytes: &[u8], size: u64, answer: &mut Answer) {
    match bytes.get(..size as usize) {
        Some(front) => say_request(&read_request(alloc, front), answer),
        None => answer.text("fewer bytes"),
    }
}

/// Says the head of a request, that its end isn't there, or why there is none.
fn say_request(told: &Result<Option<RequestHead>, HttpFault>, answer: &mut Answer) {
    match told {
        Ok(Some(head)) => say_request_head(head, answer),
        Ok(None) => answer.text("unfinished"),
        Err(fault) => say_http_fault(*fault, answer),
    }
}

/// Says how long a head is, its minor version, whether the connection closes, whether a body follows, the method, the
/// target, and the values of `Accept`.
fn say_request_head(head: &RequestHead, answer: &mut Answer) {
    answer.number(head.used as u64);
    answer.number(u64::from(head.minor));
    answer.text(if head.close { "close" } else { "stay" });
    answer.text(if head.framed { "body" } else { "empty" });
    answer.bytes(head.method.as_slice());
    answer.bytes(head.target.as_slice());
    for value in head.accept.as_slice() {
        answer.bytes(value.as_slice());
    }
}

/// Says what is read of the bytes as a reply.
pub fn answer_reply(alloc: Global, given: &[Bytes], answer: &mut Answer) {
    let [bytes] = given else {
        return answer.text("the bytes of a reply");
    };
    say_reply(&read_reply(alloc, bytes.as_slice()), answer);
}

/// Says the head of a reply, that its end isn't there, or why there is none.
fn say_reply(told: &Result<Option<ReplyHead>, HttpFault>, answer: &mut Answer) {
    match told {
        Ok(Some(head)) => say_reply_head(head, answer),
        Ok(None) => answer.text("unfinished"),
        Err(fault) => say_http_fault(*fault, answer),
    }
}

/// Says how long a head is, its status, how the body is framed, and the type and the coding if they are there.
fn say_reply_head(head: &ReplyHead, answer: &mut Answer) {
    answer.number(head.used as u64);
    answer.number(u64::from(head.status));
    say_framing(head.framing, answer);
    say_value("type", &head.kind, answer);
    say_value("coding", &head.coding, answer);
}

/// Says how a body is framed: by its length, or otherwise.
fn say_framing(framing: Framing, answer: &mut Answer) {
    match framing {
        Framing::Length(length) => {
            answer.text("length");
            answer.number(length);
        }
        Framing::Chunked => answer.text("chunked"),
        Framing::UntilClose => answer.text("until-close"),
        Framing::Broken => answer.text("broken"),
    }
}

/// Says a value behind its name, if it is there.
fn say_value(name: &str, value: &Option<Bytes>, answer: &mut Answer) {
    if let Some(value) = value {
        answer.text(name);
        answer.bytes(value.as_slice());
    }
}
