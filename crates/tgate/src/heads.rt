//! What the head of a reply shows of why the reply was refused.
use crate::exchange::Exchange;
use httparse::Status;
use httparse::spans::{EMPTY_HEADER_SPAN, parse_response};
use percent_encoding::{CONTROLS, percent_encode};
use std::alloc::{AllocError, Global};
use tg_bytes::Bytes;
use tg_http::{Framing, MAX_FIELDS, ReplyHead, read_reply, read_request};
use tg_model::Query;
use tg_query::{is_type_of, join, parse_accept, parse_target};

/// How many interim heads a reply has at most. Behind more of them the final one isn't looked at.
const MAX_INTERIMS: usize = 16;

/// The line that says which type the reply of an exchange has, or which coding, where it is refused for that: it has the status 200,
/// and its head frames the body, but the type isn't that of the answer to what was asked, or there is a coding. Where memory is
/// wanted there is none.
///
/// RFC 9110, sections 8.3 and 8.4.
pub fn type_line(alloc: Global, exchange: &Exchange) -> Option<Bytes> {
    let heard = exchange.heard()?;
    let (_, head) = final_head(alloc, heard.as_slice())?;
    if head.status != 200 || head.framing == Framing::Broken {
        return None;
    }
    let asked = exchange.asked()?;
    let query = asked_query(alloc, asked.as_slice())?;
    let Some(kind) = &head.kind else {
        return Bytes::of(alloc, b"the reply has no type\n").ok();
    };
    if !is_type_of(&query, kind.as_slice()) {
        return line(alloc, b"the reply has the type ", kind.as_slice()).ok();
    }
    let coding = head.coding.as_ref()?;
    if coding.as_slice().eq_ignore_ascii_case(b"identity") {
        return None;
    }
    line(alloc, b"the reply has the coding ", coding.as_slice()).ok()
}

/// The line that says where the reply of an exchange leads, where its status is that of a redirect and it has a `Location` field.
/// Where memory is wanted there is none.
///
/// RFC 9110, sections 10.2.2 and 15.4.
pub fn redirect_line(alloc: Global, exchange: &Exchange) -> Option<Bytes> {
    let heard = exchange.heard()?;
    let (text, head) = final_head(alloc, heard.as_slice())?;
    if !matches!(head.status, 301 | 302 | 303 | 307 | 308) {
        return None;
    }
    line(alloc, b"the reply leads to ", location(text)?).ok()
}

/// The text of the final head of a reply that begins so, and what it says. None where it isn't whole, and where memory is wanted.
///
/// RFC 9110, section 15.2.
fn final_head(alloc: Global, heard: &[u8]) -> Option<(&[u8], ReplyHead)> {
    let mut rest = heard;
    for _ in 0..=MAX_INTERIMS {
        let head = read_reply(alloc, rest).ok()??;
        let text = rest.get(..head.used)?;
        if head.status < 100 || head.status >= 200 {
            return Some((text, head));
        }
        rest = rest.get(head.used..)?;
    }
    None
}

/// The query of a request. None where it is no request for one, and where memory is wanted.
fn asked_query(alloc: Global, asked: &[u8]) -> Option<Query> {
    let head = read_request(alloc, asked).ok()??;
    let target = parse_target(alloc, head.target.as_slice()).ok()?;
    let accepted = parse_accept(alloc, &head.accept).ok()?;
    join(alloc, target, &accepted).ok()
}

/// The value of the first `Location` field of a head.
fn location(text: &[u8]) -> Option<&[u8]> {
    let mut room = [EMPTY_HEADER_SPAN; MAX_FIELDS];
    let Ok(Status::Complete(spans)) = parse_response(text, &mut room) else {
        return None;
    };
    for field in room.get(..spans.headers)? {
        let name = text.get(field.name.start..field.name.end)?;
        if name.eq_ignore_ascii_case(b"location") {
            return text.get(field.value.start..field.value.end);
        }
    }
    None
}

/// A line of these words and a value of a field, in which each byte that isn't one of a printable character of ASCII is escaped
/// with a percent sign. The error is want of memory.
fn line(alloc: Global, words: &[u8], value: &[u8]) -> Result<Bytes, AllocError> {
    let mut shown = String::new(alloc);
    percent_encode(value, CONTROLS).append_to(&mut shown)?;
    let mut line = Bytes::of(alloc, words)?;
    line.push_all(shown.as_bytes())?;
    line.push_all(b"\n")?;
    Ok(line)
}
