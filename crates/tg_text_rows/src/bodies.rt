//! Bodies that come in pieces of several lengths, and lines before chunks.
use crate::faults::say_http_fault;
use std::alloc::Global;
use std::str::from_utf8;
use tg_body::{Body, BodyReader};
use tg_bytes::{Bytes, number_of};
use tg_http::{Framing, HttpFault, chunk_head};
use tg_rows::Answer;

/// How a reader ends.
#[derive(Clone, Copy, PartialEq, Eq)]
enum End {
    /// It gives the body's end, and again when more comes.
    Body,
    /// The link's end closes the body.
    Link,
    /// It refuses, and again whatever comes.
    Refused(HttpFault),
    /// It gives another answer the second time.
    Changed,
}

/// A reader, and what it has given of the body.
#[derive(Drop)]
struct Reading {
    reader: BodyReader,
    body: Bytes,
    lacks: bool,
}

impl Reading {
    /// Feeds the whole piece, and says how the body ends in it, if it does.
    fn feed(&mut self, piece: &[u8]) -> Option<End> {
        let mut rest = piece;
        for _ in 0..=piece.len() {
            match self.reader.feed(rest) {
                Ok((_, Body::Need)) => return None,
                Ok((taken, Body::Part { start, end })) => {
                    self.keep(&rest[start..end]);
                    rest = &rest[taken..];
                }
                Ok((_, Body::End)) => return Some(self.ended()),
                Err(fault) => return Some(self.refused(fault)),
            }
        }
        None
    }

    /// Keeps a part of the body.
    fn keep(&mut self, part: &[u8]) {
        if self.body.push_all(part).is_err() {
            self.lacks = true;
        }
    }

    /// The end that was given, if it is given again.
    fn ended(&mut self) -> End {
        if self.reader.feed(b"more") == Ok((0, Body::End)) {
            End::Body
        } else {
            End::Changed
        }
    }

    /// The refusal, if it comes again.
    fn refused(&mut self, fault: HttpFault) -> End {
        if self.reader.feed(b"0\r\n\r\n") == Err(fault) && self.reader.end() == Err(fault) {
            End::Refused(fault)
        } else {
            End::Changed
        }
    }

    /// Feeds the bytes in pieces of so many, and says how the body ends.
    fn feed_pieces(&mut self, bytes: &[u8], size: usize) -> End {
        for piece in bytes.chunks(size.max(1)) {
            if let Some(end) = self.feed(piece) {
                return end;
            }
        }
        if let Some(end) = self.feed(b"") {
            return end;
        }
        match self.reader.end() {
            Ok(()) => End::Link,
            Err(fault) => End::Refused(fault),
        }
    }
}

/// How many bytes the pieces have, beside those of one byte.
const SIZES: [usize; 4] = [2, 7, 64, 65_536];

/// Says the body that is given of bytes in this framing, and how it ends; and in pieces of which length another body is
/// given, or another end.
pub fn answer_body(alloc: Global, given: &[Bytes], answer: &mut Answer) {
    let [framing, bytes] = given else {
        return answer.text("a framing and bytes");
    };
    match framing_of(framing.as_slice()) {
        Some(framing) => say_body(alloc, framing, bytes.as_slice(), answer),
        None => answer.text("no framing"),
    }
}

/// The framing with this name, or by so many bytes.
fn framing_of(name: &[u8]) -> Option<Framing> {
    match from_utf8(name) {
        Ok("chunked") => Some(Framing::Chunked),
        Ok("until-close") => Some(Framing::UntilClose),
        Ok("broken") => Some(Framing::Broken),
        _ => number_of(name).map(Framing::Length),
    }
}

/// What a reader that hasn't read gives of the bytes in pieces of so many, and how it ends.
fn read_in_pieces(alloc: Global, framing: Framing, bytes: &[u8], size: usize) -> (Reading, End) {
    let mut reading = Reading {
        reader: BodyReader::new(alloc, framing),
        body: Bytes::new(alloc),
        lacks: false,
    };
    let end = reading.feed_pieces(bytes, size);
    (reading, end)
}

fn say_body(alloc: Global, framing: Framing, bytes: &[u8], answer: &mut Answer) {
    let (single, end) = read_in_pieces(alloc, framing, bytes, 1);
    answer.bytes(single.body.as_slice());
    say_end(end, answer);
    if single.lacks {
        answer.lack();
    }
    for size in SIZES {
        if !is_given(alloc, framing, bytes, size, single.body.as_slice(), end) {
            answer.text("otherwise in pieces of");
            answer.number(size as u64);
        }
    }
}

/// Whether this body and this end are given of the bytes in pieces of so many.
fn is_given(
    alloc: Global,
    framing: Framing,
    bytes: &[u8],
    size: usize,
    body: &[u8],
    end: End,
) -> bool {
    let (reading, found) = read_in_pieces(alloc, framing, bytes, size);
    reading.body.as_slice() == body && found == end && !reading.lacks
}

fn say_end(end: End, answer: &mut Answer) {
    match end {
        End::Body => answer.text("ended"),
        End::Link => answer.text("closed"),
        End::Refused(fault) => say_http_fault(fault, answer),
        End::Changed => answer.text("another answer the second time"),
    }
}

/// Says the line before a chunk of so many bytes.
pub fn answer_line(given: &[Bytes], answer: &mut Answer) {
    let [length] = given else {
        return answer.text("one number");
    };
    match from_utf8(length.as_slice()) {
        Ok(length) => say_line(length, answer),
        Err(_) => answer.text("no number"),
    }
}

fn say_line(length: &str, answer: &mut Answer) {
    match length.parse::<u64>() {
        Ok(length) => {
            let (head, size) = chunk_head(length);
            answer.bytes(&head[..size]);
        }
        Err(_) => answer.text("no number"),
    }
}
