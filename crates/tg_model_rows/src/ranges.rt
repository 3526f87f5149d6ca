//! Ranges of a file's bytes, and the paths of queries.
use std::alloc::Global;
use std::str::from_utf8;
use tg_bytes::{Bytes, number_of};
use tg_cid::{Cid, Codec};
use tg_model::{Part, Scope, Span, SpanFrom, resolve_span, window};
use tg_oracle::{QueryFault, bounds, scoped_query, span_of};
use tg_rows::Answer;

/// The ends of a range `FROM:TO`, where FROM is a byte or, behind `-`, how many of the last bytes, and TO the last byte
/// or `*`.
pub fn ends_of(text: &[u8]) -> Option<(SpanFrom, Option<u64>)> {
    let at = text.iter().position(|byte| *byte == b':')?;
    let from = from_of(text.get(..at)?)?;
    let to = text.get(at.saturating_add(1)..)?;
    if to == b"*".as_slice() {
        return Some((from, None));
    }
    Some((from, Some(number_of(to)?)))
}

/// Where a range begins.
fn from_of(text: &[u8]) -> Option<SpanFrom> {
    match text {
        [b'-', count @ ..] => Some(SpanFrom::Last(number_of(count)?)),
        _ => Some(SpanFrom::Start(number_of(text)?)),
    }
}

/// `range RANGE`: whether it is one of a query.
pub fn answer_range(given: &[Bytes], answer: &mut Answer) {
    let [range] = given else {
        return answer.text("a range");
    };
    match ends_of(range.as_slice()) {
        Some((from, to)) => match span_of(from, to) {
            Ok(_) => answer.text("a range"),
            Err(fault) => say_fault(fault, answer),
        },
        None => answer.text("no range"),
    }
}

/// Says why there is no query.
fn say_fault(fault: QueryFault, answer: &mut Answer) {
    match fault {
        QueryFault::BadPath => answer.text("BadPath"),
        QueryFault::BadRange => answer.text("BadRange"),
        QueryFault::OutOfMemory => answer.lack(),
    }
}

/// `bounds RANGE TOTAL`: the first byte of the range in a file of so many bytes and the byte behind its last one, and the
/// run of parts of 4, 0, 4 and 3 bytes behind 2 inline ones that it meets.
pub fn answer_bounds(given: &[Bytes], answer: &mut Answer) {
    let [range, total] = given else {
        return answer.text("a range and a size");
    };
    match (ends_of(range.as_slice()), number_of(total.as_slice())) {
        (Some((from, to)), Some(total)) => match span_of(from, to) {
            Ok(span) => say_bounds(&span, total, answer),
            Err(fault) => say_fault(fault, answer),
        },
        _ => answer.text("no range or no size"),
    }
}

/// Says the bounds of a range.
fn say_bounds(span: &Span, total: u64, answer: &mut Answer) {
    let (low, high) = resolve_span(span, total);
    answer.number(low);
    answer.number(high);
    if bounds(span, total) != (low, high) {
        answer.text("is evaluated otherwise");
    }
    let (first, end) = met(low, high);
    answer.number(first as u64);
    answer.number(end as u64);
}

/// The run of parts that a range meets: they have 4, 0, 4 and 3 bytes and stand behind 2 inline ones.
fn met(low: u64, high: u64) -> (usize, usize) {
    let cid = Cid::of_block(Codec::Raw, b"");
    let parts = [
        Part { cid, size: 4 },
        Part { cid, size: 0 },
        Part { cid, size: 4 },
        Part { cid, size: 3 },
    ];
    window(2, &parts, low, high)
}

/// The fields as texts, or none where one isn't UTF-8 or memory is wanted.
pub fn texts_of(alloc: Global, fields: &[Bytes]) -> Option<Vec<&str>> {
    let mut texts = Vec::new(alloc);
    for field in fields {
        let Ok(text) = from_utf8(field.as_slice()) else {
            return None;
        };
        if texts.push(text).is_err() {
            return None;
        }
    }
    Some(texts)
}

/// `path SEGMENT ..`: whether they are the path of a query.
pub fn answer_path(alloc: Global, given: &[Bytes], answer: &mut Answer) {
    match texts_of(alloc, given) {
        Some(path) => say_path(alloc, path.as_slice(), answer),
        None => answer.lack(),
    }
}

/// Says whether segments are the path of a query.
fn say_path(alloc: Global, path: &[&str], answer: &mut Answer) {
    match scoped_query(alloc, Cid::of_block(Codec::Raw, b""), path, Scope::Block) {
        Ok(_) => answer.text("a path"),
        Err(fault) => say_fault(fault, answer),
    }
}

/// `path-of COUNT SEGMENT`: the same of a segment that stands so many times.
pub fn answer_path_of(alloc: Global, given: &[Bytes], answer: &mut Answer) {
    let [count, segment] = given else {
        return answer.text("a count and a segment");
    };
    match (number_of(count.as_slice()), from_utf8(segment.as_slice())) {
        (Some(count @ 0..=1000), Ok(segment)) => say_path_of(alloc, count, segment, answer),
        _ => answer.text("no count or no segment"),
    }
}

/// Says whether a segment so many times is the path of a query.
fn say_path_of(alloc: Global, count: u64, segment: &str, answer: &mut Answer) {
    let mut path = Vec::new(alloc);
    for _ in 0..count {
        if path.push(segment).is_err() {
            return answer.lack();
        }
    }
    say_path(alloc, path.as_slice(), answer);
}
