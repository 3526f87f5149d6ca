//! Stores of which one look-up fails, or finds a block that changed: each look-up for a request in turn.
use crate::exchanges::{Stream, stream_of};
use crate::feeding::{PIECES, Told, both, say_last, told_each};
use crate::stores::{Breaks, TestStore};
use std::alloc::Global;
use tg_bytes::Bytes;
use tg_gateway::{Next, Served};
use tg_rows::Answer;

/// Given a short request and its reply, a request, and its replies where its first look-up breaks, where its second one
/// does, and so on, and at last where none breaks, each behind `!`: says the session's last answer for each, where the
/// request gets these, and the short one behind it its own where the connection stays open.
pub fn answer(alloc: Global, store: &mut TestStore, given: &[Bytes], answer: &mut Answer) {
    let [_, short, _, short_reply, _, request, cases @ ..] = given else {
        return answer.text("a short request, its reply, a request and its replies");
    };
    if !is_marked(given) {
        return answer.text("no requests and replies");
    }
    let asked: [&[u8]; 3] = [short.as_slice(), short_reply.as_slice(), request.as_slice()];
    let last = (cases.len() / 2).saturating_sub(1) as u64;
    for (number, case) in cases.chunks(2).enumerate() {
        let number = number as u64;
        answer_case(alloc, store, asked, case, (number, number < last), answer);
    }
}

/// Whether the first and the third text are requests and all others replies.
fn is_marked(given: &[Bytes]) -> bool {
    for (number, pair) in given.chunks(2).enumerate() {
        let is_request = number == 0 || number == 2;
        let wanted: &[u8] = if is_request { b"?" } else { b"!" };
        match pair {
            [mark, _] if mark.as_slice() == wanted => {}
            _ => return false,
        }
    }
    given.len() >= 8
}

/// Says the last answer where the look-up with this number breaks, and whether the reply is broken by it.
fn answer_case(
    alloc: Global,
    store: &mut TestStore,
    asked: [&[u8]; 3],
    case: &[Bytes],
    broken: (u64, bool),
    answer: &mut Answer,
) {
    let [_, reply] = case else {
        return answer.text("no reply");
    };
    let (number, is_broken) = broken;
    let asked = (asked, reply.as_slice(), is_broken);
    let fails = told_at(alloc, store, asked, Breaks::Fails(number));
    let changes = told_at(alloc, store, asked, Breaks::Changes(number));
    match both(fails, changes) {
        Some(told) => say_last(told.last, answer),
        None => answer.text("otherwise"),
    }
}

/// A short request and its reply and a request, its reply, and whether that is broken.
type Asked<'a> = ([&'a [u8]; 3], &'a [u8], bool);

/// The short request, the request and its reply, and the short request again, which gets its reply where the connection
/// stays open.
fn stream_with(alloc: Global, asked: [&[u8]; 3], reply: &[u8], is_open: bool) -> Stream {
    let [short, short_reply, request] = asked;
    let mut stream = stream_of(alloc, &[]);
    stream.ask(short);
    stream.reply(short_reply);
    stream.ask(request);
    stream.reply(reply);
    stream.ask(short);
    if is_open {
        stream.reply(short_reply);
    }
    stream
}

/// What is told where the store breaks so: of a stream whose connection stays open, or else of one whose connection
/// closes.
fn told_at(alloc: Global, store: &mut TestStore, asked: Asked, breaks: Breaks) -> Option<Told> {
    let open = told_of(alloc, store, asked, true, breaks);
    if open.is_some() {
        return open;
    }
    told_of(alloc, store, asked, false, breaks)
}

fn told_of(
    alloc: Global,
    store: &mut TestStore,
    asked: Asked,
    is_open: bool,
    breaks: Breaks,
) -> Option<Told> {
    let stream = stream_with(alloc, asked.0, asked.1, is_open);
    match told_each(alloc, store, &stream, breaks, PIECES) {
        Ok(told) if is_told(told, is_open, asked.2) => Some(told),
        _ => None,
    }
}

/// Whether all replies were sent, of which one is broken by the store, or none, and the connection stays open or closes.
fn is_told(told: Told, is_open: bool, is_broken: bool) -> bool {
    let broken = u64::from(is_broken);
    let wanted = Served {
        requests: if is_open { 3 } else { 2 },
        broken,
        store: broken,
    };
    told.served == wanted && told.last == Ok(if is_open { Next::More } else { Next::Close })
}
