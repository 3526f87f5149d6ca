//! Fetches over a dial in memory, which are watched, and of which each call fails in turn.
use crate::asking::{Given, addr};
use crate::faults::say_end;
use std::alloc::{AllocError, Global};
use tg_bytes::{Bytes, List};
use tg_dials::MemDial;
use tg_fetch::{FetchFault, Told, Unwatched, Watch, fetch};
use tg_links::Call;
use tg_model::Query;
use tg_rows::Answer;
use tg_streams::MemSink;

/// What a watch was told.
#[derive(Drop)]
struct Seen {
    last: Told,
    ended: u64,
    /// No number fell, and nothing was told behind the end.
    is_right: bool,
}

impl Seen {
    /// Nothing yet.
    fn new() -> Seen {
        Seen {
            last: Told {
                bytes: 0,
                blocks: 0,
            },
            ended: 0,
            is_right: true,
        }
    }
}

impl Watch for Seen {
    fn told(&mut self, told: Told) {
        let falls = told.bytes < self.last.bytes || told.blocks < self.last.blocks;
        if falls || self.ended > 0 {
            self.is_right = false;
        }
        self.last = told;
    }

    fn ended(&mut self) {
        self.ended = self.ended.saturating_add(1);
    }
}

/// What a fetch left: how it ended, the dial, and out.
type Left = (Result<(), FetchFault>, MemDial, MemSink);

/// The list of this number, or of none.
fn fails_of(alloc: Global, fail: Option<u64>) -> Result<List<u64>, AllocError> {
    let mut fails = List::new(alloc);
    if let Some(fail) = fail {
        fails.push(fail)?;
    }
    Ok(fails)
}

/// The list of the reply that is given, if one is.
fn replies_of(alloc: Global, given: &Given) -> Result<List<Bytes>, AllocError> {
    let mut replies = List::new(alloc);
    if given.is_replied {
        replies.push(Bytes::of(alloc, given.reply.as_slice())?)?;
    }
    Ok(replies)
}

/// A watched fetch over a dial to the reply that is given, of which this call fails.
fn fetched<W: Watch>(
    alloc: Global,
    query: &Query,
    given: &Given,
    fail: Option<u64>,
    watch: &mut W,
) -> Result<Left, AllocError> {
    let piece = given.piece.max(1);
    let replies = replies_of(alloc, given)?;
    let mut dial = MemDial::new(alloc, replies, piece, fails_of(alloc, fail)?);
    let mut out = MemSink::new(alloc, piece, fails_of(alloc, given.out_fails)?);
    let end = fetch(
        alloc,
        query,
        given.limits,
        addr(),
        &mut dial,
        &mut out,
        watch,
    );
    Ok((end, dial, out))
}

/// Whether one call was told, in which the request was said that is given, or else a front of it, and a front of the reply
/// was heard.
fn is_told(given: &Given, dial: &MemDial, is_whole: bool) -> bool {
    match dial.calls() {
        Some(calls) => match calls.as_slice() {
            [call] => {
                is_front(given, call)
                    && (!is_whole || call.said.as_slice() == given.request.as_slice())
            }
            _ => false,
        },
        None => false,
    }
}

/// Whether a front of the request was said, and one of the reply heard.
fn is_front(given: &Given, call: &Call) -> bool {
    given.request.as_slice().starts_with(call.said.as_slice())
        && given.reply.as_slice().starts_with(call.heard.as_slice())
}

/// Says how a fetch ends, what it puts, the bytes and the blocks that are told last, how many dials fail and how many calls
/// of the dial do. The request is what is given, if one is.
pub fn answer(alloc: Global, given: &Given, answer: &mut Answer) {
    let Some(query) = given.query() else {
        return answer.text("no query");
    };
    let mut seen = Seen::new();
    match fetched(alloc, &query, given, None, &mut seen) {
        Ok((end, dial, out)) => {
            say_end(alloc, end, answer);
            answer.bytes(out.held());
            say_seen(&seen, answer);
            say_dial(given, &dial, answer);
        }
        Err(_) => answer.lack(),
    }
}

/// Says what was told last, where no number fell, and the watch was told once, at last, that the fetch ended.
fn say_seen(seen: &Seen, answer: &mut Answer) {
    if !seen.is_right || seen.ended != 1 {
        return answer.text("told otherwise");
    }
    answer.number(seen.last.bytes);
    answer.number(seen.last.blocks);
}

/// Says how many dials and how many calls fail, where the request that is given was said.
fn say_dial(given: &Given, dial: &MemDial, answer: &mut Answer) {
    if !given.request.as_slice().is_empty() && !is_told(given, dial, true) {
        return answer.text("said otherwise");
    }
    answer.number(dial.missed());
    answer.number(dial.count());
}

/// How many calls a fetch makes at most.
const MOST_CALLS: u64 = 2000;

/// Says how a fetch ends where none of its calls fails, and what it puts then, where each call that fails is the peer's
/// fault: the first one leaves all as it was, and each other one a front of the request, of the reply and of what is put.
pub fn answer_each(alloc: Global, given: &Given, answer: &mut Answer) {
    let Some(query) = given.query() else {
        return answer.text("no query");
    };
    let Some(put) = whole_put(alloc, &query, given) else {
        return answer.text("otherwise where no call fails");
    };
    for number in 0..MOST_CALLS {
        match end_where(alloc, &query, given, number, put.held()) {
            Some(Ok(())) => return say_whole(number, put.held(), answer),
            Some(Err(FetchFault::PeerFault)) => {}
            _ => {
                answer.text("otherwise where this call fails:");
                return answer.number(number);
            }
        }
    }
    answer.text("too many calls");
}

/// Says what is put where none of so many calls fails, of which there are at least three: a dial, a put and a take.
fn say_whole(calls: u64, put: &[u8], answer: &mut Answer) {
    if calls < 3 {
        answer.text("too few calls");
    }
    answer.text("answer");
    answer.bytes(put);
}

/// What is put where no call fails, and the reply is the answer.
fn whole_put(alloc: Global, query: &Query, given: &Given) -> Option<MemSink> {
    match fetched(alloc, query, given, None, &mut Unwatched) {
        Ok((Ok(()), _, out)) => Some(out),
        _ => None,
    }
}

/// How the fetch ends whose call with this number fails; none where what is left is wrong.
fn end_where(
    alloc: Global,
    query: &Query,
    given: &Given,
    number: u64,
    put: &[u8],
) -> Option<Result<(), FetchFault>> {
    let Ok((end, dial, out)) = fetched(alloc, query, given, Some(number), &mut Unwatched) else {
        return None;
    };
    let is_right = match end {
        Ok(()) => is_told(given, &dial, true) && out.held() == put && dial.count() == 0,
        Err(_) if number == 0 => {
            dial.missed() == 1 && dial.count() == 1 && out.held().is_empty()
        }
        Err(_) => is_told(given, &dial, false) && dial.count() == 1 && put.starts_with(out.held()),
    };
    if is_right { Some(end) } else { None }
}
