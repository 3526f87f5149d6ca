//! A reply that is cut behind each of its bytes.
use crate::asking::Given;
use crate::faults::say_end;
use crate::replies::{Heard, Pieces, heard_each, is_same};
use std::alloc::Global;
use tg_model::{Limits, Query};
use tg_rows::Answer;

/// The pieces of its fronts.
const PIECES: &[Pieces] = &[(1, 4096), (5, 4096), (4096, 4096)];

/// Says how a client ends over the first bytes of a reply and the link's end, and what it puts: at none, and at each number
/// of bytes where that becomes another.
pub fn answer(alloc: Global, given: &Given, answer: &mut Answer) {
    match given.query() {
        Some(query) => answer_fronts(alloc, &query, given.limits, given.reply.as_slice(), answer),
        None => answer.text("no query"),
    }
}

/// Says it of each front of these bytes.
fn answer_fronts(alloc: Global, query: &Query, limits: Limits, bytes: &[u8], answer: &mut Answer) {
    let mut last = None;
    for size in 0..=bytes.len() {
        let front = bytes.get(..size).unwrap_or(bytes);
        match heard_each(alloc, query, limits, front, PIECES) {
            Ok(next) => {
                say_change(alloc, &last, &next, size, answer);
                last = Some(next);
            }
            Err(_) => {
                answer.text("otherwise in other pieces, behind");
                answer.number(size as u64);
            }
        }
    }
}

/// Says behind how many bytes a client ends otherwise than before, how it does, and what it puts.
fn say_change(alloc: Global, last: &Option<Heard>, next: &Heard, size: usize, answer: &mut Answer) {
    if !was_heard(last, next) {
        answer.number(size as u64);
        say_end(alloc, next.end, answer);
        answer.bytes(next.out.held());
    }
}

/// Whether this was heard last.
fn was_heard(last: &Option<Heard>, next: &Heard) -> bool {
    match last {
        Some(last) => is_same(last, next),
        None => false,
    }
}
