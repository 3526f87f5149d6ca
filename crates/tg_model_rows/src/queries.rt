//! Queries of the stored blocks: what the evaluator says, and whether a walk and steps go the same way.
use crate::dags::Dags;
use crate::faults::say_block;
use crate::ranges::{ends_of, texts_of};
use crate::steps::steps_end_so;
use crate::walks::{say_walked, walks_so};
use std::alloc::Global;
use std::str::from_utf8;
use tg_bytes::{Bytes, List};
use tg_cid::Cid;
use tg_model::{Query, Scope, SpanFrom};
use tg_oracle::{
    End, Evaluation, QueryFault, Sent, StoredBlock, car_size, evaluate, ranged_query, scoped_query,
    span_of,
};
use tg_rows::Answer;
use tg_traversal::copied_path;

/// What is asked for at the end of a path: a scope, or a range of a file.
#[derive(Clone, Copy)]
enum What {
    Scope(Scope),
    Bytes(SpanFrom, Option<u64>),
}

/// What a field asks for.
fn what_of(field: &[u8]) -> Option<What> {
    match from_utf8(field) {
        Ok("block") => Some(What::Scope(Scope::Block)),
        Ok("entity") => Some(What::Scope(Scope::Entity)),
        Ok("all") => Some(What::Scope(Scope::All)),
        _ => match ends_of(field) {
            Some((from, to)) => Some(What::Bytes(from, to)),
            None => None,
        },
    }
}

/// A query of the stored blocks, and its evaluation.
#[derive(Drop)]
pub struct Case {
    pub query: Query,
    pub found: Evaluation,
}

/// The query with repeats that a root, what is asked for and a path make, and its evaluation.
fn case_of(dags: &Dags, given: &[Bytes]) -> Option<Case> {
    let [root, what, path @ ..] = given else {
        return None;
    };
    let (Some(root), Some(what)) = (dags.cid(root.as_slice()), what_of(what.as_slice())) else {
        return None;
    };
    match texts_of(dags.alloc(), path) {
        Some(path) => asked_of(dags, root, path.as_slice(), what),
        None => None,
    }
}

fn asked_of(dags: &Dags, root: Cid, path: &[&str], what: What) -> Option<Case> {
    match query_of(dags.alloc(), root, path, what) {
        Ok(query) => evaluated(dags, query),
        Err(_) => None,
    }
}

fn query_of(alloc: Global, root: Cid, path: &[&str], what: What) -> Result<Query, QueryFault> {
    match what {
        What::Scope(scope) => scoped_query(alloc, root, path, scope),
        What::Bytes(from, to) => ranged_query(alloc, root, path, from, to),
    }
}

/// A query with its evaluation.
fn evaluated(dags: &Dags, query: Query) -> Option<Case> {
    match evaluate(dags.alloc(), dags.stored(), &query) {
        Ok(found) => Some(Case { query, found }),
        Err(_) => None,
    }
}

/// `ask ROOT WHAT SEGMENT ..`: how the query for `block`, `entity`, `all` or a range ends, the text, and the blocks that
/// are sent. A walk over a store gives the same blocks and ends so, and its path leads where steps do.
pub fn answer_ask(dags: &Dags, given: &[Bytes], answer: &mut Answer) {
    match case_of(dags, given) {
        Some(case) => say_case(dags, &case, answer),
        None => answer.text("no query"),
    }
}

/// `sized ROOT WHAT SEGMENT ..`: how many bytes the CAR has, and what `ask` says.
pub fn answer_sized(dags: &Dags, given: &[Bytes], answer: &mut Answer) {
    match case_of(dags, given) {
        Some(case) => {
            answer.number(car_size(case.found.sent.as_slice()));
            say_case(dags, &case, answer);
        }
        None => answer.text("no query"),
    }
}

fn say_case(dags: &Dags, case: &Case, answer: &mut Answer) {
    say_end(dags, case.found.end, answer);
    answer.bytes(case.found.text.as_slice());
    say_sent(dags, case.found.sent.as_slice(), answer);
    say_others(dags, case, answer);
}

/// Says how an evaluation ends.
fn say_end(dags: &Dags, end: End, answer: &mut Answer) {
    match end {
        End::Whole => answer.text("whole"),
        End::NotThere { at } => say_place("not-there", at, answer),
        End::NotFolder { at } => say_place("not-folder", at, answer),
        End::Gone { cid, depth } => say_spot(dags, "gone", cid, depth, answer),
        End::BadBlock { cid, depth, fault } => {
            say_spot(dags, "bad", cid, depth, answer);
            say_block(fault, answer);
        }
    }
}

/// Says at which segment a path ends.
fn say_place(name: &str, at: u64, answer: &mut Answer) {
    answer.text(name);
    answer.number(at);
}

/// Says at which block a traversal ends, and how many blocks from the root.
fn say_spot(dags: &Dags, name: &str, cid: Cid, depth: u32, answer: &mut Answer) {
    answer.text(name);
    answer.bytes(dags.name(cid));
    answer.number(u64::from(depth));
}

/// Says the names of the blocks that are sent.
fn say_sent(dags: &Dags, sent: &[Sent], answer: &mut Answer) {
    for section in sent {
        answer.bytes(dags.name(section.cid));
        if !is_stored(dags.stored(), section) {
            answer.text("is stored otherwise");
        }
    }
}

/// Whether the block that is sent is stored with its index and its size, and is the first with its CID.
fn is_stored(blocks: &[StoredBlock], section: &Sent) -> bool {
    for (index, stored) in blocks.iter().enumerate() {
        if stored.cid.to_v1() == section.cid.to_v1() {
            return section.index == index && section.size == stored.block.as_slice().len() as u64;
        }
    }
    false
}

/// Says where a walk or steps go otherwise.
fn say_others(dags: &Dags, case: &Case, answer: &mut Answer) {
    if !walks_so(dags.alloc(), dags.stored(), case) {
        answer.text("a walk goes otherwise");
    }
    if !steps_end_so(dags.alloc(), dags.stored(), case) {
        answer.text("steps go otherwise");
    }
}

/// `both ROOT WHAT SEGMENT ..`: what `ask` says, and behind `once` the blocks that are sent where each is sent once; that
/// query ends the same and has the same text.
pub fn answer_both(dags: &Dags, given: &[Bytes], answer: &mut Answer) {
    match case_of(dags, given) {
        Some(each) => {
            say_case(dags, &each, answer);
            answer_once(dags, &each, what_in(given), answer);
        }
        None => answer.text("no query"),
    }
}

/// Says what is sent where each block is sent once.
fn answer_once(dags: &Dags, each: &Case, what: Option<What>, answer: &mut Answer) {
    let Some(what) = what else {
        return answer.text("no query");
    };
    match once(dags, &each.query, what) {
        Some(case) => say_once(dags, each, &case, answer),
        None => answer.text("no query"),
    }
}

/// What is asked for in a row.
fn what_in(given: &[Bytes]) -> Option<What> {
    match given {
        [_, what, ..] => what_of(what.as_slice()),
        _ => None,
    }
}

/// The same query where each block is sent once.
fn once(dags: &Dags, query: &Query, what: What) -> Option<Case> {
    let Ok(path) = copied_path(dags.alloc(), query.path()) else {
        return None;
    };
    let query = match what {
        What::Scope(scope) => Query::car(query.root(), path, scope, None, false),
        What::Bytes(from, to) => match span_of(from, to) {
            Ok(span) => Query::car(query.root(), path, Scope::Entity, Some(span), false),
            Err(_) => return None,
        },
    };
    evaluated(dags, query)
}

/// Says what is sent where each block is sent once.
fn say_once(dags: &Dags, each: &Case, case: &Case, answer: &mut Answer) {
    answer.text("once");
    say_sent(dags, case.found.sent.as_slice(), answer);
    say_others(dags, case, answer);
    if case.found.end != each.found.end {
        answer.text("ends otherwise");
    }
    if case.found.text.as_slice() != each.found.text.as_slice() {
        answer.text("has another text");
    }
}

/// `walk ROOT`: the blocks that a walk over all below a root gives, and behind `once` those that it gives where each is
/// given once. The evaluator isn't asked: it opens no block that isn't stored.
pub fn answer_walk(dags: &Dags, given: &[Bytes], answer: &mut Answer) {
    let [root] = given else {
        return answer.text("a root");
    };
    let Some(root) = dags.cid(root.as_slice()) else {
        return answer.text("no root");
    };
    say_walked(dags, &all_below(dags.alloc(), root, true), answer);
    answer.text("once");
    say_walked(dags, &all_below(dags.alloc(), root, false), answer);
}

/// The query for all below a root, with repeats or without.
fn all_below(alloc: Global, root: Cid, dups: bool) -> Query {
    Query::car(root, List::new(alloc), Scope::All, None, dups)
}
