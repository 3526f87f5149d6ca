//! The queries of an audit, what a client makes of a gateway's replies over the folder of `draws.rt`, and look-ups that
//! fail.
use crate::audits::{packed, query_number};
use crate::draws::first_number;
use std::alloc::Global;
use tg_audit::{AuditFault, ask, attach};
use tg_audit_texts::{Hashed, absent_query, answer_queries};
use tg_bytes::{Bytes, List};
use tg_cid::Cid;
use tg_fetch::FetchFault;
use tg_files::MemPack;
use tg_model::{Form, Query, Scope, Span, SpanFrom};
use tg_rows::Answer;
use tg_store::PackStore;
use tg_verify::Refusal;

/// The queries of an audit of a root that have an answer, and behind them the one of a name that isn't there.
fn queries_of(alloc: Global, root: Cid) -> Option<Vec<Query>> {
    let (Ok(mut queries), Ok(absent)) = (answer_queries(alloc, root), absent_query(alloc, root))
    else {
        return None;
    };
    if queries.push(absent).is_err() {
        return None;
    }
    Some(queries)
}

/// Says how many queries there are, and what the query of an audit with this number, from 1, asks of a root.
pub fn answer_query(alloc: Global, given: &[Bytes], answer: &mut Answer) {
    let [_, root] = given else {
        return answer.text("no number and root");
    };
    match Cid::from_text(alloc, root.as_slice()) {
        Ok(root) => match queries_of(alloc, root) {
            Some(queries) => say_numbered(&queries, query_number(given), root, answer),
            None => answer.lack(),
        },
        Err(_) => answer.text("no root"),
    }
}

fn say_numbered(queries: &Vec<Query>, number: usize, root: Cid, answer: &mut Answer) {
    answer.number(queries.len() as u64);
    match queries.as_slice().get(number) {
        Some(query) => say_query(query, root, answer),
        None => answer.text("no query"),
    }
}

/// Says the form of a query, its scope, whether it is with repeats, its range, whether it is of another root, and its path.
fn say_query(query: &Query, root: Cid, answer: &mut Answer) {
    answer.text(match query.form() {
        Form::Raw => "raw",
        Form::Car => "car",
    });
    answer.text(match query.scope() {
        Scope::Block => "block",
        Scope::Entity => "entity",
        Scope::All => "all",
    });
    answer.text(if query.dups() { "dups" } else { "once" });
    match query.span() {
        Some(span) => say_span(&span, answer),
        None => answer.text("whole"),
    }
    if query.root() != root {
        answer.text("of another root");
    }
    for name in query.path().as_slice() {
        answer.bytes(name.as_slice());
    }
}

/// Says where a range begins, and its last byte.
fn say_span(span: &Span, answer: &mut Answer) {
    match span.from() {
        SpanFrom::Start(from) => {
            answer.text("from");
            answer.number(from);
        }
        SpanFrom::Last(count) => {
            answer.text("last");
            answer.number(count);
        }
    }
    match span.to() {
        Some(to) => {
            answer.text("to");
            answer.number(to);
        }
        None => answer.text("on"),
    }
}

/// Says whether the answer to the query with this number, from 1, is this text.
pub fn answer_asked(alloc: Global, given: &[Bytes], answer: &mut Answer) {
    let [_, text] = given else {
        return answer.text("no number and text");
    };
    let Some(packed) = packed(alloc) else {
        return answer.text("no import");
    };
    let root = packed.root;
    let (Ok(mut store), Some(queries)) = (attach(alloc, packed.pack), queries_of(alloc, root))
    else {
        return answer.text("no store");
    };
    match queries.as_slice().get(query_number(given)) {
        Some(query) => say_answer(alloc, query, &mut store, text.as_slice(), answer),
        None => answer.text("no query"),
    }
}

fn say_answer(
    alloc: Global,
    query: &Query,
    store: &mut PackStore<MemPack>,
    text: &[u8],
    answer: &mut Answer,
) {
    match ask(alloc, query, store) {
        Ok(hashed) => answer.text(if hashed == Hashed::of(text) {
            "so"
        } else {
            "otherwise"
        }),
        Err(_) => answer.text("refused"),
    }
}

/// A pack with what another holds, whose call with this number fails.
fn failing_pack(alloc: Global, pack: &MemPack, number: u64) -> Option<MemPack> {
    let mut fails = List::new(alloc);
    let (Some(content), Ok(())) = (pack.content(), fails.push(number)) else {
        return None;
    };
    match Bytes::of(alloc, content) {
        Ok(bytes) => Some(MemPack::new(bytes, fails)),
        Err(_) => None,
    }
}

/// Says what comes of the query for a name that isn't there, where the pack's call with this number fails.
pub fn answer_look_up(alloc: Global, given: &[Bytes], answer: &mut Answer) {
    let Some(packed) = packed(alloc) else {
        return answer.text("no import");
    };
    let (Some(pack), Ok(query)) = (
        failing_pack(alloc, &packed.pack, first_number(given)),
        absent_query(alloc, packed.root),
    ) else {
        return answer.lack();
    };
    match attach(alloc, pack) {
        Ok(mut store) => answer.text(end_of(alloc, &query, &mut store)),
        Err(_) => answer.text("not attached"),
    }
}

/// What comes of a query over the store.
fn end_of(alloc: Global, query: &Query, store: &mut PackStore<MemPack>) -> &'static str {
    match ask(alloc, query, store) {
        Ok(_) => "answered",
        Err(AuditFault::Client(FetchFault::Refused(Refusal::NotThere { segment: 0 }))) => "absent",
        Err(AuditFault::Client(_)) => "refused by the client",
        Err(AuditFault::OutOfMemory) => "out of memory",
        Err(_) => "another fault",
    }
}
