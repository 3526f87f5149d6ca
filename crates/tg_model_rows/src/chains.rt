//! Files whose blocks lie deep below one another.
use crate::dags::{link, node, under};
use crate::walks::{goes_on, store_of};
use std::alloc::{AllocError, Global};
use tg_bytes::{Bytes, List, number_of};
use tg_cid::{Cid, Codec};
use tg_model::{Query, Scope};
use tg_oracle::{End, StoredBlock, evaluate, scoped_query};
use tg_rows::Answer;
use tg_store::MemStore;
use tg_walk::{Walk, WalkFault};

/// `chain COUNT DATA STORED`: of the file of the byte `x` below so many nodes with this data, how many blocks the evaluator
/// sends and its text, and how many blocks a walk gives and how it ends. The `x` is stored, or not where STORED is `no`.
pub fn answer(alloc: Global, given: &[Bytes], answer: &mut Answer) {
    let [count, payload, stored] = given else {
        return answer.text("a count, data, and whether the leaf is stored");
    };
    let missing = usize::from(stored.as_slice() == b"no".as_slice());
    match number_of(count.as_slice()) {
        Some(count @ 1..=1000) => answer_chain(alloc, count, payload.as_slice(), missing, answer),
        _ => answer.text("no count"),
    }
}

/// Answers of a chain of which so many blocks, from the leaf on, aren't stored.
fn answer_chain(alloc: Global, count: u64, payload: &[u8], missing: usize, answer: &mut Answer) {
    match chain(alloc, count, payload) {
        Ok(blocks) => {
            let stored = blocks.as_slice().get(missing..).unwrap_or(&[]);
            answer_file(alloc, stored, answer);
        }
        Err(_) => answer.lack(),
    }
}

/// A chain of so many nodes with this data over the raw block `x`: that one is the first, and the root the last.
fn chain(alloc: Global, count: u64, payload: &[u8]) -> Result<List<StoredBlock>, AllocError> {
    let mut cid = Cid::of_block(Codec::Raw, b"x");
    let mut blocks = List::new(alloc);
    blocks.push(under(alloc, cid, b"x")?)?;
    for _ in 0..count {
        let next = above(alloc, cid, payload)?;
        cid = next.cid;
        blocks.push(next)?;
    }
    Ok(blocks)
}

/// The node with this data whose only part is the block of this CID.
fn above(alloc: Global, cid: Cid, payload: &[u8]) -> Result<StoredBlock, AllocError> {
    let mut links = List::new(alloc);
    links.push(link(alloc, b"", cid, 1)?)?;
    node(alloc, links, payload)
}

/// Asks for the file whose root is the last block.
fn answer_file(alloc: Global, blocks: &[StoredBlock], answer: &mut Answer) {
    let Some(root) = blocks.last() else {
        return answer.lack();
    };
    match scoped_query(alloc, root.cid, &[], Scope::Entity) {
        Ok(query) => {
            say_evaluated(alloc, blocks, &query, answer);
            say_walked(alloc, blocks, &query, answer);
        }
        Err(_) => answer.lack(),
    }
}

/// Says what the evaluator gives.
fn say_evaluated(alloc: Global, blocks: &[StoredBlock], query: &Query, answer: &mut Answer) {
    match evaluate(alloc, blocks, query) {
        Ok(found) => {
            answer.number(found.sent.as_slice().len() as u64);
            answer.bytes(found.text.as_slice());
            answer.text(if found.end == End::Whole {
                "whole"
            } else {
                "otherwise"
            });
        }
        Err(_) => answer.text("not evaluated"),
    }
}

/// Says what a walk gives.
fn say_walked(alloc: Global, blocks: &[StoredBlock], query: &Query, answer: &mut Answer) {
    match (store_of(alloc, blocks), Walk::new(alloc, query)) {
        (Some(mut store), Ok(mut walk)) => {
            answer.text("walk");
            say_ended(&mut walk, &mut store, answer);
        }
        _ => answer.text("no walk"),
    }
}

/// Says how many blocks a walk gives, and how it ends.
pub fn say_ended(walk: &mut Walk, store: &mut MemStore, answer: &mut Answer) {
    for given in 0..1_000 {
        match goes_on(walk, store) {
            Ok(true) => {}
            Ok(false) => return say_count(given, "whole", answer),
            Err(WalkFault::TooDeep) => return say_count(given, "TooDeep", answer),
            Err(WalkFault::Gone { .. }) => return say_count(given, "Gone", answer),
            Err(WalkFault::BadBlock { .. }) => return say_count(given, "BadBlock", answer),
            Err(_) => return say_count(given, "otherwise", answer),
        }
    }
    say_count(1_000, "goes on", answer);
}

/// Says how many blocks a walk gave, and how it ended.
fn say_count(count: u64, end: &str, answer: &mut Answer) {
    answer.number(count);
    answer.text(end);
}
