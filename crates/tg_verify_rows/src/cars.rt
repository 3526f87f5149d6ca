//! CARs, how a verifier ends over one, and what it puts, within limits that are just not passed and just passed.
use crate::asking::{Given, limits_with};
use crate::dags::Dag;
use crate::ends::{say_put, say_refusal};
use std::alloc::{AllocError, Global};
use tg_bytes::{Bytes, List};
use tg_car::{header, section_head};
use tg_cid::{Cid, MAX_BLOCK_LEN};
use tg_client::{ClientFault, verify_car};
use tg_model::{LimitKind, Limits, Query};
use tg_oracle::StoredBlock;
use tg_rows::Answer;
use tg_streams::{MemSink, MemSource};
use tg_verify::Refusal;

/// A query, and the CAR that a peer sends for it.
#[derive(Drop)]
struct Sent {
    query: Query,
    car: Bytes,
}

/// How a verifier ends.
type CarEnd = Result<(), ClientFault>;

/// Adds a section. Whether there was memory, and the block is no larger than a CAR's may be.
pub fn is_section_added(car: &mut Bytes, cid: &Cid, block: &[u8]) -> bool {
    if block.len() > MAX_BLOCK_LEN {
        return false;
    }
    let (head, size) = section_head(cid, block.len() as u64);
    car.push_all(head.get(..size).unwrap_or(b"")).is_ok() && car.push_all(block).is_ok()
}

/// The CAR of this root whose sections are the blocks with these numbers; none where memory is wanted, or a block.
fn car_of(alloc: Global, root: &Cid, blocks: &[StoredBlock], numbers: &[u64]) -> Option<Bytes> {
    let Ok(mut car) = header(alloc, root) else {
        return None;
    };
    for number in numbers {
        let stored = blocks.get((*number).min(1 << 30) as usize)?;
        if !is_section_added(&mut car, &stored.cid, stored.block.as_slice()) {
            return None;
        }
    }
    Some(car)
}

/// What a peer sends of the blocks that come.
fn sent_of(alloc: Global, dag: &Dag, given: &Given) -> Option<Sent> {
    let root = dag.root();
    let query = given.query(root)?;
    let car = car_of(alloc, &root, dag.blocks.as_slice(), given.takes.as_slice())?;
    Some(Sent { query, car })
}

/// An input of these bytes.
fn input_of(alloc: Global, bytes: &[u8]) -> Result<MemSource, AllocError> {
    Ok(MemSource::new(Bytes::of(alloc, bytes)?, 4096, List::new(alloc)))
}

/// A sink that holds what is put.
pub fn sink_of(alloc: Global) -> MemSink {
    MemSink::new(alloc, 65_536, List::new(alloc))
}

/// How a verifier with these limits ends over a CAR, and what it puts.
fn verified(alloc: Global, sent: &Sent, limits: Limits) -> Option<(CarEnd, MemSink)> {
    let Ok(mut input) = input_of(alloc, sent.car.as_slice()) else {
        return None;
    };
    let mut out = sink_of(alloc);
    let end = verify_car(alloc, &sent.query, limits, &mut input, &mut out);
    Some((end, out))
}

/// Says how a verifier ends.
fn say_end(dag: &Dag, end: CarEnd, answer: &mut Answer) {
    match end {
        Ok(()) => answer.text("done"),
        Err(ClientFault::Refused(refusal)) => say_refusal(dag, refusal, answer),
        Err(fault) => answer.shown_as(&fault),
    }
}

/// Says how a verifier ends over a CAR within these limits, and what it puts.
fn answer_within(alloc: Global, dag: &Dag, sent: &Sent, limits: Limits, answer: &mut Answer) {
    match verified(alloc, sent, limits) {
        Some((end, out)) => {
            say_end(dag, end, answer);
            say_put(out.held(), answer);
        }
        None => answer.lack(),
    }
}

/// Says how a verifier ends over a CAR of the blocks that come, and what it puts.
pub fn answer(alloc: Global, dag: &Dag, given: &Given, answer: &mut Answer) {
    match sent_of(alloc, dag, given) {
        Some(sent) => answer_within(alloc, dag, &sent, given.limits, answer),
        None => answer.text("no query, or no block"),
    }
}

/// Says how it ends, and what it puts, where the limit is its number, and where it is one less.
pub fn answer_counted(alloc: Global, dag: &Dag, given: &Given, answer: &mut Answer) {
    let (Some(sent), Some((kind, number))) = (sent_of(alloc, dag, given), given.counted) else {
        return answer.text("no query, no block or no limit");
    };
    let less = limits_with(given.limits, kind, number.saturating_sub(1));
    answer_within(alloc, dag, &sent, given.limits, answer);
    answer_within(alloc, dag, &sent, less, answer);
}

/// Says what is put where any number of the CAR's bytes may be received, at none and at each number at which that is more:
/// below all of them the limit is passed.
pub fn answer_received(alloc: Global, dag: &Dag, given: &Given, answer: &mut Answer) {
    let Some(sent) = sent_of(alloc, dag, given) else {
        return answer.text("no query, or no block");
    };
    let size = sent.car.as_slice().len() as u64;
    let mut last: Option<usize> = None;
    for number in 0..=size {
        let limits = limits_with(given.limits, LimitKind::Received, number);
        let Some((end, out)) = verified(alloc, &sent, limits) else {
            return answer.lack();
        };
        if !ends_at(end, number, size) {
            answer.text("otherwise behind");
            return answer.number(number);
        }
        if last != Some(out.held().len()) {
            answer.number(number);
            say_put(out.held(), answer);
        }
        last = Some(out.held().len());
    }
}

/// Whether a verifier ends so over a CAR of this size of which so many bytes may be received.
fn ends_at(end: CarEnd, number: u64, size: u64) -> bool {
    if number >= size {
        return end == Ok(());
    }
    let kind = LimitKind::Received;
    end == Err(ClientFault::Refused(Refusal::Limit { kind, number }))
}
