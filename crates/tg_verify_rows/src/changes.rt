//! Each change of one byte of one section: the verifier refuses that section, and has put what the evaluator gives
//! where its block isn't stored.
use crate::asking::Given;
use crate::dags::{Dag, cid_or};
use crate::evaluated::{Case, front_of, is_refused};
use crate::verified::is_added;
use std::alloc::{AllocError, Global};
use tg_bytes::{Bytes, List};
use tg_cid::Cid;
use tg_model::Query;
use tg_oracle::{End, Evaluation, StoredBlock, evaluate};
use tg_rows::Answer;
use tg_verify::Refusal;

/// Changes these bits of the byte at a place.
fn change(bytes: &mut [u8], at: usize, bits: u8) {
    if let Some(byte) = bytes.get_mut(at) {
        *byte ^= bits;
    }
}

/// The bytes of which one differs by these bits.
fn changed(alloc: Global, bytes: &[u8], at: usize, bits: u8) -> Result<Vec<u8>, AllocError> {
    let mut bytes = Vec::from_slice(alloc, bytes)?;
    change(bytes.as_mut_slice(), at, bits);
    Ok(bytes)
}

/// The CID of which one byte differs by these bits; the same, where that is none any more.
fn changed_cid(alloc: Global, cid: Cid, at: usize, bits: u8) -> Result<Cid, AllocError> {
    let bytes = cid.to_bytes(alloc)?;
    let bytes = changed(alloc, bytes.as_slice(), at, bits)?;
    Ok(cid_or(cid, bytes.as_slice()))
}

/// The blocks but those under a CID.
fn without(
    alloc: Global,
    blocks: &[StoredBlock],
    cid: Cid,
) -> Result<List<StoredBlock>, AllocError> {
    let mut others = List::new(alloc);
    for stored in blocks {
        if stored.cid != cid {
            let block = Bytes::of(alloc, stored.block.as_slice())?;
            others.push(StoredBlock {
                cid: stored.cid,
                block,
            })?;
        }
    }
    Ok(others)
}

/// What the evaluator gives where the block under a CID isn't stored, and is wanted.
fn evaluated_without(alloc: Global, case: Case<'_>, cid: Cid) -> Option<Evaluation> {
    let Ok(others) = without(alloc, case.stored, cid) else {
        return None;
    };
    match evaluate(alloc, others.as_slice(), case.query) {
        Ok(found) if ends_at(&found.end, &cid) => Some(found),
        _ => None,
    }
}

/// Whether an evaluation ended where the block under this CID is wanted.
fn ends_at(end: &End, cid: &Cid) -> bool {
    match end {
        End::Gone { cid: gone, .. } => gone == cid,
        _ => false,
    }
}

/// A section that changes: its number among those that are sent, its CID and its block, and what is put for those
/// before it.
#[derive(Clone, Copy)]
struct Place<'a> {
    case: Case<'a>,
    count: usize,
    want: Cid,
    block: &'a [u8],
    text: &'a [u8],
}

/// Whether the section is refused where one byte of it, of the CID's and then of the block's, differs by these bits.
fn refuses(alloc: Global, place: &Place<'_>, at: usize, bits: u8) -> bool {
    if at < 36 {
        refuses_cid(alloc, place, at, bits)
    } else {
        refuses_block(alloc, place, at - 36, bits)
    }
}

/// Whether it is refused under a changed CID, where that is one.
fn refuses_cid(alloc: Global, place: &Place<'_>, at: usize, bits: u8) -> bool {
    match changed_cid(alloc, place.want, at, bits) {
        Ok(got) => got == place.want || refuses_section(alloc, place, got, place.block),
        Err(_) => false,
    }
}

/// Whether it is refused with a changed block.
fn refuses_block(alloc: Global, place: &Place<'_>, at: usize, bits: u8) -> bool {
    match changed(alloc, place.block, at, bits) {
        Ok(block) => refuses_section(alloc, place, place.want, block.as_slice()),
        Err(_) => false,
    }
}

/// Whether this section is refused in that place.
fn refuses_section(alloc: Global, place: &Place<'_>, got: Cid, block: &[u8]) -> bool {
    let Some(mut sections) = front_of(alloc, place.case, place.count) else {
        return false;
    };
    is_added(alloc, &mut sections, got, block)
        && is_refused(
            alloc,
            place.case.query,
            &sections,
            refusal_of(place.want, got, block),
            place.text,
        )
}

/// Why a section is refused in the place of the one that is wanted.
fn refusal_of(want: Cid, got: Cid, block: &[u8]) -> Refusal {
    if got.holds(block) {
        Refusal::WrongBlock { want, got }
    } else {
        Refusal::BadDigest { cid: got }
    }
}

/// Whether the section is refused for each change of one byte.
fn refuses_bytes(alloc: Global, place: &Place<'_>) -> bool {
    for at in 0..place.block.len().saturating_add(36) {
        for bits in 1..=255u8 {
            if !refuses(alloc, place, at, bits) {
                return false;
            }
        }
    }
    true
}

/// Whether the section with this number is refused for each change of one byte.
fn refuses_number(alloc: Global, case: Case<'_>, count: usize) -> bool {
    match case.found.sent.as_slice().get(count) {
        Some(section) => refuses_stored(alloc, case, count, section.cid, section.index),
        None => false,
    }
}

/// Whether the section with this CID is, whose block is the stored one with this index.
fn refuses_stored(alloc: Global, case: Case<'_>, count: usize, want: Cid, index: usize) -> bool {
    match (case.stored.get(index), evaluated_without(alloc, case, want)) {
        (Some(stored), Some(before)) => refuses_bytes(
            alloc,
            &Place {
                case,
                count,
                want,
                block: stored.block.as_slice(),
                text: before.text.as_slice(),
            },
        ),
        _ => false,
    }
}

/// Says how many sections are sent, where each change of one byte of one of them is refused.
pub fn answer(alloc: Global, dag: &Dag, given: &Given, answer: &mut Answer) {
    match given.query(dag.root()) {
        Some(query) => answer_query(alloc, dag.stored.as_slice(), &query, answer),
        None => answer.text("no query"),
    }
}

/// Says it of this query.
fn answer_query(alloc: Global, stored: &[StoredBlock], query: &Query, answer: &mut Answer) {
    match evaluate(alloc, stored, query) {
        Ok(found) => answer_case(
            alloc,
            Case {
                stored,
                query,
                found: &found,
            },
            answer,
        ),
        Err(_) => answer.text("no evaluation"),
    }
}

/// Says it of this case.
fn answer_case(alloc: Global, case: Case<'_>, answer: &mut Answer) {
    let count = case.found.sent.as_slice().len();
    for number in 0..count {
        if !refuses_number(alloc, case, number) {
            answer.text("a change isn't refused of the section");
            return answer.number(number as u64);
        }
    }
    answer.number(count as u64);
}
