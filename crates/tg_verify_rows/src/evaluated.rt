//! The verifier beside the evaluator of queries: it takes what the evaluator sends, section by section, puts the text
//! of the evaluation, and ends as the evaluation does.
use crate::asking::Given;
use crate::dags::Dag;
use crate::ends::VerifyEnd;
use crate::verified::{Done, Sections, fed, is_added, is_pushed};
use std::alloc::Global;
use tg_bytes::List;
use tg_cid::Cid;
use tg_model::{Limits, Query};
use tg_oracle::{End, Evaluation, StoredBlock, evaluate};
use tg_rows::Answer;
use tg_verify::Refusal;

/// Stored blocks, a query of them, and its evaluation.
#[derive(Clone, Copy)]
pub struct Case<'a> {
    pub stored: &'a [StoredBlock],
    pub query: &'a Query,
    pub found: &'a Evaluation,
}

/// How a verifier ends that took all that the evaluator sends.
fn end_of(end: &End) -> VerifyEnd {
    match *end {
        End::Whole => Ok(None),
        End::Gone { cid, .. } | End::BadBlock { cid, .. } => Ok(Some(cid)),
        End::NotThere { at } => Err(Refusal::NotThere {
            segment: segment_at(at),
        }),
        End::NotFolder { at } => Err(Refusal::NotFolder {
            segment: segment_at(at),
        }),
    }
}

/// The number of a segment.
fn segment_at(at: u64) -> u32 {
    u32::try_from(at).unwrap_or(u32::MAX)
}

/// The first blocks that the evaluator sends, so many, as sections.
pub fn front_of(alloc: Global, case: Case<'_>, count: usize) -> Option<Sections> {
    let mut sections = List::new(alloc);
    for sent in case.found.sent.as_slice().get(..count)? {
        if !is_pushed(alloc, &mut sections, case.stored, sent.index) {
            return None;
        }
    }
    Some(sections)
}

/// Whether the verifier takes the first blocks that the evaluator sends, so many, wants the next one, and has put a
/// front of the text; and where these are all, ends as the evaluation does with its text.
fn takes_front(alloc: Global, case: Case<'_>, count: usize) -> bool {
    match front_of(alloc, case, count) {
        Some(sections) => takes(
            case,
            &fed(alloc, case.query, Limits::standard(), &sections, &[]),
            count,
        ),
        None => false,
    }
}

/// Whether it ended so.
fn takes(case: Case<'_>, done: &Option<Done>, count: usize) -> bool {
    let text = case.found.text.as_slice();
    match (done, case.found.sent.as_slice().get(count)) {
        (Some(done), Some(next)) => {
            done.end == Ok(Some(next.cid)) && text.starts_with(done.out.held())
        }
        (Some(done), None) => done.is(end_of(&case.found.end), text),
        (None, _) => false,
    }
}

/// Whether the verifier refuses the block that the evaluator can't read, or that can't stand there, with its fault,
/// behind those that the evaluator sends.
fn refuses_bad(alloc: Global, case: Case<'_>) -> bool {
    match case.found.end {
        End::BadBlock { cid, fault, .. } => {
            refuses_so(alloc, case, cid, Refusal::BadBlock { cid, fault })
        }
        _ => true,
    }
}

/// Whether the verifier refuses the block under this CID so.
fn refuses_so(alloc: Global, case: Case<'_>, cid: Cid, refusal: Refusal) -> bool {
    let Some(mut sections) = front_of(alloc, case, case.found.sent.as_slice().len()) else {
        return false;
    };
    for stored in case.stored {
        if stored.cid == cid && !is_added(alloc, &mut sections, cid, stored.block.as_slice()) {
            return false;
        }
    }
    is_refused(
        alloc,
        case.query,
        &sections,
        refusal,
        case.found.text.as_slice(),
    )
}

/// Whether a verifier refuses one of the sections so, and has put just this.
pub fn is_refused(
    alloc: Global,
    query: &Query,
    sections: &Sections,
    refusal: Refusal,
    text: &[u8],
) -> bool {
    match fed(alloc, query, Limits::standard(), sections, &[]) {
        Some(done) => done.is(Err(refusal), text),
        None => false,
    }
}

/// Says whether the verifier does as the evaluator says, behind each of the sections that it sends.
pub fn answer(alloc: Global, dag: &Dag, given: &Given, answer: &mut Answer) {
    let Some(query) = given.query(dag.root()) else {
        return answer.text("no query");
    };
    match evaluate(alloc, dag.stored.as_slice(), &query) {
        Ok(found) => answer_case(
            alloc,
            Case {
                stored: dag.stored.as_slice(),
                query: &query,
                found: &found,
            },
            answer,
        ),
        Err(_) => answer.text("no evaluation"),
    }
}

/// Says whether it does in this case.
fn answer_case(alloc: Global, case: Case<'_>, answer: &mut Answer) {
    for count in 0..=case.found.sent.as_slice().len() {
        if !takes_front(alloc, case, count) {
            answer.text("otherwise behind so many sections:");
            return answer.number(count as u64);
        }
    }
    answer.text(if refuses_bad(alloc, case) {
        "as evaluated"
    } else {
        "the bad block isn't refused so"
    });
}
