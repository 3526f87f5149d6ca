//! Sections that are fed to a verifier, and how it ends.
use crate::asking::Given;
use crate::dags::Dag;
use crate::ends::{VerifyEnd, say_end, say_put};
use std::alloc::{AllocError, Global};
use tg_bytes::{Bytes, List};
use tg_cid::Cid;
use tg_model::{Limits, Query};
use tg_oracle::StoredBlock;
use tg_rows::Answer;
use tg_streams::MemSink;
use tg_verify::verify_all;

/// Sections: their CIDs and their blocks.
pub type Sections = List<(Cid, Bytes)>;

/// How a verifier ended over sections, and what it put.
#[derive(Drop)]
pub struct Done {
    pub end: VerifyEnd,
    pub out: MemSink,
}

impl Done {
    /// Whether it ended so, and put just this.
    pub fn is(&self, end: VerifyEnd, text: &[u8]) -> bool {
        self.end == end && self.out.held() == text
    }
}

/// A sink of whose puts those with these numbers fail. One put moves four bytes at most.
fn sink_of(alloc: Global, fails: &[u64]) -> Result<MemSink, AllocError> {
    let fails = List::from(Vec::from_slice(alloc, fails)?);
    Ok(MemSink::new(alloc, 4, fails))
}

/// How a verifier of the query with these limits ends over the sections, whose puts with these numbers fail. There is
/// nothing for want of memory.
pub fn fed(
    alloc: Global,
    query: &Query,
    limits: Limits,
    sections: &Sections,
    fails: &[u64],
) -> Option<Done> {
    match sink_of(alloc, fails) {
        Ok(mut out) => {
            let end = verify_all(alloc, query, limits, sections, &mut out);
            Some(Done { end, out })
        }
        Err(_) => None,
    }
}

/// Adds a section with this block. Whether there is memory.
pub fn is_added(alloc: Global, sections: &mut Sections, cid: Cid, block: &[u8]) -> bool {
    match Bytes::of(alloc, block) {
        Ok(block) => sections.push((cid, block)).is_ok(),
        Err(_) => false,
    }
}

/// Adds a copy of the block with this number. Whether there is one, and memory.
pub fn is_pushed(
    alloc: Global,
    sections: &mut Sections,
    blocks: &[StoredBlock],
    number: usize,
) -> bool {
    match blocks.get(number) {
        Some(stored) => is_added(alloc, sections, stored.cid, stored.block.as_slice()),
        None => false,
    }
}

/// The blocks with these numbers as sections.
pub fn sections_of(alloc: Global, blocks: &[StoredBlock], numbers: &[u64]) -> Option<Sections> {
    let mut sections = List::new(alloc);
    for number in numbers {
        if !is_pushed(
            alloc,
            &mut sections,
            blocks,
            (*number).min(1 << 30) as usize,
        ) {
            return None;
        }
    }
    Some(sections)
}

/// Says how a verifier ends over the blocks that come, and what it puts.
pub fn answer(alloc: Global, dag: &Dag, given: &Given, answer: &mut Answer) {
    match done_over(alloc, dag, given) {
        Some(done) => {
            say_end(dag, done.end, answer);
            say_put(done.out.held(), answer);
        }
        None => answer.text("no query, or no block"),
    }
}

/// How a verifier ends over the blocks that come.
fn done_over(alloc: Global, dag: &Dag, given: &Given) -> Option<Done> {
    let query = given.query(dag.root())?;
    let sections = sections_of(alloc, dag.blocks.as_slice(), given.takes.as_slice())?;
    fed(
        alloc,
        &query,
        given.limits,
        &sections,
        given.fails.as_slice(),
    )
}
