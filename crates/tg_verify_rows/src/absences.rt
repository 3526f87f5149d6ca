//! Sections that show where a path leads, handed to a verifier whose text goes nowhere.
use crate::asking::Given;
use crate::dags::Dag;
use crate::ends::{VerifyEnd, say_end};
use crate::verified::{Sections, sections_of};
use std::alloc::Global;
use tg_rows::Answer;
use tg_streams::DropSink;
use tg_verify::Verifier;

/// Hands the sections to a verifier, and ends it where all are taken.
fn handed(verifier: &mut Verifier, sections: Sections) -> VerifyEnd {
    let mut out = DropSink::new();
    verifier.start(&mut out)?;
    for (cid, block) in sections.into_vec() {
        verifier.section(cid, block, &mut out)?;
    }
    Ok(verifier.want())
}

/// How a verifier of a path ends.
fn shown(alloc: Global, dag: &Dag, given: &Given) -> Option<VerifyEnd> {
    let query = given.query(dag.root())?;
    let sections = sections_of(alloc, dag.blocks.as_slice(), given.takes.as_slice())?;
    let mut verifier = Verifier::absence(alloc, &query, given.limits).ok()?;
    Some(handed(&mut verifier, sections))
}

/// Says how a verifier of the path ends.
pub fn answer(alloc: Global, dag: &Dag, given: &Given, answer: &mut Answer) {
    match shown(alloc, dag, given) {
        Some(end) => say_end(dag, end, answer),
        None => answer.text("no query, or no block"),
    }
}
