//! A verifier that is handed sections one by one.
use crate::asking::Given;
use crate::dags::Dag;
use crate::ends::{say_number, say_put, say_refusal};
use std::alloc::{AllocError, Global};
use tg_bytes::{Bytes, List};
use tg_model::{Limits, Query};
use tg_oracle::StoredBlock;
use tg_rows::Answer;
use tg_streams::MemSink;
use tg_verify::{Progress, Refusal, Terminal, Verifier};

/// A verifier, and the sink into which it puts.
#[derive(Drop)]
struct Session {
    verifier: Verifier,
    out: MemSink,
}

impl Session {
    /// A verifier of a query, that was handed nothing and isn't started.
    fn new(alloc: Global, query: &Query) -> Result<Session, AllocError> {
        Ok(Session {
            verifier: Verifier::new(alloc, query, Limits::standard())?,
            out: MemSink::new(alloc, 4, List::new(alloc)),
        })
    }

    /// Hands over the block with this number. There is no answer where there is none, or for want of memory.
    fn hand(
        &mut self,
        alloc: Global,
        blocks: &[StoredBlock],
        number: u64,
    ) -> Option<Result<Progress, Refusal>> {
        let stored = blocks.get(number.min(1 << 30) as usize)?;
        match Bytes::of(alloc, stored.block.as_slice()) {
            Ok(block) => Some(self.verifier.section(stored.cid, block, &mut self.out)),
            Err(_) => None,
        }
    }

    /// Whether the end and each of the blocks give this refusal, none is wanted, and what was put stays.
    fn refuses(&mut self, alloc: Global, blocks: &[StoredBlock], refusal: &Refusal) -> bool {
        let put = self.out.held().len();
        for number in 0..blocks.len() as u64 {
            if !self.refuses_end(refusal) || !self.refuses_block(alloc, blocks, number, refusal) {
                return false;
            }
        }
        self.refuses_end(refusal) && self.verifier.want().is_none() && self.out.held().len() == put
    }

    /// Whether the end gives this refusal.
    fn refuses_end(&mut self, refusal: &Refusal) -> bool {
        match self.verifier.finish() {
            Ok(()) => false,
            Err(fault) => fault == *refusal,
        }
    }

    /// Whether the block with this number gives it.
    fn refuses_block(
        &mut self,
        alloc: Global,
        blocks: &[StoredBlock],
        number: u64,
        refusal: &Refusal,
    ) -> bool {
        match self.hand(alloc, blocks, number) {
            Some(Err(fault)) => fault == *refusal,
            _ => false,
        }
    }
}

/// Says how far a verifier is.
fn say_progress(progress: Progress, answer: &mut Answer) {
    answer.text(match progress {
        Progress::More => "more",
        Progress::Done => "done",
    });
}

/// Says what a verifier answers to the start and to each of the blocks that come; up to a refusal, or else which block is
/// wanted then, how many came, and what is put, and how it ends. A refusal stays.
pub fn answer(alloc: Global, dag: &Dag, given: &Given, answer: &mut Answer) {
    let Some(query) = given.query(dag.root()) else {
        return answer.text("no query");
    };
    let Ok(mut session) = Session::new(alloc, &query) else {
        return answer.lack();
    };
    match session.verifier.start(&mut session.out) {
        Ok(progress) => {
            say_progress(progress, answer);
            answer_blocks(alloc, dag, given, &mut session, answer);
        }
        Err(refusal) => say_refused(alloc, dag, &mut session, refusal, answer),
    }
}

/// Says what it answers to the blocks, and to the end behind them.
fn answer_blocks(
    alloc: Global,
    dag: &Dag,
    given: &Given,
    session: &mut Session,
    answer: &mut Answer,
) {
    for number in given.takes.as_slice() {
        match session.hand(alloc, dag.blocks.as_slice(), *number) {
            Some(Ok(progress)) => say_progress(progress, answer),
            Some(Err(refusal)) => return say_refused(alloc, dag, session, refusal, answer),
            None => return answer.text("no block"),
        }
    }
    say_state(dag, session, answer);
    match session.verifier.finish() {
        Ok(()) => answer.text("ended"),
        Err(refusal) => say_refused(alloc, dag, session, refusal, answer),
    }
}

/// Says which block is wanted, how many sections came, and what is put.
fn say_state(dag: &Dag, session: &Session, answer: &mut Answer) {
    match session.verifier.want() {
        Some(want) => say_number(dag, want, answer),
        None => answer.text("none"),
    }
    answer.number(session.verifier.sections());
    say_put(session.out.held(), answer);
}

/// Says a refusal, and what is put, where the refusal stays whatever comes.
fn say_refused(
    alloc: Global,
    dag: &Dag,
    session: &mut Session,
    refusal: Refusal,
    answer: &mut Answer,
) {
    if !session.refuses(alloc, dag.blocks.as_slice(), &refusal) {
        return answer.text("the refusal doesn't stay");
    }
    say_refusal(dag, refusal, answer);
    say_put(session.out.held(), answer);
}

/// Says what a verifier tells of where the path leads: behind the start, behind each of the blocks that come, whatever it answers to
/// them, and behind the end.
pub fn answer_terminals(alloc: Global, dag: &Dag, given: &Given, answer: &mut Answer) {
    let Some(query) = given.query(dag.root()) else {
        return answer.text("no query");
    };
    let Ok(mut session) = Session::new(alloc, &query) else {
        return answer.lack();
    };
    let _ = session.verifier.start(&mut session.out);
    say_terminal(&session.verifier, answer);
    for number in given.takes.as_slice() {
        match session.hand(alloc, dag.blocks.as_slice(), *number) {
            Some(_) => say_terminal(&session.verifier, answer),
            None => return answer.text("no block"),
        }
    }
    let _ = session.verifier.finish();
    say_terminal(&session.verifier, answer);
}

/// Says what a verifier tells of where the path leads.
fn say_terminal(verifier: &Verifier, answer: &mut Answer) {
    answer.text(match verifier.terminal() {
        None => "none",
        Some(Terminal::File) => "file",
        Some(Terminal::Directory) => "directory",
        Some(Terminal::Symlink) => "symlink",
    });
}
