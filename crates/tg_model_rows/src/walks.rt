//! Walks over a store, beside the evaluator.
use crate::dags::Dags;
use crate::queries::Case;
use std::alloc::Global;
use tg_cid::{Cid, HashKind, MAX_BLOCK_LEN};
use tg_model::{Keep, Query, Scope};
use tg_oracle::{End, Evaluation, Sent, StoredBlock, evaluate};
use tg_rows::Answer;
use tg_store::MemStore;
use tg_traversal::{SharedBlock, copied_path};
use tg_walk::{ResolveFault, Walk, WalkFault, resolve};

/// A store that holds the blocks, or none where a CID doesn't name its block.
pub fn store_of(alloc: Global, blocks: &[StoredBlock]) -> Option<MemStore> {
    let mut store = MemStore::new(alloc);
    for stored in blocks {
        if !is_kept(&mut store, stored.cid, stored.block.as_slice()) {
            return None;
        }
    }
    Some(store)
}

/// Keeps a block, if its CID names it.
fn is_kept(store: &mut MemStore, cid: Cid, block: &[u8]) -> bool {
    block.len() <= MAX_BLOCK_LEN && cid.holds(block) && store.keep(cid, block).is_ok()
}

/// Whether a walk over the stored blocks gives what the evaluator sends, and ends as the evaluation does, and the
/// path leads where it does.
pub fn walks_so(alloc: Global, blocks: &[StoredBlock], case: &Case) -> bool {
    match store_of(alloc, blocks) {
        Some(mut store) => {
            walks_over(alloc, blocks, case, &mut store) && leads_so(alloc, blocks, case, &mut store)
        }
        None => false,
    }
}

fn walks_over(alloc: Global, blocks: &[StoredBlock], case: &Case, store: &mut MemStore) -> bool {
    match Walk::new(alloc, &case.query) {
        Ok(mut walk) => {
            gives_each(&mut walk, store, blocks, case.found.sent.as_slice())
                && ends_so(&mut walk, store, &case.found.end)
        }
        Err(_) => false,
    }
}

/// Whether a walk gives each block that the evaluator sends.
fn gives_each(
    walk: &mut Walk,
    store: &mut MemStore,
    blocks: &[StoredBlock],
    sent: &[Sent],
) -> bool {
    for section in sent {
        if !gives(walk, store, blocks, section) {
            return false;
        }
    }
    true
}

/// Whether a walk gives the block that is stored with this index next, under this CID.
fn gives(walk: &mut Walk, store: &mut MemStore, blocks: &[StoredBlock], sent: &Sent) -> bool {
    match next(walk, store) {
        Ok(Some((cid, block))) => cid == sent.cid && is_block(blocks, sent.index, block.as_slice()),
        _ => false,
    }
}

fn is_block(blocks: &[StoredBlock], index: usize, block: &[u8]) -> bool {
    match blocks.get(index) {
        Some(stored) => stored.block.as_slice() == block,
        None => false,
    }
}

/// What a walk gives next.
fn next(walk: &mut Walk, store: &mut MemStore) -> Result<Option<(Cid, SharedBlock)>, WalkFault> {
    walk.next(store)
}

/// Whether a walk gives a further block.
pub fn goes_on(walk: &mut Walk, store: &mut MemStore) -> Result<bool, WalkFault> {
    match next(walk, store) {
        Ok(found) => Ok(found.is_some()),
        Err(fault) => Err(fault),
    }
}

/// Whether a walk ends as an evaluation, and does so again.
fn ends_so(walk: &mut Walk, store: &mut MemStore, end: &End) -> bool {
    let want = walk_end(end);
    goes_on(walk, store) == want && goes_on(walk, store) == want
}

/// Whether the path of a query leads to the block which the evaluator tells for it, or ends as its evaluation does.
fn leads_so(alloc: Global, blocks: &[StoredBlock], case: &Case, store: &mut MemStore) -> bool {
    let Some(block) = block_query(alloc, &case.query) else {
        return false;
    };
    match evaluate(alloc, blocks, &block) {
        Ok(found) => leads_as(&found, resolved(alloc, store, &case.query)),
        Err(_) => false,
    }
}

/// The query for the block at the path of a query.
fn block_query(alloc: Global, query: &Query) -> Option<Query> {
    match copied_path(alloc, query.path()) {
        Ok(path) => Some(Query::car(query.root(), path, Scope::Block, None, true)),
        Err(_) => None,
    }
}

/// Where the path of a query leads.
fn resolved(alloc: Global, store: &mut MemStore, query: &Query) -> Result<Cid, ResolveFault> {
    resolve(alloc, store, &query.root(), query.path())
}

/// Whether a path leads where the evaluator says.
fn leads_as(found: &Evaluation, resolved: Result<Cid, ResolveFault>) -> bool {
    match resolved {
        Ok(cid) => found.end == End::Whole && is_terminal(found, cid),
        Err(fault) => refusal_at(&found.end) == Some(fault),
    }
}

/// Whether the block of the CID is sent last, or, of an identity CID, is the text.
fn is_terminal(found: &Evaluation, cid: Cid) -> bool {
    match cid.hash_kind() {
        HashKind::Sha256 => last_cid(found) == Some(cid),
        HashKind::Identity => cid.holds(found.text.as_slice()),
    }
}

/// The CID of the block that is sent last, or none.
fn last_cid(found: &Evaluation) -> Option<Cid> {
    match found.sent.as_slice().last() {
        Some(last) => Some(last.cid),
        None => None,
    }
}

/// Why a path leads to no stored block, where it doesn't.
fn refusal_at(end: &End) -> Option<ResolveFault> {
    match *end {
        End::Whole => None,
        End::NotThere { at } => Some(ResolveFault::NotThere {
            segment: segment_at(at),
        }),
        End::NotFolder { at } => Some(ResolveFault::NotFolder {
            segment: segment_at(at),
        }),
        End::Gone { depth: 1, .. } => Some(ResolveFault::NoRoot),
        End::Gone { cid, .. } => Some(ResolveFault::Gone { cid }),
        End::BadBlock { cid, fault, .. } => Some(ResolveFault::BadBlock { cid, fault }),
    }
}

/// The end of a walk: no further block, or a refusal.
fn walk_end(end: &End) -> Result<bool, WalkFault> {
    match *end {
        End::Whole => Ok(false),
        End::NotThere { at } => Err(WalkFault::NotThere {
            segment: segment_at(at),
        }),
        End::NotFolder { at } => Err(WalkFault::NotFolder {
            segment: segment_at(at),
        }),
        End::Gone { cid, .. } => Err(WalkFault::Gone { cid }),
        End::BadBlock { cid, fault, .. } => Err(WalkFault::BadBlock { cid, fault }),
    }
}

/// The number of a segment.
fn segment_at(at: u64) -> u32 {
    u32::try_from(at).unwrap_or(u32::MAX)
}

/// Says the blocks that a walk gives, of which some may not be stored, up to its end.
pub fn say_walked(dags: &Dags, query: &Query, answer: &mut Answer) {
    match (
        store_of(dags.alloc(), dags.stored()),
        Walk::new(dags.alloc(), query),
    ) {
        (Some(mut store), Ok(mut walk)) => say_given(dags, &mut walk, &mut store, answer),
        _ => answer.text("no walk"),
    }
}

fn say_given(dags: &Dags, walk: &mut Walk, store: &mut MemStore, answer: &mut Answer) {
    for _ in 0..1_000 {
        match next(walk, store) {
            Ok(Some((cid, block))) => say_block(dags, cid, block.as_slice(), answer),
            Ok(None) => return say_again(walk, store, answer),
            Err(_) => return answer.text("a refusal"),
        }
    }
    answer.text("no end");
}

/// Says the block of a CID.
fn say_block(dags: &Dags, cid: Cid, block: &[u8], answer: &mut Answer) {
    answer.bytes(dags.name(cid));
    if !cid.holds(block) {
        answer.text("has other bytes");
    }
}

/// Says where a walk that has ended goes on.
fn say_again(walk: &mut Walk, store: &mut MemStore, answer: &mut Answer) {
    if goes_on(walk, store) != Ok(false) {
        answer.text("goes on");
    }
}
