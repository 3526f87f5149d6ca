//! The walk of `step` along a path, block by block.
use crate::queries::Case;
use std::alloc::Global;
use tg_bytes::Bytes;
use tg_cid::Cid;
use tg_model::{Step, reads, step};
use tg_oracle::{End, StoredBlock};

/// A place on a path: a block, its level of shards, and the number of the segment that is looked up in it.
#[derive(Clone, Copy)]
struct Spot {
    cid: Cid,
    level: u8,
    at: usize,
}

/// Where a step leads.
#[derive(Clone, Copy)]
enum Next {
    On(Spot),
    Whole,
    NotThere,
    NotFolder,
    Lost,
}

/// Whether the steps along a query's path end as its evaluation. That a block is gone or bad is no end of them.
pub fn steps_end_so(alloc: Global, blocks: &[StoredBlock], case: &Case) -> bool {
    let path = case.query.path().as_slice();
    let mut spot = Spot {
        cid: case.query.root(),
        level: 0,
        at: 0,
    };
    for _ in 0..1_100 {
        match next_from(alloc, blocks, path, &spot) {
            Next::On(next) => spot = next,
            end => return is_end(end, spot.at as u64, case.found.end),
        }
    }
    false
}

/// Whether the steps end so at the segment with this number.
fn is_end(end: Next, number: u64, ended: End) -> bool {
    match ended {
        End::Whole => matches!(end, Next::Whole),
        End::NotThere { at } => matches!(end, Next::NotThere) && at == number,
        End::NotFolder { at } => matches!(end, Next::NotFolder) && at == number,
        End::Gone { .. } | End::BadBlock { .. } => true,
    }
}

/// Where the step from a place leads.
fn next_from(alloc: Global, blocks: &[StoredBlock], path: &[Bytes], spot: &Spot) -> Next {
    let Some(name) = path.get(spot.at) else {
        return Next::Whole;
    };
    match block_under(blocks, spot.cid) {
        Some(block) => stepped(alloc, block, name.as_slice(), spot),
        None => Next::Lost,
    }
}

/// The block that is stored under a CID, in whatever version.
fn block_under(blocks: &[StoredBlock], cid: Cid) -> Option<&[u8]> {
    for stored in blocks {
        if stored.cid.to_v1() == cid.to_v1() {
            return Some(stored.block.as_slice());
        }
    }
    None
}

/// Where a segment leads from a block.
fn stepped(alloc: Global, block: &[u8], name: &[u8], spot: &Spot) -> Next {
    match step_of(alloc, block, name, spot) {
        Some(step) => next_of(step, spot),
        None => Next::Lost,
    }
}

/// Where a step from a place leads.
fn next_of(step: Step, spot: &Spot) -> Next {
    match step {
        Step::Found(cid) => on(cid, 0, spot.at.saturating_add(1)),
        Step::Down(cid) => on(cid, spot.level.saturating_add(1), spot.at),
        Step::Absent => Next::NotThere,
        Step::NotFolder => Next::NotFolder,
    }
}

fn on(cid: Cid, level: u8, at: usize) -> Next {
    Next::On(Spot { cid, level, at })
}

/// The step from a block. There is none where the block has no kind, or lies below the eighth level.
fn step_of(alloc: Global, block: &[u8], name: &[u8], spot: &Spot) -> Option<Step> {
    if spot.level > 7 {
        return None;
    }
    match reads(alloc, &spot.cid, block) {
        Ok(kind) => Some(step(&kind, spot.level, name)),
        Err(_) => None,
    }
}
