//! The answer to a query over a store, written as a CAR.
ghost use Rattle.std.specs.Prelude.{◌≡◌, ◌≤◌, [], List, None, Some, length};
ghost use Rattle.tg_cid.specs.Limits.{max_block_len};
ghost use Rattle.tg_car.specs.Writing.{HeaderOf};
ghost use Rattle.tg_export.specs.Cars.{CarEnds, HasCarCause, HasOwnMemory, HasResolved, IsOtherwiseWhole};
ghost use Rattle.tg_export.specs.Given.{CarGiven, SectionGiven, SectionsGiven, giving_in};
ghost use Rattle.tg_model.specs.Dag.{Section};
ghost use Rattle.tg_model.specs.PathWalk.{TraversalEnd, whole};
ghost use Rattle.tg_model.specs.Stores.{Store, looked_in};
ghost use Rattle.tg_streams.specs.Streams.{into};
ghost use Rattle.tg_model_laws.specs.StoreWalks.{section_of};
ghost use Rattle.tg_walk.specs.Walks.{HasEnded, HaveLookedUp, StandsFor, max_depth};

use crate::fault::ExportFault;
use std::alloc::Global;
use tg_car::{header, section_head};
use tg_cid::Cid;
use tg_model::{Blocks, Query};
use tg_streams::{Gathering, Sink};
use tg_walk::{Walk, resolve};

/// Writes the CAR of a query over a store: its header, with the query's root, and then the section of each block that
/// the query asks for, in order, as the walk gives it: each of them, or each once, as the query asks. A block is looked
/// up at each of its places, but for an identity CID's, and none is kept. The header, the sections' heads and small
/// blocks are gathered in a room of 32 KiB, over look-ups too, and go out together; a larger block goes out straight.
/// Whatever ends the CAR, all that the walk gave before it is put, or out failed.
///
/// The path is resolved first, which looks up its blocks once more. CARv1 specification; Trustless Gateway
/// specification, CAR responses. Errors: `Resolve` where the path doesn't lead to a stored block, with which nothing
/// was written; `Walk` where the walk ends before the last block, behind the sections up to there; `SinkFault` where
/// out failed, which then has a front of the CAR, also where the walk had ended before the last block and out failed in
/// what was gathered; and `OutOfMemory`.
pub fn write_car<B: Blocks, S: Sink>(
    alloc: Global,
    query: &Query,
    blocks: &mut B,
    out: &mut S,
) -> Result<(), ExportFault>
    ensures ends { CarEnds query.now (B.blocks.stored blocks.old) (into S.sink out.old out.new) result }
    ensures looked { HaveLookedUp (looked_in B.blocks blocks.old blocks.new) }
    ensures cause { HasCarCause (B.blocks.stored blocks.old) (looked_in B.blocks blocks.old blocks.new) result }
    ensures memory { HasOwnMemory result }
    // Where the store has the whole traversal, none of it too deep, it is written, but for counted faults and want of
    // memory.
    ensures answered { (store : Store) (sections : List Section) → B.blocks.stored blocks.old ≡ Some store
        → HasEnded query.now store max_depth sections whole → IsOtherwiseWhole result }
{
    resolve(alloc, blocks, &query.root(), query.path())?;
    let header = header(alloc, &query.root())?;
    let mut walk = Walk::new(alloc, query)?;
    let mut gathering = Gathering::new(alloc)?;
    let end = give_all(header.as_slice(), &mut walk, blocks, &mut gathering, out);
    // Out is told of first: without this some of what it was given isn't there.
    gathering.put_out(out)?;
    end
}

/// Gives the header, and the section of each block that a walk gives, from its first one on.
///
/// CARv1 specification. Errors: those of `give_sections`.
fn give_all<B: Blocks, S: Sink>(
    header: &[u8],
    walk: &mut Walk,
    blocks: &mut B,
    gathering: &mut Gathering,
    out: &mut S,
) -> Result<(), ExportFault>
    requires header { HeaderOf walk.old.left.query.root header.now }
    requires resolved { (store : Store) → B.blocks.stored blocks.old ≡ Some store
        → HasResolved store walk.old.left.query }
    requires fresh { walk.old.refused ≡ None }
    requires stands { (store : Store) → StandsFor walk.old store [] }
    ensures given { CarGiven walk.old.left.query (B.blocks.stored blocks.old)
        (giving_in gathering.old gathering.new (into S.sink out.old out.new)) result }
    ensures looked { HaveLookedUp (looked_in B.blocks blocks.old blocks.new) }
    ensures cause { HasCarCause (B.blocks.stored blocks.old) (looked_in B.blocks blocks.old blocks.new) result }
    ensures memory { HasOwnMemory result }
{
    tg_model_laws::store_walks();
    gathering.give(out, header)?;
    give_sections(walk, blocks, gathering, out)
}

/// Gives the section of each block that a walk gives, from its first one on.
///
/// CARv1 specification, Data. Errors: `Walk` where the walk ends before the last block; `SinkFault`; and `OutOfMemory`.
fn give_sections<B: Blocks, S: Sink>(
    walk: &mut Walk,
    blocks: &mut B,
    gathering: &mut Gathering,
    out: &mut S,
) -> Result<(), ExportFault>
    requires fresh { walk.old.refused ≡ None }
    requires stands { (store : Store) → StandsFor walk.old store [] }
    ensures given { SectionsGiven walk.old.left.query (B.blocks.stored blocks.old)
        (giving_in gathering.old gathering.new (into S.sink out.old out.new)) result }
    ensures looked { HaveLookedUp (looked_in B.blocks blocks.old blocks.new) }
    ensures cause { HasCarCause (B.blocks.stored blocks.old) (looked_in B.blocks blocks.old blocks.new) result }
    ensures memory { HasOwnMemory result }
{
    tg_model_laws::store_walks();
    while let Some((cid, block)) = walk.next(blocks)? {
        give_section(cid, block.as_slice(), gathering, out)?;
    }
    Ok(())
}

/// Gives the section of a block: the length, the CID and the block. The error is a fault of out.
///
/// CARv1 specification, Data.
fn give_section<S: Sink>(
    cid: Cid,
    block: &[u8],
    gathering: &mut Gathering,
    out: &mut S,
) -> Result<(), ExportFault>
    requires small { length block.now ≤ max_block_len }
    ensures { SectionGiven (section_of cid block.now)
        (giving_in gathering.old gathering.new (into S.sink out.old out.new)) result }
{
    let (head, size) = section_head(&cid, block.len() as u64);
    gathering.give(out, &head[..size])?;
    gathering.give(out, block)?;
    Ok(())
}
