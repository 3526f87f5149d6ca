//! Where a path leads in a store.
ghost use Rattle.std.specs.Prelude.{◌≡◌, ◌≤◌, All, IfOk, Some, length};
ghost use Rattle.tg_walk.specs.Resolving.{HasLookedAlong, HasResolveCause, HasResolveShape, IsResolvedTo, path_query};
ghost use Rattle.tg_walk.specs.Walks.{HaveLookedUp};
ghost use Rattle.tg_traversal.specs.Left.{tasks_left};
ghost use Rattle.tg_model_laws.specs.Tasks.{start};
ghost use Rattle.tg_model.specs.EntryNames.{IsGoodName};
ghost use Rattle.tg_model.specs.Stores.{Store, looked_in};

use crate::fault::ResolveFault;
use crate::walk::{fetch, next_place, open};
use std::alloc::{AllocError, Global};
use tg_cid::Cid;
use tg_model::{Blocks, Path, Query, Scope};
use tg_traversal::{Frames, copied_path};

/// How many places a path of 128 segments has at most: 1,025 blocks, which are eight shards a segment and the root, and
/// one where the last segment leads nowhere.
const MAX_PATH_PLACES: u32 = 1026;

/// The CID of the block that a path leads to from a root, in a store that has it. A path has at most 128 segments, each
/// the name of an entry. The block of an identity CID is its digest, and isn't looked up.
///
/// Path Gateway specification, Path Resolution. Errors, at the first place where one holds: `NoRoot` where the root
/// isn't stored; `Gone` where a block below it isn't; `BadBlock` where a block of the path has no kind or can't stand
/// there; `NotThere` and `NotFolder` where a segment leads nowhere; `Store` where the store gave no answer; and
/// `OutOfMemory`.
pub fn resolve<B: Blocks>(
    alloc: Global,
    blocks: &mut B,
    root: &Cid,
    path: &Path,
) -> Result<Cid, ResolveFault>
    requires few { length path.now ≤ 128 }
    requires good { All IsGoodName path.now }
    ensures end { (store : Store) → B.blocks.stored blocks.old ≡ Some store
        → IsResolvedTo store root.now path.now result }
    ensures shape { HasResolveShape root.now path.now result }
    ensures looked { HaveLookedUp (looked_in B.blocks blocks.old blocks.new) }
    // What is looked up in a store that tells its blocks.
    ensures along { (store : Store) → B.blocks.stored blocks.old ≡ Some store
        → HasLookedAlong store root.now path.now result (looked_in B.blocks blocks.old blocks.new) }
    ensures cause { HasResolveCause result (B.blocks.stored blocks.old) (looked_in B.blocks blocks.old blocks.new) }
    ensures counted { B.blocks.faults blocks.old ≤ B.blocks.faults blocks.new }
{
    match path_frames(alloc, root, path) {
        Ok(mut frames) => follow(alloc, &mut frames, blocks, root),
        Err(_) => Err(ResolveFault::OutOfMemory),
    }
}

/// The traversal of the places of a path, before the root. The error is want of memory.
fn path_frames(alloc: Global, root: &Cid, path: &Path) -> Result<Frames, AllocError>
    requires few { length path.now ≤ 128 }
    requires good { All IsGoodName path.now }
    ensures query { IfOk result (λ frames. frames.query ≡ path_query root.now path.now) }
    ensures start { IfOk result (λ frames. tasks_left frames ≡ start (path_query root.now path.now) root.now) }
{
    let path = copied_path(alloc, path)?;
    Frames::new(alloc, &Query::car(*root, path, Scope::Block, None, true))
}

/// Follows a path from its first place, which is the root, to the block that it leads to. Errors: those of `resolve`.
fn follow<B: Blocks>(
    alloc: Global,
    frames: &mut Frames,
    blocks: &mut B,
    root: &Cid,
) -> Result<Cid, ResolveFault>
    requires few { length frames.old.query.path ≤ 128 }
    requires query { frames.old.query ≡ path_query root.now frames.old.query.path }
    requires start { tasks_left frames.old ≡ start (path_query root.now frames.old.query.path) root.now }
    ensures end { (store : Store) → B.blocks.stored blocks.old ≡ Some store
        → IsResolvedTo store root.now frames.old.query.path result }
    ensures shape { HasResolveShape root.now frames.old.query.path result }
    ensures looked { HaveLookedUp (looked_in B.blocks blocks.old blocks.new) }
    ensures along { (store : Store) → B.blocks.stored blocks.old ≡ Some store
        → HasLookedAlong store root.now frames.old.query.path result (looked_in B.blocks blocks.old blocks.new) }
    ensures cause { HasResolveCause result (B.blocks.stored blocks.old) (looked_in B.blocks blocks.old blocks.new) }
    ensures counted { B.blocks.faults blocks.old ≤ B.blocks.faults blocks.new }
{
    tg_model_laws::resolved_paths();
    let mut last = *root;
    for passed in 0..MAX_PATH_PLACES {
        let Some(place) = next_place(frames)? else {
            break;
        };
        last = place.cid;
        let Some(block) = fetch(alloc, blocks, &place.cid)? else {
            return Err(if passed == 0 {
                ResolveFault::NoRoot
            } else {
                ResolveFault::Gone { cid: place.cid }
            });
        };
        if !frames.is_read() {
            return Ok(place.cid);
        }
        open(alloc, frames, place.cid, &block)?;
    }
    Err(ResolveFault::Gone { cid: last })
}
