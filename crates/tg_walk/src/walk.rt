//! A walk over the blocks of a store.
ghost use Rattle.std.specs.Prelude.{◌≡◌, ◌≤◌, ◌<◌, ◌^◌, List, [], None, Some, IfErr, IfOk, IfSome, IsSome, MatchResult, OnOk, false, true};
ghost use Rattle.tg_traversal.specs.BlocksLeft.{HasFewer, blocks_over};
ghost use Rattle.tg_traversal.specs.Left.{WantedAt, tasks_left};
ghost use Rattle.tg_walk.specs.Known.{IsNoted, KnownState};
ghost use Rattle.tg_walk.specs.Walks.{HasComeTo, HasFetched, HasGone, HasGoneOn, HasLevelsAt, HasLookedOnce};
ghost use Rattle.tg_walk.specs.Walks.{HasLookedUp, HasOpened, HasOpenedAt, HasSought, HasStepped, HasStoreCause};
ghost use Rattle.tg_walk.specs.Walks.{IsAskedFound, IsBlockOf, IsNamedFound, IsNextMet, IsNextPlace, IsOnWalk, IsOpened};
ghost use Rattle.tg_walk.specs.Walks.{IsOwnFault, IsPlaceNow};
ghost use Rattle.tg_walk.specs.Walks.{IsWantedHere, StandsFor, blocks_left, fault_of_block, fault_of_miss, max_depth};
ghost use Rattle.tg_cid.specs.declared.cid.HashKind.TheVariants.{Identity};
ghost use Rattle.tg_model.specs.Dag.{Section};
ghost use Rattle.tg_model.specs.Stores.{IsCauseOf, Store, looked_in};
ghost use Rattle.tg_model.specs.Traversal.{is_asked};

use crate::fault::WalkFault;
use crate::known::{Known, Opened};
use std::alloc::{AllocError, Global};
use std::marker::Model;
use tg_cid::{Cid, HashKind};
use tg_model::{BlockFault, Blocks, BlocksFault, Query, Scope};
use tg_traversal::{Frames, Miss, Next, Role, SharedBlock, Wanted};

/// How many blocks there are at most from the root to a block that a walk gives, both counted.
pub const MAX_DEPTH: u64 = 512;

/// A place to which a walk comes, and whether an entry was met on the way.
#[derive(Clone, Copy)]
pub(crate) struct NextPlace {
    pub(crate) wanted: Wanted,
    pub(crate) met: bool,
}

/// A walk over the blocks of a store for a query: it gives the blocks that the query asks for one by one, in order, and
/// fetches each when it gives it; each at each of its places, or once where the query asks for that.
///
/// An identity CID's block is its digest, so none is fetched, nor is it given, but for the root of a raw query. Where
/// each block is given once it holds the CIDs of those that it gave. There it goes once through what lies below a
/// directory's entry or a part of a file where no range is asked, and below a shard without any entry below it: at a
/// further place of one below which all was given, none of it too deep, nor a shard behind more than 7 slots, nothing is
/// fetched. A shard with an entry below it is gone through again at each place, since the entry stands rightly behind the
/// slots of its name alone.
///
/// Trustless Gateway specification, dag-scope, entity-bytes and order dfs.
#[derive(Drop)]
pub struct Walk {
    alloc: Global,
    frames: Frames,
    known: Known,
    refused: Option<WalkFault>,
}

impl Model for Walk {
    ghost use Rattle.tg_walk.specs.Walks.{WalkState};

    ghost Value = { WalkState };

    ghost view = { λ w. record { left = w.frames; known = w.known; refused = w.refused } };
}

impl Walk {
    /// The walk for a query, before its first block. The error is want of memory.
    pub fn new(alloc: Global, query: &Query) -> Result<Walk, AllocError>
        ensures query { IfOk result (λ walk. walk.left.query ≡ query.now) }
        ensures fresh { IfOk result (λ walk. walk.refused ≡ None) }
        ensures stands { IfOk result (λ walk. (store : Store) → StandsFor walk store []) }
    {
        tg_model_laws::store_walks();
        Ok(Walk {
            alloc,
            frames: Frames::new(alloc, query)?,
            known: Known::new(alloc),
            refused: None,
        })
    }

    /// The next block that is given with its CID, or none behind the last one.
    ///
    /// Errors, at the next place: `NotThere` and `NotFolder` where a segment of the path leads nowhere; `TooDeep` where
    /// it lies more than 512 blocks deep, stored or not; `Store` where the store gave no answer; `Gone` where it isn't
    /// stored; `BadBlock` where its block has no kind or can't stand there; and `OutOfMemory`. Each further call gives
    /// the same error and changes nothing.
    pub fn next<B: Blocks>(
        &mut self,
        blocks: &mut B,
    ) -> Result<Option<(Cid, SharedBlock)>, WalkFault>
        ensures query { self.new.left.query ≡ self.old.left.query }
        ensures stands { (store : Store) (sections : List Section) → B.blocks.stored blocks.old ≡ Some store
            → StandsFor self.old store sections
            → HasStepped result self.new store sections }
        ensures named { IsNamedFound result }
        ensures asked { IsAskedFound self.old.left.query result }
        ensures fewer { IfOk result (λ found. IfSome found
            (λ _. blocks_left self.new.left < blocks_left self.old.left)) }
        ensures looked { HasLookedUp self.old.left.query result (looked_in B.blocks blocks.old blocks.new) }
        ensures sought { self.old.refused ≡ None
            → HasSought self.old.left.query result (looked_in B.blocks blocks.old blocks.new) }
        ensures cause { self.old.refused ≡ None
            → HasStoreCause result (B.blocks.stored blocks.old) (looked_in B.blocks blocks.old blocks.new) }
        ensures counted { B.blocks.faults blocks.old ≤ B.blocks.faults blocks.new }
        ensures again { (fault : WalkFault) → self.old.refused ≡ Some fault
            → (result ≡ Err fault) × (self.new ≡ self.old) × (blocks.new ≡ blocks.old) }
        ensures refused { MatchResult result (λ _. self.new.refused ≡ None) (λ fault. self.new.refused ≡ Some fault) }
    {
        if let Some(fault) = self.refused {
            return Err(fault);
        }
        let given = next_given(self.alloc, &mut self.frames, &mut self.known, blocks);
        self.refused = given.as_ref().err().copied();
        given
    }
}

/// The next block that is given, with its CID. An identity CID that isn't asked for, and a repeat where each block is
/// given once, are passed over, and what is below them is walked, but for what is known below a repeat.
fn next_given<B: Blocks>(
    alloc: Global,
    frames: &mut Frames,
    known: &mut Known,
    blocks: &mut B,
) -> Result<Option<(Cid, SharedBlock)>, WalkFault>
    ensures query { frames.new.query ≡ frames.old.query }
    ensures stands { (store : Store) (sections : List Section) → B.blocks.stored blocks.old ≡ Some store
        → IsOnWalk max_depth frames.old known.old store sections
        → HasGoneOn result frames.new known.new store sections }
    ensures named { IsNamedFound result }
    ensures asked { IsAskedFound frames.old.query result }
    ensures fewer { IfOk result (λ found. IfSome found (λ _. blocks_left frames.new < blocks_left frames.old)) }
    ensures looked { HasSought frames.old.query result (looked_in B.blocks blocks.old blocks.new) }
    ensures cause { HasStoreCause result (B.blocks.stored blocks.old) (looked_in B.blocks blocks.old blocks.new) }
    ensures counted { B.blocks.faults blocks.old ≤ B.blocks.faults blocks.new }
{
    if frames.query().dups() {
        next_repeated(alloc, frames, blocks)
    } else {
        next_once(alloc, frames, known, blocks)
    }
}

/// The next block that is given where repeats are.
fn next_repeated<B: Blocks>(
    alloc: Global,
    frames: &mut Frames,
    blocks: &mut B,
) -> Result<Option<(Cid, SharedBlock)>, WalkFault>
    requires { frames.old.query.dups ≡ true }
    ensures query { frames.new.query ≡ frames.old.query }
    ensures stands { (store : Store) (sections : List Section) → B.blocks.stored blocks.old ≡ Some store
        → (known : KnownState) → IsOnWalk max_depth frames.old known store sections
        → HasGoneOn result frames.new known store sections }
    ensures named { IsNamedFound result }
    ensures asked { IsAskedFound frames.old.query result }
    ensures fewer { IfOk result (λ found. IfSome found (λ _. blocks_left frames.new < blocks_left frames.old)) }
    ensures looked { HasSought frames.old.query result (looked_in B.blocks blocks.old blocks.new) }
    ensures cause { HasStoreCause result (B.blocks.stored blocks.old) (looked_in B.blocks blocks.old blocks.new) }
    ensures counted { B.blocks.faults blocks.old ≤ B.blocks.faults blocks.new }
{
    tg_model_laws::store_walks();
    while let Some(found) = step(alloc, MAX_DEPTH, frames, blocks)? {
        if frames.query().asks(&found.0) {
            return Ok(Some(found));
        }
    }
    Ok(None)
}

/// The next block that is given where each is given once.
fn next_once<B: Blocks>(
    alloc: Global,
    frames: &mut Frames,
    known: &mut Known,
    blocks: &mut B,
) -> Result<Option<(Cid, SharedBlock)>, WalkFault>
    requires { frames.old.query.dups ≡ false }
    ensures query { frames.new.query ≡ frames.old.query }
    ensures stands { (store : Store) (sections : List Section) → B.blocks.stored blocks.old ≡ Some store
        → IsOnWalk max_depth frames.old known.old store sections
        → HasGoneOn result frames.new known.new store sections }
    ensures named { IsNamedFound result }
    ensures asked { IsAskedFound frames.old.query result }
    ensures fewer { IfOk result (λ found. IfSome found (λ _. blocks_left frames.new < blocks_left frames.old)) }
    ensures looked { HasSought frames.old.query result (looked_in B.blocks blocks.old blocks.new) }
    ensures cause { HasStoreCause result (B.blocks.stored blocks.old) (looked_in B.blocks blocks.old blocks.new) }
    ensures counted { B.blocks.faults blocks.old ≤ B.blocks.faults blocks.new }
{
    tg_model_laws::store_walks();
    while let Some(place) = next_unknown(frames, known)? {
        let Some(found) = step(alloc, MAX_DEPTH, frames, blocks)? else {
            return Ok(None);
        };
        let given = is_given(frames.query(), known, found.0)?;
        known.open(place)?;
        if given {
            return Ok(Some(found));
        }
    }
    Ok(None)
}

/// Whether a block is given where each is given once: the first under its CID, if it is asked for, which is known from
/// then on. The error is want of memory.
fn is_given(query: &Query, known: &mut Known, cid: Cid) -> Result<bool, AllocError>
    ensures { IfOk result (λ given. IsNoted (is_asked query.now cid) known.old cid given known.new) }
{
    if query.asks(&cid) {
        known.add(cid)
    } else {
        Ok(false)
    }
}

/// Goes on to the next place of which not all is known, or to the end: what lies below a block that was gone through
/// wholly is passed over, unless it lies too deep.
fn next_unknown(frames: &mut Frames, known: &mut Known) -> Result<Option<Opened>, WalkFault>
    requires { frames.old.query.dups ≡ false }
    ensures query { frames.new.query ≡ frames.old.query }
    ensures stands { (store : Store) (sections : List Section)
        → IsOnWalk max_depth frames.old known.old store sections
        → HasComeTo result frames.new known.new store sections }
    ensures place { IfOk result (λ found. IfSome found (λ place. IsPlaceNow frames.new known.new place)) }
    ensures fault { IfErr result IsOwnFault }
    ensures fewer { IfOk result (λ found. IfSome found (λ _. blocks_left frames.new ≤ blocks_left frames.old)) }
{
    tg_model_laws::store_walks();
    while let Some(next) = next_met(frames)? {
        let place = next.wanted;
        known.meet(next.met);
        known.leave(place.depth)?;
        let role = frames.role();
        match known_levels(frames.query(), known, &place, role) {
            Some(levels) => {
                known.deepen(place.depth + levels, role);
                frames.pass();
            }
            None => {
                return Ok(Some(Opened {
                    cid: place.cid,
                    depth: place.depth,
                    deepest: place.depth,
                    role,
                }));
            }
        }
    }
    Ok(None)
}

/// How many levels of blocks lie below a place of which all is known, and none of it too deep.
fn known_levels(query: &Query, known: &Known, place: &Wanted, role: Option<Role>) -> Option<u64>
    ensures { IfSome result (λ levels. HasLevelsAt query.now known.now place.now role levels) }
{
    if query.scope() == Scope::Block || place.depth > MAX_DEPTH {
        return None;
    }
    let levels = known.levels(&place.cid, role?)?;
    if levels <= MAX_DEPTH - place.depth {
        Some(levels)
    } else {
        None
    }
}

/// Opens the next block of what is left, and gives it with its CID.
fn step<B: Blocks>(
    alloc: Global,
    most: u64,
    frames: &mut Frames,
    blocks: &mut B,
) -> Result<Option<(Cid, SharedBlock)>, WalkFault>
    requires { most ≤ 1100 }
    ensures query { frames.new.query ≡ frames.old.query }
    ensures stands { (store : Store) (opened : List Section) → B.blocks.stored blocks.old ≡ Some store
        → HasOpened most frames.old store opened
        → HasGone result most frames.new store opened }
    ensures opened { (store : Store) (at : WantedAt) → B.blocks.stored blocks.old ≡ Some store
        → frames.old.wanted ≡ Some at
        → IfOk result (λ found. IfSome found (λ block. HasOpenedAt frames.old store at block frames.new)) }
    ensures there { (at : WantedAt) → frames.old.wanted ≡ Some at → IfOk result (λ found. IsSome found) }
    ensures named { IsNamedFound result }
    ensures fewer { IfOk result (λ found. IfSome found
        (λ _. blocks_over most (tasks_left frames.new) < blocks_over most (tasks_left frames.old))) }
    ensures looked { HasLookedOnce result (looked_in B.blocks blocks.old blocks.new) }
    ensures cause { HasStoreCause result (B.blocks.stored blocks.old) (looked_in B.blocks blocks.old blocks.new) }
    ensures counted { B.blocks.faults blocks.old ≤ B.blocks.faults blocks.new }
{
    tg_model_laws::store_walks();
    let Some(place) = next_place(frames)? else {
        return Ok(None);
    };
    if place.depth > most {
        return Err(WalkFault::TooDeep);
    }
    let Some(block) = fetch(alloc, blocks, &place.cid)? else {
        return Err(WalkFault::Gone { cid: place.cid });
    };
    open(alloc, frames, place.cid, &block)?;
    Ok(Some((place.cid, block)))
}

/// The block that a CID leads to: of an identity CID its digest, for which the store isn't asked; and else the stored
/// one, or none where no block is stored.
///
/// CID specification; Multihash, the identity hash. Errors: `Changed` and `Failed` where the store's look-up gave them,
/// so never of an identity CID; and `OutOfMemory` where no memory was found, in the store or for the block.
pub fn fetch<B: Blocks>(
    alloc: Global,
    blocks: &mut B,
    cid: &Cid,
) -> Result<Option<SharedBlock>, BlocksFault>
    ensures found { IfOk result (λ found. IsBlockOf (B.blocks.stored blocks.old) cid.now found) }
    ensures identity { cid.now.hash ≡ Identity → IfOk result (λ found. found ≡ Some cid.now.digest) }
    ensures no_memory { cid.now.hash ≡ Identity → IfErr result (λ fault. fault ≡ BlocksFault.OutOfMemory) }
    ensures looked { HasFetched cid.now result (looked_in B.blocks blocks.old blocks.new) }
    ensures cause { IfErr result (λ fault. IsCauseOf (B.blocks.stored blocks.old) cid.now (B.blocks.faults blocks.old)
        (B.blocks.faults blocks.new) fault) }
    ensures counted { B.blocks.faults blocks.old ≤ B.blocks.faults blocks.new }
{
    let block = match cid.hash_kind() {
        HashKind::Sha256 => match blocks.get(cid)? {
            Some(block) => SharedBlock::new(alloc, block),
            None => return Ok(None),
        },
        HashKind::Identity => SharedBlock::of(alloc, cid.digest()),
    };
    match block {
        Ok(block) => Ok(Some(block)),
        Err(_) => Err(BlocksFault::OutOfMemory),
    }
}

/// Goes on to the next place whose block is wanted, or to the end. Texts and entries are passed over.
pub(crate) fn next_place(frames: &mut Frames) -> Result<Option<Wanted>, WalkFault>
    ensures query { frames.new.query ≡ frames.old.query }
    ensures next { IsNextPlace frames.old result frames.new }
{
    match next_met(frames) {
        Ok(Some(next)) => Ok(Some(next.wanted)),
        Ok(None) => Ok(None),
        Err(fault) => Err(fault),
    }
}

/// Goes on to the next place whose block is wanted, or to the end. Texts and entries are passed over; of entries it tells
/// whether there were any.
fn next_met(frames: &mut Frames) -> Result<Option<NextPlace>, WalkFault>
    ensures query { frames.new.query ≡ frames.old.query }
    ensures next { IsNextMet frames.old result frames.new }
{
    let mut met = false;
    loop {
        match frames.next()? {
            Next::Nothing => return Ok(None),
            Next::Block => return Ok(frames.wanted().map(|wanted| NextPlace { wanted, met })),
            Next::Line => {}
            Next::Entry { .. } => met = true,
            Next::Missing(miss) => return Err(fault_of_miss(miss)),
        }
    }
}

/// Why a walk gives no more where a segment leads nowhere.
fn fault_of_miss(miss: Miss) -> WalkFault
    ensures { result ≡ fault_of_miss miss }
{
    match miss {
        Miss::NoEntry(segment) => WalkFault::NotThere { segment },
        Miss::NoDirectory(segment) => WalkFault::NotFolder { segment },
    }
}

/// Opens the block at the place that is wanted now. Errors: `BadBlock` and `OutOfMemory`.
pub(crate) fn open(
    alloc: Global,
    frames: &mut Frames,
    cid: Cid,
    block: &SharedBlock,
) -> Result<(), WalkFault>
    requires { IsWantedHere frames.old cid }
    ensures query { frames.new.query ≡ frames.old.query }
    ensures opened { (at : WantedAt) → frames.old.wanted ≡ Some at
        → IsOpened frames.old at block.now result frames.new }
    ensures fewer { OnOk result (HasFewer frames.old frames.new) }
{
    if !frames.is_read() {
        frames.pass();
        return Ok(());
    }
    let found = match frames.read(alloc, block.as_slice()) {
        Ok(found) => found,
        Err(fault) => return Err(fault_of_block(cid, fault)),
    };
    frames.open(found, block)?;
    Ok(())
}

/// Why a walk gives no more at a block with this fault.
fn fault_of_block(cid: Cid, fault: BlockFault) -> WalkFault
    ensures { result ≡ fault_of_block cid fault }
{
    if fault == BlockFault::OutOfMemory {
        WalkFault::OutOfMemory
    } else {
        WalkFault::BadBlock { cid, fault }
    }
}
