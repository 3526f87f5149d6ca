//! What generic code knows of any store that keeps blocks, and what a concrete store still knows behind it.
ghost use Rattle.std.specs.Prelude.{◌≡◌, ◌≤◌, ◌++◌, ◌∷◌, [], length, map, Option, Some, None, IfOk, IfSome, OnOk};
ghost use Rattle.std.specs.Prelude.{OnErr, unwrap_or, refl, List, ◌⊎◌};
ghost use Rattle.tg_cid.specs.Cid.{CidParts};
ghost use Rattle.tg_cid.specs.Limits.{max_block_len};
ghost use Rattle.tg_cid.specs.Names.{Names};
ghost use Rattle.tg_faults.specs.Faults.{Rose};
ghost use Rattle.tg_model.specs.Stores.{IsNamedBlock, Kept, LookedUp, as_v1, kept_in, looked_in};
ghost use Rattle.tg_block_log.specs.BlockLogLaws.{searched_logs};
ghost use Rattle.tg_block_log.specs.LoggedBlocks.{section_of};

use crate::block_log::BlockLog;
use std::alloc::Global;
use std::rt::HostRuntime;
use tg_bytes::Bytes;
use tg_cid::{Cid, Codec, MAX_BLOCK_LEN};
use tg_known_bytes::{DIRECTORY, DIRECTORY_CID, DIRECTORY_V0, HELLO};
use tg_model::{Blocks, BlocksFault, Keep, KeepFault};

/// A store in which blocks are kept and looked up. A look-up keeps nothing.
trait KeptBlocks: Blocks + Keep {
    ghost one_store: { (s : Self) → Self.Keep.keeper.stored s ≡ Self.Blocks.blocks.stored s };

    ghost one_count: { (s : Self) → Self.Keep.keeper.faults s ≡ Self.Blocks.blocks.faults s };

    ghost looks: { (a b : Self) (cids : List CidParts) → Self.Blocks.blocks.looked a b cids
        → Self.Keep.keeper.kept a b [] };
}

impl KeptBlocks for BlockLog {
    ghost one_store = { λ s. refl };

    ghost one_count = { λ s. refl };

    ghost looks = { λ a b _. searched_logs a.number b.number (map section_of a.blocks) (map section_of b.blocks) };
}

/// Keeps the block and looks it up. A store that tells what it holds gives what stood under the CID before, and this
/// block where nothing did; any other gives a block that the CID names, or none.
fn keep_then_get<S: KeptBlocks>(
    store: &mut S,
    cid: Cid,
    block: &[u8],
) -> Result<Option<Bytes>, BlocksFault>
    requires named { Names cid block.now }
    requires small { length block.now ≤ max_block_len }
    ensures found { IfOk result (λ found. IfSome (S.Blocks.blocks.stored store.old)
        (λ held. found ≡ Some (unwrap_or (held cid) block.now))) }
    ensures first { IfOk result (λ found. IfSome (S.Blocks.blocks.stored store.old) (λ held. held cid ≡ None
        → found ≡ Some block.now)) }
    ensures any { IfOk result (λ found. IsNamedBlock cid found) }
    ensures kept { OnOk result (Kept (record { cid = cid; block = block.now }
        ∷ []) (kept_in S.Keep.keeper store.old store.new)) }
    ensures quiet { OnOk result (S.Blocks.blocks.faults store.new ≡ S.Blocks.blocks.faults store.old) }
    ensures failed { result ≡ Err BlocksFault.Failed
        → Rose (S.Blocks.blocks.faults store.old) (S.Blocks.blocks.faults store.new) }
    ensures counted { OnErr result (S.Blocks.blocks.faults store.old ≤ S.Blocks.blocks.faults store.new) }
    // A failed call kept the section or nothing.
    ensures err_kept { OnErr result (S.Keep.keeper.kept store.old store.new []
        ⊎ S.Keep.keeper.kept store.old store.new (record { cid = cid; block = block.now } ∷ [])) }
{
    match store.keep(cid, block) {
        Ok(()) => store.get(&cid),
        Err(KeepFault::Failed) => Err(BlocksFault::Failed),
        Err(KeepFault::OutOfMemory) => Err(BlocksFault::OutOfMemory),
    }
}

/// Looks up two CIDs, and says whether both have a block.
fn has_both<B: Blocks>(blocks: &mut B, a: &Cid, b: &Cid) -> Result<bool, BlocksFault>
    ensures { OnOk result (LookedUp (a.now ∷ b.now ∷ []) (looked_in B.blocks blocks.old blocks.new)) }
{
    let first = blocks.get(a)?.is_some();
    let second = blocks.get(b)?.is_some();
    Ok(first && second)
}

/// What a log knows behind generic code: its number is the one that it was made with, and behind what it held stands
/// the one section that was kept; and a look-up leaves it as it was.
fn log_one(log: &mut BlockLog, cid: Cid, block: &[u8]) -> Result<bool, BlocksFault>
    requires named { Names cid block.now }
    requires small { length block.now ≤ max_block_len }
    ensures number { OnOk result (log.new.number ≡ log.old.number) }
    ensures logged { OnOk result (map section_of log.new.blocks
        ≡ map section_of log.old.blocks ++ record { cid = as_v1 cid; block = block.now } ∷ []) }
{
    keep_then_get(log, cid, block)?;
    has_both(log, &cid, &cid)
}

/// Keeps the block under a CID, and says whether it is found there. None is kept under a CID that doesn't name it.
fn is_found(store: &mut BlockLog, cid: Cid, block: &[u8]) -> bool {
    if block.len() > MAX_BLOCK_LEN || !cid.holds(block) {
        return false;
    }
    match keep_then_get(store, cid, block) {
        Ok(Some(found)) => found.as_slice() == block,
        _ => false,
    }
}

/// Whether the store has this block under the CID.
fn holds(store: &mut BlockLog, cid: &Cid, block: &[u8]) -> bool {
    match store.get(cid) {
        Ok(Some(found)) => found.as_slice() == block,
        _ => false,
    }
}

/// Whether the store has no block under the CID.
fn lacks(store: &mut BlockLog, cid: &Cid) -> bool {
    matches!(store.get(cid), Ok(None))
}

/// Whether a further block isn't there before it is kept, and then beside the one under these CIDs.
fn stands_beside(store: &mut BlockLog, first: &Cid, second: &Cid) -> bool {
    let other = Cid::of_block(Codec::Raw, HELLO);
    matches!(has_both(store, first, &other), Ok(false))
        && matches!(log_one(store, other, HELLO), Ok(true))
        && matches!(has_both(store, second, &other), Ok(true))
        && holds(store, &other, HELLO)
}

/// Whether what is kept under the first CID is found under the second, and not under the same digest with another
/// codec, and what is kept again is found as it was.
fn are_twins(alloc: Global, first: Cid, second: Cid) -> bool {
    let raw = Cid::of_block(Codec::Raw, DIRECTORY);
    let mut store = BlockLog::new(alloc, 7);
    lacks(&mut store, &first)
        && is_found(&mut store, first, DIRECTORY)
        && is_found(&mut store, second, DIRECTORY)
        && lacks(&mut store, &raw)
        && stands_beside(&mut store, &first, &second)
}

/// Whether these are the bytes of two CIDs, of which the one stands for the other.
fn are_cids_of_twins(alloc: Global, first: &[u8], second: &[u8]) -> bool {
    match (Cid::from_bytes(first), Cid::from_bytes(second)) {
        (Ok(first), Ok(second)) => first != second && are_twins(alloc, first, second),
        _ => false,
    }
}

// The CID under which the directory is kept first, and the one under which it is found and kept again.
const TWINS: &[(&[u8], &[u8])] = &[(DIRECTORY_CID, DIRECTORY_V0), (DIRECTORY_V0, DIRECTORY_CID)];

#[test]
fn blocks_are_kept_and_found(rt: HostRuntime) {
    for (first, second) in TWINS {
        assert!(rt; are_cids_of_twins(rt.alloc(), first, second), "{first:?}");
    }
}
