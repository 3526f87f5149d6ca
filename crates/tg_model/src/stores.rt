//! Where blocks are looked up and kept.
ghost use Rattle.tg_cid.specs.Limits.{max_block_len};
ghost use Rattle.std.specs.Prelude.{◌≡◌, ◌≤◌, ◌++◌, ◌∷◌, [], IfOk, IfErr, List, OnOk, OnErr, length};
ghost use Rattle.tg_cid.specs.Cid.{CidParts};
ghost use Rattle.tg_cid.specs.Names.{Names};
ghost use Rattle.tg_model.specs.Dag.{Section};
ghost use Rattle.tg_model.specs.Stores.{BlocksMeaning, IsCauseOf, IsGotten, IsToldStore, KeepMeaning, KeepingQuiet};
ghost use Rattle.tg_model.specs.Stores.{KeepingRose, Kept, KeptNothing, KeptSame, LookedUp, LookupsQuiet, kept_in};
ghost use Rattle.tg_model.specs.Stores.{looked_in};

use tg_bytes::Bytes;
use tg_cid::Cid;
use thiserror::Error;

/// Why a store gives no answer.
#[derive(Clone, Copy, Debug, PartialEq, Eq, Error)]
pub enum BlocksFault {
    /// The bytes that are stored under the CID no longer have its digest: the CID's, and theirs.
    #[error("Changed")]
    Changed { want: [u8; 32], got: [u8; 32] },
    /// The store failed and counted it.
    #[error("Failed")]
    Failed,
    /// No memory was found for the block.
    #[error("OutOfMemory")]
    OutOfMemory,
}

/// Why a store doesn't keep a block.
#[derive(Clone, Copy, Debug, PartialEq, Eq, Error)]
pub enum KeepFault {
    /// The store failed and counted it.
    #[error("Failed")]
    Failed,
    /// No memory was found for the block. The store holds what it held.
    #[error("OutOfMemory")]
    OutOfMemory,
}

/// A store in which blocks are looked up by their CIDs. A CIDv0 has what the CIDv1 with its codec and digest has.
///
/// Its meaning is one record: `stored` is the block under each CID, or `None` where that isn't told; `faults` counts
/// the calls that failed and stands still at 2 ^ 64 - 1; `looked` relates a value, what it became, and the CIDs that
/// were looked up in it meanwhile, in order: it holds the facts that the kind of store keeps while it is read. A
/// look-up may change the value, as where a memory of blocks fills.
pub trait Blocks {
    ghost blocks: { BlocksMeaning Self };

    /// The block that is stored under the CID, which names it, and none where no block is.
    ///
    /// Errors: `Changed` where the stored bytes no longer have the digest, which never comes of a store that tells what
    /// it holds; `Failed` where the store failed and counted it; `OutOfMemory`.
    fn get(&mut self, cid: &Cid) -> Result<Option<Bytes>, BlocksFault>
        ensures gotten { IfOk result (λ found. IsGotten (blocks.stored self.old) cid.now found) }
        ensures looked { OnOk result (LookedUp (cid.now ∷ []) (looked_in blocks self.old self.new)) }
        ensures quiet { OnOk result (LookupsQuiet (looked_in blocks self.old self.new)) }
        ensures cause { IfErr result (λ fault. IsCauseOf (blocks.stored self.old) cid.now (blocks.faults self.old)
            (blocks.faults self.new) fault) }

        // A failed call looks nothing up.
        ensures err_looked { OnErr result (LookedUp [] (looked_in blocks self.old self.new)) }
        ensures err_counted { OnErr result (blocks.faults self.old ≤ blocks.faults self.new) };

    // What is told is a store: its blocks are named by their CIDs and no larger than a block may be.
    ghost told: { (s : Self) → IsToldStore (blocks.stored s) };

    // Nothing looked up relates a value to itself, and one step after another is a step.
    ghost rests: { (s : Self) → blocks.looked s s [] };

    ghost joins: { (a b c : Self) (u v : List CidParts) → blocks.looked a b u → blocks.looked b c v
        → blocks.looked a c (u ++ v) };
}

/// A store that keeps blocks.
///
/// Its meaning is one record: `stored` and `faults` are as those of `Blocks`; `kept` relates a value, what it became,
/// and the sections, each a CID with its block, that were kept in it meanwhile, one after another: it holds the facts
/// that the kind of store knows of what it keeps.
pub trait Keep {
    ghost keeper: { KeepMeaning Self };

    /// Keeps the block under the CID, which names it, where none is kept yet; a block has at most 2,097,152 bytes.
    ///
    /// Errors: `Failed` where the store failed and counted it, with which it tells what it told or nothing any more;
    /// `OutOfMemory`, with which it holds what it held.
    fn keep(&mut self, cid: Cid, block: &[u8]) -> Result<(), KeepFault>
        requires named { Names cid block.now }
        requires small { length block.now ≤ max_block_len }
        ensures kept { OnOk result (Kept (record { cid = cid; block = block.now }
            ∷ []) (kept_in keeper self.old self.new)) }
        ensures quiet { OnOk result (KeepingQuiet (kept_in keeper self.old self.new)) }

        // A failed call keeps nothing.
        ensures failed { result ≡ Err KeepFault.Failed → KeepingRose (kept_in keeper self.old self.new) }
        ensures memory { result ≡ Err KeepFault.OutOfMemory
            → KeptSame (kept_in keeper self.old self.new) × KeepingQuiet (kept_in keeper self.old self.new) }
        ensures err_kept { OnErr result (KeptNothing (kept_in keeper self.old self.new)) }
        ensures err_counted { OnErr result (keeper.faults self.old ≤ keeper.faults self.new) };

    // What is told is a store: its blocks are named by their CIDs and no larger than a block may be.
    ghost told: { (s : Self) → IsToldStore (keeper.stored s) };

    // Nothing kept relates a value to itself, and one step after another is a step.
    ghost rests: { (s : Self) → keeper.kept s s [] };

    ghost joins: { (a b c : Self) (u v : List Section) → keeper.kept a b u → keeper.kept b c v
        → keeper.kept a c (u ++ v) };
}

/// A keeper that drops each block: for a client whose sections nobody keeps. It never fails, and doesn't tell what it was
/// handed.
#[derive(Drop)]
pub struct DropKeep {}

impl DropKeep {
    /// A keeper that drops each block.
    pub fn new() -> DropKeep {
        DropKeep {}
    }
}

impl Keep for DropKeep {
    ghost use Rattle.std.specs.Prelude.{None, ⊤};

    ghost keeper = { record { stored = λ _. None; faults = λ _. 0; kept = λ _ _ _. ⊤ } };

    ghost told = { λ _. tt };

    ghost rests = { λ _. tt };

    ghost joins = { λ _ _ _ _ _ _ _. tt };

    fn keep(&mut self, _: Cid, _: &[u8]) -> Result<(), KeepFault> {
        Ok(())
    }
}
