//! A store with copies of the blocks that were looked up last.
ghost use Rattle.std.specs.NonZero.{non_zero_usize_get};
ghost use Rattle.std.specs.Prelude.{◌≡◌, [], IfErr, IfOk, IfSome, MatchResult, Some};
ghost use Rattle.tg_lanes.specs.Caches.{cached_blocks};
ghost use Rattle.tg_lanes.specs.CacheLaws.{sought_joins, sought_rests};
ghost use Rattle.tg_model.specs.Stores.{IsGotten};
ghost use Rattle.tg_model.specs.declared.stores.BlocksFault.{BlocksFault};

use lru::LruCache;
use std::alloc::Global;
use std::marker::Model;
use std::num::NonZeroUsize;
use tg_bytes::Bytes;
use tg_cid::Cid;
use tg_model::{Blocks, BlocksFault};

/// A store, and copies of the blocks that were looked up in it last, at most so many. What is looked up is sought among
/// the copies, then in the store; it gives what the store gives, and counts what the store counts.
///
/// A copy is named by its CID, and is the stored block where the store tells its blocks. A CIDv0 has the copy of its
/// version 1 form. Each copy has at most 2,097,152 bytes.
#[derive(Drop)]
pub struct Cached<B: Blocks> {
    alloc: Global,
    blocks: B,
    kept: LruCache<Cid, Bytes>,
}

impl<B: Blocks> Model for Cached<B> {
    ghost use Rattle.tg_lanes.specs.Caches.{AreStored, CachedState};

    ghost Value = { CachedState B };

    ghost view = { λ c. record { blocks = c.blocks; kept = c.kept.entries; room = c.kept.cap } };

    ghost invariant = { λ c. AreStored (B.blocks.stored c.blocks) c.kept.entries };
}

impl<B: Blocks> Cached<B> {
    /// A store of which no block is kept yet, and at most so many will be. The error is want of memory, with which the
    /// store is given back.
    pub fn new(alloc: Global, blocks: B, room: NonZeroUsize) -> Result<Cached<B>, B>
        ensures made { IfOk result (λ cached. cached ≡ record
            { blocks = blocks; kept = []; room = non_zero_usize_get room }) }
        ensures refused { IfErr result (λ back. back ≡ blocks) }
    {
        match LruCache::new(alloc, room) {
            Ok(kept) => Ok(Cached {
                alloc,
                blocks,
                kept,
            }),
            Err(_) => Err(blocks),
        }
    }

    /// The store, as the look-ups left it. It takes no memory.
    pub fn into_blocks(self) -> B
        ensures { result ≡ self.blocks }
    {
        self.blocks
    }

    /// A copy of the copy that is kept under the CID, which is the last to go then. It fails for want of memory alone.
    fn recall(&mut self, cid: &Cid) -> Result<Option<Bytes>, BlocksFault>
        ensures found { IfOk result (λ found. IfSome found (λ block. IsGotten (B.blocks.stored self.old.blocks)
            cid.now (Some block))) }
        ensures memory { IfErr result (λ fault. fault ≡ BlocksFault.OutOfMemory) }
        ensures blocks { self.new.blocks ≡ self.old.blocks }
        ensures room { self.new.room ≡ self.old.room }
    {
        tg_cid::laws::equality();
        let form = cid.to_v1();
        if !self.kept.promote(&form) {
            return Ok(None);
        }
        match self.kept.peek(&form) {
            Some(block) => copy_of(self.alloc, block.as_slice()),
            None => Ok(None),
        }
    }

    /// Keeps a copy of a block that the store gave for the CID, in place of the one that was sought longest ago where
    /// there are as many as may be. Where no memory is found for it none is kept.
    fn remember(&mut self, cid: &Cid, block: &[u8])
        requires { IsGotten (B.blocks.stored self.old.blocks) cid.now (Some block.now) }
        ensures blocks { self.new.blocks ≡ self.old.blocks }
        ensures room { self.new.room ≡ self.old.room }
    {
        tg_cid::laws::equality();
        if let Ok(copy) = Bytes::of(self.alloc, block) {
            let _ = self.kept.put(cid.to_v1(), copy);
        }
    }
}

impl<B: Blocks> Blocks for Cached<B> {
    ghost blocks = { cached_blocks B.blocks };

    ghost told = { λ c. B.told c.blocks };

    ghost rests = { λ c. sought_rests B.blocks B.rests c };

    ghost joins = { λ a b c u v. sought_joins B.blocks B.joins a b c u v };

    /// A copy of the copy that is kept, or the block that the store gives, of which a copy is kept then.
    fn get(&mut self, cid: &Cid) -> Result<Option<Bytes>, BlocksFault> {
        if let Some(block) = self.recall(cid)? {
            return Ok(Some(block));
        }
        let found = self.blocks.get(cid)?;
        if let Some(block) = &found {
            self.remember(cid, block.as_slice());
        }
        Ok(found)
    }
}

/// A copy of the bytes, as a block that was found. The error is want of memory.
fn copy_of(alloc: Global, bytes: &[u8]) -> Result<Option<Bytes>, BlocksFault>
    ensures { MatchResult result (λ found. found ≡ Some bytes.now) (λ fault. fault ≡ BlocksFault.OutOfMemory) }
{
    match Bytes::of(alloc, bytes) {
        Ok(copy) => Ok(Some(copy)),
        Err(_) => Err(BlocksFault::OutOfMemory),
    }
}
