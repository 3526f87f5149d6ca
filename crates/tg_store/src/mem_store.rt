//! A store in memory.
ghost use Rattle.std.specs.Prelude.{◌≡◌, [], Some, refl};
ghost use Rattle.std.proofs.Common.{◌∙◌};
ghost use Rattle.tg_store.specs.Entries.{HoldsMore, store_of};
ghost use Rattle.tg_store.specs.EntryLaws.{holds_joins, holds_rests, is_store};

use crate::key::Key;
use crate::reading::copy_of;
use indexmap::IndexMap;
use std::alloc::Global;
use std::marker::Model;
use tg_bytes::Bytes;
use tg_cid::Cid;
use tg_model::{Blocks, BlocksFault, Keep, KeepFault};

/// A store in memory, which contracts see as its blocks by their keys, in the order in which they were kept. It always
/// tells what it holds, and its count of faults is 0.
#[derive(Drop)]
pub struct MemStore {
    alloc: Global,
    blocks: IndexMap<Key, Bytes>,
}

impl Model for MemStore {
    ghost use Rattle.std.specs.Prelude.{ℕ, List};
    ghost use Rattle.tg_store.specs.Entries.{AreGood};
    ghost use Rattle.tg_store.specs.declared.key.Key.{Key as Keys};

    ghost Value = { List (Keys × List ℕ) };

    ghost view = { λ s. s.blocks.entries };

    ghost invariant = { λ s. AreGood (λ block. block) s.blocks.entries };
}

impl MemStore {
    /// An empty store. It takes no memory until a block is kept.
    pub fn new(alloc: Global) -> MemStore
        ensures { result ≡ [] }
    {
        MemStore {
            alloc,
            blocks: IndexMap::new(alloc),
        }
    }
}

impl Blocks for MemStore {
    ghost blocks = { record {
      stored = λ s. Some (store_of (λ block. block) s);
      faults = λ _. 0;
      looked = λ a b _. b ≡ a;
    } };

    ghost told = { λ s. is_store (λ block. block) s };

    ghost rests = { λ s. refl };

    ghost joins = { λ a b c u v h g. g ∙ h };

    /// A copy of the block, which of an identity CID is its digest. It fails for want of memory alone.
    fn get(&mut self, cid: &Cid) -> Result<Option<Bytes>, BlocksFault> {
        let Some(key) = Key::of(cid) else {
            return copy_of(self.alloc, cid.digest());
        };
        let Some(block) = self.blocks.get(&key) else {
            return Ok(None);
        };
        copy_of(self.alloc, block.as_slice())
    }
}

impl Keep for MemStore {
    ghost keeper = { record {
      stored = ⟦<MemStore as Blocks>⟧.blocks.stored;
      faults = ⟦<MemStore as Blocks>⟧.blocks.faults;
      kept = λ a b sections. HoldsMore a b sections;
    } };

    ghost told = { λ s. is_store (λ block. block) s };

    ghost rests = { λ s. holds_rests s };

    ghost joins = { λ a b c u v. holds_joins a b c u v };

    /// Of an identity CID, whose block is its digest, nothing is kept. It fails for want of memory alone.
    fn keep(&mut self, cid: Cid, block: &[u8]) -> Result<(), KeepFault> {
        let Some(key) = Key::of(&cid) else {
            return Ok(());
        };
        if self.blocks.contains_key(&key) {
            return Ok(());
        }
        let Ok(block) = Bytes::of(self.alloc, block) else {
            return Err(KeepFault::OutOfMemory);
        };
        match self.blocks.insert(key, block) {
            Ok(_) => Ok(()),
            Err(_) => Err(KeepFault::OutOfMemory),
        }
    }
}
