//! A file whose chunks are linked while they come.
ghost use Rattle.std.specs.Prelude.{◌≡◌, ◌<◌, ◌≤◌, ◌+◌, ◌++◌, ◌∷◌, ℕ, List, [], IfErr, IfOk, None, OnErr, OnOk, Some};
ghost use Rattle.std.specs.Prelude.{length};
ghost use Rattle.tg_cid.specs.Limits.{max_block_len};
ghost use Rattle.tg_node_writing.specs.BlockOrder.{AreBehindLinks};
ghost use Rattle.tg_node_writing.specs.Keeping.{IsCountedBy, Keeps, StopsAfter};
ghost use Rattle.tg_filedag.specs.MadeFile.{IsMadeFile};
ghost use Rattle.tg_filedag.specs.State.{IsFrontFor, StandsFor};
ghost use Rattle.tg_filedag.specs.Trees.{bottom_up};
ghost use Rattle.tg_model.specs.Dag.{Dag, Section};
ghost use Rattle.tg_model.specs.Stores.{KeepingQuiet, kept_in};

use crate::laws::kept_in_order;
use crate::linking::{link_all, link_leaf};
use crate::subtree::Subtree;
use std::alloc::Global;
use std::marker::Model;
use tg_model::{Keep, KeepFault, Made};

/// A file that is linked while its chunks come. It holds fewer than `width` links of each level, and no chunk.
///
/// UnixFS specification, File. Each chunk is kept as a raw leaf when it comes, and each node as soon as it has `width`
/// links.
#[derive(Drop)]
pub struct Balanced {
    alloc: Global,
    width: usize,
    leaves: u64,
    bytes: u64,
    refused: Option<KeepFault>,
    subtrees: Vec<Subtree>,
}

impl Model for Balanced {
    ghost use Rattle.tg_filedag.specs.State.{BalancedState, IsBalanced};

    ghost Value = { BalancedState };

    ghost view = { λ b. record {
      width = b.width;
      leaves = b.leaves;
      bytes = b.bytes;
      refused = b.refused;
      subtrees = b.subtrees.items;
    } };

    ghost invariant = { λ b. IsBalanced (record {
      width = b.width;
      leaves = b.leaves;
      bytes = b.bytes;
      refused = b.refused;
      subtrees = b.subtrees.items;
    }) };
}

impl Balanced {
    /// A file without a chunk, whose nodes have at most `width` links, from 2 to 4,096. It takes no memory until a
    /// chunk comes.
    pub fn new(alloc: Global, width: u32) -> Balanced
        requires low { 2 ≤ width }
        requires high { width ≤ 4096 }
        ensures width { result.width ≡ width }
        ensures stands { StandsFor result [] [] }
    {
        Balanced {
            alloc,
            width: width as usize,
            leaves: 0,
            bytes: 0,
            refused: None,
            subtrees: Vec::new(alloc),
        }
    }

    /// Keeps the chunk as a raw leaf, and each node that is full with it. A chunk has at most 2,097,152 bytes, and all
    /// together at most 2^40; they are at most 2^40 in number.
    ///
    /// Errors: those of the store, and want of memory. Each further call gives the same error and changes nothing.
    pub fn leaf<K: Keep>(&mut self, chunk: &[u8], keep: &mut K) -> Result<(), KeepFault>
        requires small { length chunk.now ≤ max_block_len }
        requires bytes { self.old.bytes + length chunk.now ≤ 1099511627776 }
        requires leaves { self.old.leaves + 1 ≤ 1099511627776 }
        ensures width { self.new.width ≡ self.old.width }
        ensures counted { OnOk result ((self.new.leaves ≡ self.old.leaves + 1)
            × (self.new.bytes ≡ self.old.bytes + length chunk.now)) }
        ensures stands { OnOk result ((chunks : List (List ℕ)) (kept : List Section) → StandsFor self.old chunks kept
            → (sections : List Section) × Keeps sections (kept_in K.keeper keep.old keep.new)
            × StandsFor self.new (chunks ++ chunk.now ∷ []) (kept ++ sections)) }
        ensures quiet { OnOk result (KeepingQuiet (kept_in K.keeper keep.old keep.new)) }
        ensures cause { self.old.refused ≡ None
            → IfErr result (λ fault. IsCountedBy fault (K.keeper.faults keep.old) (K.keeper.faults keep.new)) }
        // What was kept before a fault is a front of the file's sections, each behind those below it.
        ensures stops { (chunks : List (List ℕ)) (kept : List Section) → StandsFor self.old chunks kept
            → IfErr result (λ fault. (sections : List Section)
            × StopsAfter sections fault (kept_in K.keeper keep.old keep.new)
            × IsFrontFor self.old.width (chunks ++ chunk.now ∷ []) kept sections) }
        ensures again { (fault : KeepFault) → self.old.refused ≡ Some fault
            → (result ≡ Err fault) × (self.new ≡ self.old) × (keep.new ≡ keep.old) }
        ensures refused { IfErr result (λ fault. self.new.refused ≡ Some fault) }
        ensures err_counted { OnErr result (K.keeper.faults keep.old ≤ K.keeper.faults keep.new) }
    {
        if let Some(fault) = self.refused {
            return Err(fault);
        }
        match link_leaf(self.alloc, self.width, &mut self.subtrees, chunk, keep) {
            Ok(()) => {
                self.leaves += 1;
                self.bytes += chunk.len() as u64;
                Ok(())
            }
            Err(fault) => {
                self.refused = Some(fault);
                Err(fault)
            }
        }
    }

    /// Links what is left from the lowest level up, and says what was made: the file of the chunks that came, or the
    /// raw leaf of no bytes where none came. The value stands as newly made then.
    ///
    /// Errors: those of the store, and want of memory. Each further call gives the same error and changes nothing.
    pub fn finish<K: Keep>(&mut self, keep: &mut K) -> Result<Made, KeepFault>
        ensures width { self.new.width ≡ self.old.width }
        ensures made { IfOk result (λ made. (chunks : List (List ℕ)) (kept : List Section)
            → StandsFor self.old chunks kept
            → (sections : List Section) × (d : Dag) × Keeps sections (kept_in K.keeper keep.old keep.new)
            × IsMadeFile self.old.width chunks d made × (kept ++ sections ≡ bottom_up d)
            × AreBehindLinks [] (kept ++ sections)) }
        ensures anew { OnOk result (StandsFor self.new [] []) }
        ensures quiet { OnOk result (KeepingQuiet (kept_in K.keeper keep.old keep.new)) }
        ensures cause { self.old.refused ≡ None
            → IfErr result (λ fault. IsCountedBy fault (K.keeper.faults keep.old) (K.keeper.faults keep.new)) }
        // What was kept before a fault is a front of the file's sections, each behind those below it.
        ensures stops { (chunks : List (List ℕ)) (kept : List Section) → StandsFor self.old chunks kept
            → IfErr result (λ fault. (sections : List Section)
            × StopsAfter sections fault (kept_in K.keeper keep.old keep.new)
            × IsFrontFor self.old.width chunks kept sections) }
        ensures again { (fault : KeepFault) → self.old.refused ≡ Some fault
            → (result ≡ Err fault) × (self.new ≡ self.old) × (keep.new ≡ keep.old) }
        ensures refused { IfErr result (λ fault. self.new.refused ≡ Some fault) }
        ensures err_counted { OnErr result (K.keeper.faults keep.old ≤ K.keeper.faults keep.new) }
    {
        kept_in_order();
        if let Some(fault) = self.refused {
            return Err(fault);
        }
        match link_all(self.alloc, self.width, &mut self.subtrees, keep) {
            Ok(made) => {
                self.leaves = 0;
                self.bytes = 0;
                self.subtrees.clear();
                Ok(made)
            }
            Err(fault) => {
                self.refused = Some(fault);
                Err(fault)
            }
        }
    }
}
