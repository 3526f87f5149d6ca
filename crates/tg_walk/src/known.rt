//! What a walk knows that gives each block once.
ghost use Rattle.std.specs.Prelude.{◌≡◌, ◌≤◌, ◌∷◌, [], true, All, List, IfOk, IfSome, OnOk};
ghost use Rattle.std.specs.Map.{keys_of};
ghost use Rattle.tg_cid.specs.Cid.{CidParts};
ghost use Rattle.tg_model.specs.Dag.{Section};
ghost use Rattle.tg_model.specs.Queries.{QueryParts};
ghost use Rattle.tg_model.specs.Stores.{Store};
ghost use Rattle.tg_model_laws.specs.Tasks.{Task, Want, depth_of, open_block};
ghost use Rattle.tg_walk.specs.Known.{HasLevels, HasTaken, HoldsIn, IsAdded, IsDeepened, IsKeptOf, IsMet, KnowsBelow};
ghost use Rattle.tg_walk.specs.Known.{LieAbove, role_above};

use indexmap::IndexMap;
use std::alloc::{AllocError, Global};
use std::marker::Model;
use tg_cid::Cid;
use tg_traversal::Role;

/// A block that was gone through wholly in this role: so many levels of blocks lie below it, and each of them is known. A
/// child of a shard has no entry below it.
#[derive(Clone, Copy)]
pub(crate) struct Walked {
    role: Role,
    levels: u64,
}

impl Walked {
    /// Whether all is known of the block in this role too. A shard without an entry below it says the same wherever each
    /// shard below it stands behind at most 7 slots.
    ///
    /// UnixFS specification, HAMTDirectory.
    fn holds_in(&self, role: Role) -> bool
        ensures { result ≡ true → HoldsIn self.now.role self.now.levels role }
    {
        match (self.role, role) {
            (Role::Entry, Role::Entry) | (Role::Part, Role::Part) => true,
            (Role::Child(_), Role::Entry) => self.levels <= 7,
            (Role::Child(_), Role::Child(slots)) => slots <= 7 && self.levels <= 7 - slots,
            _ => false,
        }
    }
}

/// A block that was opened, and below which there may be more: its CID, how many blocks there are from the root to it and
/// to the deepest block below it so far, both counted, and its role. A child of a shard has none once an entry was met
/// below it.
#[derive(Drop)]
pub(crate) struct Opened {
    pub(crate) cid: Cid,
    pub(crate) depth: u64,
    pub(crate) deepest: u64,
    pub(crate) role: Option<Role>,
}

/// The blocks that a walk gave, in order, each with what is known below it; and the blocks on the way to the next place.
#[derive(Drop)]
pub(crate) struct Known {
    blocks: IndexMap<Cid, Option<Walked>>,
    innermost: Option<Opened>,
    outer: Vec<Opened>,
}

impl Model for Known {
    ghost use Rattle.std.specs.Prelude.{◌++◌, option_to_list, reverse};
    ghost use Rattle.tg_walk.specs.Known.{HasInnermost, KnownState};

    ghost Value = { KnownState };

    ghost view = { λ k. record {
      entries = k.blocks.entries;
      nodes = option_to_list k.innermost ++ reverse k.outer.items;
    } };

    ghost invariant = { λ k. HasInnermost k.innermost k.outer.items };
}

impl Known {
    /// Nothing. It takes no memory.
    pub(crate) fn new(alloc: Global) -> Known
        ensures { result ≡ record { entries = []; nodes = [] } }
    {
        Known {
            blocks: IndexMap::new(alloc),
            innermost: None,
            outer: Vec::new(alloc),
        }
    }

    /// Adds a block, and tells whether it wasn't known yet. The error is want of memory.
    pub(crate) fn add(&mut self, cid: Cid) -> Result<bool, AllocError>
        ensures { IfOk result (λ is_new. IsAdded self.old cid is_new self.new) }
    {
        tg_cid::laws::equality();
        if self.blocks.get(&cid).is_some() {
            return Ok(false);
        }
        self.blocks.insert(cid, None)?;
        Ok(true)
    }

    /// How many levels of blocks lie below a block of which all is known in this role.
    pub(crate) fn levels(&self, cid: &Cid, role: Role) -> Option<u64>
        ensures { IfSome result (λ levels. HasLevels self.now.entries cid.now role levels) }
    {
        tg_cid::laws::equality();
        match self.blocks.get(cid) {
            Some(Some(walked)) if walked.holds_in(role) => Some(walked.levels),
            _ => None,
        }
    }

    /// Goes below a block. The error is want of memory.
    pub(crate) fn open(&mut self, opened: Opened) -> Result<(), AllocError>
        ensures { OnOk result (self.new ≡ record self.old { nodes = opened ∷ self.old.nodes }) }
    {
        match self.innermost.replace(opened) {
            Some(outer) => Ok(self.outer.push(outer)?),
            None => Ok(()),
        }
    }

    /// Notes that a block of this depth and role lies below the innermost one.
    pub(crate) fn deepen(&mut self, depth: u64, role: Option<Role>)
        ensures entries { self.new.entries ≡ self.old.entries }
        ensures open { IsDeepened depth role self.old.nodes self.new.nodes }
    {
        if let Some(node) = &mut self.innermost {
            node.role = role_above(role, node.role);
            if node.deepest < depth {
                node.deepest = depth;
            }
        }
    }

    /// Notes whether an entry was met.
    pub(crate) fn meet(&mut self, met: bool)
        ensures entries { self.new.entries ≡ self.old.entries }
        ensures open { IsMet met self.old.nodes self.new.nodes }
    {
        if met {
            self.deepen(0, None);
        }
    }

    /// Leaves each block below which all was gone through before a place of this depth. The error is want of memory.
    pub(crate) fn leave(&mut self, depth: u64) -> Result<(), AllocError>
        ensures keys { OnOk result (keys_of self.new.entries ≡ keys_of self.old.entries) }
        ensures above { OnOk result (LieAbove self.new.nodes depth) }
        ensures knows { OnOk result ((q : QueryParts) (store : Store) (sections : List Section) (w : Want)
            (cid : CidParts) (later : List (Task CidParts)) → depth_of w ≡ depth
            → KnowsBelow q store sections self.old (open_block w cid ∷ later)
            → KnowsBelow q store sections self.new (open_block w cid ∷ later)) }
    {
        while let Some(node) = self.take(depth) {
            self.deepen(node.deepest, node.role);
            self.keep(&node)?;
        }
        Ok(())
    }

    /// Takes the innermost block, unless it lies above this depth.
    fn take(&mut self, depth: u64) -> Option<Opened>
        ensures { HasTaken self.old depth result self.new }
    {
        let node = self.innermost.take()?;
        if node.depth < depth {
            self.innermost = Some(node);
            return None;
        }
        self.innermost = self.outer.pop();
        Some(node)
    }

    /// Keeps that a block was gone through wholly, if it was given. The error is want of memory.
    fn keep(&mut self, node: &Opened) -> Result<(), AllocError>
        ensures keys { OnOk result (keys_of self.new.entries ≡ keys_of self.old.entries) }
        ensures nodes { self.new.nodes ≡ self.old.nodes }
        ensures kept { OnOk result (All (IsKeptOf self.old.entries node.now) self.new.entries) }
    {
        tg_cid::laws::equality();
        let Some(role) = node.role else {
            return Ok(());
        };
        if self.blocks.get(&node.cid).is_some() {
            let levels = node.deepest.saturating_sub(node.depth);
            self.blocks.insert(node.cid, Some(Walked { role, levels }))?;
        }
        Ok(())
    }
}

/// The role of a block below which one of the role `below` lies, or an entry: a child of a shard keeps it above children
/// of shards alone.
fn role_above(below: Option<Role>, role: Option<Role>) -> Option<Role>
    ensures { result ≡ role_above below role }
{
    match (below, role) {
        (Some(Role::Child(_)), _) => role,
        (_, Some(Role::Child(_))) => None,
        _ => role,
    }
}
