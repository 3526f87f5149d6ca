//! The checks of a section, and of a block at its place.
ghost use Rattle.std.specs.Prelude.{◌≡◌, ◌≢◌, ◌<◌, ◌≤◌, ◌++◌, ◌∷◌, [], ℕ, All, Err, IfErr, List as Items, MatchResult};
ghost use Rattle.std.specs.Prelude.{None, OnOk, Some, true};
ghost use Rattle.tg_model.specs.Dag.{Section};
ghost use Rattle.tg_model_laws.specs.Stores.{MayKeep};
ghost use Rattle.tg_traversal.specs.Left.{WantedAt};
ghost use Rattle.tg_model_laws.specs.Tasks.{depth_of, is_read_at};
ghost use Rattle.tg_verify.specs.History.{StandsFor};
ghost use Rattle.tg_verify.specs.Refusals.{HasNameCause, HasRefused, IsNamedBlock, refusal_of_block};
ghost use Rattle.tg_verify.specs.Steps.{IsCheckedAt, section_with};

use crate::fault::Refusal;
use crate::opener::Opener;
use crate::verifier::Verifier;
use tg_cid::Cid;
use tg_model::{BlockFault, LimitKind, PlacedKind};

impl Verifier {
    /// Checks that a block is wanted and that the CID names this one, of a size that may come; which block is wanted isn't
    /// looked at. The block is hashed once. It takes no memory and changes nothing.
    ///
    /// CARv1 specification, Data. Errors, the first of these checks that fails: `Extra` where no block is wanted any more;
    /// `Limit` of kind `Block` where the block is larger than the limit; `BadDigest` where the CID doesn't name the block.
    pub fn named(&self, cid: &Cid, block: &[u8]) -> Result<(), Refusal>
        ensures surplus { self.now.left.wanted ≡ None → result ≡ Err (Refusal.Extra self.now.taken) }
        ensures named { OnOk result (IsNamedBlock self.now.limits (section_with cid.now block.now)) }
        // A store may keep it.
        ensures kept { OnOk result (MayKeep (section_with cid.now block.now)) }
        ensures why { (at : WantedAt) → self.now.left.wanted ≡ Some at
            → IfErr result (HasNameCause self.now.limits (section_with cid.now block.now)) }
        // What was received, this section with it.
        ensures refused { (sections : Items Section) (written : Items ℕ) → self.now.refused ≡ None
            → StandsFor self.now sections written
            → IfErr result (HasRefused self.now.left.query self.now.limits (sections ++ section_with cid.now block.now
            ∷ []) written) }
    {
        are_bytes(block);
        if self.opener.wanted().is_none() {
            return Err(Refusal::Extra {
                sections: self.taken,
            });
        }
        let most = self.opener.limits.number(LimitKind::Block);
        if block.len() as u64 > most {
            return Err(limit(LimitKind::Block, most));
        }
        if !cid.holds(block) {
            return Err(Refusal::BadDigest { cid: *cid });
        }
        Ok(())
    }

    /// Checks that the section with this CID, which names its block, is the wanted one. Errors: `Extra` and `WrongBlock`.
    pub(crate) fn meets(&self, cid: &Cid) -> Result<(), Refusal>
        ensures surplus { self.now.left.wanted ≡ None → result ≡ Err (Refusal.Extra self.now.taken) }
        ensures met { (at : WantedAt) → self.now.left.wanted ≡ Some at → MatchResult result (λ _. cid.now ≡ at.cid)
            (λ fault. (fault ≡ Refusal.WrongBlock at.cid cid.now) × (cid.now ≢ at.cid)) }
    {
        let Some(wanted) = self.opener.wanted() else {
            return Err(Refusal::Extra {
                sections: self.taken,
            });
        };
        if *cid != wanted.cid {
            return Err(Refusal::WrongBlock {
                want: wanted.cid,
                got: *cid,
            });
        }
        Ok(())
    }
}

impl Opener {
    /// What the block is read as at the wanted place, which has this CID, where it passes there; and none where it
    /// isn't read, since the query asks for the block alone.
    ///
    /// Errors: those of `place` up to `BadSize`, in their order; and `OutOfMemory`.
    pub(crate) fn checked(&self, cid: &Cid, block: &[u8]) -> Result<Option<PlacedKind>, Refusal>
        requires here { (at : WantedAt) × (self.now.left.wanted ≡ Some at) × (at.cid ≡ cid.now) }
        ensures checked { (at : WantedAt) → self.now.left.wanted ≡ Some at
            → IsCheckedAt self.now.left.query self.now.limits at (section_with cid.now block.now) result }
    {
        let Some(wanted) = self.frames.wanted() else {
            return Ok(None);
        };
        let deepest = self.limits.number(LimitKind::Depth);
        if wanted.depth > deepest {
            return Err(limit(LimitKind::Depth, deepest));
        }
        if !self.frames.is_read() {
            return Ok(None);
        }
        self.read(cid, block)
    }

    /// What the block of the wanted CID is read as, where a block of its kind may stand there and its sizes are those
    /// that are told.
    ///
    /// Errors: `BadBlock`, `BadSize`, and `OutOfMemory`.
    fn read(&self, cid: &Cid, block: &[u8]) -> Result<Option<PlacedKind>, Refusal>
        requires { (at : WantedAt) × (self.now.left.wanted ≡ Some at) × (at.cid ≡ cid.now) }
        ensures { (at : WantedAt) → self.now.left.wanted ≡ Some at → is_read_at self.now.left.query at.want ≡ true
            → depth_of at.want ≤ self.now.limits.depth
            → IsCheckedAt self.now.left.query self.now.limits at (section_with cid.now block.now) result }
    {
        let found = match self.frames.read(self.alloc, block) {
            Ok(found) => found,
            Err(fault) => return Err(refusal_of_block(*cid, fault)),
        };
        if let Some(fault) = self.frames.size_fault(&found, block) {
            return Err(Refusal::BadSize {
                declared: fault.declared,
                actual: fault.actual,
            });
        }
        Ok(Some(found))
    }
}

/// These are bytes.
pub(crate) fn are_bytes(_bytes: &[u8])
    ensures { All (λ b. b < 256) _bytes.now }
{}

/// The refusal at a limit.
pub(crate) fn limit(kind: LimitKind, number: u64) -> Refusal
    ensures { result ≡ Refusal.Limit kind number }
{
    Refusal::Limit { kind, number }
}

/// The refusal at a block with this fault; want of memory is the verifier's own.
pub(crate) fn refusal_of_block(cid: Cid, fault: BlockFault) -> Refusal
    ensures { result ≡ refusal_of_block cid fault }
{
    match fault {
        BlockFault::OutOfMemory => Refusal::OutOfMemory,
        fault => Refusal::BadBlock { cid, fault },
    }
}
