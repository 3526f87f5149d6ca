//! What the block at the wanted place is read as.
ghost use Rattle.std.specs.Prelude.{◌≡◌, ℕ, true, None, Some, MatchResult, List as Items};
ghost use Rattle.tg_traversal.specs.Left.{IsFitting, IsReadAs, WantedAt};
ghost use Rattle.tg_traversal.specs.Places.{is_terminal, standing_of};
ghost use Rattle.tg_model.specs.Placed.{StandsForKind};
ghost use Rattle.tg_model.specs.Sound.{child, part, shard_fault, top};
ghost use Rattle.tg_model.specs.declared.kinds.Kind.{Kind};
ghost use Rattle.tg_model.specs.declared.kinds.Slot.{Slot};
ghost use Rattle.tg_model_laws.specs.Tasks.{is_read_at};

use crate::frames::Frames;
use crate::position::{Ask, Position};
use std::alloc::Global;
use tg_bytes::List;
use tg_model::{BlockFault, Kind, PlacedKind, Scope, Slot, check_shard, reads_in_place};

impl Frames {
    /// Whether the block at the place that is wanted now is read there: it isn't where it is a terminal of which the
    /// block alone is asked for. It takes no memory.
    ///
    /// Trustless Gateway specification, dag-scope.
    pub fn is_read(&self) -> bool
        ensures { (at : WantedAt) → self.now.wanted ≡ Some at → result ≡ is_read_at self.now.query at.want }
    {
        match &self.wanted {
            Some(place) => match place.ask {
                Ask::Terminal => self.query.scope() != Scope::Block,
                Ask::Segment(..) | Ask::Node(..) => true,
            },
            None => true,
        }
    }

    /// Whether the place that is wanted now is the query's terminal: the one to which its path leads. It takes no memory.
    ///
    /// Trustless Gateway specification, dag-scope.
    pub fn is_at_terminal(&self) -> bool
        ensures { (at : WantedAt) → self.now.wanted ≡ Some at → result ≡ is_terminal at.want }
    {
        match &self.wanted {
            Some(place) => match place.ask {
                Ask::Terminal => true,
                Ask::Segment(..) | Ask::Node(..) => false,
            },
            None => false,
        }
    }

    /// What the block at the place that is wanted now is read as, where it may stand there.
    ///
    /// UnixFS specification, Data Format and node types. Errors, the first of them: why the block has no kind, as
    /// `reads` tells it; or why a block of its kind can't stand there, as `Misplaced`, `BelowEight`, `NotShard` and
    /// `NotPart`. Besides, `OutOfMemory`.
    pub fn read(&self, alloc: Global, block: &[u8]) -> Result<PlacedKind, BlockFault>
        requires { (at : WantedAt) × (self.now.wanted ≡ Some at) }
        ensures { (at : WantedAt) → self.now.wanted ≡ Some at → is_read_at self.now.query at.want ≡ true
            → IsReadAs self.now.query at block.now result }
    {
        let Some(place) = &self.wanted else {
            unreachable!();
        };
        let found = reads_in_place(alloc, &place.cid, block)?;
        match &place.ask {
            Ask::Terminal => fitting(found, &Position::Top),
            Ask::Segment(_, position) | Ask::Node(_, position) => fitting(found, position),
        }
    }
}

/// The same kind, where a block of it may stand there. Errors: `Misplaced` and `BelowEight` of a shard, `NotPart` and
/// `NotShard`.
///
/// UnixFS specification, File and HAMTDirectory.
fn fitting(found: PlacedKind, position: &Position) -> Result<PlacedKind, BlockFault>
    ensures { (block : Items ℕ) (kind : Kind) → StandsForKind block found kind
        → IsFitting (standing_of position.now) kind found result }
{
    match position {
        Position::Top => fitting_top(found),
        Position::Part(_) => fitting_part(found),
        Position::Child(above) => fitting_child(found, above.as_slice()),
    }
}

/// The same kind, where it may be a root's or an entry's.
fn fitting_top(found: PlacedKind) -> Result<PlacedKind, BlockFault>
    ensures { (block : Items ℕ) (kind : Kind) → StandsForKind block found kind → IsFitting top kind found result }
{
    match found {
        PlacedKind::Shard { slots } => {
            let slots = behind(slots, &[])?;
            Ok(PlacedKind::Shard { slots })
        }
        other => Ok(other),
    }
}

/// The same kind, where it may be a file's part: raw, or a file.
fn fitting_part(found: PlacedKind) -> Result<PlacedKind, BlockFault>
    ensures { (size : ℕ) (block : Items ℕ) (kind : Kind) → StandsForKind block found kind
        → IsFitting (part size) kind found result }
{
    match found {
        PlacedKind::Raw => Ok(PlacedKind::Raw),
        PlacedKind::File(places) => Ok(PlacedKind::File(places)),
        PlacedKind::Shard { slots } => {
            let _slots = behind(slots, &[])?;
            Err(BlockFault::NotPart)
        }
        PlacedKind::Basic { .. } | PlacedKind::Symlink { .. } => Err(BlockFault::NotPart),
    }
}

/// The same kind, where it may be the child of a shard behind these slots: a shard.
fn fitting_child(found: PlacedKind, above: &[u8]) -> Result<PlacedKind, BlockFault>
    ensures { (block : Items ℕ) (kind : Kind) → StandsForKind block found kind
        → IsFitting (child above.now) kind found result }
{
    match found {
        PlacedKind::Shard { slots } => {
            let slots = behind(slots, above)?;
            Ok(PlacedKind::Shard { slots })
        }
        _ => Err(BlockFault::NotShard),
    }
}

/// The slots of a shard, where it may stand behind these. Errors: `BelowEight` and `Misplaced`.
fn behind(slots: List<Slot>, above: &[u8]) -> Result<List<Slot>, BlockFault>
    ensures { MatchResult result (λ same. (same ≡ slots)
        × (shard_fault above.now slots ≡ None)) (λ fault. shard_fault above.now slots ≡ Some fault) }
{
    let kind = shard_of(slots);
    check_shard(&kind, above)?;
    Ok(slots_of(kind))
}

/// A shard with these slots.
fn shard_of(slots: List<Slot>) -> Kind
    ensures { result ≡ Kind.Shard slots }
{
    Kind::Shard { slots }
}

/// The slots of a shard.
fn slots_of(kind: Kind) -> List<Slot>
    requires { (slots : Items Slot) × (kind ≡ Kind.Shard slots) }
    ensures { kind ≡ Kind.Shard result }
{
    match kind {
        Kind::Shard { slots } => slots,
        Kind::Raw | Kind::File { .. } | Kind::Basic { .. } | Kind::Symlink { .. } => unreachable!(),
    }
}
