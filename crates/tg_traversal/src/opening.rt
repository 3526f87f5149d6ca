//! What the block at the wanted place leaves.
ghost use Rattle.std.specs.Prelude.{◌≡◌, ◌≢◌, ℕ, ◌+◌, ◌++◌, ◌<◌, ◌^◌, IfOk, None, OnErr, OnOk, Option, length, map};
ghost use Rattle.std.specs.Prelude.{List as Items};
ghost use Rattle.tg_traversal.specs.Frames.{AreLeft, IsFrame, children_left, frame_tasks};
ghost use Rattle.tg_traversal.specs.BlocksLeft.{HasFewer};
ghost use Rattle.tg_traversal.specs.Left.{IsReadHere, WantedAt, tasks_left};
ghost use Rattle.tg_traversal.specs.Opening.{IsFileHere, IsParted, IsReadBy, IsStepLeft, directory_asked};
ghost use Rattle.tg_traversal.specs.Opening.{directory_kind, file_asked, is_bundled, placed_links};
ghost use Rattle.tg_model.specs.PathWalk.{step_of};
ghost use Rattle.tg_model.specs.Sound.{passed, position_fault, top};
ghost use Rattle.tg_model.specs.StepAnswers.{IsStep};
ghost use Rattle.tg_model.specs.Traversal.{entry_visit, file_visits, slot_visit};
ghost use Rattle.tg_model.specs.declared.kinds.Part.{Part};
ghost use Rattle.tg_traversal.specs.Places.{reach_of, standing_of};
ghost use Rattle.tg_model.specs.Dag.{Section, links_of};
ghost use Rattle.tg_model.specs.Fits.{is_block};
ghost use Rattle.tg_model.specs.declared.kinds.Kind.{Kind};
ghost use Rattle.tg_model.specs.declared.placed.PlacedKind.{PlacedKind};
ghost use Rattle.tg_model_laws.specs.Tasks.{children_tasks, depth_of, node_tasks, tasks_of, terminal_tasks};

use crate::block::SharedBlock;
use crate::frame::{ChildrenLeft, EntriesLeft, Frame, PartsLeft, SlotsLeft};
use crate::frames::{Frames, ask_behind};
use crate::position::{Ask, Miss, Passed, Place, Position, Reach};
use std::alloc::{AllocError, Global};
use tg_bytes::{Bytes, List};
use tg_model::{
    Entry, FilePlaces, Kind, PlacedKind, Query, Scope, Slot, Span, Step, resolve_span, step,
    well_formed,
};
use tg_murmur::{hash64, slot};

impl Frames {
    /// Opens the block at the place that is wanted now, as what `read` gave for it: what it leaves comes before what
    /// was left behind it. A file's block whose parts are to come is held until they came, and other blocks aren't.
    ///
    /// Path Gateway specification, Path Resolution; Trustless Gateway specification, dag-scope and entity-bytes. The
    /// error is want of memory, with which the place is given up, and what was left behind it stays.
    pub fn open(&mut self, found: PlacedKind, block: &SharedBlock) -> Result<(), AllocError>
        requires here { (at : WantedAt) × (section : Section) × (kind : Kind)
            × IsReadHere self.old at section kind found × (section.block ≡ block.now)
            × (depth_of at.want + 1 < 2 ^ 64) }
        ensures query { self.new.query ≡ self.old.query }
        ensures opened { (at : WantedAt) (section : Section) (kind : Kind)
            → IsReadHere self.old at section kind found → section.block ≡ block.now
            → OnOk result (tasks_left self.new ≡ tasks_of self.old.query at.want section kind (links_of kind)
            ++ self.old.later) }
        ensures fewer { OnOk result (HasFewer self.old self.new) }
        ensures err { OnErr result (tasks_left self.new ≡ self.old.later) }
    {
        let _links = link_count(&found);
        let Some(Place { depth, ask, .. }) = self.wanted.take() else {
            unreachable!();
        };
        match ask {
            Ask::Segment(index, position) => {
                let stepped = step_from(&self.query, index, &position, depth, found);
                let (wanted, missed) = parted(stepped);
                self.wanted = wanted;
                self.missed = missed;
                Ok(())
            }
            Ask::Terminal => {
                if is_block(self.query.scope()) {
                    return Ok(());
                }
                let reach = terminal_reach(self.alloc, &self.query, &found)?;
                let frame = node_frame(reach, Position::Top, depth, found, block)?;
                self.stack.push(frame)
            }
            Ask::Node(reach, position) => {
                let frame = node_frame(reach, position, depth, found, block)?;
                self.stack.push(frame)
            }
        }
    }
}

/// How many links a block has that is read as this kind.
fn link_count(found: &PlacedKind) -> u64
    ensures count { result ≡ placed_links found.now }
    ensures few { result < 2 ^ 64 }
{
    match found {
        PlacedKind::Raw | PlacedKind::Symlink { .. } => 0,
        PlacedKind::File(places) => places.count,
        PlacedKind::Basic { entries } => entries.as_slice().len() as u64,
        PlacedKind::Shard { slots } => slots.as_slice().len() as u64,
    }
}

/// Whether a block alone is asked for.
fn is_block(scope: Scope) -> bool
    ensures { result ≡ is_block scope }
{
    match scope {
        Scope::Block => true,
        Scope::Entity | Scope::All => false,
    }
}

/// The next place, or the segment that leads nowhere.
fn parted(stepped: Result<Place, Miss>) -> (Option<Place>, Option<Miss>)
    ensures { IsParted stepped result.0 result.1 }
{
    match stepped {
        Ok(place) => (Some(place), None),
        Err(miss) => (None, Some(miss)),
    }
}

/// Where the step with the segment of this index leads, from a block that stands there at this depth: to the next
/// place, or nowhere.
///
/// Path Gateway specification, Path Resolution; UnixFS specification, HAMTDirectory.
fn step_from(
    query: &Query,
    index: usize,
    position: &Position,
    depth: u64,
    found: PlacedKind,
) -> Result<Place, Miss>
    requires index { index < length query.now.path }
    requires depth { depth + 1 < 2 ^ 64 }
    requires read { (section : Section) × (kind : Kind) × IsReadBy position.now section kind found }
    ensures { (section : Section) (kind : Kind) → IsReadBy position.now section kind found
        → IsStepLeft query.now index position.now depth section kind result }
{
    let above = passed(position);
    let level = above.len() as u8;
    let name = query.path().as_slice()[index].as_slice();
    match directory_step(found, level, name) {
        Step::Found(cid) => Ok(Place {
            cid,
            depth: depth + 1,
            ask: ask_behind(query, index + 1),
        }),
        Step::Down(cid) => {
            let below = Passed::below(above, slot(hash64(name), level));
            Ok(Place {
                cid,
                depth: depth + 1,
                ask: Ask::Segment(index, Position::Child(below)),
            })
        }
        Step::Absent => Err(Miss::NoEntry(index as u32)),
        Step::NotFolder => Err(Miss::NoDirectory(index as u32)),
    }
}

/// The slots that were passed.
fn passed(position: &Position) -> &[u8]
    ensures { result.now ≡ passed (standing_of position.now) }
{
    match position {
        Position::Child(above) => above.as_slice(),
        Position::Top | Position::Part(_) => &[],
    }
}

/// Where the step with this name leads from a block, at a level of shards.
fn directory_step(found: PlacedKind, level: u8, name: &[u8]) -> Step
    requires { level < 8 }
    ensures { IsStep (directory_kind found) (step_of (directory_kind found) level name.now) result }
{
    step(&directory_kind(found), level, name)
}

/// The kind of a directory, moved; any other block is taken as raw, from which no step leads on.
fn directory_kind(found: PlacedKind) -> Kind
    ensures { result ≡ directory_kind found }
{
    match found {
        PlacedKind::Basic { entries } => Kind::Basic { entries },
        PlacedKind::Shard { slots } => Kind::Shard { slots },
        PlacedKind::Raw | PlacedKind::File(_) | PlacedKind::Symlink { .. } => Kind::Raw,
    }
}

/// How much the query asks of its terminal, of which it asks for more than the block. The error is want of memory.
///
/// Trustless Gateway specification, dag-scope and entity-bytes: a range is ignored where the terminal isn't a file.
fn terminal_reach(alloc: Global, query: &Query, found: &PlacedKind) -> Result<Reach, AllocError>
    ensures { (depth : ℕ) (section : Section) (kind : Kind) → IsReadBy Position.Top section kind found.now
        → query.now.scope ≢ Scope.Block
        → IfOk result (λ reach. node_tasks (reach_of reach) top depth kind
        (links_of kind) ≡ terminal_tasks query.now.scope query.now.span depth section kind (links_of kind)) }
{
    well_formed(query);
    match found {
        PlacedKind::Basic { .. } | PlacedKind::Shard { .. } => directory_asked(
            alloc,
            query.scope(),
        ),
        PlacedKind::Raw | PlacedKind::File(_) | PlacedKind::Symlink { .. } => {
            Ok(file_asked(query.span(), found))
        }
    }
}

/// How much is asked of a directory. The error is want of memory.
fn directory_asked(alloc: Global, scope: Scope) -> Result<Reach, AllocError>
    ensures { IfOk result (λ reach. reach_of reach ≡ directory_asked scope) }
{
    match scope {
        Scope::All => Ok(Reach::Bundled(Bytes::of(alloc, b"/")?)),
        Scope::Block | Scope::Entity => Ok(Reach::Listed),
    }
}

/// How much is asked of a terminal that is no directory.
fn file_asked(span: Option<Span>, found: &PlacedKind) -> Reach
    ensures { reach_of result ≡ file_asked span found.now }
{
    match (span, found) {
        (Some(span), PlacedKind::File(places)) => {
            let (low, high) = resolve_span(&span, places.total);
            Reach::Ranged(low, high)
        }
        _ => Reach::Entire,
    }
}

/// The frame of a node of this depth, of which so much is asked. The error is want of memory.
fn node_frame(
    reach: Reach,
    position: Position,
    depth: u64,
    found: PlacedKind,
    block: &SharedBlock,
) -> Result<Frame, AllocError>
    requires depth { depth + 1 < 2 ^ 64 }
    requires read { (section : Section) × (kind : Kind) × IsReadBy position section kind found
        × (section.block ≡ block.now) }
    ensures frame { IfOk result IsFrame }
    ensures tasks { (section : Section) (kind : Kind) → IsReadBy position section kind found
        → section.block ≡ block.now
        → IfOk result (λ frame. frame_tasks frame
        ≡ node_tasks (reach_of reach) (standing_of position) depth kind (links_of kind)) }
{
    let depth = depth + 1;
    let line = is_bundled(&reach);
    match found {
        PlacedKind::Raw | PlacedKind::Symlink { .. } => Ok(Frame {
            children: ChildrenLeft::Nothing,
            depth,
            line,
        }),
        PlacedKind::File(places) => {
            let children = parts_left(reach, places, block)?;
            Ok(Frame {
                children,
                depth,
                line,
            })
        }
        PlacedKind::Basic { entries } => Ok(Frame {
            children: entries_left(reach, entries),
            depth,
            line: false,
        }),
        PlacedKind::Shard { slots } => Ok(Frame {
            children: slots_left(reach, position, slots),
            depth,
            line: false,
        }),
    }
}

/// Whether all is bundled.
fn is_bundled(reach: &Reach) -> bool
    ensures { result ≡ is_bundled (reach_of reach.now) }
{
    match reach {
        Reach::Bundled(_) => true,
        Reach::Entire | Reach::Ranged(..) | Reach::Listed => false,
    }
}

/// What is left of the parts of a file, with its block where it has parts. The error is want of memory.
fn parts_left(
    reach: Reach,
    places: FilePlaces,
    block: &SharedBlock,
) -> Result<ChildrenLeft, AllocError>
    requires { (inline : Items ℕ) × (filesize : Option ℕ) × (parts : Items Part)
        × IsFileHere places block.now inline filesize parts }
    ensures left { IfOk result AreLeft }
    ensures tasks { (depth : ℕ) (inline : Items ℕ) (filesize : Option ℕ) (parts : Items Part)
        → IsFileHere places block.now inline filesize parts
        → IfOk result (λ left. children_left depth left
        ≡ children_tasks (file_visits (reach_of reach) inline parts) depth (map (λ part. part.cid) parts)) }
{
    let range = match reach {
        Reach::Bundled(_) | Reach::Entire => None,
        Reach::Ranged(low, high) => Some((low, high)),
        Reach::Listed => return Ok(ChildrenLeft::Nothing),
    };
    if places.count == 0 {
        return Ok(ChildrenLeft::Nothing);
    }
    let block = block.clone()?;
    Ok(ChildrenLeft::Parts(PartsLeft {
        block,
        cursor: places.parts,
        count: places.count,
        from: (places.inline.end - places.inline.start) as u64,
        range,
    }))
}

/// What is left of a directory in one block.
fn entries_left(reach: Reach, entries: List<Entry>) -> ChildrenLeft
    ensures left { AreLeft result }
    ensures tasks { (depth : ℕ) → children_left depth result
        ≡ children_tasks (map (λ entry. entry_visit (reach_of reach) entry.name entry.cid) entries) depth
        (map (λ entry. entry.cid) entries) }
{
    let path = match reach {
        Reach::Bundled(path) => Some(path),
        Reach::Listed => None,
        Reach::Entire | Reach::Ranged(..) => return ChildrenLeft::Nothing,
    };
    let mut entries = entries.into_vec();
    entries.as_mut_slice().reverse();
    ChildrenLeft::Entries(EntriesLeft { entries, path })
}

/// What is left of a shard that may stand there.
fn slots_left(reach: Reach, position: Position, slots: List<Slot>) -> ChildrenLeft
    requires { position_fault (standing_of position) (Kind.Shard slots) ≡ None }
    ensures left { AreLeft result }
    ensures tasks { (depth : ℕ) → children_left depth result
        ≡ children_tasks (map (slot_visit (reach_of reach) (standing_of position)) slots) depth
        (map (λ slot. slot.cid) slots) }
{
    let path = match reach {
        Reach::Bundled(path) => Some(path),
        Reach::Listed => None,
        Reach::Entire | Reach::Ranged(..) => return ChildrenLeft::Nothing,
    };
    let above = match position {
        Position::Child(above) => above,
        Position::Top | Position::Part(_) => Passed::none(),
    };
    let mut slots = slots.into_vec();
    slots.as_mut_slice().reverse();
    ChildrenLeft::Slots(SlotsLeft { slots, above, path })
}
