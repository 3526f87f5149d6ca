//! A block that was opened, and what of its children is to come.
ghost use Rattle.std.specs.Prelude.{◌≡◌, ◌<◌, ◌+◌, ◌^◌, [], false, true, None, Some, IfErr, IfOk, OnErr, length};
ghost use Rattle.tg_traversal.specs.Frames.{AreEntriesVisited, ArePartsLeft, ArePartsVisited, AreSlotsVisited, IsFrame};
ghost use Rattle.tg_traversal.specs.Frames.{IsVisited, IsSomething, directory_at, entry_in, frame_tasks};
ghost use Rattle.tg_traversal.specs.Places.{IsPlaceOf, IsReachOfPart, directory_reach, part_reach};
ghost use Rattle.tg_model.specs.Sound.{child};
ghost use Rattle.tg_model.specs.Texts.{joined};
ghost use Rattle.tg_model.specs.Traversal.{child_visit, entry_visit, slot_visit};

use crate::block::SharedBlock;
use crate::position::{Ask, Passed, Place, Position, Reach};
use std::alloc::{AllocError, Global};
use tg_bytes::Bytes;
use tg_cid::Cid;
use tg_escape::push_escaped;
use tg_model::{Entry, PartCursor, Slot, part_at};

/// The parts of a file that are to come, in its block: so many, of which the next begins at the byte `from` of the
/// content; and the bytes that are asked for, or all where no range is given.
#[derive(Drop)]
pub(crate) struct PartsLeft {
    pub(crate) block: SharedBlock,
    pub(crate) cursor: PartCursor,
    pub(crate) count: u64,
    pub(crate) from: u64,
    pub(crate) range: Option<(u64, u64)>,
}

/// The entries of a directory that are to come, the last of them first; and the path under which they are bundled, or
/// none where they are listed.
#[derive(Drop)]
pub(crate) struct EntriesLeft {
    pub(crate) entries: Vec<Entry>,
    pub(crate) path: Option<Bytes>,
}

/// The slots of a shard that are to come, the last of them first; the slots that were passed to the shard; and the path
/// under which the entries are bundled, or none where they are listed.
#[derive(Drop)]
pub(crate) struct SlotsLeft {
    pub(crate) slots: Vec<Slot>,
    pub(crate) above: Passed,
    pub(crate) path: Option<Bytes>,
}

/// What of a block's children is to come.
#[derive(Drop)]
pub(crate) enum ChildrenLeft {
    Nothing,
    Parts(PartsLeft),
    Entries(EntriesLeft),
    Slots(SlotsLeft),
}

/// A block that was opened: what of its children is to come, their depth, and whether a line ends behind them.
#[derive(Drop)]
pub(crate) struct Frame {
    pub(crate) children: ChildrenLeft,
    pub(crate) depth: u64,
    pub(crate) line: bool,
}

/// What is done at one link, or at none where no link is left: the entry that is met, and the child that is gone into;
/// and the length of the path of the entry's directory, in bytes.
#[derive(Drop)]
pub(crate) struct Visited {
    pub(crate) met: Option<Entry>,
    pub(crate) into: Option<Place>,
    pub(crate) directory: u64,
}

impl Frame {
    /// Goes on to the next link at which something is done. The error is want of memory, with which the frame is given
    /// back as it was.
    pub(crate) fn next(self, alloc: Global) -> Result<(Visited, Frame), Frame>
        requires { IsFrame self }
        ensures frame { IfOk result (λ found. IsFrame found.1) }
        ensures line { IfOk result (λ found. found.1.line ≡ self.line) }
        ensures visited { IfOk result (λ found. IsVisited self found.0 found.1) }
        ensures err { IfErr result (λ frame. frame ≡ self) }
    {
        let Frame {
            children,
            depth,
            line,
        } = self;
        match children {
            ChildrenLeft::Nothing => {
                let frame = Frame {
                    children: ChildrenLeft::Nothing,
                    depth,
                    line,
                };
                Ok((Visited::nothing(0), frame))
            }
            ChildrenLeft::Parts(left) => {
                let mut left = left;
                let into = left.next(depth);
                let frame = Frame {
                    children: ChildrenLeft::Parts(left),
                    depth,
                    line,
                };
                let visited = Visited {
                    met: None,
                    into,
                    directory: 0,
                };
                Ok((visited, frame))
            }
            ChildrenLeft::Entries(left) => {
                let mut left = left;
                let visited = left.next(alloc, depth);
                let frame = Frame {
                    children: ChildrenLeft::Entries(left),
                    depth,
                    line,
                };
                match visited {
                    Ok(visited) => Ok((visited, frame)),
                    Err(_) => Err(frame),
                }
            }
            ChildrenLeft::Slots(left) => {
                let mut left = left;
                let visited = left.next(alloc, depth);
                let frame = Frame {
                    children: ChildrenLeft::Slots(left),
                    depth,
                    line,
                };
                match visited {
                    Ok(visited) => Ok((visited, frame)),
                    Err(_) => Err(frame),
                }
            }
        }
    }

    /// Whether nothing is left for certain, so that the frame needn't be kept.
    pub(crate) fn is_spent(&self) -> bool
        requires { IsFrame self.now }
        ensures { result ≡ true → frame_tasks self.now ≡ [] }
    {
        if self.line {
            return false;
        }
        match &self.children {
            ChildrenLeft::Nothing => true,
            ChildrenLeft::Parts(left) => left.count == 0,
            ChildrenLeft::Entries(left) => left.entries.is_empty(),
            ChildrenLeft::Slots(left) => left.slots.is_empty(),
        }
    }
}

impl Visited {
    /// Whether nothing is done, since no link is left.
    pub(crate) fn is_nothing(&self) -> bool
        ensures yes { result ≡ true → (self.now.met ≡ None) × (self.now.into ≡ None) }
        ensures no { result ≡ false → IsSomething self.now.met self.now.into }
    {
        self.met.is_none() && self.into.is_none()
    }

    /// No link is left of a directory whose path has this length.
    fn nothing(directory: u64) -> Visited
        ensures met { result.met ≡ None }
        ensures into { result.into ≡ None }
        ensures directory { result.directory ≡ directory }
    {
        Visited {
            met: None,
            into: None,
            directory,
        }
    }
}

impl PartsLeft {
    /// The next part that is gone into; their depth is given. It takes no memory.
    fn next(&mut self, depth: u64) -> Option<Place>
        requires { ArePartsLeft self.old }
        ensures left { ArePartsLeft self.new }
        ensures next { ArePartsVisited depth self.old result self.new }
    {
        while let Some((part, cursor)) = part_at(self.block.as_slice(), self.cursor) {
            let from = self.from;
            self.cursor = cursor;
            self.count -= 1;
            self.from += part.size;
            if let Some(reach) = reach_of_part(self.range, from, part.size) {
                return Some(Place {
                    cid: part.cid,
                    depth,
                    ask: Ask::Node(reach, Position::Part(part.size)),
                });
            }
        }
        None
    }
}

/// What is asked of a part of this size that begins at `from`, where it is gone into: all of it, or the bytes of the
/// range that lie in it, counted from its first.
fn reach_of_part(range: Option<(u64, u64)>, from: u64, size: u64) -> Option<Reach>
    requires { from + size < 2 ^ 64 }
    ensures { IsReachOfPart result (part_reach range from size) }
{
    let Some((low, high)) = range else {
        return Some(Reach::Entire);
    };
    if size > 0 && low < high && from < high && low < from + size {
        Some(Reach::Ranged(low.saturating_sub(from), high.saturating_sub(from)))
    } else {
        None
    }
}

impl EntriesLeft {
    /// Meets the next entry, and goes into it where it is bundled; the entries' depth is given. The error is want of
    /// memory, with which nothing changes.
    fn next(&mut self, alloc: Global, depth: u64) -> Result<Visited, AllocError>
        ensures next { IfOk result (λ visited. AreEntriesVisited depth self.old visited self.new) }
        ensures err { OnErr result (self.new ≡ self.old) }
    {
        let directory = path_len(&self.path);
        let Some(entry) = self.entries.last() else {
            return Ok(Visited::nothing(directory));
        };
        let into = place_of_entry(alloc, &self.path, entry.name.as_slice(), entry.cid, depth)?;
        Ok(Visited {
            met: self.entries.pop(),
            into,
            directory,
        })
    }
}

/// The length of the path of a directory in bytes; a listed one has the empty path.
fn path_len(path: &Option<Bytes>) -> u64
    ensures { result ≡ length (directory_at path.now) }
{
    match path {
        Some(path) => path.as_slice().len() as u64,
        None => 0,
    }
}

/// The place of a bundled entry, whose path is its directory's with its name; none where it is listed.
fn place_of_entry(
    alloc: Global,
    path: &Option<Bytes>,
    name: &[u8],
    cid: Cid,
    depth: u64,
) -> Result<Option<Place>, AllocError>
    ensures { IfOk result (λ place. IsPlaceOf depth cid
        (entry_visit (directory_reach path.now) name.now cid).into place) }
{
    let Some(path) = path else {
        return Ok(None);
    };
    let path = joined(alloc, path.as_slice(), name)?;
    Ok(Some(Place {
        cid,
        depth,
        ask: Ask::Node(Reach::Bundled(path), Position::Top),
    }))
}

/// The path of an entry: its directory's, joined with the escaped name by one slash. The error is want of memory.
fn joined(alloc: Global, path: &[u8], name: &[u8]) -> Result<Bytes, AllocError>
    ensures { IfOk result (λ text. text ≡ joined path.now name.now) }
{
    let mut text = Bytes::of(alloc, path)?;
    if path != b"/".as_slice() {
        text.push_all(b"/")?;
    }
    push_escaped(&mut text, alloc, name)?;
    Ok(text)
}

impl SlotsLeft {
    /// Meets the entry of the next slot, and goes into it where it is bundled; or goes into the child shard there. The
    /// depth of both is given. The error is want of memory, with which nothing changes.
    fn next(&mut self, alloc: Global, depth: u64) -> Result<Visited, AllocError>
        requires { length self.old.above < 8 }
        ensures next { IfOk result (λ visited. AreSlotsVisited depth self.old visited self.new) }
        ensures above { self.new.above ≡ self.old.above }
        ensures err { OnErr result (self.new ≡ self.old) }
    {
        let directory = path_len(&self.path);
        let Some(slot) = self.slots.last() else {
            return Ok(Visited::nothing(directory));
        };
        let into = place_of_slot(alloc, &self.path, self.above.as_slice(), slot, depth)?;
        let met = match self.slots.pop() {
            Some(slot) => entry_of(slot),
            None => None,
        };
        Ok(Visited {
            met,
            into,
            directory,
        })
    }
}

/// The place that a slot leads to: that of its entry where it is bundled, or that of the child shard there.
fn place_of_slot(
    alloc: Global,
    path: &Option<Bytes>,
    above: &[u8],
    slot: &Slot,
    depth: u64,
) -> Result<Option<Place>, AllocError>
    requires { length above.now < 8 }
    ensures { IfOk result (λ place. IsPlaceOf depth slot.now.cid
        (slot_visit (directory_reach path.now) (child above.now) slot.now).into place) }
{
    match &slot.name {
        Some(name) => place_of_entry(alloc, path, name.as_slice(), slot.cid, depth),
        None => Ok(Some(place_of_child(alloc, path, above, slot, depth)?)),
    }
}

/// The place of the child shard in a slot, behind the slots that were passed to its parent.
fn place_of_child(
    alloc: Global,
    path: &Option<Bytes>,
    above: &[u8],
    slot: &Slot,
    depth: u64,
) -> Result<Place, AllocError>
    requires { length above.now < 8 }
    ensures { IfOk result (λ place. IsPlaceOf depth slot.now.cid
        (child_visit (directory_reach path.now) (child above.now) slot.now.slot).into (Some place)) }
{
    let reach = match path {
        Some(path) => Reach::Bundled(Bytes::of(alloc, path.as_slice())?),
        None => Reach::Listed,
    };
    let position = Position::Child(Passed::below(above, slot.slot));
    Ok(Place {
        cid: slot.cid,
        depth,
        ask: Ask::Node(reach, position),
    })
}

/// The entry in a slot, or none where a child shard is there.
fn entry_of(slot: Slot) -> Option<Entry>
    ensures { result ≡ entry_in slot }
{
    let Slot { name, cid, .. } = slot;
    let name = name?;
    Some(Entry { name, cid })
}
