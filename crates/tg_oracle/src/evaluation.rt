//! Queries evaluated over stored blocks.
ghost use Rattle.std.specs.Prelude.{◌<◌, IfOk};

use crate::ranges::{bounds, is_met};
use crate::texts::{escaped, joined};
use std::alloc::{AllocError, Global};
use tg_bytes::{Bytes, List};
use tg_cid::{Cid, HashKind};
use tg_model::{BlockFault, Entry, Form, Kind, Part, Query, Scope, Slot, Span, check_shard, reads};
use tg_murmur::hash64;
use thiserror::Error;

/// How many blocks deep an evaluation goes: 128 segments with eight levels of shards for each are less.
const DEPTH: u32 = 1_100;

/// A block that is stored, and the CID that names it.
#[derive(Drop)]
pub struct StoredBlock {
    pub cid: Cid,
    pub block: Bytes,
}

/// A block that is sent: the CID that leads to it, its index among the stored blocks, and how many bytes it has.
#[derive(Clone, Copy, Debug)]
pub struct Sent {
    pub cid: Cid,
    pub index: usize,
    pub size: u64,
}

/// How the evaluation of a query ends. Segments of the path count from 0.
#[derive(Clone, Copy, Debug, PartialEq, Eq)]
pub enum End {
    /// All that is asked for is sent.
    Whole,
    /// The directory has no entry with the name of the segment `at`.
    NotThere {
        at: u64,
    },
    /// What should have an entry with the name of the segment `at` is no directory.
    NotFolder {
        at: u64,
    },
    /// No block is stored under the CID, at so many blocks from the root, both counted.
    Gone {
        cid: Cid,
        depth: u32,
    },
    /// The block under the CID has no kind, or can't stand where it stands, at so many blocks from the root, both
    /// counted.
    BadBlock {
        cid: Cid,
        depth: u32,
        fault: BlockFault,
    },
}

/// What is sent for a query, how that ends, and the text of the answer up to there.
#[derive(Drop)]
pub struct Evaluation {
    pub sent: List<Sent>,
    pub end: End,
    pub text: Bytes,
}

/// Why a query isn't evaluated.
#[derive(Clone, Copy, Debug, Error)]
pub enum EvaluationFault {
    /// The evaluation would go more than 1,100 blocks deep.
    #[error("the blocks are too deep")]
    TooDeep,
    /// No memory was found.
    #[error("out of memory")]
    OutOfMemory,
}

/// Evaluates a query over stored blocks. A block that stands at several places is sent at each of them, or at the first
/// of them under each CID where the query asks for no repeats; and one of an identity CID isn't sent, but for a raw
/// query's.
///
/// Path Gateway specification, Path Resolution; Trustless Gateway specification, dag-scope and entity-bytes; UnixFS
/// specification. The texts of listings and bundles are this project's own. That the CIDs name the blocks isn't looked
/// at.
pub fn evaluate(
    alloc: Global,
    stored: &[StoredBlock],
    query: &Query,
) -> Result<Evaluation, EvaluationFault> {
    let mut run = Run {
        alloc,
        stored,
        repeats: query.dups(),
        raw: query.form() == Form::Raw,
        sent: List::new(alloc),
        text: Bytes::new(alloc),
    };
    let end = match run.answer(query) {
        Ok(()) => End::Whole,
        Err(Stop::End(end)) => end,
        Err(Stop::Fault(fault)) => return Err(fault),
    };
    let Run {
        alloc: _,
        stored: _,
        repeats: _,
        raw: _,
        sent,
        text,
    } = run;
    Ok(Evaluation { sent, end, text })
}

/// Why an evaluation goes no further.
#[derive(Clone, Copy)]
enum Stop {
    End(End),
    Fault(EvaluationFault),
}

impl From<AllocError> for Stop {
    fn from(_fault: AllocError) -> Stop {
        Stop::Fault(EvaluationFault::OutOfMemory)
    }
}

/// Where a block stands.
#[derive(Clone, Copy)]
enum Position<'s> {
    /// The root, or an entry of a directory.
    Top,
    /// A part of a file.
    Part,
    /// A child of a shard, with the slots that were passed.
    Child(&'s [u8]),
}

/// A block that was opened.
#[derive(Drop)]
struct Opened<'a> {
    kind: Kind,
    block: &'a [u8],
}

/// What stands at a path of a bundle: the block that was opened, the slots that were passed since its entry, and the
/// path.
#[derive(Drop)]
struct Below<'a> {
    opened: Opened<'a>,
    above: Vec<u8>,
    path: String,
}

/// An entry of a listed directory.
#[derive(Drop)]
struct Named {
    name: Bytes,
    cid: Cid,
}

/// An evaluation up to some place.
#[derive(Drop)]
struct Run<'a> {
    alloc: Global,
    stored: &'a [StoredBlock],
    repeats: bool,
    raw: bool,
    sent: List<Sent>,
    text: Bytes,
}

impl<'a> Run<'a> {
    /// Evaluates the query.
    fn answer(&mut self, query: &Query) -> Result<(), Stop> {
        let path = query.path().as_slice();
        let (cid, depth) = self.terminal(DEPTH, query.root(), &[], 0, path)?;
        match query.scope() {
            Scope::Block => {
                let (index, block) = self.found(cid, depth)?;
                self.send(cid, index, block)?;
                Ok(self.say(block)?)
            }
            _ => self.below_terminal(depth, cid, query),
        }
    }

    /// The CID to which the segments of a path from number `at` on lead from a block behind these slots, and how many
    /// blocks may still be opened from it on. The blocks before it are sent.
    fn terminal(
        &mut self,
        depth: u32,
        cid: Cid,
        above: &[u8],
        at: u64,
        path: &[Bytes],
    ) -> Result<(Cid, u32), Stop> {
        let left = deeper(depth)?;
        let [name, rest @ ..] = path else {
            return Ok((cid, depth));
        };
        let way = {
            let opened = self.open(depth, cid, position_behind(above))?;
            link_for(&opened.kind, above.len(), name.as_slice(), at)
        };
        match way? {
            Way::Entry(entry) => self.terminal(left, entry, &[], at.saturating_add(1), rest),
            Way::Child(child, slot) => {
                let passed = with_slot(self.alloc, above, slot)?;
                self.terminal(left, child, passed.as_slice(), at, path)
            }
        }
    }

    /// What is asked for of a terminal, where that is more than its block.
    fn below_terminal(&mut self, depth: u32, cid: Cid, query: &Query) -> Result<(), Stop> {
        let opened = self.open(depth, cid, Position::Top)?;
        match query.scope() {
            Scope::All => self.all(depth, &opened),
            _ => self.entity(depth, &opened, query.span()),
        }
    }

    /// The content of a terminal that is a file, or the range of it; the target of a symbolic link; or the listing of a
    /// directory.
    fn entity(&mut self, depth: u32, opened: &Opened<'a>, span: Option<Span>) -> Result<(), Stop> {
        match &opened.kind {
            Kind::Raw | Kind::File { .. } => {
                let range = span.map(|span| bounds(&span, total(opened)));
                self.content(depth, opened, 0, range)
            }
            Kind::Symlink { target } => Ok(self.say(target.as_slice())?),
            Kind::Basic { .. } | Kind::Shard { .. } => self.listing(depth, opened),
        }
    }

    /// The listing of a directory.
    fn listing(&mut self, depth: u32, opened: &Opened<'a>) -> Result<(), Stop> {
        let mut entries = Vec::new(self.alloc);
        match self.list(depth, opened, &[], &mut entries) {
            Ok(()) => Ok(self.say_listing(entries.as_slice())?),
            stopped => stopped,
        }
    }

    /// The content of a terminal that is a file, the target of a symbolic link, or the bundle of a directory.
    fn all(&mut self, depth: u32, opened: &Opened<'a>) -> Result<(), Stop> {
        match &opened.kind {
            Kind::Raw | Kind::File { .. } => self.content(depth, opened, 0, None),
            Kind::Symlink { target } => Ok(self.say(target.as_slice())?),
            Kind::Basic { .. } | Kind::Shard { .. } => self.bundle(depth, opened, &[], "/"),
        }
    }

    /// The content of a file, of which `from` bytes of the terminal's content stand before it: all of it, or the bytes
    /// of it in a range of the terminal's content.
    fn content(
        &mut self,
        depth: u32,
        opened: &Opened<'a>,
        from: u64,
        range: Option<(u64, u64)>,
    ) -> Result<(), Stop> {
        let left = deeper(depth)?;
        let own = own_bytes(opened);
        self.say_range(own, from, range)?;
        let mut from = from.saturating_add(own.len() as u64);
        for part in parts_of(&opened.kind) {
            if is_asked(from, part.size, range) {
                let below = self.open(left, part.cid, Position::Part)?;
                self.content(left, &below, from, range)?;
            }
            from = from.saturating_add(part.size);
        }
        Ok(())
    }

    /// The entries of a directory, those of child shards with them. `above` are the slots that were passed.
    fn list(
        &mut self,
        depth: u32,
        opened: &Opened<'a>,
        above: &[u8],
        entries: &mut Vec<Named>,
    ) -> Result<(), Stop> {
        let left = deeper(depth)?;
        put_named(self.alloc, &opened.kind, entries)?;
        for slot in slots_of(&opened.kind) {
            if slot.name.is_none() {
                let (passed, below) = self.open_child(left, slot, above)?;
                self.list(left, &below, passed.as_slice(), entries)?;
            }
        }
        Ok(())
    }

    /// The records of what stands at a path of a bundle. `above` are the slots that were passed, and a child shard has
    /// no record of its own.
    fn bundle(
        &mut self,
        depth: u32,
        opened: &Opened<'a>,
        above: &[u8],
        path: &str,
    ) -> Result<(), Stop> {
        let left = deeper(depth)?;
        self.say_record(depth, opened, above, path)?;
        for number in 0..width(&opened.kind) {
            if let Some(link) = link_at(&opened.kind, number) {
                let below = self.open_link(left, link, above, path)?;
                self.bundle(
                    left,
                    &below.opened,
                    below.above.as_slice(),
                    below.path.as_str(),
                )?;
            }
        }
        Ok(())
    }

    /// The record of one block in a bundle.
    fn say_record(
        &mut self,
        depth: u32,
        opened: &Opened<'a>,
        above: &[u8],
        path: &str,
    ) -> Result<(), Stop> {
        match &opened.kind {
            Kind::Raw | Kind::File { .. } => self.say_file(depth, opened, path),
            Kind::Symlink { target } => Ok(self.say_link(target.as_slice(), path)?),
            Kind::Basic { .. } | Kind::Shard { .. } if above.is_empty() => {
                Ok(self.say_directory(path)?)
            }
            Kind::Basic { .. } | Kind::Shard { .. } => Ok(()),
        }
    }

    /// Adds the record of a file in a bundle.
    fn say_file(&mut self, depth: u32, opened: &Opened<'a>, path: &str) -> Result<(), Stop> {
        self.say_sized("file", total(opened), path)?;
        match self.content(depth, opened, 0, None) {
            Ok(()) => Ok(self.say_line("")?),
            stopped => stopped,
        }
    }

    /// The index of the stored block that the CID leads to, and the block. A CIDv0 leads to what its version 1 form
    /// does.
    fn found(&self, cid: Cid, depth: u32) -> Result<(usize, &'a [u8]), Stop> {
        for (index, stored) in self.stored.iter().enumerate() {
            if stored.cid.to_v1() == cid.to_v1() {
                return Ok((index, stored.block.as_slice()));
            }
        }
        Err(Stop::End(End::Gone {
            cid,
            depth: from_root(depth),
        }))
    }

    /// Reads the block that the CID leads to and sends it, if it may stand there.
    fn open(&mut self, depth: u32, cid: Cid, position: Position<'_>) -> Result<Opened<'a>, Stop> {
        let (index, block) = self.found(cid, depth)?;
        match read_at(self.alloc, &cid, block, position) {
            Ok(kind) => {
                self.send(cid, index, block)?;
                Ok(Opened { kind, block })
            }
            Err(fault) => Err(unread(cid, depth, fault)),
        }
    }

    /// Opens what a link of the directory at a path of a bundle leads to.
    fn open_link(
        &mut self,
        depth: u32,
        link: Link<'_>,
        above: &[u8],
        path: &str,
    ) -> Result<Below<'a>, Stop> {
        match link {
            Link::Entry(name, cid) => {
                let path = joined(self.alloc, path, name)?;
                let opened = self.open(depth, cid, Position::Top)?;
                let above = Vec::new(self.alloc);
                Ok(Below {
                    opened,
                    above,
                    path,
                })
            }
            Link::Child(slot) => {
                let path = String::from_str(self.alloc, path)?;
                let (above, opened) = self.open_child(depth, slot, above)?;
                Ok(Below {
                    opened,
                    above,
                    path,
                })
            }
        }
    }

    /// Opens the child shard in a slot; with it, the slots that were passed before it, and this one.
    fn open_child(
        &mut self,
        depth: u32,
        slot: &Slot,
        above: &[u8],
    ) -> Result<(Vec<u8>, Opened<'a>), Stop> {
        let passed = with_slot(self.alloc, above, slot.slot)?;
        let opened = self.open(depth, slot.cid, Position::Child(passed.as_slice()))?;
        Ok((passed, opened))
    }

    /// Sends a block, but not again where each is sent once, and none of an identity CID but for a raw query.
    fn send(&mut self, cid: Cid, index: usize, block: &[u8]) -> Result<(), AllocError> {
        if !self.raw && cid.hash_kind() == HashKind::Identity {
            return Ok(());
        }
        if !self.repeats && self.is_sent(cid) {
            return Ok(());
        }
        let size = block.len() as u64;
        self.sent.push(Sent { cid, index, size })
    }

    /// Whether a block was sent under the CID.
    fn is_sent(&self, cid: Cid) -> bool {
        for sent in self.sent.as_slice() {
            if sent.cid == cid {
                return true;
            }
        }
        false
    }

    /// Adds bytes to the text.
    fn say(&mut self, bytes: &[u8]) -> Result<(), AllocError> {
        self.text.push_all(bytes)
    }

    /// Adds a line to the text.
    fn say_line(&mut self, line: &str) -> Result<(), AllocError> {
        self.say(line.as_bytes())?;
        self.say(b"\n")
    }

    /// Adds the line of what has a size in a bundle.
    fn say_sized(&mut self, sort: &str, size: u64, path: &str) -> Result<(), AllocError> {
        self.say_line(format!(in self.alloc; "{sort} {size} {path}")?.as_str())
    }

    /// Adds the line of a directory in a bundle.
    fn say_directory(&mut self, path: &str) -> Result<(), AllocError> {
        self.say_line(format!(in self.alloc; "dir {path}")?.as_str())
    }

    /// Adds the record of a symbolic link in a bundle.
    fn say_link(&mut self, target: &[u8], path: &str) -> Result<(), AllocError> {
        self.say_sized("link", target.len() as u64, path)?;
        self.say(target)?;
        self.say_line("")
    }

    /// Adds those bytes to the text that are in the range, of which the first is at `from`.
    fn say_range(
        &mut self,
        bytes: &[u8],
        from: u64,
        range: Option<(u64, u64)>,
    ) -> Result<(), AllocError> {
        let Some((low, high)) = range else {
            return self.say(bytes);
        };
        for (index, byte) in bytes.iter().enumerate() {
            let at = from.saturating_add(index as u64);
            if low <= at && at < high {
                self.say(&[*byte])?;
            }
        }
        Ok(())
    }

    /// Adds the listing of sorted entries to the text.
    fn say_listing(&mut self, entries: &[Named]) -> Result<(), AllocError> {
        for entry in entries {
            self.say_cid(entry.cid)?;
            self.say(b" ")?;
            self.say_name(entry.name.as_slice())?;
        }
        Ok(())
    }

    /// Adds the text of a CID to the text.
    fn say_cid(&mut self, cid: Cid) -> Result<(), AllocError> {
        self.say(cid.to_text(self.alloc)?.as_slice())
    }

    /// Adds the name of an entry, as a line, to the text.
    fn say_name(&mut self, name: &[u8]) -> Result<(), AllocError> {
        self.say_line(escaped(self.alloc, name)?.as_str())
    }
}

/// The kind of a block that may stand at the position.
fn read_at(
    alloc: Global,
    cid: &Cid,
    block: &[u8],
    position: Position<'_>,
) -> Result<Kind, BlockFault> {
    let kind = reads(alloc, cid, block)?;
    stands(&kind, position)?;
    Ok(kind)
}

/// Why an evaluation stops at a block that isn't read, from which on so many blocks might be opened.
fn unread(cid: Cid, depth: u32, fault: BlockFault) -> Stop {
    match fault {
        BlockFault::OutOfMemory => Stop::Fault(EvaluationFault::OutOfMemory),
        _ => bad_block(cid, depth, fault),
    }
}

/// The stop at a block with this fault, from which on so many blocks might be opened.
fn bad_block(cid: Cid, depth: u32, fault: BlockFault) -> Stop {
    Stop::End(End::BadBlock {
        cid,
        depth: from_root(depth),
        fault,
    })
}

/// How many blocks there are from the root to one, both counted, from which on so many may be opened.
fn from_root(depth: u32) -> u32 {
    DEPTH.saturating_sub(depth).saturating_add(1)
}

/// One block less deep to go.
fn deeper(depth: u32) -> Result<u32, Stop>
    ensures { IfOk result (λ left. left < depth) }
{
    match depth {
        0 => Err(Stop::Fault(EvaluationFault::TooDeep)),
        _ => Ok(depth - 1),
    }
}

/// Where a segment of a path leads: to an entry, or through a slot to a child shard.
#[derive(Clone, Copy)]
enum Way {
    Entry(Cid),
    Child(Cid, u8),
}

/// Where the segment `at` of a path leads from a block that is `level` shards below an entry.
fn link_for(kind: &Kind, level: usize, name: &[u8], at: u64) -> Result<Way, Stop> {
    let way = match kind {
        Kind::Basic { entries } => entry_named(entries.as_slice(), name),
        Kind::Shard { slots } => slot_for(slots.as_slice(), level, name),
        Kind::Raw | Kind::File { .. } | Kind::Symlink { .. } => {
            return Err(Stop::End(End::NotFolder { at }));
        }
    };
    way.ok_or(Stop::End(End::NotThere { at }))
}

/// The way to the first entry with this name.
fn entry_named(entries: &[Entry], name: &[u8]) -> Option<Way> {
    for entry in entries {
        if entry.name.as_slice() == name {
            return Some(Way::Entry(entry.cid));
        }
    }
    None
}

/// The way through the first slot that is the name's at this level.
fn slot_for(slots: &[Slot], level: usize, name: &[u8]) -> Option<Way> {
    for slot in slots {
        if hash64(name).to_be_bytes().get(level) == Some(&slot.slot) {
            return way_through(slot, name);
        }
    }
    None
}

/// The way to a child shard, or to an entry with this name.
fn way_through(slot: &Slot, name: &[u8]) -> Option<Way> {
    match &slot.name {
        Some(other) if other.as_slice() == name => Some(Way::Entry(slot.cid)),
        Some(_) => None,
        None => Some(Way::Child(slot.cid, slot.slot)),
    }
}

/// The position behind the slots that were passed since the entry.
fn position_behind(above: &[u8]) -> Position<'_> {
    if above.is_empty() {
        Position::Top
    } else {
        Position::Child(above)
    }
}

/// Whether a block of this kind may stand at the position; the first fault, where several hold.
fn stands(kind: &Kind, position: Position<'_>) -> Result<(), BlockFault> {
    match position {
        Position::Top => check_shard(kind, &[]),
        Position::Part => match kind {
            Kind::Raw | Kind::File { .. } => Ok(()),
            _ => {
                check_shard(kind, &[])?;
                Err(BlockFault::NotPart)
            }
        },
        Position::Child(above) => match kind {
            Kind::Shard { .. } => check_shard(kind, above),
            _ => Err(BlockFault::NotShard),
        },
    }
}

/// How many bytes of content a block declares: a raw block's length, a file's inline length and sizes together, or a
/// target's length.
fn total(opened: &Opened<'_>) -> u64 {
    match &opened.kind {
        Kind::Raw => opened.block.len() as u64,
        Kind::File { inline, parts, .. } => {
            let mut total = inline.as_slice().len() as u64;
            for part in parts.as_slice() {
                total = total.saturating_add(part.size);
            }
            total
        }
        Kind::Symlink { target } => target.as_slice().len() as u64,
        Kind::Basic { .. } | Kind::Shard { .. } => 0,
    }
}

/// The bytes of a file's content that a block has itself.
fn own_bytes<'o>(opened: &'o Opened<'_>) -> &'o [u8] {
    match &opened.kind {
        Kind::File { inline, .. } => inline.as_slice(),
        _ => opened.block,
    }
}

/// The parts of a file.
fn parts_of(kind: &Kind) -> &[Part] {
    match kind {
        Kind::File { parts, .. } => parts.as_slice(),
        _ => &[],
    }
}

/// The entries of a directory that is no shard.
fn entries_of(kind: &Kind) -> &[Entry] {
    match kind {
        Kind::Basic { entries } => entries.as_slice(),
        _ => &[],
    }
}

/// The slots of a shard.
fn slots_of(kind: &Kind) -> &[Slot] {
    match kind {
        Kind::Shard { slots } => slots.as_slice(),
        _ => &[],
    }
}

/// Whether a part of `size` bytes that begins at `from` is asked for.
fn is_asked(from: u64, size: u64, range: Option<(u64, u64)>) -> bool {
    match range {
        Some((low, high)) => is_met(from, size, low, high),
        None => true,
    }
}

/// The slots that were passed, and this one.
fn with_slot(alloc: Global, above: &[u8], slot: u8) -> Result<Vec<u8>, AllocError> {
    let mut passed = Vec::from_slice(alloc, above)?;
    passed.push(slot)?;
    Ok(passed)
}

/// A link of a directory: the name and the CID of an entry, or the slot of a child shard.
#[derive(Clone, Copy)]
enum Link<'k> {
    Entry(&'k [u8], Cid),
    Child(&'k Slot),
}

/// How many links a directory's block has.
fn width(kind: &Kind) -> usize {
    entries_of(kind).len().max(slots_of(kind).len())
}

/// The link of a directory's block with this number.
fn link_at(kind: &Kind, number: usize) -> Option<Link<'_>> {
    match slots_of(kind).get(number) {
        Some(slot) => Some(link_in(slot)),
        None => match entries_of(kind).get(number) {
            Some(entry) => Some(Link::Entry(entry.name.as_slice(), entry.cid)),
            None => None,
        },
    }
}

/// The link in a slot.
fn link_in(slot: &Slot) -> Link<'_> {
    match &slot.name {
        Some(name) => Link::Entry(name.as_slice(), slot.cid),
        None => Link::Child(slot),
    }
}

/// Puts the entries that a directory's block has itself among sorted ones.
fn put_named(alloc: Global, kind: &Kind, entries: &mut Vec<Named>) -> Result<(), AllocError> {
    for entry in entries_of(kind) {
        put_sorted(alloc, entries, entry.name.as_slice(), entry.cid)?;
    }
    for slot in slots_of(kind) {
        if let Some(name) = &slot.name {
            put_sorted(alloc, entries, name.as_slice(), slot.cid)?;
        }
    }
    Ok(())
}

/// Puts an entry before the first one with a greater name.
fn put_sorted(
    alloc: Global,
    entries: &mut Vec<Named>,
    name: &[u8],
    cid: Cid,
) -> Result<(), AllocError> {
    let mut at = 0;
    for entry in entries.as_slice() {
        if entry.name.as_slice() < name {
            at += 1;
        }
    }
    let name = Bytes::of(alloc, name)?;
    entries.insert(at, Named { name, cid })?;
    Ok(())
}
