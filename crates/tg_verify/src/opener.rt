//! Blocks that are opened at their places.
ghost use Rattle.std.specs.Prelude.{◌≡◌, ◌≢◌, ◌++◌, ◌+◌, [], ℕ, List as Items, None, Option, Some, IfOk, MatchResult};
ghost use Rattle.std.specs.Prelude.{IfSome, OnErr, OnOk, length};
ghost use Rattle.tg_model.specs.Dag.{Section};
ghost use Rattle.tg_model.specs.Placed.{StandsForKind};
ghost use Rattle.tg_model.specs.Traversal.{ListedEntry, is_asked};
ghost use Rattle.tg_model.specs.declared.kinds.Kind.{Kind};
ghost use Rattle.tg_streams.specs.Gathering.{Gave};
ghost use Rattle.tg_streams.specs.Streams.{OutputQuiet, Put, PutFront, into};
ghost use Rattle.tg_traversal.specs.BlocksLeft.{HasFewer};
ghost use Rattle.tg_traversal.specs.Left.{WantedAt, tasks_left, told_wanted};
ghost use Rattle.tg_traversal.specs.Places.{is_terminal};
ghost use Rattle.tg_model_laws.specs.Stages.{nothing_given};
ghost use Rattle.tg_model_laws.specs.Tasks.{start};
ghost use Rattle.tg_verify.specs.Counting.{HasCounted, HasMet, blocks_added, bytes_added, reused_added};
ghost use Rattle.tg_verify.specs.State.{told};
ghost use Rattle.tg_verify.specs.Steps.{HasOpenCause, IsOpenedHere, IsPassingHere, IsPlaced, IsPlacedAt, IsSameOpener};
ghost use Rattle.tg_verify.specs.Steps.{IsToldBehind, PutEnds, section_with};
ghost use Rattle.tg_verify.specs.Terminals.{terminal_behind};

use crate::checking::limit;
use crate::counts::{Counts, Source};
use crate::fault::Refusal;
use crate::terminal::{Terminal, terminal_of};
use std::alloc::{AllocError, Global};
use std::marker::Model;
use tg_bytes::{Bytes, List};
use tg_cid::Cid;
use tg_faults::Failed;
use tg_listing::ListingLine;
use tg_model::{LimitKind, Limits, PlacedKind, Query, Scope};
use tg_streams::{Gathering, Sink, put_all};
use tg_traversal::{Frames, PlaceText, SharedBlock, Wanted};

/// Opens the blocks that a query asks for at their places, one after another, and puts what they say. It holds of a
/// listing the lines, counts what the limits count, and tells what the path leads to once that block was opened.
#[derive(Drop)]
pub(crate) struct Opener {
    pub(crate) alloc: Global,
    pub(crate) frames: Frames,
    pub(crate) scope: Scope,
    pub(crate) limits: Limits,
    pub(crate) lines: List<ListingLine>,
    pub(crate) counts: Counts,
    pub(crate) terminal: Option<Terminal>,
    pub(crate) gathering: Gathering,
}

/// What a block says, up to the next place: a line, bytes of the block, and ends of lines.
#[derive(Drop)]
pub(crate) struct Said<'a> {
    pub(crate) text: PlaceText<'a>,
    pub(crate) ends: Bytes,
}

impl Model for Opener {
    ghost use Rattle.std.specs.Prelude.{◌≡◌, []};
    ghost use Rattle.tg_verify.specs.State.{OpenerState};

    ghost Value = { OpenerState };

    ghost view = { λ o. record {
      left = o.frames;
      limits = o.limits;
      lines = o.lines;
      counts = o.counts;
      terminal = o.terminal;
    } };

    ghost invariant = { λ o. (o.scope ≡ o.frames.query.scope) × (o.gathering ≡ []) };
}

impl Opener {
    /// The opener for a query, before its first block. The error is want of memory.
    pub(crate) fn new(alloc: Global, query: &Query, limits: Limits) -> Result<Opener, AllocError>
        ensures query { IfOk result (λ o. o.left.query ≡ query.now) }
        ensures limits { IfOk result (λ o. o.limits ≡ limits) }
        ensures start { IfOk result (λ o. tasks_left o.left ≡ start query.now query.now.root) }
        ensures wanted { IfOk result (λ o. o.left.wanted ≢ None) }
        ensures lines { IfOk result (λ o. o.lines ≡ []) }
        ensures counted { IfOk result (λ o. HasCounted query.now o.counts nothing_given) }
        ensures terminal { IfOk result (λ o. o.terminal ≡ None) }
    {
        Ok(Opener {
            alloc,
            frames: Frames::new(alloc, query)?,
            scope: query.scope(),
            limits,
            lines: List::new(alloc),
            counts: Counts::new(alloc),
            terminal: None,
            gathering: Gathering::new(alloc)?,
        })
    }

    /// The place that is wanted now. It takes no memory.
    pub(crate) fn wanted(&self) -> Option<Wanted>
        ensures { result ≡ told_wanted self.now.left.wanted }
    {
        self.frames.wanted()
    }

    /// Whether a section under the CID is asked for.
    pub(crate) fn asks(&self, cid: &Cid) -> bool
        ensures { result ≡ is_asked self.now.left.query cid.now }
    {
        self.frames.query().asks(cid)
    }

    /// Opens the block from this source at the wanted place, which has this CID, and puts what it says and what comes
    /// up to the next place.
    ///
    /// Errors, the first of these checks that fails: `Limit` of kind `Depth`; `BadBlock`; `BadSize`; `NotFolder` and
    /// `NotThere` where a segment of the path leads nowhere behind it; `Limit` of another kind; and `OutOfMemory`; and
    /// `SinkFault`, with which a front of it is put, and with the others nothing.
    pub(crate) fn place<S: Sink>(
        &mut self,
        cid: &Cid,
        block: &SharedBlock,
        source: Source,
        out: &mut S,
    ) -> Result<(), Refusal>
        requires here { (at : WantedAt) × (self.old.left.wanted ≡ Some at) × (at.cid ≡ cid.now) }
        ensures same { IsSameOpener self.old self.new }
        ensures placed { (at : WantedAt) → self.old.left.wanted ≡ Some at
            → IsPlacedAt self.old at (section_with cid.now block.now) source (into S.sink out.old out.new) self.new result }
        // What the path leads to is told with the terminal's block, and stays.
        ensures terminal { (at : WantedAt) → self.old.left.wanted ≡ Some at
            → IsToldBehind self.old at (section_with cid.now block.now) self.new.terminal }
        ensures told { IfSome self.old.terminal (λ t. self.new.terminal ≡ Some t) }
        ensures fewer { OnOk result (HasFewer self.old.left self.new.left) }
    {
        let said = self.prepare(cid, block, source)?;
        put_from(
            &mut self.gathering,
            out,
            said.text.line.as_slice(),
            said.text.bytes,
            said.ends.as_slice(),
        )
    }

    /// Opens the block there without a put, and tells what is to be put. Errors: those of `place` but `SinkFault`.
    fn prepare<'a>(
        &mut self,
        cid: &Cid,
        block: &'a SharedBlock,
        source: Source,
    ) -> Result<Said<'a>, Refusal>
        requires here { (at : WantedAt) × (self.old.left.wanted ≡ Some at) × (at.cid ≡ cid.now) }
        ensures same { IsSameOpener self.old self.new }
        ensures placed { (at : WantedAt) → self.old.left.wanted ≡ Some at → MatchResult result
            (λ said. IsPlaced self.old at (section_with cid.now block.now) source
            (said.text.line ++ (said.text.bytes.now ++ said.ends)) self.new)
            (λ fault. HasOpenCause self.old at (section_with cid.now block.now) source fault) }
        ensures terminal { (at : WantedAt) → self.old.left.wanted ≡ Some at
            → IsToldBehind self.old at (section_with cid.now block.now) self.new.terminal }
        ensures told { IfSome self.old.terminal (λ t. self.new.terminal ≡ Some t) }
        ensures fewer { OnOk result (HasFewer self.old.left self.new.left) }
    {
        let found = self.checked(cid, block.as_slice())?;
        let text = self.open(found, block)?;
        let mut ends = Bytes::new(self.alloc);
        self.gather(&mut ends)?;
        let said = Said { text, ends };
        self.count(&said, block.as_slice(), source);
        match self.counts.passed(&self.limits) {
            None => Ok(said),
            Some(kind) => Err(limit(kind, self.limits.number(kind))),
        }
    }

    /// Tells what the block at the wanted place says itself, and opens it there; where it is the terminal's and is read,
    /// what the path leads to is told from then on. The error is want of memory.
    fn open<'a>(
        &mut self,
        found: Option<PlacedKind>,
        block: &'a SharedBlock,
    ) -> Result<PlaceText<'a>, AllocError>
        requires here { (at : WantedAt) × (section : Section) × (kind : Option Kind)
            × IsPassingHere self.old at section kind found × (section.block ≡ block.now) }
        ensures same { IsSameOpener self.old self.new }
        ensures lines { self.new.lines ≡ self.old.lines }
        ensures counts { self.new.counts ≡ self.old.counts }
        ensures opened { (at : WantedAt) (section : Section) (kind : Option Kind)
            → IsPassingHere self.old at section kind found → section.block ≡ block.now
            → IfOk result (λ text. IsOpenedHere self.old at section kind (text.line ++ text.bytes.now) self.new) }
        ensures terminal { (at : WantedAt) (section : Section) (kind : Option Kind)
            → IsPassingHere self.old at section kind found → OnOk result (self.new.terminal
            ≡ terminal_behind self.old.terminal (is_terminal at.want) kind) }
        ensures untold { OnErr result (self.new.terminal ≡ self.old.terminal) }
        ensures told { IfSome self.old.terminal (λ t. self.new.terminal ≡ Some t) }
        ensures fewer { OnOk result (HasFewer self.old.left self.new.left) }
    {
        let Some(found) = found else {
            self.frames.pass();
            return Ok(PlaceText {
                line: Bytes::new(self.alloc),
                bytes: block.as_slice(),
            });
        };
        let text = self.frames.text(self.alloc, &found, block.as_slice())?;
        // The limit is at most the standard one, so that what lies below has a depth, too.
        let _deepest = self.limits.number(LimitKind::Depth);
        let terminal = self.told_with(&found);
        self.frames.open(found, block)?;
        self.terminal = terminal;
        Ok(text)
    }

    /// What the path leads to, where it was told before, or where this was read at the wanted place and it is the
    /// terminal.
    fn told_with(&self, found: &PlacedKind) -> Option<Terminal>
        ensures terminal { (at : WantedAt) (block : Items ℕ) (kind : Kind) → self.now.left.wanted ≡ Some at
            → StandsForKind block found.now kind
            → result ≡ terminal_behind self.now.terminal (is_terminal at.want) (Some kind) }
        ensures told { IfSome self.now.terminal (λ t. result ≡ Some t) }
    {
        if self.terminal.is_none() && self.frames.is_at_terminal() {
            return Some(terminal_of(found));
        }
        self.terminal
    }

    /// Counts a block from this source that is opened, and what is said with it.
    fn count(&mut self, said: &Said<'_>, block: &[u8], source: Source)
        ensures left { self.new.left ≡ self.old.left }
        ensures limits { self.new.limits ≡ self.old.limits }
        ensures lines { self.new.lines ≡ self.old.lines }
        ensures terminal { self.new.terminal ≡ self.old.terminal }
        ensures output { self.new.counts.output ≡ told (self.old.counts.output
            + length (said.now.text.line ++ (said.now.text.bytes.now ++ said.now.ends))) }
        ensures seen_blocks { self.new.counts.seen_blocks ≡ told (self.old.counts.seen_blocks
            + blocks_added self.old.left.query.dups source) }
        ensures seen_bytes { self.new.counts.seen_bytes ≡ told (self.old.counts.seen_bytes
            + bytes_added self.old.left.query.dups source block.now) }
        ensures reused { self.new.counts.reused ≡ told (self.old.counts.reused
            + reused_added self.old.left.query.dups source) }
        ensures met { (met : Items ListedEntry) → HasMet self.old.counts met → HasMet self.new.counts met }
    {
        self.counts.say(said.text.line.as_slice().len() as u64);
        self.counts.say(said.text.bytes.len() as u64);
        self.counts.say(said.ends.as_slice().len() as u64);
        self.counts.open(self.frames.query().dups(), source, block);
    }
}

/// Puts a line, bytes, and ends of lines, through a room in which nothing is gathered. The error is a fault of out, which
/// then has a front of them.
fn put_from<S: Sink>(
    gathering: &mut Gathering,
    out: &mut S,
    line: &[u8],
    bytes: &[u8],
    ends: &[u8],
) -> Result<(), Refusal>
    requires { gathering.old ≡ [] }
    ensures put { PutEnds (line.now ++ (bytes.now ++ ends.now)) (into S.sink out.old out.new) result }
    ensures nothing { gathering.new ≡ [] }
{
    match put_together(gathering, out, line, bytes, ends) {
        Ok(()) => Ok(()),
        Err(_) => Err(Refusal::SinkFault),
    }
}

/// Puts a line, bytes, and ends of lines: as one piece where all fit into the room, and the bytes from where they lie
/// where they stand alone. The error is a fault of out, which then has a front of them.
fn put_together<S: Sink>(
    gathering: &mut Gathering,
    out: &mut S,
    line: &[u8],
    bytes: &[u8],
    ends: &[u8],
) -> Result<(), Failed>
    requires { gathering.old ≡ [] }
    ensures put { OnOk result (Put (line.now ++ (bytes.now ++ ends.now)) (into S.sink out.old out.new)) }
    ensures quiet { OnOk result (OutputQuiet (into S.sink out.old out.new)) }
    ensures err_front { OnErr result (PutFront (line.now ++ (bytes.now ++ ends.now)) (into S.sink out.old out.new)) }
    ensures nothing { gathering.new ≡ [] }
{
    if line.is_empty() && ends.is_empty() {
        return put_all(out, bytes);
    }
    give_three(gathering, out, line, bytes, ends)?;
    gathering.put_out(out)
}

/// Gives three pieces. The error is a fault of out, which then has a front of them.
fn give_three<S: Sink>(
    gathering: &mut Gathering,
    out: &mut S,
    line: &[u8],
    bytes: &[u8],
    ends: &[u8],
) -> Result<(), Failed>
    requires { gathering.old ≡ [] }
    ensures gave { OnOk result (Gave (line.now ++ (bytes.now ++ ends.now)) [] gathering.new
        (into S.sink out.old out.new)) }
    ensures err_front { OnErr result (PutFront (line.now ++ (bytes.now ++ ends.now)) (into S.sink out.old out.new)) }
    ensures err_nothing { OnErr result (gathering.new ≡ []) }
{
    gathering.give(out, line)?;
    gathering.give(out, bytes)?;
    gathering.give(out, ends)
}
