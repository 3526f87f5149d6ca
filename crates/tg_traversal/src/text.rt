//! What the block at the wanted place says itself: its text there, and its sizes.
ghost use Rattle.std.specs.Prelude.{◌≡◌, ◌++◌, ◌∷◌, [], ℕ, IfOk, List as Items, OnErr, decimal};
ghost use Rattle.tg_bytes.specs.Ascii.{line_feed, space};
ghost use Rattle.tg_traversal.specs.Left.{WantedAt};
ghost use Rattle.tg_traversal.specs.PlaceTexts.{IsBlockAt, IsBlockHere, IsBundled, IsDiffering, IsFirstRecord};
ghost use Rattle.tg_traversal.specs.PlaceTexts.{IsRecordAt, IsSizeFault, content_size, part_size, standing_at};
ghost use Rattle.tg_traversal.specs.PlaceTexts.{told_size};
ghost use Rattle.tg_traversal.specs.Places.{reach_of, standing_of};
ghost use Rattle.tg_model.specs.Dag.{Section};
ghost use Rattle.tg_model.specs.Sound.{top};
ghost use Rattle.tg_model.specs.Texts.{dir_line};
ghost use Rattle.tg_model.specs.Traversal.{all_reach, between, entity_reach, own_text, record_line, text_before};
ghost use Rattle.tg_model.specs.declared.kinds.Kind.{Kind};
ghost use Rattle.tg_model_laws.specs.Tasks.{position_of, terminal_text_before, text_at};

use crate::frames::Frames;
use crate::position::{Ask, Position, Reach};
use itoa::Buffer;
use std::alloc::{AllocError, Global};
use tg_bytes::Bytes;
use tg_model::{PlacedKind, Query, Scope, Span, resolve_span};

/// The text that a block adds where it stands: the line before a record of a bundle, which is empty elsewhere, and
/// behind it bytes of the block.
#[derive(Drop)]
pub struct PlaceText<'a> {
    /// The first line of the block's record in a bundle.
    pub line: Bytes,
    /// Bytes of the block.
    pub bytes: &'a [u8],
}

/// Two sizes of a file that disagree: the one that is declared, and the one that it has.
///
/// UnixFS specification, File.
#[derive(Clone, Copy)]
pub struct SizeFault {
    /// The size that the parent declares, or the filesize.
    pub declared: u64,
    /// The inline length and the blocksizes together, or the length of a raw block.
    pub actual: u64,
}

impl Frames {
    /// The text that the block at the place that is wanted now adds, read there as `found`: a file's own bytes or those
    /// of them that are asked for, a symbolic link's target, and before them the line of a record where all below a
    /// directory is asked for. Of a terminal of which the block alone is asked for it is the block.
    ///
    /// Trustless Gateway specification, dag-scope and entity-bytes; the lines are this project's own. The error is want
    /// of memory, which only a line takes.
    pub fn text<'a>(
        &self,
        alloc: Global,
        found: &PlacedKind,
        block: &'a [u8],
    ) -> Result<PlaceText<'a>, AllocError>
        requires { (at : WantedAt) × (section : Section) × (kind : Kind)
            × IsBlockHere self.now at section kind found.now block.now }
        ensures text { (at : WantedAt) (section : Section) (kind : Kind)
            → IsBlockHere self.now at section kind found.now block.now
            → IfOk result (λ text. text.line ++ text.bytes.now ≡ text_at self.now.query at.want section kind) }
        ensures err { (at : WantedAt) (section : Section) (kind : Kind)
            → IsBlockHere self.now at section kind found.now block.now
            → OnErr result (IsRecordAt self.now.query at.want kind) }
    {
        let Some(place) = &self.wanted else {
            unreachable!();
        };
        match &place.ask {
            Ask::Segment(..) => Ok(PlaceText::without_line(alloc, &[])),
            Ask::Terminal => terminal_text(alloc, &self.query, found, block),
            Ask::Node(reach, position) => node_text(alloc, reach, position, found, block),
        }
    }

    /// Where the sizes that are told of the block at the place that is wanted now, read there as `found`, disagree with
    /// its own: first the one that its parent declares, then a file's filesize. It takes no memory.
    ///
    /// UnixFS specification, File.
    pub fn size_fault(&self, found: &PlacedKind, block: &[u8]) -> Option<SizeFault>
        ensures { (at : WantedAt) (section : Section) (kind : Kind)
            → IsBlockHere self.now at section kind found.now block.now
            → IsSizeFault (position_of at.want) section kind result }
    {
        let place = self.wanted.as_ref()?;
        let actual = content_size(found, block)?;
        differing(part_size(&place.ask), actual).or(differing(filesize(found), actual))
    }
}

impl PlaceText<'_> {
    /// These bytes, before which there is no line. It takes no memory.
    fn without_line(alloc: Global, bytes: &[u8]) -> PlaceText<'_>
        ensures line { result.line ≡ [] }
        ensures bytes { result.bytes.now ≡ bytes.now }
    {
        PlaceText {
            line: Bytes::new(alloc),
            bytes,
        }
    }
}

/// The text of a terminal. The error is want of memory, which only the line of a directory takes.
///
/// Trustless Gateway specification, dag-scope and entity-bytes.
fn terminal_text<'a>(
    alloc: Global,
    query: &Query,
    found: &PlacedKind,
    block: &'a [u8],
) -> Result<PlaceText<'a>, AllocError>
    requires { (section : Section) × (kind : Kind) × IsBlockAt section kind found.now block.now }
    ensures text { (section : Section) (kind : Kind) → IsBlockAt section kind found.now block.now
        → IfOk result (λ text. text.line
        ++ text.bytes.now ≡ terminal_text_before query.now.scope query.now.span section kind) }
    ensures err { (section : Section) (kind : Kind) → IsBlockAt section kind found.now block.now
        → OnErr result (IsFirstRecord query.now.scope kind) }
{
    match query.scope() {
        Scope::Block => Ok(PlaceText::without_line(alloc, block)),
        Scope::Entity => {
            let bytes = asked_bytes(query.span(), found, block);
            Ok(PlaceText::without_line(alloc, bytes))
        }
        Scope::All => Ok(PlaceText {
            line: first_line(alloc, found)?,
            bytes: own_bytes(found, block),
        }),
    }
}

/// The first line of a bundle, where the terminal is a directory; of any other there is none. The error is want of
/// memory.
fn first_line(alloc: Global, found: &PlacedKind) -> Result<Bytes, AllocError>
    ensures line { (block : Items ℕ) (section : Section) (kind : Kind) → IsBlockAt section kind found.now block
        → IfOk result (λ line. line ++ own_text section kind ≡ text_before (all_reach kind) top section kind) }
    ensures err { (block : Items ℕ) (section : Section) (kind : Kind) → IsBlockAt section kind found.now block
        → OnErr result (IsBundled (all_reach kind)) }
{
    match found {
        PlacedKind::Basic { .. } | PlacedKind::Shard { .. } => directory_line(alloc, b"/"),
        PlacedKind::Raw | PlacedKind::File(_) | PlacedKind::Symlink { .. } => Ok(Bytes::new(alloc)),
    }
}

/// The bytes of a terminal that are asked for: of a file those of the range, where one is given.
///
/// Trustless Gateway specification, entity-bytes: a range is ignored where the terminal isn't a file.
fn asked_bytes<'a>(span: Option<Span>, found: &PlacedKind, block: &'a [u8]) -> &'a [u8]
    requires { (section : Section) × (kind : Kind) × IsBlockAt section kind found.now block.now }
    ensures { (section : Section) (kind : Kind) → IsBlockAt section kind found.now block.now
        → result.now ≡ text_before (entity_reach span section kind) top section kind }
{
    let bytes = own_bytes(found, block);
    let Some(span) = span else {
        return bytes;
    };
    let Some(total) = content_size(found, block) else {
        return bytes;
    };
    let (low, high) = resolve_span(&span, total);
    between(bytes, low, high)
}

/// The text of a node below a terminal, of which so much is asked. The error is want of memory, which only a line
/// takes.
///
/// Trustless Gateway specification, dag-scope and entity-bytes.
fn node_text<'a>(
    alloc: Global,
    reach: &Reach,
    position: &Position,
    found: &PlacedKind,
    block: &'a [u8],
) -> Result<PlaceText<'a>, AllocError>
    requires { (section : Section) × (kind : Kind) × IsBlockAt section kind found.now block.now }
    ensures text { (section : Section) (kind : Kind) → IsBlockAt section kind found.now block.now
        → IfOk result (λ text. text.line
        ++ text.bytes.now ≡ text_before (reach_of reach.now) (standing_of position.now) section kind) }
    ensures err { OnErr result (IsBundled (reach_of reach.now)) }
{
    let bytes = own_bytes(found, block);
    match reach {
        Reach::Bundled(path) => Ok(PlaceText {
            line: record_line(alloc, path.as_slice(), position, found, block)?,
            bytes,
        }),
        Reach::Entire => Ok(PlaceText::without_line(alloc, bytes)),
        Reach::Ranged(low, high) => {
            let bytes = between(bytes, *low, *high);
            Ok(PlaceText::without_line(alloc, bytes))
        }
        Reach::Listed => Ok(PlaceText::without_line(alloc, &[])),
    }
}

/// The line before the record of a block in a bundle, under this path; before a child of a shard there is none. The
/// error is want of memory.
fn record_line(
    alloc: Global,
    path: &[u8],
    position: &Position,
    found: &PlacedKind,
    block: &[u8],
) -> Result<Bytes, AllocError>
    requires { (section : Section) × (kind : Kind) × IsBlockAt section kind found.now block.now }
    ensures { (section : Section) (kind : Kind) → IsBlockAt section kind found.now block.now
        → IfOk result (λ line. line ≡ record_line (standing_of position.now) section kind path.now) }
{
    match (found, position) {
        (PlacedKind::Raw, _) => sized_line(alloc, b"file ", block.len() as u64, path),
        (PlacedKind::File(places), _) => sized_line(alloc, b"file ", places.total, path),
        (PlacedKind::Symlink { target }, _) => {
            sized_line(alloc, b"link ", (target.end - target.start) as u64, path)
        }
        (PlacedKind::Shard { .. }, Position::Child(_)) => Ok(Bytes::new(alloc)),
        (PlacedKind::Basic { .. } | PlacedKind::Shard { .. }, _) => directory_line(alloc, path),
    }
}

/// The line of a directory in a bundle. The error is want of memory.
fn directory_line(alloc: Global, path: &[u8]) -> Result<Bytes, AllocError>
    ensures { IfOk result (λ line. line ≡ dir_line path.now) }
{
    let mut line = Bytes::of(alloc, b"dir ")?;
    line.push_all(path)?;
    line.push_all(b"\n")?;
    Ok(line)
}

/// The line of a file or of a symbolic link in a bundle, with the size of its content or target. The error is want of
/// memory.
fn sized_line(alloc: Global, word: &[u8], size: u64, path: &[u8]) -> Result<Bytes, AllocError>
    ensures { IfOk result (λ line. line ≡ word.now ++ (decimal size ++ space ∷ (path.now ++ line_feed ∷ []))) }
{
    let mut line = Bytes::of(alloc, word)?;
    line.push_all(Buffer::new().format(size).as_bytes())?;
    line.push_all(b" ")?;
    line.push_all(path)?;
    line.push_all(b"\n")?;
    Ok(line)
}

/// What a block says itself: a raw block all of it, a file its inline bytes, and a symbolic link its target.
///
/// UnixFS specification, Data Format.
fn own_bytes<'a>(found: &PlacedKind, block: &'a [u8]) -> &'a [u8]
    requires { (section : Section) × (kind : Kind) × IsBlockAt section kind found.now block.now }
    ensures { (section : Section) (kind : Kind) → IsBlockAt section kind found.now block.now
        → result.now ≡ own_text section kind }
{
    match found {
        PlacedKind::Raw => block,
        PlacedKind::File(places) => &block[places.inline.start..places.inline.end],
        PlacedKind::Basic { .. } | PlacedKind::Shard { .. } => &[],
        PlacedKind::Symlink { target } => &block[target.start..target.end],
    }
}

/// The bytes from `low` up to `high`, as far as there are any.
fn between(bytes: &[u8], low: u64, high: u64) -> &[u8]
    ensures { result.now ≡ between low high bytes.now }
{
    let rest = &bytes[low.min(bytes.len() as u64) as usize..];
    let count = high.saturating_sub(low).min(rest.len() as u64) as usize;
    &rest[..count]
}

/// How many bytes of content a raw block or a file declares; any other block has no content.
///
/// UnixFS specification, File.
fn content_size(found: &PlacedKind, block: &[u8]) -> Option<u64>
    ensures { (section : Section) (kind : Kind) → IsBlockAt section kind found.now block.now
        → result ≡ content_size section kind }
{
    match found {
        PlacedKind::Raw => Some(block.len() as u64),
        PlacedKind::File(places) => Some(places.total),
        PlacedKind::Basic { .. } | PlacedKind::Shard { .. } | PlacedKind::Symlink { .. } => None,
    }
}

/// The size that its parent declares for a part of a file.
fn part_size(ask: &Ask) -> Option<u64>
    ensures { result ≡ part_size (standing_at ask.now) }
{
    match ask {
        Ask::Segment(_, Position::Part(size)) | Ask::Node(_, Position::Part(size)) => Some(*size),
        Ask::Segment(..) | Ask::Terminal | Ask::Node(..) => None,
    }
}

/// The size of all of its content that a file tells.
fn filesize(found: &PlacedKind) -> Option<u64>
    ensures { (block : Items ℕ) (section : Section) (kind : Kind) → IsBlockAt section kind found.now block
        → result ≡ told_size kind }
{
    match found {
        PlacedKind::File(places) => places.filesize,
        _ => None,
    }
}

/// A size that is told and isn't the one that the content has.
fn differing(declared: Option<u64>, actual: u64) -> Option<SizeFault>
    ensures { IsDiffering declared actual result }
{
    let declared = declared?;
    if declared == actual {
        return None;
    }
    Some(SizeFault { declared, actual })
}
