//! What a block is read as where it stands, without copies of its bytes.
ghost use Rattle.std.specs.Prelude.{◌≡◌, ℕ, ◌+◌, ◌-◌, ◌^◌, ◌⊎◌, min, sum, length, unwrap_or, Some, IfErr, IfOk};
ghost use Rattle.std.specs.Prelude.{MatchResult};
ghost use Rattle.tg_dagpb.specs.Computed.{node_of};
ghost use Rattle.tg_model.specs.Computed.{file_kind, kind_by, node_or_fault, read, read_under, symlink_kind};
ghost use Rattle.tg_model.specs.Computed.{unix_or_fault};
ghost use Rattle.tg_model.specs.InnerFaults.{IsNoWantOfMemory};
ghost use Rattle.tg_model.specs.Placed.{AreLinksAhead, AreSizesAhead, GivesPlaced, HasPartCursor, LieAt};
ghost use Rattle.tg_model.specs.Placed.{StandsForAnswer, StandsForKind};
ghost use Rattle.tg_model.specs.PlacedSteps.{AllAhead, AreDataPlaces, IsDataAt, IsNodeWith, block_cids, block_links};
ghost use Rattle.tg_model.specs.PlacedSteps.{data_unix, text_sizes};
ghost use Rattle.tg_model.specs.Reading.{Reads, inline_of};
ghost use Rattle.tg_model.specs.declared.fault.BlockFault.{BlockFault};
ghost use Rattle.tg_model.specs.declared.kinds.Kind.{Kind};
ghost use Rattle.tg_cid.specs.declared.cid.Codec.TheVariants as codecs;
ghost use Rattle.tg_pbtable.specs.Place.{AreInside, IsInside, bytes_of, placed_bytes};
ghost use Rattle.tg_unixfs.specs.Computed.{unix_of};

use crate::fault::BlockFault;
use crate::folders::{basic_kind, shard_kind};
use crate::kinds::{Entry, Slot};
use crate::laws;
use crate::links::count_links;
use std::alloc::Global;
use tg_bytes::List;
use tg_cid::{Cid, Codec};
use tg_pbtable::Place;
use tg_unixfs::{UnixPlaces, places_of, size_at};

/// A place between two parts of a file, in the node of its block. It takes no memory.
#[derive(Clone, Copy)]
pub struct PartCursor {
    /// The cursor over the links of the block.
    pub(crate) link: usize,
    /// Where the node's data lies.
    pub(crate) payload: Place,
    /// The cursor over the blocksizes, which counts from the first byte of the data.
    pub(crate) size: usize,
}

/// A file where it stands: the place of its inline bytes in the block, the size of all of its content where it is told,
/// how many bytes of content it declares, and its parts.
///
/// UnixFS specification, File.
#[derive(Clone, Copy)]
pub struct FilePlaces {
    /// Where the inline bytes lie in the block.
    pub inline: Place,
    /// The size of all of its content, where it is told.
    pub filesize: Option<u64>,
    /// The inline length and the blocksizes together, less than 2^63.
    pub total: u64,
    /// The place before the first part.
    pub parts: PartCursor,
    /// How many parts there are.
    pub count: u64,
}

/// What a block is read as under its CID, with a file's parts and the bytes of a file and of a symbolic link left in
/// the block.
///
/// UnixFS specification, Data Format and node types.
#[derive(Drop)]
pub enum PlacedKind {
    /// Plain bytes: the block itself is the content.
    Raw,
    /// A file, of which `part_at` gives the parts.
    File(FilePlaces),
    /// A directory in one block.
    Basic { entries: List<Entry> },
    /// A shard of a directory: its used slots in ascending order.
    Shard { slots: List<Slot> },
    /// A symbolic link, and where its target lies in the block.
    Symlink { target: Place },
}

/// Where the data of a node lies in its block, and the data's parts in that.
#[derive(Clone, Copy)]
pub(crate) struct DataPlaces {
    payload: Place,
    unix: UnixPlaces,
}

/// What the block is read as under the CID, as `reads` has it, but where it stands.
///
/// UnixFS specification, Data Format and node types. Errors: those of `reads` in its order. Only the entries of a
/// directory and the slots of a shard take memory, so that for nothing else `OutOfMemory` comes. That the CID names the
/// block isn't looked at.
pub fn reads_in_place(alloc: Global, cid: &Cid, block: &[u8]) -> Result<PlacedKind, BlockFault>
    ensures found { IfOk result (λ placed. (kind : Kind) × Reads cid.now block.now kind
        × StandsForKind block.now placed kind) }
    ensures only { (kind : Kind) → Reads cid.now block.now kind
        → MatchResult result (λ placed. StandsForKind block.now placed kind) (λ e. e ≡ BlockFault.OutOfMemory) }
    // A cursor over the parts of a file begins at the front.
    ensures cursor { IfOk result (λ placed. HasPartCursor block.now placed) }
    // Each fault comes exactly where it is the first; want of memory only at a directory or a shard.
    ensures given { GivesPlaced block.now result (read cid.now block.now) }
    ensures inner { IfErr result (λ fault. (fault ≡ BlockFault.OutOfMemory) ⊎ IsNoWantOfMemory fault) }
{
    laws::readings();
    placed_block(alloc, cid, block)
}

/// The kind of the block under the CID, or its first fault.
fn placed_block(alloc: Global, cid: &Cid, block: &[u8]) -> Result<PlacedKind, BlockFault>
    ensures { GivesPlaced block.now result (read cid.now block.now) }
{
    match cid.codec() {
        Codec::Raw => Ok(PlacedKind::Raw),
        Codec::DagPb => placed_node(alloc, block),
    }
}

/// The kind of a node, or its first fault.
fn placed_node(alloc: Global, block: &[u8]) -> Result<PlacedKind, BlockFault>
    ensures { GivesPlaced block.now result (read_under codecs.DagPb block.now) }
{
    let payload = payload_of(block)?;
    let links = count_links(block)?;
    let places = data_of(block, payload)?;
    placed_kind(alloc, block, links, places)
}

/// Where the data of the node lies that the block is.
fn payload_of(block: &[u8]) -> Result<Option<Place>, BlockFault>
    ensures { MatchResult result
        (λ place. AreInside block.now place × IsNodeWith block.now (placed_bytes block.now place))
        (λ e. node_or_fault (node_of block.now) ≡ Err e) }
{
    tg_dagpb::laws::one_text();
    tg_dagpb::laws::computes();
    Ok(tg_dagpb::payload_at(block)?)
}

/// Where the UnixFS data of a payload lies.
fn data_of(block: &[u8], payload: Option<Place>) -> Result<DataPlaces, BlockFault>
    requires { AreInside block.now payload }
    ensures { MatchResult result
        (λ places. (payload ≡ Some places.payload) × IsDataAt block.now places)
        (λ e. unix_or_fault (placed_bytes block.now payload) ≡ Err e) }
{
    tg_unixfs::laws::computes();
    let Some(payload) = payload else {
        return Err(BlockFault::NoUnix);
    };
    let unix = places_of(&block[payload.start..payload.end])?;
    Ok(DataPlaces { payload, unix })
}

/// The kind of a node with this data.
fn placed_kind(
    alloc: Global,
    block: &[u8],
    links: u64,
    places: DataPlaces,
) -> Result<PlacedKind, BlockFault>
    requires ahead { AllAhead block.now }
    requires links { links ≡ length (block_links block.now) }
    requires places { AreDataPlaces block.now places }
    ensures { GivesPlaced block.now result
        (kind_by places.unix.kind (block_links block.now) (block_cids block.now) (data_unix block.now places)) }
{
    let inline = inline_at(block, places);
    match places.unix.kind {
        1 => basic_kind(alloc, block, links),
        4 => symlink_kind(block, links, places),
        5 => shard_kind(alloc, block, links, &block[inline.start..inline.end]),
        _ => file_kind(block, links, places),
    }
}

/// Where the inline bytes lie in the block; absent ones are none.
fn inline_at(block: &[u8], places: DataPlaces) -> Place
    requires { AreDataPlaces block.now places }
    ensures { LieAt block.now result (inline_of (data_unix block.now places)) }
{
    tg_pbtable::laws::place_laws();
    let start = places.payload.start;
    match places.unix.inline {
        Some(inline) => Place {
            start: start + inline.start,
            end: start + inline.end,
        },
        None => Place { start, end: start },
    }
}

/// UnixFS Raw and File.
fn file_kind(block: &[u8], links: u64, places: DataPlaces) -> Result<PlacedKind, BlockFault>
    requires ahead { AllAhead block.now }
    requires links { links ≡ length (block_links block.now) }
    requires places { AreDataPlaces block.now places }
    ensures { StandsForAnswer block.now result (file_kind (block_cids block.now) (data_unix block.now places)) }
{
    let DataPlaces { payload, unix } = places;
    let inline = inline_at(block, places);
    let (sizes, total) = sizes_of(
        &block[payload.start..payload.end],
        (inline.end - inline.start) as u64,
    );
    if sizes != links {
        return Err(BlockFault::BadSizes { links, sizes });
    }
    if total >= 1 << 63 {
        return Err(BlockFault::HugeSizes);
    }
    if unix.kind == 0 && links != 0 {
        return Err(BlockFault::BadShape);
    }
    Ok(PlacedKind::File(FilePlaces {
        inline,
        filesize: unix.filesize,
        total: total as u64,
        parts: PartCursor {
            link: 0,
            payload,
            size: 0,
        },
        count: links,
    }))
}

/// How many blocksizes the data has, and what they and the inline length come to; that stands still at 2^128 - 1.
fn sizes_of(text: &[u8], inline: u64) -> (u64, u128)
    requires { AreSizesAhead text.now 0 (text_sizes text.now) }
    ensures count { result.0 ≡ length (text_sizes text.now) }
    ensures total { result.1 ≡ min (inline + sum (text_sizes text.now)) (2 ^ 128 - 1) }
{
    let mut count = 0;
    let mut total = u128::from(inline);
    let mut at = 0;
    while let Some((size, next)) = size_at(text, at) {
        count += 1;
        total = total.saturating_add(u128::from(size));
        at = next;
    }
    (count, total)
}

/// UnixFS Symlink.
fn symlink_kind(block: &[u8], links: u64, places: DataPlaces) -> Result<PlacedKind, BlockFault>
    requires links { links ≡ length (block_links block.now) }
    requires places { AreDataPlaces block.now places }
    ensures { StandsForAnswer block.now result (symlink_kind (block_links block.now) (data_unix block.now places)) }
{
    if links != 0 {
        return Err(BlockFault::BadShape);
    }
    Ok(PlacedKind::Symlink {
        target: inline_at(block, places),
    })
}
