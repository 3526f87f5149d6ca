//! What a block is read as under its CID.
ghost use Rattle.std.specs.Prelude.{◌≡◌, List as Items, IfOk, IfErr, MatchResult, ◌⊎◌};
ghost use Rattle.tg_model.specs.Computed.{Gives, read};
ghost use Rattle.tg_model.specs.InnerFaults.{IsNoWantOfMemory};
ghost use Rattle.tg_model.specs.Placed.{ArePartsAhead, IsPartCursor, StandsForKind};
ghost use Rattle.tg_model.specs.Reading.{Reads};
ghost use Rattle.tg_model.specs.declared.kinds.Kind.{Kind};
ghost use Rattle.tg_model.specs.declared.kinds.Part.{Part};

use crate::fault::BlockFault;
use crate::kinds::{Kind, Part};
use crate::laws;
use crate::links::part_at;
use crate::placed::{FilePlaces, PartCursor, PlacedKind, reads_in_place};
use std::alloc::{AllocError, Global};
use tg_bytes::{Bytes, List};
use tg_cid::Cid;

/// What the block is read as under the CID.
///
/// UnixFS specification, Data Format and node types. Fields that this project's own profile of DAG-PB and UnixFS
/// refuses are faults. Errors, of which the first is told, in this order: `BadNode`, `BadLink`, `NoUnix`, `BadUnix`; of
/// a file `BadSizes`, `HugeSizes`, `BadShape`; of a directory `BadName`, `DoubledName`; of a shard `BadName`,
/// `BadBits`, `BadSlot`; of a symbolic link `BadShape`; and `OutOfMemory` for want of memory alone. That the CID names
/// the block isn't looked at.
pub fn reads(alloc: Global, cid: &Cid, block: &[u8]) -> Result<Kind, BlockFault>
    ensures found { IfOk result (λ kind. Reads cid.now block.now kind) }
    ensures only { (kind : Kind) → Reads cid.now block.now kind
        → MatchResult result (λ found. found ≡ kind) (λ e. e ≡ BlockFault.OutOfMemory) }
    // Each fault comes exactly where it is the first, and none of them is want of memory but that one.
    ensures given { Gives (read cid.now block.now) result }
    ensures inner { IfErr result (λ fault. (fault ≡ BlockFault.OutOfMemory) ⊎ IsNoWantOfMemory fault) }
{
    laws::readings();
    read_block(alloc, cid, block)
}

/// The kind of the block under the CID, or its first fault.
fn read_block(alloc: Global, cid: &Cid, block: &[u8]) -> Result<Kind, BlockFault>
    ensures { Gives (read cid.now block.now) result }
{
    let placed = reads_in_place(alloc, cid, block)?;
    Ok(copied(alloc, block, placed)?)
}

/// The kind that one in place stands for. The error is want of memory.
fn copied(alloc: Global, block: &[u8], placed: PlacedKind) -> Result<Kind, AllocError>
    requires { (kind : Kind) × StandsForKind block.now placed kind }
    ensures { (kind : Kind) → StandsForKind block.now placed kind → IfOk result (λ found. found ≡ kind) }
{
    match placed {
        PlacedKind::Raw => Ok(Kind::Raw),
        PlacedKind::File(places) => file_of(alloc, block, places),
        PlacedKind::Basic { entries } => Ok(Kind::Basic { entries }),
        PlacedKind::Shard { slots } => Ok(Kind::Shard { slots }),
        PlacedKind::Symlink { target } => Ok(Kind::Symlink {
            target: Bytes::of(alloc, &block[target.start..target.end])?,
        }),
    }
}

/// The file that stands at the places.
fn file_of(alloc: Global, block: &[u8], places: FilePlaces) -> Result<Kind, AllocError>
    requires { (kind : Kind) × StandsForKind block.now (PlacedKind.File places) kind }
    ensures { (kind : Kind) → StandsForKind block.now (PlacedKind.File places) kind
        → IfOk result (λ found. found ≡ kind) }
{
    let inline = Bytes::of(alloc, &block[places.inline.start..places.inline.end])?;
    let parts = parts_of(alloc, block, places.parts, places.count)?;
    Ok(Kind::File {
        inline,
        filesize: places.filesize,
        parts,
    })
}

/// The parts that are ahead of a cursor; `count` is how many there are.
fn parts_of(
    alloc: Global,
    block: &[u8],
    cursor: PartCursor,
    count: u64,
) -> Result<List<Part>, AllocError>
    requires { IsPartCursor block.now cursor }
    ensures { (parts : Items Part) → ArePartsAhead block.now cursor parts → IfOk result (λ found. found ≡ parts) }
{
    let mut parts = List::from(Vec::with_capacity(alloc, count as usize)?);
    let mut cursor = cursor;
    while let Some((part, next)) = part_at(block, cursor) {
        parts.push(part)?;
        cursor = next;
    }
    Ok(parts)
}
