//! The links of a block with the CIDs that they name, one by one, and the parts of a file.
ghost use Rattle.std.specs.Prelude.{◌≡◌, ℕ, ◌<◌, ◌≤◌, ◌∷◌, [], length, List as Items, IfSome, MatchOption, MatchResult};
ghost use Rattle.tg_cid.specs.Cid.{CidParts};
ghost use Rattle.tg_cid.specs.Computed.{cid_of};
ghost use Rattle.tg_cid.specs.Spelling.{CidBytes};
ghost use Rattle.tg_dagpb.specs.Cursor.{link_of};
ghost use Rattle.tg_dagpb.specs.declared.Link.{Link};
ghost use Rattle.tg_model.specs.Computed.{cids_from};
ghost use Rattle.tg_model.specs.Placed.{AreCidsAhead, AreLinksAhead, ArePartsAhead, IsPartCursor};
ghost use Rattle.tg_model.specs.PlacedSteps.{IsNextLink, block_cids, block_links};
ghost use Rattle.tg_model.specs.Reading.{AreCids, name_of};
ghost use Rattle.tg_model.specs.declared.kinds.Part.{Part};

use crate::fault::BlockFault;
use crate::kinds::Part;
use crate::placed::PartCursor;
use tg_cid::Cid;
use tg_dagpb::{LinkSpan, link_at};
use tg_unixfs::size_at;

/// The first part of a file at a cursor or behind it, and the cursor behind that part; none where no part is left.
///
/// UnixFS specification, File: a link with its blocksize. A cursor is that of a file read by `reads_in_place`, or what
/// an earlier call gave, over the same block. It takes no memory, and a step takes the same time however large the
/// block is.
pub fn part_at(block: &[u8], cursor: PartCursor) -> Option<(Part, PartCursor)>
    requires { IsPartCursor block.now cursor }
    ensures next { (parts : Items Part) → ArePartsAhead block.now cursor parts
        → MatchOption result (parts ≡ []) (λ found. (more : Items Part) × (parts ≡ found.0 ∷ more)
        × ArePartsAhead block.now found.1 more) }
    ensures cursor { IfSome result (λ found. IsPartCursor block.now found.1) }
    ensures forward { IfSome result (λ found. (cursor.link < found.1.link) × (found.1.link ≤ length block.now)) }
{
    let payload = cursor.payload;
    let (size, next) = size_at(&block[payload.start..payload.end], cursor.size)?;
    let Some((_, cid, link)) = next_link(block, cursor.link) else {
        return None;
    };
    let cursor = PartCursor {
        link,
        payload,
        size: next,
    };
    Some((Part { cid, size }, cursor))
}

/// The first link at a cursor or behind it with its CID, and the cursor behind that link; none where no link is left.
pub(crate) fn next_link(block: &[u8], at: usize) -> Option<(LinkSpan<'_>, Cid, usize)>
    requires { (links : Items Link) × (cids : Items CidParts) × AreCidsAhead block.now at links cids }
    ensures next { (links : Items Link) (cids : Items CidParts) → AreCidsAhead block.now at links cids
        → MatchOption result ((links ≡ []) × (cids ≡ []))
        (λ found. IsNextLink block.now (link_of found.0) found.1 found.2 links cids) }
    ensures forward { IfSome result (λ found. (at < found.2) × (found.2 ≤ length block.now)) }
{
    let (link, next) = link_at(block, at)?;
    let cid = Cid::from_bytes(link.hash).ok()?;
    Some((link, cid, next))
}

/// How many links the node has, where each hash is the bytes of a CID.
pub(crate) fn count_links(block: &[u8]) -> Result<u64, BlockFault>
    requires { AreLinksAhead block.now 0 (block_links block.now) }
    ensures { MatchResult result
        (λ count. (count ≡ length (block_links block.now))
        × (cids_from 0 (block_links block.now) ≡ Ok (block_cids block.now))
        × AreCids (block_links block.now) (block_cids block.now))
        (λ e. cids_from 0 (block_links block.now) ≡ Err e) }
{
    let mut count = 0;
    let mut at = 0;
    while let Some((link, next)) = link_at(block, at) {
        let Some(_cid) = cid_of(link.hash) else {
            return Err(BlockFault::BadLink { at: count });
        };
        count += 1;
        at = next;
    }
    Ok(count)
}

/// The CID that the bytes are.
fn cid_of(hash: &[u8]) -> Option<Cid>
    ensures found { IfSome result (λ cid. CidBytes cid hash.now) }
    ensures computed { result ≡ cid_of hash.now }
{
    tg_cid::laws::computes();
    Cid::from_bytes(hash).ok()
}

/// The name of a link; an absent one is empty.
pub(crate) fn name_of<'a>(link: &LinkSpan<'a>) -> &'a [u8]
    ensures { result.now ≡ name_of (link_of link.now) }
{
    match link.name {
        Some(name) => name,
        None => &[],
    }
}
