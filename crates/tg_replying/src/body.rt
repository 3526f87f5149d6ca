//! The body of a reply with a CAR, given as a walk gives its blocks.
ghost use Rattle.std.specs.Prelude.{◌≡◌, ◌≢◌, ◌≤◌, ◌⊎◌, [], IfErr, IfOk, None, Some};
ghost use Rattle.tg_model.specs.Stores.{Store, looked_in};
ghost use Rattle.tg_reply.specs.CarBytes.{car_header};
ghost use Rattle.tg_replying.specs.Bodies.{BodyEnds, SectionsEnd, cut_by, giving_in, is_of_store};
ghost use Rattle.tg_walk.specs.Walks.{HaveLookedUp, StandsFor};

use crate::fault::ReplyFault;
use crate::part::{give_end, give_part, give_section};
use std::alloc::Global;
use tg_model::{Blocks, BlocksFault, Query};
use tg_reply_writing::car_header;
use tg_streams::{Gathering, Sink};
use tg_walk::{Walk, WalkFault};

/// How the body of a reply ended.
#[derive(Clone, Copy)]
pub(crate) struct BodyEnd {
    /// Whether it was cut before its end.
    pub(crate) cut: bool,
    /// Whether that was because the store failed or a stored block had changed.
    pub(crate) failed: bool,
}

/// Gives the body of the reply with a query's CAR: the header and the section of each block, each in a chunk or as it
/// is to a request of HTTP/1.0, and the end, which is left out where the walk ends before the last block; `found` says
/// that the path leads to a terminal, and else the walk ends where it leads nowhere.
///
/// CARv1 specification; RFC 9112, section 7.1; Trustless Gateway specification, CAR responses. Errors: `SinkFault` where
/// out failed, and `OutOfMemory`, with a front of the body.
pub(crate) fn give_body<B: Blocks, S: Sink>(
    alloc: Global,
    minor: u8,
    found: bool,
    query: &Query,
    blocks: &mut B,
    gathering: &mut Gathering,
    out: &mut S,
) -> Result<BodyEnd, ReplyFault>
    ensures ends { BodyEnds minor found query.now (B.blocks.stored blocks.old) (looked_in B.blocks blocks.old blocks.new)
        (giving_in S.sink gathering.old gathering.new out.old out.new) result }
    ensures looked { HaveLookedUp (looked_in B.blocks blocks.old blocks.new) }
    ensures counted { B.blocks.faults blocks.old ≤ B.blocks.faults blocks.new }
{
    let header = car_header(alloc, &query.root())?;
    let mut walk = Walk::new(alloc, query)?;
    give_parts(
        minor,
        found,
        header.as_slice(),
        &mut walk,
        blocks,
        gathering,
        out,
    )
}

/// Gives the header, the section of each block that a walk gives, from its first one on, and the end, each part in a
/// chunk or as it is to a request of HTTP/1.0.
///
/// Errors: `SinkFault` where out failed, and `OutOfMemory`, with a front of the body.
fn give_parts<B: Blocks, S: Sink>(
    minor: u8,
    found: bool,
    header: &[u8],
    walk: &mut Walk,
    blocks: &mut B,
    gathering: &mut Gathering,
    out: &mut S,
) -> Result<BodyEnd, ReplyFault>
    requires header { header.now ≡ car_header walk.old.left.query.root }
    requires fresh { walk.old.refused ≡ None }
    requires stands { (store : Store) → StandsFor walk.old store [] }
    ensures ends { BodyEnds minor found walk.old.left.query (B.blocks.stored blocks.old)
        (looked_in B.blocks blocks.old blocks.new)
        (giving_in S.sink gathering.old gathering.new out.old out.new) result }
    ensures looked { HaveLookedUp (looked_in B.blocks blocks.old blocks.new) }
    ensures counted { B.blocks.faults blocks.old ≤ B.blocks.faults blocks.new }
{
    give_part(minor, &[], header, gathering, out)?;
    let end = body_end(found, give_sections(minor, walk, blocks, gathering, out)?);
    give_end(minor, end.cut, gathering, out)?;
    Ok(end)
}

/// Gives the section of each block that a walk gives, from its first one on, and says why the walk gave no more: none
/// where it ended behind its last block. Want of memory, the walk's or the store's, is the error.
///
/// Errors: `SinkFault` where out failed, and `OutOfMemory`, with a front of the sections.
fn give_sections<B: Blocks, S: Sink>(
    minor: u8,
    walk: &mut Walk,
    blocks: &mut B,
    gathering: &mut Gathering,
    out: &mut S,
) -> Result<Option<WalkFault>, ReplyFault>
    requires fresh { walk.old.refused ≡ None }
    requires stands { (store : Store) → StandsFor walk.old store [] }
    ensures ends { SectionsEnd minor walk.old.left.query (B.blocks.stored blocks.old)
        (looked_in B.blocks blocks.old blocks.new)
        (giving_in S.sink gathering.old gathering.new out.old out.new) result }
    ensures own { IfOk result (λ end. end ≢ Some (WalkFault.Store BlocksFault.OutOfMemory)) }
    ensures looked { HaveLookedUp (looked_in B.blocks blocks.old blocks.new) }
    ensures counted { B.blocks.faults blocks.old ≤ B.blocks.faults blocks.new }
{
    tg_answering::walks_send();
    loop {
        match walk.next(blocks) {
            Ok(Some((cid, block))) => give_section(minor, &cid, block.as_slice(), gathering, out)?,
            Ok(None) => return Ok(None),
            Err(fault) => return end_of(fault),
        }
    }
}

/// Why the walk gave no more. The error is want of memory, the walk's or the store's.
fn end_of(fault: WalkFault) -> Result<Option<WalkFault>, ReplyFault>
    ensures other { IfOk result (λ end. (end ≡ Some fault) × (fault ≢ WalkFault.OutOfMemory)) }
    ensures own { IfOk result (λ end. end ≢ Some (WalkFault.Store BlocksFault.OutOfMemory)) }
    ensures memory { IfErr result (λ error. error ≡ ReplyFault.OutOfMemory) }
    ensures wanted { IfErr result (λ _. (fault ≡ WalkFault.OutOfMemory)
        ⊎ (fault ≡ WalkFault.Store BlocksFault.OutOfMemory)) }
{
    match fault {
        WalkFault::OutOfMemory | WalkFault::Store(BlocksFault::OutOfMemory) => {
            Err(ReplyFault::OutOfMemory)
        }
        WalkFault::BadBlock { .. }
        | WalkFault::Gone { .. }
        | WalkFault::TooDeep
        | WalkFault::Store(BlocksFault::Changed { .. } | BlocksFault::Failed)
        | WalkFault::NotThere { .. }
        | WalkFault::NotFolder { .. } => Ok(Some(fault)),
    }
}

/// How the body ends where the walk gives no more for this reason, none where it ended behind its last block.
fn body_end(found: bool, end: Option<WalkFault>) -> BodyEnd
    ensures cut { result.cut ≡ cut_by found end }
    ensures failed { result.failed ≡ is_of_store end }
{
    match end {
        None => BodyEnd {
            cut: false,
            failed: false,
        },
        Some(WalkFault::NotThere { .. } | WalkFault::NotFolder { .. }) => BodyEnd {
            cut: found,
            failed: false,
        },
        Some(
            WalkFault::BadBlock { .. }
            | WalkFault::Gone { .. }
            | WalkFault::TooDeep
            | WalkFault::OutOfMemory,
        ) => BodyEnd {
            cut: true,
            failed: false,
        },
        Some(WalkFault::Store(_)) => BodyEnd {
            cut: true,
            failed: true,
        },
    }
}
