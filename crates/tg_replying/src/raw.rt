//! Replies with a raw block.
ghost use Rattle.std.specs.Prelude.{◌≡◌, ◌≤◌, Ok, false};
ghost use Rattle.tg_model.specs.Stores.{looked_in};
ghost use Rattle.tg_reply.specs.Asked.{asked};
ghost use Rattle.tg_reply.specs.Replies.{raw_reply};
ghost use Rattle.tg_replying.specs.Bodies.{giving_in};
ghost use Rattle.tg_replying.specs.Replying.{FindsOr, GivesReply, IsToldFailed, WrittenEnds, ask_fault_of_store};
ghost use Rattle.tg_reply.specs.Shapes.{SentOver};
ghost use Rattle.tg_walk.specs.Walks.{HaveLookedUp};

use crate::fault::ReplyFault;
use crate::refusal::{asks_close, give_refusal, is_head};
use crate::reply::Replied;
use std::alloc::Global;
use tg_cid::Cid;
use tg_http::RequestHead;
use tg_model::{Blocks, BlocksFault, Form, Query};
use tg_reply::Refusal;
use tg_reply_writing::{AskFault, raw_head};
use tg_streams::{Gathering, Sink};
use tg_traversal::SharedBlock;
use tg_walk::fetch;

/// Gives the reply to a request for a raw block: the block, or the refusal where it isn't stored or the store broke off.
///
/// Trustless Gateway specification, response types. Errors: `SinkFault` where out failed, and `OutOfMemory`, with a front
/// of the reply.
pub(crate) fn give_raw<B: Blocks, S: Sink>(
    alloc: Global,
    head: &RequestHead,
    query: &Query,
    blocks: &mut B,
    gathering: &mut Gathering,
    out: &mut S,
) -> Result<Replied, ReplyFault>
    requires asked { asked head.now ≡ Ok query.now }
    requires raw { query.now.form ≡ Form.Raw }
    ensures ends { WrittenEnds (SentOver (B.blocks.stored blocks.old)) head.now (looked_in B.blocks blocks.old blocks.new)
        (giving_in S.sink gathering.old gathering.new out.old out.new) result }
    ensures looked { HaveLookedUp (looked_in B.blocks blocks.old blocks.new) }
    ensures counted { B.blocks.faults blocks.old ≤ B.blocks.faults blocks.new }
{
    tg_reply::raw_queries();
    tg_answering::stored_blocks();
    match find_block(alloc, blocks, &query.root()) {
        Ok(Some(block)) => give_block(alloc, head, query, block.as_slice(), gathering, out),
        Ok(None) => give_refusal(alloc, head, Refusal::NoRoot, gathering, out),
        Err(AskFault::Refused(refusal)) => give_refusal(alloc, head, refusal, gathering, out),
        Err(AskFault::OutOfMemory) => Err(ReplyFault::OutOfMemory),
    }
}

/// The block that a CID leads to, or none where no block is stored; the error is the refusal where the store broke off,
/// or want of memory.
///
/// CID specification; Trustless Gateway specification, response status codes.
fn find_block<B: Blocks>(
    alloc: Global,
    blocks: &mut B,
    cid: &Cid,
) -> Result<Option<SharedBlock>, AskFault>
    ensures finds { FindsOr cid.now (B.blocks.stored blocks.old) (looked_in B.blocks blocks.old blocks.new) result }
    ensures looked { HaveLookedUp (looked_in B.blocks blocks.old blocks.new) }
    ensures counted { B.blocks.faults blocks.old ≤ B.blocks.faults blocks.new }
{
    match fetch(alloc, blocks, cid) {
        Ok(found) => Ok(found),
        Err(fault) => Err(ask_fault_of_store(fault)),
    }
}

/// Why no block is found where the store gave no answer: the refusal, or want of memory.
fn ask_fault_of_store(fault: BlocksFault) -> AskFault
    ensures { result ≡ ask_fault_of_store fault }
{
    match fault {
        BlocksFault::OutOfMemory => AskFault::OutOfMemory,
        BlocksFault::Changed { .. } | BlocksFault::Failed => AskFault::Refused(Refusal::Store),
    }
}

/// Gives the reply with a raw block.
///
/// Trustless Gateway specification, response types. Errors: `SinkFault` where out failed, and `OutOfMemory`, with a front
/// of the reply.
fn give_block<S: Sink>(
    alloc: Global,
    head: &RequestHead,
    query: &Query,
    block: &[u8],
    gathering: &mut Gathering,
    out: &mut S,
) -> Result<Replied, ReplyFault>
    ensures gives { GivesReply (raw_reply head.now query.now block.now)
        (giving_in S.sink gathering.old gathering.new out.old out.new) result }
    ensures failed { IsToldFailed false result }
{
    let closes = asks_close(head);
    let bytes = raw_head(alloc, query, block.len() as u64, closes)?;
    gathering.give(out, bytes.as_slice())?;
    if !is_head(head) {
        gathering.give(out, block)?;
    }
    Ok(Replied {
        closes,
        broken: false,
        failed: false,
    })
}
