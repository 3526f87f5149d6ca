//! Replies with a CAR.
ghost use Rattle.std.specs.Prelude.{◌≡◌, ◌≤◌, Bool, List, Ok, false, true};
ghost use Rattle.tg_model.specs.Stores.{looked_in};
ghost use Rattle.tg_model.specs.Dag.{Section};
ghost use Rattle.tg_reply.specs.Asked.{asked, is_head};
ghost use Rattle.tg_reply.specs.Replies.{car_reply};
ghost use Rattle.tg_replying.specs.Bodies.{giving_in};
ghost use Rattle.tg_replying.specs.Replying.{GivesReply, IsLed, IsToldFailed, LeadsOr, WrittenEnds};
ghost use Rattle.tg_reply.specs.Shapes.{SentOver};
ghost use Rattle.tg_walk.specs.Walks.{HaveLookedUp};

use crate::body::give_body;
use crate::fault::ReplyFault;
use crate::refusal::{asks_close, give_refusal, is_head};
use crate::reply::Replied;
use std::alloc::Global;
use tg_http::RequestHead;
use tg_model::{Blocks, BlocksFault, Form, Query};
use tg_reply::Refusal;
use tg_reply_writing::{AskFault, car_head};
use tg_streams::{Gathering, Sink};
use tg_walk::{ResolveFault, resolve};

/// Gives the reply to a request for a CAR: the CAR where the path leads to a terminal, or leads nowhere, which the blocks
/// on it show; or the refusal where a block on it isn't stored or can't be read, or the store broke off.
///
/// Trustless Gateway specification, CAR responses. Errors: `SinkFault` where out failed, and `OutOfMemory`, with a front
/// of the reply.
pub(crate) fn give_car<B: Blocks, S: Sink>(
    alloc: Global,
    head: &RequestHead,
    query: &Query,
    blocks: &mut B,
    gathering: &mut Gathering,
    out: &mut S,
) -> Result<Replied, ReplyFault>
    requires asked { asked head.now ≡ Ok query.now }
    requires car { query.now.form ≡ Form.Car }
    ensures ends { WrittenEnds (SentOver (B.blocks.stored blocks.old)) head.now (looked_in B.blocks blocks.old blocks.new)
        (giving_in S.sink gathering.old gathering.new out.old out.new) result }
    ensures looked { HaveLookedUp (looked_in B.blocks blocks.old blocks.new) }
    ensures counted { B.blocks.faults blocks.old ≤ B.blocks.faults blocks.new }
{
    match leads(alloc, query, blocks) {
        Ok(found) if is_head(head) => give_head(alloc, head, found, query, gathering, out),
        Ok(found) => give_sent(alloc, head, found, query, blocks, gathering, out),
        Err(AskFault::Refused(refusal)) => give_refusal(alloc, head, refusal, gathering, out),
        Err(AskFault::OutOfMemory) => Err(ReplyFault::OutOfMemory),
    }
}

/// Whether the path of a query leads to a terminal, or nowhere; the error is the refusal where neither is known, or
/// want of memory.
///
/// Path Gateway specification, Path Resolution.
fn leads<B: Blocks>(alloc: Global, query: &Query, blocks: &mut B) -> Result<bool, AskFault>
    requires car { query.now.form ≡ Form.Car }
    ensures leads { LeadsOr query.now (B.blocks.stored blocks.old) (looked_in B.blocks blocks.old blocks.new) result }
    ensures looked { HaveLookedUp (looked_in B.blocks blocks.old blocks.new) }
    ensures counted { B.blocks.faults blocks.old ≤ B.blocks.faults blocks.new }
{
    match resolve(alloc, blocks, &query.root(), query.path()) {
        Ok(_) => Ok(true),
        Err(ResolveFault::NotThere { .. } | ResolveFault::NotFolder { .. }) => Ok(false),
        Err(ResolveFault::NoRoot) => Err(AskFault::Refused(Refusal::NoRoot)),
        Err(ResolveFault::Gone { .. }) => Err(AskFault::Refused(Refusal::Gone)),
        Err(ResolveFault::BadBlock { .. }) => Err(AskFault::Refused(Refusal::BadBlock)),
        Err(ResolveFault::OutOfMemory | ResolveFault::Store(BlocksFault::OutOfMemory)) => {
            Err(AskFault::OutOfMemory)
        }
        Err(ResolveFault::Store(BlocksFault::Changed { .. } | BlocksFault::Failed)) => {
            Err(AskFault::Refused(Refusal::Store))
        }
    }
}

/// Gives the reply with a CAR to `HEAD`: its head alone.
///
/// RFC 9110, section 9.3.2. Errors: `SinkFault` where out failed, and `OutOfMemory`, with a front of the reply.
fn give_head<S: Sink>(
    alloc: Global,
    head: &RequestHead,
    found: bool,
    query: &Query,
    gathering: &mut Gathering,
    out: &mut S,
) -> Result<Replied, ReplyFault>
    requires { is_head head.now.method ≡ true }
    ensures gives { (sections : List Section) (cut : Bool) → GivesReply (car_reply head.now found query.now sections cut)
        (giving_in S.sink gathering.old gathering.new out.old out.new) result }
    ensures failed { IsToldFailed false result }
{
    let closes = asks_close(head);
    let bytes = car_head(alloc, found, query, head.minor, closes)?;
    gathering.give(out, bytes.as_slice())?;
    Ok(Replied {
        closes,
        broken: false,
        failed: false,
    })
}

/// Gives the reply with a CAR to `GET`: its head and its body.
///
/// Trustless Gateway specification, CAR responses. Errors: `SinkFault` where out failed, and `OutOfMemory`, with a front
/// of the reply.
fn give_sent<B: Blocks, S: Sink>(
    alloc: Global,
    head: &RequestHead,
    found: bool,
    query: &Query,
    blocks: &mut B,
    gathering: &mut Gathering,
    out: &mut S,
) -> Result<Replied, ReplyFault>
    requires asked { asked head.now ≡ Ok query.now }
    requires car { query.now.form ≡ Form.Car }
    requires by_get { is_head head.now.method ≡ false }
    requires led { IsLed query.now (B.blocks.stored blocks.old) found }
    ensures ends { WrittenEnds (SentOver (B.blocks.stored blocks.old)) head.now (looked_in B.blocks blocks.old blocks.new)
        (giving_in S.sink gathering.old gathering.new out.old out.new) result }
    ensures looked { HaveLookedUp (looked_in B.blocks blocks.old blocks.new) }
    ensures counted { B.blocks.faults blocks.old ≤ B.blocks.faults blocks.new }
{
    let closes = asks_close(head);
    let bytes = car_head(alloc, found, query, head.minor, closes)?;
    gathering.give(out, bytes.as_slice())?;
    let end = give_body(alloc, head.minor, found, query, blocks, gathering, out)?;
    Ok(Replied {
        closes: closes || end.cut,
        broken: end.cut,
        failed: end.failed,
    })
}
