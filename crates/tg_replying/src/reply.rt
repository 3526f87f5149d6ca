//! The reply to one request.
ghost use Rattle.std.specs.Prelude.{◌≡◌, ◌≤◌, []};
ghost use Rattle.tg_model.specs.Stores.{looked_in};
ghost use Rattle.tg_replying.specs.Bodies.{giving_in};
ghost use Rattle.tg_replying.specs.Replying.{ReplyEnds, WrittenEnds};
ghost use Rattle.tg_reply.specs.Shapes.{SentOver};
ghost use Rattle.tg_streams.specs.Streams.{into};
ghost use Rattle.tg_walk.specs.Walks.{HaveLookedUp};

use crate::car::give_car;
use crate::fault::ReplyFault;
use crate::raw::give_raw;
use crate::refusal::give_refusal;
use std::alloc::Global;
use tg_http::RequestHead;
use tg_model::{Blocks, Form};
use tg_reply_writing::{AskFault, asked};
use tg_streams::{Gathering, Sink};

/// What is told of a reply that was put.
#[derive(Clone, Copy, Debug, PartialEq, Eq)]
pub struct Replied {
    /// Whether the connection closes behind it.
    pub closes: bool,
    /// Whether its status is 500 or its body was cut.
    pub broken: bool,
    /// Whether that was because the store failed or a stored block had changed.
    pub failed: bool,
}

/// Puts the reply to a request over a store: all of it is out at the end, its sections as the walk gives their blocks.
/// Nothing is gathered before it and behind it, on an error too.
///
/// RFC 9112, section 9.3; Path Gateway and Trustless Gateway specifications. Errors: `SinkFault` where out failed, and
/// `OutOfMemory`, with a front of the reply.
pub fn put_reply<B: Blocks, S: Sink>(
    alloc: Global,
    head: &RequestHead,
    blocks: &mut B,
    gathering: &mut Gathering,
    out: &mut S,
) -> Result<Replied, ReplyFault>
    requires { gathering.old ≡ [] }
    ensures ends { ReplyEnds (SentOver (B.blocks.stored blocks.old)) head.now (looked_in B.blocks blocks.old blocks.new)
        (into S.sink out.old out.new) result }
    ensures gathered { gathering.new ≡ [] }
    ensures looked { HaveLookedUp (looked_in B.blocks blocks.old blocks.new) }
    ensures counted { B.blocks.faults blocks.old ≤ B.blocks.faults blocks.new }
{
    match give_reply(alloc, head, blocks, gathering, out) {
        Ok(replied) => {
            gathering.put_out(out)?;
            Ok(replied)
        }
        Err(fault) => {
            gathering.clear();
            Err(fault)
        }
    }
}

/// Gives the reply to a request.
///
/// Errors: `SinkFault` where out failed, and `OutOfMemory`, with a front of the reply.
fn give_reply<B: Blocks, S: Sink>(
    alloc: Global,
    head: &RequestHead,
    blocks: &mut B,
    gathering: &mut Gathering,
    out: &mut S,
) -> Result<Replied, ReplyFault>
    ensures ends { WrittenEnds (SentOver (B.blocks.stored blocks.old)) head.now (looked_in B.blocks blocks.old blocks.new)
        (giving_in S.sink gathering.old gathering.new out.old out.new) result }
    ensures looked { HaveLookedUp (looked_in B.blocks blocks.old blocks.new) }
    ensures counted { B.blocks.faults blocks.old ≤ B.blocks.faults blocks.new }
{
    match asked(alloc, head) {
        Ok(query) => match query.form() {
            Form::Raw => give_raw(alloc, head, &query, blocks, gathering, out),
            Form::Car => give_car(alloc, head, &query, blocks, gathering, out),
        },
        Err(AskFault::Refused(refusal)) => give_refusal(alloc, head, refusal, gathering, out),
        Err(AskFault::OutOfMemory) => Err(ReplyFault::OutOfMemory),
    }
}
