//! Replies of one word.
ghost use Rattle.std.specs.Prelude.{◌≡◌, []};
ghost use Rattle.tg_reply.specs.Replies.{asks_close, refused_bytes, refused_request};
ghost use Rattle.tg_reply.specs.Asked.{is_head};
ghost use Rattle.tg_replying.specs.Bodies.{giving_in};
ghost use Rattle.tg_replying.specs.Replying.{GivesReply, IsToldFailed, PutEnds, is_of_store_refusal};
ghost use Rattle.tg_streams.specs.Streams.{into};

use crate::fault::ReplyFault;
use crate::reply::Replied;
use std::alloc::Global;
use tg_http::RequestHead;
use tg_reply::{Refusal, Status};
use tg_reply_writing::{ends_connection, refusal_reply, status_of};
use tg_streams::{Gathering, Sink};

/// Puts the reply to bytes that are no head of a request: all of it is out at the end.
///
/// RFC 9112, section 9.6. Errors: `SinkFault` where out failed, and `OutOfMemory`, with a front of the reply.
pub fn put_refusal<S: Sink>(
    alloc: Global,
    refusal: Refusal,
    gathering: &mut Gathering,
    out: &mut S,
) -> Result<(), ReplyFault>
    requires { gathering.old ≡ [] }
    ensures ends { PutEnds (refused_bytes refusal) (into S.sink out.old out.new) result }
    ensures gathered { gathering.new ≡ [] }
{
    let bytes = refusal_reply(alloc, refusal, ends_connection(refusal), true)?;
    gathering.give(out, bytes.as_slice())?;
    gathering.put_out(out)?;
    Ok(())
}

/// Gives the reply to a request that is refused.
///
/// Errors: `SinkFault` where out failed, and `OutOfMemory`, with a front of the reply.
pub(crate) fn give_refusal<S: Sink>(
    alloc: Global,
    head: &RequestHead,
    refusal: Refusal,
    gathering: &mut Gathering,
    out: &mut S,
) -> Result<Replied, ReplyFault>
    ensures gives { GivesReply (refused_request head.now refusal)
        (giving_in S.sink gathering.old gathering.new out.old out.new) result }
    ensures failed { IsToldFailed (is_of_store_refusal refusal) result }
{
    let closes = asks_close(head) || ends_connection(refusal);
    let bytes = refusal_reply(alloc, refusal, closes, !is_head(head))?;
    gathering.give(out, bytes.as_slice())?;
    Ok(Replied {
        closes,
        broken: status_of(refusal) == Status::ServerError,
        failed: refusal == Refusal::Store,
    })
}

/// Whether a request closes the connection: one of HTTP/1.0, or with the token `close`.
///
/// RFC 9112, section 9.3.
pub(crate) fn asks_close(head: &RequestHead) -> bool
    ensures { result ≡ asks_close head.now }
{
    head.minor == 0 || head.close
}

/// Whether the method of a request is `HEAD`.
///
/// RFC 9110, section 9.3.2.
pub(crate) fn is_head(head: &RequestHead) -> bool
    ensures { result ≡ is_head head.now.method }
{
    head.method.as_slice() == b"HEAD".as_slice()
}
