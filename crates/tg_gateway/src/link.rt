//! A session over a link.
ghost use Rattle.std.specs.Prelude.{◌≡◌, ◌<◌, ◌≤◌, ℕ, IfOk, length};
ghost use Rattle.tg_gateway.specs.Links.{LinkEnds, served_of};
ghost use Rattle.tg_links.specs.Steps.{link_step};
ghost use Rattle.tg_gateway.specs.Sessions.{new_session};
ghost use Rattle.tg_model.specs.Stores.{looked_in};
ghost use Rattle.tg_walk.specs.Walks.{HaveLookedUp};

use crate::fault::GatewayFault;
use crate::session::{Next, Served, Session};
use std::alloc::{AllocError, Global};
use tg_bytes::zeros;
use tg_links::Link;
use tg_model::{Blocks, Limits};

/// How many bytes are taken from a link at once: 16 KiB.
const PIECE: usize = 16_384;

/// Runs a session over a link until the peer says no more or the last reply closes the connection, and tells the numbers
/// of the replies, on an error too.
///
/// RFC 9112, section 9.3. Errors: `LinkFault` where the link failed; `Limit` where more bytes came than may be received;
/// and `OutOfMemory`, with a front of the replies.
pub fn serve_link<B: Blocks, K: Link>(
    alloc: Global,
    blocks: &mut B,
    link: &mut K,
    limits: Limits,
) -> (Served, Result<(), GatewayFault>)
    ensures ends { LinkEnds (B.blocks.stored blocks.old) limits.received (link_step K.link K.Source.source link.old link.new)
        (looked_in B.blocks blocks.old blocks.new) result.0 result.1 }
    ensures looked { HaveLookedUp (looked_in B.blocks blocks.old blocks.new) }
    ensures counted { B.blocks.faults blocks.old ≤ B.blocks.faults blocks.new }
{
    match begun(alloc, limits) {
        Ok((session, room)) => {
            let (mut session, mut room) = (session, room);
            let end = hear(&mut session, room.as_mut_slice(), blocks, link);
            (session.served(), end)
        }
        Err(AllocError) => (Served::none(), Err(GatewayFault::OutOfMemory)),
    }
}

/// A new session, and the room into which the pieces are taken that it is fed. The error is want of memory.
fn begun(alloc: Global, limits: Limits) -> Result<(Session, Vec<u8>), AllocError>
    ensures session { IfOk result (λ begun. begun.0 ≡ new_session limits.received) }
    ensures room { IfOk result (λ begun. length begun.1.items ≡ 16384) }
{
    Ok((Session::new(alloc, limits)?, zeros(alloc, PIECE)?))
}

/// Feeds a session, which is new, with what a link's peer says, until it says no more or the session closes. Errors:
/// those of the session, and `LinkFault` where the link failed.
fn hear<B: Blocks, K: Link>(
    session: &mut Session,
    room: &mut [u8],
    blocks: &mut B,
    link: &mut K,
) -> Result<(), GatewayFault>
    requires fresh { (most : ℕ) × (session.old ≡ new_session most) }
    requires room { 0 < length room.old }
    ensures ends { LinkEnds (B.blocks.stored blocks.old) session.old.state.most
        (link_step K.link K.Source.source link.old link.new) (looked_in B.blocks blocks.old blocks.new)
        (served_of session.new.state) result }
    ensures looked { HaveLookedUp (looked_in B.blocks blocks.old blocks.new) }
    ensures counted { B.blocks.faults blocks.old ≤ B.blocks.faults blocks.new }
{
    tg_reply::sent_joins();
    tg_reply::sessions_go_on();
    loop {
        let size = link.take(room)?;
        if size == 0 {
            return Ok(());
        }
        if session.feed(&room[..size], blocks, link)? == Next::Close {
            return Ok(());
        }
    }
}
