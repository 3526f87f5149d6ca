//! A query that is asked of a gateway behind a door, over a dial, and the client's answer.
ghost use Rattle.std.specs.Prelude.{◌≡◌, ◌++◌, ◌∷◌, [], List as Items, MatchResult, Some};
ghost use Rattle.tg_audit.specs.Asking.{IsAnsweredBy, IsHeardAnswer, IsReplied, IsUnanswered, IsUnheard, IsUnreplied};
ghost use Rattle.tg_audit.specs.declared.fault.AuditFault.TheVariants.{OutOfMemory};
ghost use Rattle.tg_links.specs.declared.call.Call.{Call};
ghost use Rattle.tg_model.specs.LimitNumbers.{standard};
ghost use Rattle.tg_model.specs.Stores.{looked_in};
ghost use Rattle.tg_walk.specs.Walks.{HaveLookedUp};

use crate::fault::AuditFault;
use std::alloc::Global;
use tg_audit_texts::{Hashed, Hashing};
use tg_bytes::{Bytes, List};
use tg_dials::MemDial;
use tg_doors::MemDoor;
use tg_fetch::{Unwatched, fetch};
use tg_model::{Blocks, LimitKind, Limits, Query};
use tg_query::print_request;
use tg_serve::serve_door;

/// The address that the requests name. Contracts cite it as `audit_addr` of the specification.
const ADDR: &str = "127.0.0.1:80";

/// How many bytes one take, and one put, of a link in memory moves at most.
const PIECE: usize = 65_536;

/// Asks a gateway over a store for a query, as `serve` and `fetch` do over a connection, and tells the length and the
/// digest of the answer: the request comes through a door in memory, and what is said on its link is what the peer says
/// that a dial in memory reaches. The reply is held, and the answer hashed as it comes.
///
/// RFC 9112; Trustless Gateway specification. Errors: `Client` where the client refuses the reply; `Limit` where the
/// request has more bytes than may be received on a link; and `OutOfMemory`, also where the store failed.
pub fn ask<B: Blocks>(alloc: Global, query: &Query, blocks: &mut B) -> Result<Hashed, AuditFault>
    ensures told { MatchResult result (IsAnsweredBy (B.blocks.stored blocks.old) query.now)
        (IsUnanswered (B.blocks.stored blocks.old) query.now) }
    ensures looked { HaveLookedUp (looked_in B.blocks blocks.old blocks.new) }
{
    let limits = Limits::standard();
    let reply = reply_to(alloc, query, limits, blocks)?;
    hear(alloc, query, limits, reply)
}

/// What a gateway says on the link of the one peer that comes through its door, and asks for the query. Errors: those of
/// `ask` but `Client`.
fn reply_to<B: Blocks>(
    alloc: Global,
    query: &Query,
    limits: Limits,
    blocks: &mut B,
) -> Result<Bytes, AuditFault>
    requires { limits ≡ standard }
    ensures told { MatchResult result (IsReplied (B.blocks.stored blocks.old) query.now) (IsUnreplied query.now) }
    ensures looked { HaveLookedUp (looked_in B.blocks blocks.old blocks.new) }
{
    tg_reply::sent_joins();
    let mut coming = List::new(alloc);
    coming.push(print_request(alloc, query, ADDR)?)?;
    let mut door = MemDoor::new(alloc, coming, PIECE, List::new(alloc));
    let happened = serve_door(alloc, blocks, &mut door, 1, limits);
    if happened.limit {
        let number = limits.number(LimitKind::Received);
        return Err(AuditFault::Limit { number });
    }
    // A fault of a door, or of a store, in memory comes for want of memory alone.
    if happened.memory || happened.store || happened.fault {
        return Err(AuditFault::OutOfMemory);
    }
    last_said(door)
}

/// What was said on the last link that was given back to a door. The error is want of memory to tell it.
fn last_said(door: MemDoor) -> Result<Bytes, AuditFault>
    ensures { MatchResult result
        (λ said. (calls : Items Call) × (call : Call) × (door.served ≡ Some (calls ++ call ∷ [])) × (call.said ≡ said))
        (λ fault. fault ≡ OutOfMemory) }
{
    let Some(calls) = door.into_served() else {
        return Err(AuditFault::OutOfMemory);
    };
    let mut calls = calls.into_vec();
    match calls.pop() {
        Some(call) => Ok(call.said),
        None => Err(AuditFault::OutOfMemory),
    }
}

/// Fetches a query from the one peer that a dial reaches, who says this reply. Errors: those of `ask` but `Limit`.
fn hear(alloc: Global, query: &Query, limits: Limits, reply: Bytes) -> Result<Hashed, AuditFault>
    requires { limits ≡ standard }
    ensures { MatchResult result (IsHeardAnswer query.now standard reply) (IsUnheard query.now reply) }
{
    let mut coming = List::new(alloc);
    coming.push(reply)?;
    let mut dial = MemDial::new(alloc, coming, PIECE, List::new(alloc));
    let mut hashing = Hashing::new();
    fetch(
        alloc,
        query,
        limits,
        ADDR,
        &mut dial,
        &mut hashing,
        &mut Unwatched,
    )?;
    Ok(hashing.hashed())
}
