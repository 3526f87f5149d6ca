//! A reply that is fetched over a dial.
ghost use Rattle.std.specs.Prelude.{◌≡◌, ◌<◌, [], ℕ, List as Items, IfOk, None, Some, length};
ghost use Rattle.tg_client.specs.Telling.{telling};
ghost use Rattle.tg_dials.specs.Dials.{at_dial};
ghost use Rattle.tg_heard.specs.Exchanges.{HasOneBlockEach};
ghost use Rattle.tg_fetch.specs.Calls.{FetchEnds, LinkCalled, LinkHeard};
ghost use Rattle.tg_fetch.specs.Clients.{StandsFor};
ghost use Rattle.tg_fetch.specs.Faults.{QuietUnlessSink};
ghost use Rattle.tg_fetch.specs.Keeping.{FetchKeeps, HasFaultCause, StandIn};
ghost use Rattle.tg_fetch.specs.KeepingSteps.{HeardKeeps, LinkKeeps};
ghost use Rattle.tg_fetch.specs.Laws.{IsAcceptedElse, IsNowhereElse, IsNowhereIn, IsOwnNowhere, TellsAbsence, TellsCarried};
ghost use Rattle.tg_fetch.specs.Received.{SoundCall};
ghost use Rattle.tg_fetch.specs.Telling.{CallTells, LinkTells, Tells, terminal_of};
ghost use Rattle.tg_links.specs.Steps.{link_step};
ghost use Rattle.tg_model.specs.Answer.{answer};
ghost use Rattle.tg_model.specs.Dag.{Dag, Section, root_cid};
ghost use Rattle.tg_model.specs.Fits.{Fits};
ghost use Rattle.tg_model.specs.Sound.{IsSound};
ghost use Rattle.tg_model.specs.Stores.{kept_in};
ghost use Rattle.tg_model.specs.Traversal.{block_list};
ghost use Rattle.tg_model_laws.specs.Tasks.{Miss};
ghost use Rattle.tg_query.specs.Requests.{IsAddr};
ghost use Rattle.tg_streams.specs.Streams.{into};
ghost use Rattle.tg_verify.specs.Absences.{path_query};
ghost use Rattle.tg_verify.specs.Laws.{IsWithinLimits};

use crate::client::Client;
use crate::fault::FetchFault;
use crate::laws;
use crate::watch::Watch;
use std::alloc::{AllocError, Global};
use std::mem::drop;
use tg_bytes::zeros;
use tg_client::{TellTerminal, Untold};
use tg_dials::Dial;
use tg_links::Link;
use tg_model::{DropKeep, Keep, Limits, Query};
use tg_streams::{Sink, put_all};
use tg_verify::Progress;

/// How many bytes are taken from a link at once, at most.
const PIECE_LEN: usize = 65_536;

/// Fetches what a query asks for from the gateway at `addr`, which has the form HOST:PORT, and puts what it says: the
/// peer is dialled, the request is put, the reply is fed to a client until it is whole or the link has ended, and the
/// link is given back, whatever came of it. The query's root alone is trusted. `watch` is told how far it has come behind
/// each piece of the reply, and at last that it has ended, whatever came of it.
///
/// RFC 9112; Trustless Gateway specification. Errors: `PeerFault` where the dial or the link failed, and those of
/// `Client::feed` and `Client::end`. What was put before stays.
pub fn fetch<D: Dial, S: Sink, W: Watch>(
    alloc: Global,
    query: &Query,
    limits: Limits,
    addr: &str,
    dial: &mut D,
    out: &mut S,
    watch: &mut W,
) -> Result<(), FetchFault>
    requires { IsAddr addr.now }
    // One call: what was said and heard, how it ended, and what that says of each sound DAG with the query's root.
    ensures ends { FetchEnds query.now limits addr.now (at_dial D.dial dial.old dial.new) (into S.sink out.old out.new) result }
    ensures cause { QuietUnlessSink (into S.sink out.old out.new) result }
    // For each sound DAG with the query's root: what was put is its answer, or a front of it, and what a refusal says of it
    // holds; or a block that was received in this call and one of the DAG are different bytes with one SHA-256.
    ensures sound { SoundCall query.now limits (at_dial D.dial dial.old dial.new) (into S.sink out.old out.new) result }

    // Where the dial tells the call, but for counted faults and want of memory: a reply that carries sections which fit is
    // accepted, and their text is put; and so is one that carries the sections of a sound DAG's own traversal, of which no
    // two different blocks stand under one CID.
    ensures fitting { (d : Dag) (sections : Items Section) (text : Items ℕ) → Fits d query.now sections text
        → IsWithinLimits query.now limits d → TellsCarried query.now limits (at_dial D.dial dial.old dial.new) sections
        → IsAcceptedElse text (into S.sink out.old out.new) result }
    ensures own { (d : Dag) (text : Items ℕ) → IsSound d → root_cid d ≡ query.now.root
        → answer query.now d ≡ Some text → HasOneBlockEach d
        → IsWithinLimits query.now limits d
        → TellsCarried query.now limits (at_dial D.dial dial.old dial.new) (block_list query.now d)
        → IsAcceptedElse text (into S.sink out.old out.new) result }
    // And one that carries the blocks of a path of which a segment leads nowhere is refused for that segment, with nothing
    // put; and so is one that carries those of a sound DAG's own path.
    ensures nowhere { (d : Dag) (miss : Miss) → IsNowhereIn query.now limits d miss
        → TellsAbsence query.now limits (at_dial D.dial dial.old dial.new) (block_list (path_query query.now) d)
        → IsNowhereElse miss (into S.sink out.old out.new) result }
    ensures own_nowhere { (d : Dag) (miss : Miss) → IsOwnNowhere query.now limits d miss
        → TellsAbsence query.now limits (at_dial D.dial dial.old dial.new) (block_list query.now d)
        → IsNowhereElse miss (into S.sink out.old out.new) result }
{
    fetch_keep(
        alloc,
        query,
        limits,
        addr,
        dial,
        &mut DropKeep::new(),
        out,
        watch,
    )
}

/// Fetches what a query asks for, as `fetch` does, and hands the keeper each section of the answer's CAR whose CID names its
/// block, directly before it is verified; a block is hashed once in all. Nothing is kept of a raw block, nor of a CAR that
/// shows that the path leads nowhere.
///
/// Errors: those of `fetch`, and `KeepFault` where the keeper failed at a section. What was put and kept before stays.
/// RFC 9112; Trustless Gateway specification, CAR responses.
pub fn fetch_keep<D: Dial, K: Keep, S: Sink, W: Watch>(
    alloc: Global,
    query: &Query,
    limits: Limits,
    addr: &str,
    dial: &mut D,
    keep: &mut K,
    out: &mut S,
    watch: &mut W,
) -> Result<(), FetchFault>
    requires { IsAddr addr.now }
    // One call: what was said and heard, how it ended, and what that says of each sound DAG with the query's root.
    ensures ends { FetchEnds query.now limits addr.now (at_dial D.dial dial.old dial.new) (into S.sink out.old out.new) result }
    // Which sections of what was heard were kept.
    ensures kept { FetchKeeps query.now limits (at_dial D.dial dial.old dial.new) (into S.sink out.old out.new)
        (kept_in K.keeper keep.old keep.new) result }
    ensures cause { HasFaultCause (into S.sink out.old out.new) (kept_in K.keeper keep.old keep.new) result }
    // The others are those of `fetch`.
    ensures sound { SoundCall query.now limits (at_dial D.dial dial.old dial.new) (into S.sink out.old out.new) result }
    ensures fitting { (d : Dag) (sections : Items Section) (text : Items ℕ) → Fits d query.now sections text
        → IsWithinLimits query.now limits d → TellsCarried query.now limits (at_dial D.dial dial.old dial.new) sections
        → IsAcceptedElse text (into S.sink out.old out.new) result }
    ensures own { (d : Dag) (text : Items ℕ) → IsSound d → root_cid d ≡ query.now.root
        → answer query.now d ≡ Some text → HasOneBlockEach d
        → IsWithinLimits query.now limits d
        → TellsCarried query.now limits (at_dial D.dial dial.old dial.new) (block_list query.now d)
        → IsAcceptedElse text (into S.sink out.old out.new) result }
    ensures nowhere { (d : Dag) (miss : Miss) → IsNowhereIn query.now limits d miss
        → TellsAbsence query.now limits (at_dial D.dial dial.old dial.new) (block_list (path_query query.now) d)
        → IsNowhereElse miss (into S.sink out.old out.new) result }
    ensures own_nowhere { (d : Dag) (miss : Miss) → IsOwnNowhere query.now limits d miss
        → TellsAbsence query.now limits (at_dial D.dial dial.old dial.new) (block_list query.now d)
        → IsNowhereElse miss (into S.sink out.old out.new) result }
{
    fetch_telling(alloc, query, limits, addr, dial, keep, out, &Untold, watch)
}

/// Fetches what a query asks for, as `fetch_keep` does, and tells out what the query's path leads to as soon as the piece of
/// the reply was taken in which the terminal's section ends.
///
/// Errors: those of `fetch_keep`. RFC 9112; Trustless Gateway specification, CAR responses; Path Gateway specification, Path
/// Resolution.
pub fn fetch_telling<D: Dial, K: Keep, S: Sink, T: TellTerminal<S>, W: Watch>(
    alloc: Global,
    query: &Query,
    limits: Limits,
    addr: &str,
    dial: &mut D,
    keep: &mut K,
    out: &mut S,
    teller: &T,
    watch: &mut W,
) -> Result<(), FetchFault>
    requires { IsAddr addr.now }
    // One call: what was said and heard, how it ended, and what that says of each sound DAG with the query's root.
    ensures ends { FetchEnds query.now limits addr.now (at_dial D.dial dial.old dial.new) (into (telling S.sink T.wrote) out.old out.new) result }
    // Which sections of what was heard were kept.
    ensures kept { FetchKeeps query.now limits (at_dial D.dial dial.old dial.new) (into (telling S.sink T.wrote) out.old out.new)
        (kept_in K.keeper keep.old keep.new) result }
    // What out was told that the path leads to is so in each sound DAG with the query's root, or a block that was received in
    // this call and one of the DAG are different bytes with one SHA-256; and on Ok it was told, but of a raw block and where the
    // block alone is asked for.
    ensures told { T.knows out.old None → CallTells query.now limits (at_dial D.dial dial.old dial.new) (T.knows out.new) result }
    ensures cause { HasFaultCause (into (telling S.sink T.wrote) out.old out.new) (kept_in K.keeper keep.old keep.new) result }
    // The others are those of `fetch`.
    ensures sound { SoundCall query.now limits (at_dial D.dial dial.old dial.new) (into (telling S.sink T.wrote) out.old out.new) result }
    ensures fitting { (d : Dag) (sections : Items Section) (text : Items ℕ) → Fits d query.now sections text
        → IsWithinLimits query.now limits d → TellsCarried query.now limits (at_dial D.dial dial.old dial.new) sections
        → IsAcceptedElse text (into (telling S.sink T.wrote) out.old out.new) result }
    ensures own { (d : Dag) (text : Items ℕ) → IsSound d → root_cid d ≡ query.now.root
        → answer query.now d ≡ Some text → HasOneBlockEach d
        → IsWithinLimits query.now limits d
        → TellsCarried query.now limits (at_dial D.dial dial.old dial.new) (block_list query.now d)
        → IsAcceptedElse text (into (telling S.sink T.wrote) out.old out.new) result }
    ensures nowhere { (d : Dag) (miss : Miss) → IsNowhereIn query.now limits d miss
        → TellsAbsence query.now limits (at_dial D.dial dial.old dial.new) (block_list (path_query query.now) d)
        → IsNowhereElse miss (into (telling S.sink T.wrote) out.old out.new) result }
    ensures own_nowhere { (d : Dag) (miss : Miss) → IsOwnNowhere query.now limits d miss
        → TellsAbsence query.now limits (at_dial D.dial dial.old dial.new) (block_list query.now d)
        → IsNowhereElse miss (into (telling S.sink T.wrote) out.old out.new) result }
{
    tg_model_laws::own_sections();
    tg_model_laws::against_every_peer();
    tg_model_laws::own_absences();
    laws::carried_replies();
    laws::carried_absences();
    let end = dialled(alloc, query, limits, addr, dial, keep, out, teller, watch);
    watch.ended();
    end
}

/// Fetches it so, and tells `watch` of each piece, but not that it has ended. Errors: those of `fetch`.
fn dialled<D: Dial, K: Keep, S: Sink, T: TellTerminal<S>, W: Watch>(
    alloc: Global,
    query: &Query,
    limits: Limits,
    addr: &str,
    dial: &mut D,
    keep: &mut K,
    out: &mut S,
    teller: &T,
    watch: &mut W,
) -> Result<(), FetchFault>
    requires { IsAddr addr.now }
    ensures ends { FetchEnds query.now limits addr.now (at_dial D.dial dial.old dial.new) (into (telling S.sink T.wrote) out.old out.new) result }
    ensures kept { FetchKeeps query.now limits (at_dial D.dial dial.old dial.new) (into (telling S.sink T.wrote) out.old out.new)
        (kept_in K.keeper keep.old keep.new) result }
    ensures told { T.knows out.old None → CallTells query.now limits (at_dial D.dial dial.old dial.new) (T.knows out.new) result }
    ensures cause { HasFaultCause (into (telling S.sink T.wrote) out.old out.new) (kept_in K.keeper keep.old keep.new) result }
{
    let mut link = dial.dial(addr)?;
    let end = call(
        alloc, query, limits, addr, &mut link, keep, out, teller, watch,
    );
    dial.done(link);
    end
}

/// Puts the request for a query into a link, through which nothing went yet, and feeds the reply to a client. Errors:
/// those of `fetch`.
fn call<L: Link, K: Keep, S: Sink, T: TellTerminal<S>, W: Watch>(
    alloc: Global,
    query: &Query,
    limits: Limits,
    addr: &str,
    link: &mut L,
    keep: &mut K,
    out: &mut S,
    teller: &T,
    watch: &mut W,
) -> Result<(), FetchFault>
    requires { IsAddr addr.now }
    ensures called { LinkCalled query.now limits addr.now (link_step L.link L.Source.source link.old link.new) (into (telling S.sink T.wrote) out.old out.new) result }
    ensures kept { LinkKeeps query.now limits (link_step L.link L.Source.source link.old link.new)
        (into (telling S.sink T.wrote) out.old out.new) (kept_in K.keeper keep.old keep.new) result }
    ensures told { T.knows out.old None → LinkTells query.now limits (link_step L.link L.Source.source link.old link.new) (T.knows out.new) result }
    ensures cause { HasFaultCause (into (telling S.sink T.wrote) out.old out.new) (kept_in K.keeper keep.old keep.new) result }
{
    match begun(alloc, query, limits) {
        Ok((client, room)) => {
            let (mut client, mut room) = (client, room);
            let end = ask(
                &mut client,
                room.as_mut_slice(),
                addr,
                link,
                keep,
                out,
                teller,
                watch,
            );
            // A client that goes at the end of its scope takes the prover minutes.
            drop(client);
            end
        }
        Err(AllocError) => Err(FetchFault::OutOfMemory),
    }
}

/// A new client, and the room into which the pieces are taken that it is fed. The error is want of memory.
fn begun(alloc: Global, query: &Query, limits: Limits) -> Result<(Client, Vec<u8>), AllocError>
    ensures query { IfOk result (λ begun. begun.0.query ≡ query.now) }
    ensures limits { IfOk result (λ begun. begun.0.limits ≡ limits) }
    ensures stands { IfOk result (λ begun. StandsFor begun.0 [] []) }
    ensures none { IfOk result (λ begun. StandIn begun.0.query begun.0.limits [] []) }
    ensures tells { IfOk result (λ begun. Tells begun.0 []) }
    ensures untold { IfOk result (λ begun. terminal_of begun.0 ≡ None) }
    ensures room { IfOk result (λ begun. 0 < length begun.1.items) }
{
    let room = zeros(alloc, PIECE_LEN)?;
    Ok((Client::new(alloc, query, limits)?, room))
}

/// Puts the request of a client, which is new, into a link, and feeds it the reply through this room. Errors: those of
/// `fetch`.
fn ask<L: Link, K: Keep, S: Sink, T: TellTerminal<S>, W: Watch>(
    client: &mut Client,
    room: &mut [u8],
    addr: &str,
    link: &mut L,
    keep: &mut K,
    out: &mut S,
    teller: &T,
    watch: &mut W,
) -> Result<(), FetchFault>
    requires addr { IsAddr addr.now }
    requires fresh { StandsFor client.old [] [] }
    requires none { StandIn client.old.query client.old.limits [] [] }
    requires tells { Tells client.old [] }
    requires untold { terminal_of client.old ≡ None }
    requires room { 0 < length room.old }
    ensures called { LinkCalled client.old.query client.old.limits addr.now (link_step L.link L.Source.source link.old link.new) (into (telling S.sink T.wrote) out.old out.new) result }
    ensures kept { LinkKeeps client.old.query client.old.limits (link_step L.link L.Source.source link.old link.new)
        (into (telling S.sink T.wrote) out.old out.new) (kept_in K.keeper keep.old keep.new) result }
    ensures told { T.knows out.old None
        → LinkTells client.old.query client.old.limits (link_step L.link L.Source.source link.old link.new) (T.knows out.new) result }
    ensures cause { HasFaultCause (into (telling S.sink T.wrote) out.old out.new) (kept_in K.keeper keep.old keep.new) result }
{
    let request = client.request(addr)?;
    put_all(link, request.as_slice())?;
    hear(client, room, link, keep, out, teller, watch)
}

/// Feeds a client, which is new, with what a link's peer says, through this room, until the reply is whole or the peer
/// says no more, and tells `watch` behind each piece how far it has come. Errors: those of the client, and `PeerFault` where the link failed.
fn hear<L: Link, K: Keep, S: Sink, T: TellTerminal<S>, W: Watch>(
    client: &mut Client,
    room: &mut [u8],
    link: &mut L,
    keep: &mut K,
    out: &mut S,
    teller: &T,
    watch: &mut W,
) -> Result<(), FetchFault>
    requires fresh { StandsFor client.old [] [] }
    requires none { StandIn client.old.query client.old.limits [] [] }
    requires tells { Tells client.old [] }
    requires untold { terminal_of client.old ≡ None }
    requires room { 0 < length room.old }
    ensures heard { LinkHeard client.old.query client.old.limits (link_step L.link L.Source.source link.old link.new) (into (telling S.sink T.wrote) out.old out.new) result }
    ensures kept { HeardKeeps client.old.query client.old.limits (link_step L.link L.Source.source link.old link.new)
        (into (telling S.sink T.wrote) out.old out.new) (kept_in K.keeper keep.old keep.new) result }
    ensures told { T.knows out.old None
        → LinkTells client.old.query client.old.limits (link_step L.link L.Source.source link.old link.new) (T.knows out.new) result }
    ensures cause { HasFaultCause (into (telling S.sink T.wrote) out.old out.new) (kept_in K.keeper keep.old keep.new) result }
{
    tg_client::laws::standing_bodies();
    tg_client::laws::received_sections();
    tg_model_laws::kept_sections();
    tg_heard::heads_go_on();
    tg_heard::bodies_go_on();
    loop {
        let size = link.take(room)?;
        if size == 0 {
            return client.end(out);
        }
        let end = client.feed_keep(&room[..size], keep, out);
        if let Some(terminal) = client.terminal() {
            teller.tell(terminal, out);
        }
        if end? == Progress::Done {
            return Ok(());
        }
        watch.told(client.told());
    }
}
