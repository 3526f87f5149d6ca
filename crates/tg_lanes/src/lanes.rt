//! Lanes: sessions side by side over one store.
ghost use Rattle.std.specs.Prelude.{◌≡◌, ◌<◌, ◌≤◌, ◌++◌, ◌∷◌, [], IfErr, IfOk, List, OnErr, OnOk, Option, length};
ghost use Rattle.std.specs.Prelude.{replicate, slice_set, ℕ};
ghost use Rattle.tg_gateway.specs.Sessions.{new_session};
ghost use Rattle.tg_lanes.specs.Lanes.{EventEnds, IsServedBy, LaneFed};
ghost use Rattle.tg_lanes.specs.History.{EventStands, LanesStandFor, Move, was_renewed};
ghost use Rattle.tg_model.specs.Stores.{Store, looked_in};
ghost use Rattle.tg_streams.specs.Streams.{into};
ghost use Rattle.tg_walk.specs.Walks.{HaveLookedUp};

use crate::cached::Cached;
use std::alloc::{AllocError, Global};
use std::marker::Model;
use std::num::NonZeroUsize;
use tg_gateway::{GatewayFault, Next, Served, Session};
use tg_model::{Blocks, Limits};
use tg_streams::Sink;

/// What happens in a lane.
#[derive(Clone, Copy, Drop)]
pub enum LaneEvent<'a> {
    /// The peer says a piece, of any length.
    Piece(&'a [u8]),
    /// The peer says no more.
    Ended,
}

/// No memory was found for lanes.
#[derive(Drop)]
pub struct LanesRefused<B> {
    /// The store that they were asked for, as it was.
    pub blocks: B,
}

/// Sessions of a gateway side by side, one in each lane, over one store. What one lane is fed changes nothing of what
/// the others write; a block that was looked up for one is not looked up again while a copy of it is kept.
///
/// Its memory is that of its sessions, and of the copies: as many as were asked for, each of at most 2,097,152 bytes.
///
/// RFC 9112, section 9.3.
#[derive(Drop)]
pub struct Lanes<B: Blocks> {
    alloc: Global,
    limits: Limits,
    cached: Cached<B>,
    sessions: Vec<Session>,
}

impl<B: Blocks> Model for Lanes<B> {
    ghost use Rattle.tg_lanes.specs.Lanes.{AreAgreed, LanesView};

    ghost Value = { LanesView B };

    ghost view = { λ l. record
        { sessions = l.sessions.items; blocks = l.cached.blocks; most = l.limits.received; room = l.cached.room } };

    ghost invariant = { λ l. AreAgreed l.sessions.items };
}

impl<B: Blocks> Lanes<B> {
    /// So many lanes, 1 to 64, each with a session that was fed nothing, over a store of which copies of at most so
    /// many blocks are kept, 1 to 4,096. The error is want of memory, with which the store is given back.
    ///
    /// RFC 9112, section 9.3; the limits are this project's own.
    pub fn new(
        alloc: Global,
        blocks: B,
        count: u32,
        capacity: u32,
        limits: Limits,
    ) -> Result<Lanes<B>, LanesRefused<B>>
        requires lanes { (1 ≤ count) × (count ≤ 64) }
        requires kept { (1 ≤ capacity) × (capacity ≤ 4096) }
        ensures made { IfOk result (λ lanes. lanes ≡ record {
          sessions = replicate count (new_session limits.received);
          blocks = blocks;
          most = limits.received;
          room = capacity;
        }) }
        ensures refused { IfErr result (λ refused. refused.blocks ≡ blocks) }
    {
        let Ok(sessions) = new_sessions(alloc, count, limits) else {
            return Err(LanesRefused { blocks });
        };
        let room = NonZeroUsize::MIN.saturating_add(capacity as usize - 1);
        match Cached::new(alloc, blocks, room) {
            Ok(cached) => Ok(Lanes {
                alloc,
                limits,
                cached,
                sessions,
            }),
            Err(blocks) => Err(LanesRefused { blocks }),
        }
    }

    /// A piece that a lane's peer says is handed to its session, which puts every reply that it completes into `out`;
    /// of a peer that says no more nothing is done, and its connection can be closed. No other lane changes.
    ///
    /// RFC 9112, section 9.3. Errors, of a piece alone: `LinkFault` where `out` failed; `Limit` at the first byte past
    /// those that the lane may receive, unless its session is closed before; and `OutOfMemory`. Each further piece of
    /// the lane gives the same error and changes nothing, until the lane is renewed.
    pub fn event<S: Sink>(
        &mut self,
        lane: u32,
        event: LaneEvent<'_>,
        out: &mut S,
    ) -> Result<Next, GatewayFault>
        requires { lane < length self.old.sessions }
        ensures ends { EventEnds (B.blocks.stored self.old.blocks) self.old self.new lane event.entry
            (looked_in B.blocks self.old.blocks self.new.blocks) (into S.sink out.old out.new)
            (out.new ≡ out.old) result }
        ensures stands { EventStands (B.blocks.stored self.old.blocks) self.old.sessions self.new.sessions lane
            event.entry (looked_in B.blocks self.old.blocks self.new.blocks) (into S.sink out.old out.new) result }
        ensures lanes { length self.new.sessions ≡ length self.old.sessions }
        ensures room { self.new.room ≡ self.old.room }
        ensures looked { HaveLookedUp (looked_in B.blocks self.old.blocks self.new.blocks) }
        ensures counted { B.blocks.faults self.old.blocks ≤ B.blocks.faults self.new.blocks }
    {
        tg_reply::sessions_go_on();
        tg_gateway::laws::sessions_refuse();
        match event {
            LaneEvent::Piece(piece) => self.feed(lane as usize, piece, out),
            LaneEvent::Ended => Ok(Next::Close),
        }
    }

    /// A lane gets a session that was fed nothing. The error is want of memory, with which the lane is as it was.
    ///
    /// RFC 9112, section 9.3.
    pub fn renew(&mut self, lane: u32) -> Result<(), AllocError>
        requires { lane < length self.old.sessions }
        ensures renewed { OnOk result (self.new ≡ record self.old
            { sessions = slice_set self.old.sessions lane (new_session self.old.most) }) }
        ensures stands { OnOk result ((told : Option Store) (since now : ℕ) (moves : List Move)
            → LanesStandFor self.old.sessions told since now moves
            → LanesStandFor self.new.sessions told since now (moves ++ was_renewed lane now ∷ [])) }
        ensures lanes { length self.new.sessions ≡ length self.old.sessions }
        ensures refused { OnErr result (self.new ≡ self.old) }
    {
        tg_gateway::laws::sessions_stand();
        self.sessions[lane as usize] = Session::new(self.alloc, self.limits)?;
        Ok(())
    }

    /// The numbers of the replies in a lane since it was renewed last. It takes no memory.
    pub fn served(&self, lane: u32) -> Served
        requires { lane < length self.now.sessions }
        ensures { IsServedBy self.now.sessions lane result }
    {
        self.sessions[lane as usize].served()
    }

    /// The store, as the events left it. It takes no memory.
    pub fn into_blocks(self) -> B
        ensures { result ≡ self.blocks }
    {
        self.cached.into_blocks()
    }

    /// Feeds a lane's session a piece. Errors: those of `event`.
    fn feed<S: Sink>(
        &mut self,
        lane: usize,
        piece: &[u8],
        out: &mut S,
    ) -> Result<Next, GatewayFault>
        requires { lane < length self.old.sessions }
        ensures ends { LaneFed (B.blocks.stored self.old.blocks) self.old self.new lane piece.now
            (looked_in B.blocks self.old.blocks self.new.blocks) (into S.sink out.old out.new)
            (out.new ≡ out.old) result }
        ensures room { self.new.room ≡ self.old.room }
        ensures looked { HaveLookedUp (looked_in B.blocks self.old.blocks self.new.blocks) }
        ensures counted { B.blocks.faults self.old.blocks ≤ B.blocks.faults self.new.blocks }
    {
        self.sessions[lane].feed(piece, &mut self.cached, out)
    }
}

/// So many sessions that were fed nothing. The error is want of memory.
fn new_sessions(alloc: Global, count: u32, limits: Limits) -> Result<Vec<Session>, AllocError>
    ensures { IfOk result (λ sessions. sessions.items ≡ replicate count (new_session limits.received)) }
{
    let mut sessions = Vec::new(alloc);
    for _ in 0..count {
        sessions.push(Session::new(alloc, limits)?)?;
    }
    Ok(sessions)
}
