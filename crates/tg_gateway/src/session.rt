//! Sessions: requests that are read piece by piece, and the replies to them.
ghost use Rattle.std.specs.Prelude.{◌≡◌, ◌+◌, ◌-◌, ◌<◌, ◌≤◌, ◌++◌, [], Err, IfErr, IfOk, MatchResult, None, Ok, OnOk, Some, false, length};
ghost use Rattle.std.specs.Prelude.{min, true};
ghost use Rattle.tg_gateway.specs.Sessions.{FeedEnds, new_session};
ghost use Rattle.tg_gateway.specs.Steps.{BreaksOff, HasAnswered, LookEnds, RefuseEnds, StepEnds, TakeEnds, WaitsIfOpen, counted};
ghost use Rattle.tg_reply.specs.Refusals.{ends_connection};
ghost use Rattle.tg_gateway.specs.declared.fault.GatewayFault.{GatewayFault};
ghost use Rattle.tg_gateway.specs.declared.session.Next.{Next};
ghost use Rattle.tg_model.specs.Stores.{looked_in};
ghost use Rattle.tg_reply.specs.Sessions.{IsOpen};
ghost use Rattle.tg_streams.specs.Streams.{into};
ghost use Rattle.tg_walk.specs.Walks.{HaveLookedUp};

use crate::fault::GatewayFault;
use crate::heads::HeadRoom;
use std::alloc::{AllocError, Global};
use std::marker::Model;
use tg_http::HttpFault;
use tg_model::{Blocks, LimitKind, Limits};
use tg_reply::Refusal;
use tg_replying::{Replied, put_refusal, put_reply};
use tg_streams::{Gathering, Sink};

/// What a session does next.
#[derive(Clone, Copy, Debug, PartialEq, Eq)]
pub enum Next {
    /// It goes on with more bytes.
    More,
    /// It is done: the last reply closes the connection.
    Close,
}

/// The numbers of the replies that a session sent.
#[derive(Clone, Copy, Debug, PartialEq, Eq)]
pub struct Served {
    /// How many replies were sent to their end, or to the cut of their body.
    pub requests: u64,
    /// How many of them have status 500 or a body that was cut.
    pub broken: u64,
    /// At how many of them the store failed or a stored block had changed.
    pub store: u64,
}

impl Served {
    /// No reply was sent.
    pub fn none() -> Served
        ensures { result ≡ record { requests = 0; broken = 0; store = 0 } }
    {
        Served {
            requests: 0,
            broken: 0,
            store: 0,
        }
    }
}

/// A session of a gateway over one connection: it is fed what is heard, piece by piece, and puts the replies to the
/// requests in order, as if each piece were a front of one stream, however it is cut.
///
/// Its memory is that of one head, of one block and what a walk holds, and 32 KiB in which small pieces are gathered.
///
/// RFC 9112, sections 2.2 and 9.3.
#[derive(Drop)]
pub struct Session {
    alloc: Global,
    kept: HeadRoom,
    gathering: Gathering,
    closed: bool,
    refused: Option<GatewayFault>,
    served: Served,
    received: u64,
    most: u64,
}

impl Model for Session {
    ghost use Rattle.std.specs.Option.{is_some};
    ghost use Rattle.std.specs.Prelude.{[], ◌+◌, ◌<◌, ◌^◌, ◌≡◌, ◌≤◌, length};
    ghost use Rattle.tg_gateway.specs.Sessions.{SessionView};

    ghost Value = { SessionView };

    ghost view = { λ s. record {
      state = record {
        kept = s.kept;
        closed = s.closed;
        refused = is_some s.refused;
        requests = s.served.requests;
        broken = s.served.broken;
        failed = s.served.store;
        received = s.received;
        most = s.most;
      };
      refused = s.refused;
    } };

    ghost invariant = { λ s. (s.gathering ≡ []) × (s.served.requests + length s.kept ≤ s.received) × (s.served.broken ≤ s.served.requests)
        × (s.served.store ≤ s.served.requests) × (s.received ≤ s.most) × (s.most ≤ 2 ^ 40) };
}

impl Session {
    /// A session that was fed nothing, of which so many bytes may be received as the limits say. It takes the memory of
    /// a head and of what is gathered here. The error is want of memory.
    pub fn new(alloc: Global, limits: Limits) -> Result<Session, AllocError>
        ensures { IfOk result (λ session. session ≡ new_session limits.received) }
    {
        Ok(Session {
            alloc,
            kept: HeadRoom::new(alloc)?,
            gathering: Gathering::new(alloc)?,
            closed: false,
            refused: None,
            served: Served::none(),
            received: 0,
            most: limits.number(LimitKind::Received),
        })
    }

    /// Takes the whole piece, and puts every reply that it completes; all of them are out at the end. Behind `Close`
    /// what comes is dropped.
    ///
    /// RFC 9112, section 9.3. Errors: `LinkFault` where out failed; `Limit` at the first byte past those that may be
    /// received, unless the session is closed before; and `OutOfMemory`. Each further call gives the same error and
    /// changes nothing.
    pub fn feed<B: Blocks, S: Sink>(
        &mut self,
        piece: &[u8],
        blocks: &mut B,
        out: &mut S,
    ) -> Result<Next, GatewayFault>
        ensures ends { IsOpen self.old.state → FeedEnds (B.blocks.stored blocks.old) self.old self.new piece.now
            (looked_in B.blocks blocks.old blocks.new) (into S.sink out.old out.new) result }
        ensures closed { self.old.refused ≡ None → self.old.state.closed ≡ true
            → (result ≡ Ok Next.Close) × (self.new ≡ self.old) × (blocks.new ≡ blocks.old) × (out.new ≡ out.old) }
        ensures again { (fault : GatewayFault) → self.old.refused ≡ Some fault
            → (result ≡ Err fault) × (self.new ≡ self.old) × (blocks.new ≡ blocks.old) × (out.new ≡ out.old) }
        ensures refused { MatchResult result (λ _. self.new.refused ≡ None) (λ fault. self.new.refused ≡ Some fault) }
        ensures looked { HaveLookedUp (looked_in B.blocks blocks.old blocks.new) }
        ensures counted { B.blocks.faults blocks.old ≤ B.blocks.faults blocks.new }
    {
        if let Some(fault) = self.refused {
            return Err(fault);
        }
        if self.closed {
            return Ok(Next::Close);
        }
        let end = self.take(piece, blocks, out);
        self.refused = end.err();
        end
    }

    /// The numbers of the replies so far. It takes no memory.
    pub fn served(&self) -> Served
        ensures { result ≡ record { requests = self.now.state.requests; broken = self.now.state.broken; store = self.now.state.failed } }
    {
        self.served
    }

    /// Takes a piece, up to the byte where more came than may be received. Errors: those of `feed`.
    fn take<B: Blocks, S: Sink>(
        &mut self,
        piece: &[u8],
        blocks: &mut B,
        out: &mut S,
    ) -> Result<Next, GatewayFault>
        requires { IsOpen self.old.state }
        ensures ends { TakeEnds (B.blocks.stored blocks.old) self.old.state self.new.state piece.now
            (looked_in B.blocks blocks.old blocks.new) (into S.sink out.old out.new) result }
        ensures unrefused { self.new.refused ≡ None }
        ensures looked { HaveLookedUp (looked_in B.blocks blocks.old blocks.new) }
        ensures counted { B.blocks.faults blocks.old ≤ B.blocks.faults blocks.new }
    {
        let (front, past) = piece.split_at(self.may_receive(piece.len()));
        self.look(front, blocks, out)?;
        if self.closed {
            return Ok(Next::Close);
        }
        if past.is_empty() {
            Ok(Next::More)
        } else {
            Err(GatewayFault::Limit { number: self.most })
        }
    }

    /// How many of so many bytes may be received.
    fn may_receive(&self, size: usize) -> usize
        ensures number { result ≡ min size (self.now.state.most - self.now.state.received) }
        ensures may { self.now.state.received + result ≤ self.now.state.most }
    {
        let left = self.most - self.received;
        if size as u64 <= left {
            size
        } else {
            left as usize
        }
    }

    /// Looks at bytes, of which no more come than may be received, and puts every reply that they complete. Errors:
    /// `LinkFault` and `OutOfMemory`.
    fn look<B: Blocks, S: Sink>(
        &mut self,
        bytes: &[u8],
        blocks: &mut B,
        out: &mut S,
    ) -> Result<(), GatewayFault>
        requires open_is { IsOpen self.old.state }
        requires may { self.old.state.received + length bytes.now ≤ self.old.state.most }
        ensures ends { LookEnds (B.blocks.stored blocks.old) self.old.state self.new.state bytes.now
            (looked_in B.blocks blocks.old blocks.new) (into S.sink out.old out.new) result }
        ensures waits { OnOk result (WaitsIfOpen self.new.state) }
        ensures unrefused { self.new.refused ≡ None }
        ensures looked { HaveLookedUp (looked_in B.blocks blocks.old blocks.new) }
        ensures counted { B.blocks.faults blocks.old ≤ B.blocks.faults blocks.new }
    {
        tg_reply::sent_joins();
        let mut rest = bytes;
        loop {
            self.answer(blocks, out)?;
            if self.closed || rest.is_empty() {
                return Ok(());
            }
            let (more, behind) = rest.split_at(self.kept.free().min(rest.len()));
            self.add(more);
            rest = behind;
        }
    }

    /// Keeps bytes for which there is room behind those that are kept.
    fn add(&mut self, bytes: &[u8])
        requires room { length self.old.state.kept + length bytes.now ≤ 16384 }
        requires may { self.old.state.received + length bytes.now ≤ self.old.state.most }
        ensures { self.new ≡ record self.old {
          state = record self.old.state
              { kept = self.old.state.kept ++ bytes.now; received = self.old.state.received + length bytes.now };
        } }
    {
        self.kept.add(bytes);
        self.received += bytes.len() as u64;
    }

    /// Answers the requests that are whole in the bytes that are kept. Errors: `LinkFault` and `OutOfMemory`.
    fn answer<B: Blocks, S: Sink>(
        &mut self,
        blocks: &mut B,
        out: &mut S,
    ) -> Result<(), GatewayFault>
        requires { IsOpen self.old.state }
        ensures ends { StepEnds (B.blocks.stored blocks.old) self.old.state self.new.state []
            (looked_in B.blocks blocks.old blocks.new) (into S.sink out.old out.new) result }
        ensures waits { OnOk result (WaitsIfOpen self.new.state) }
        ensures unrefused { self.new.refused ≡ None }
        ensures looked { HaveLookedUp (looked_in B.blocks blocks.old blocks.new) }
        ensures counted { B.blocks.faults blocks.old ≤ B.blocks.faults blocks.new }
    {
        tg_reply::sent_joins();
        while self.answer_next(blocks, out)? {}
        Ok(())
    }

    /// Answers the request at the front of the bytes that are kept, and says whether another may follow it. Errors:
    /// `LinkFault` and `OutOfMemory`.
    fn answer_next<B: Blocks, S: Sink>(
        &mut self,
        blocks: &mut B,
        out: &mut S,
    ) -> Result<bool, GatewayFault>
        requires { IsOpen self.old.state }
        ensures answered { OnOk result (HasAnswered (B.blocks.stored blocks.old) self.old.state self.new.state []
            (looked_in B.blocks blocks.old blocks.new) (into S.sink out.old out.new)) }
        ensures broke { IfErr result (BreaksOff (B.blocks.stored blocks.old) self.old.state self.new.state []
            (looked_in B.blocks blocks.old blocks.new) (into S.sink out.old out.new)) }
        ensures goes_on { result ≡ Ok true
            → IsOpen self.new.state × (length self.new.state.kept < length self.old.state.kept) }
        ensures waits { result ≡ Ok false → WaitsIfOpen self.new.state }
        ensures unrefused { self.new.refused ≡ None }
        ensures looked { HaveLookedUp (looked_in B.blocks blocks.old blocks.new) }
        ensures counted { B.blocks.faults blocks.old ≤ B.blocks.faults blocks.new }
    {
        match self.kept.next(self.alloc) {
            Ok(None) => Ok(false),
            Ok(Some(head)) => {
                let replied = put_reply(self.alloc, &head, blocks, &mut self.gathering, out)?;
                self.count(replied);
                Ok(!self.closed)
            }
            Err(HttpFault::HeadLimit) => self.refuse(Refusal::HeadLimit, out),
            Err(HttpFault::BadHead) => self.refuse(Refusal::BadHead, out),
            Err(HttpFault::BadFraming) => self.refuse(Refusal::BadFraming, out),
            Err(HttpFault::OutOfMemory) => Err(GatewayFault::OutOfMemory),
        }
    }

    /// Puts the refusal of bytes that are no head, behind which the connection closes: `false`, since nothing follows.
    /// Errors: `LinkFault` and `OutOfMemory`.
    fn refuse<S: Sink>(&mut self, refusal: Refusal, out: &mut S) -> Result<bool, GatewayFault>
        requires closes { ends_connection refusal ≡ true }
        requires kept { 0 < length self.old.state.kept }
        ensures ends { RefuseEnds refusal self.old.state self.new.state (into S.sink out.old out.new) result }
        ensures unrefused { self.new.refused ≡ self.old.refused }
    {
        put_refusal(self.alloc, refusal, &mut self.gathering, out)?;
        self.kept.clear();
        self.count(Replied {
            closes: true,
            broken: false,
            failed: false,
        });
        Ok(false)
    }

    /// Counts a reply that was sent.
    fn count(&mut self, replied: Replied)
        requires { self.old.state.requests + length self.old.state.kept < self.old.state.received }
        ensures { self.new ≡ record self.old { state = counted self.old.state replied } }
    {
        self.served.requests += 1;
        self.served.broken += u64::from(replied.broken);
        self.served.store += u64::from(replied.failed);
        self.closed = replied.closes;
    }
}
