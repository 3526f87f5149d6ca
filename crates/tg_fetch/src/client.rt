//! A client of a gateway.
ghost use Rattle.std.specs.Prelude.{◌≡◌, ◌++◌, ◌+◌, ◌<◌, ◌^◌, ◌≤◌, [], ℕ, List as Items, Err, IfOk, IfSome, MatchResult, None, Ok, Some, length, take};
ghost use Rattle.tg_fetch.specs.Clients.{EndEnds, FeedEnds, IsOpen, IsShortAt, StandsFor, StepEnds};
ghost use Rattle.tg_fetch.specs.Faults.{QuietUnlessSink};
ghost use Rattle.tg_fetch.specs.Keeping.{EndKeeps, FeedKeeps, HasFaultCause, StandIn, unkept};
ghost use Rattle.tg_fetch.specs.KeepingSteps.{StepKeeps};
ghost use Rattle.tg_fetch.specs.Telling.{Tells, terminal_of};
ghost use Rattle.tg_fetch.specs.Watched.{told_of};
ghost use Rattle.tg_fetch.specs.declared.client.Stage.{Stage};
ghost use Rattle.tg_fetch.specs.declared.fault.FetchFault.{FetchFault};
ghost use Rattle.tg_model.specs.Dag.{Section};
ghost use Rattle.tg_model.specs.Stores.{kept_in};
ghost use Rattle.tg_query.specs.Requests.{IsAddr, request_text};
ghost use Rattle.tg_streams.specs.Streams.{into};
ghost use Rattle.tg_verify.specs.declared.verifier.Progress.{Progress};

use crate::content::{Content, Move};
use crate::fault::FetchFault;
use crate::heads::Heads;
use crate::watch::Told;
use std::alloc::{AllocError, Global};
use std::mem::{self, drop};
use tg_bytes::Bytes;
use tg_model::{DropKeep, Form, Keep, LimitKind, Limits, Query, well_formed};
use tg_query::print_request;
use tg_streams::Sink;
use tg_traversal::copied_path;
use tg_verify::{Progress, Refusal, Terminal};

/// A client of a gateway, which trusts no server: it prints the request for a query, and is fed the reply piece by piece
/// as it comes. It takes the reply for the query's answer only where each block is the one that the root vouches for, and
/// puts what a section says as soon as its last byte came, but for a listing and a raw block, which are put at the end.
///
/// Of what came it keeps a head until it is whole, a chunk line, and the section at hand, besides what a verifier keeps.
/// RFC 9112; Trustless Gateway specification; Path Gateway specification.
#[derive(Drop)]
pub struct Client {
    alloc: Global,
    query: Query,
    limits: Limits,
    heard: u64,
    stage: Stage,
    terminal: Option<Terminal>,
    refused: Option<FetchFault>,
}

/// Where a client is in a reply.
#[derive(Drop)]
pub(crate) enum Stage {
    /// The final head isn't whole.
    Heads(Heads),
    /// It is, and the body isn't.
    Content(Content),
    /// The reply is whole and accepted.
    Done,
}

impl Stage {
    /// Goes on with the next stage. This one is let go by `drop`: one that goes where the next is assigned takes the prover
    /// minutes in each function.
    fn enter(&mut self, next: Stage)
        ensures { self.new ≡ next }
    {
        drop(mem::replace(self, next));
    }
}

impl Client {
    /// The client for a query, before the first byte of a reply. The error is want of memory.
    pub fn new(alloc: Global, query: &Query, limits: Limits) -> Result<Client, AllocError>
        ensures query { IfOk result (λ client. client.query ≡ query.now) }
        ensures limits { IfOk result (λ client. client.limits ≡ limits) }
        ensures stands { IfOk result (λ client. StandsFor client [] []) }
        // No section stands whole in nothing.
        ensures fresh { IfOk result (λ client. StandIn client.query client.limits [] []) }
        // And it tells nothing.
        ensures tells { IfOk result (λ client. Tells client []) }
        ensures untold { IfOk result (λ client. terminal_of client ≡ None) }
    {
        tg_heard::heads_go_on();
        Ok(Client {
            alloc,
            query: copied_query(alloc, query)?,
            limits,
            heard: 0,
            stage: Stage::Heads(Heads::new(alloc)),
            terminal: None,
            refused: None,
        })
    }

    /// The request for the query to a gateway at `addr`, which has the form HOST:PORT. The error is want of memory.
    ///
    /// RFC 9112, section 3; Trustless Gateway specification.
    pub fn request(&self, addr: &str) -> Result<Bytes, AllocError>
        requires { IsAddr addr.now }
        ensures { IfOk result (λ text. text ≡ request_text self.now.query addr.now) }
    {
        print_request(self.alloc, &self.query, addr)
    }

    /// Takes a piece of the reply, and says whether more is wanted: `Done` comes with the last byte of a reply whose end
    /// is told by its length or by chunks, and is the query's answer. Behind it nothing is looked at.
    ///
    /// Errors, by the first byte where one holds, and of several there in this order: `BadReplyHead` where no head of a
    /// reply comes, or more than 16 interim ones; `Status`, `BadFraming` and `BadType` at the final head; a `Limit` of
    /// kind `Received` at the first byte past those that may be received; `BadFraming` where the framing is broken;
    /// `Refused` with a refusal of the verifier, with a `Limit` of kind `Block` where a section declares too large a
    /// block or a raw one has more bytes, with `Extra` behind the last wanted section, and with `Truncated` where the
    /// body ends and a block is wanted; `Status` with 404 where the CAR of a 404 shows that the path leads to a terminal;
    /// `BadCar`; and `OutOfMemory`. What was put before stays. Each further call gives the same error and changes nothing.
    ///
    /// RFC 9110, section 15; RFC 9112, sections 2 to 8; Trustless Gateway specification; Path Gateway specification.
    pub fn feed<S: Sink>(&mut self, piece: &[u8], out: &mut S) -> Result<Progress, FetchFault>
        ensures query { self.new.query ≡ self.old.query }
        ensures limits { self.new.limits ≡ self.old.limits }
        // What came, this piece with it, and what is written for it.
        ensures ends { (heard written : Items ℕ) → StandsFor self.old heard written
            → FeedEnds self.new heard piece.now written (into S.sink out.old out.new) result }
        // Where more is wanted a body of stated length isn't whole.
        ensures short { (heard written : Items ℕ) → StandsFor self.old heard written → result ≡ Ok Progress.More
            → IsShortAt self.new.query self.new.limits self.new.stage (heard ++ piece.now) }
        // Nothing is kept, and so no keeper fails.
        ensures cause { (heard written : Items ℕ) → StandsFor self.old heard written
            → QuietUnlessSink (into S.sink out.old out.new) result }
        // What the path leads to in each sound DAG, refused or not; it never changes, and of a whole reply it is told.
        ensures tells { (heard written : Items ℕ) → StandsFor self.old heard written → Tells self.old heard
            → Tells self.new (heard ++ piece.now) }
        ensures told { IfSome (terminal_of self.old) (λ t. terminal_of self.new ≡ Some t) }
        ensures done { self.old.refused ≡ None → self.old.stage ≡ Stage.Done
            → (result ≡ Ok Progress.Done) × (self.new ≡ self.old) × (out.new ≡ out.old) }
        ensures again { (fault : FetchFault) → self.old.refused ≡ Some fault
            → (result ≡ Err fault) × (self.new ≡ self.old) × (out.new ≡ out.old) }
        ensures refused { MatchResult result (λ _. self.new.refused ≡ None) (λ fault. self.new.refused ≡ Some fault) }
    {
        self.feed_keep(piece, &mut DropKeep::new(), out)
    }

    /// Takes a piece of the reply, as `feed` does, and hands the keeper each section of the answer's CAR whose CID names its
    /// block, directly before it is verified; a block is hashed once in all. Nothing is kept of a raw block, nor of a CAR
    /// that shows that the path leads nowhere.
    ///
    /// Errors: those of `feed`, and `KeepFault` where the keeper failed at a section. What was put and kept before stays.
    /// Each further call gives the same error and changes nothing.
    ///
    /// Trustless Gateway specification, CAR responses.
    pub fn feed_keep<K: Keep, S: Sink>(
        &mut self,
        piece: &[u8],
        keep: &mut K,
        out: &mut S,
    ) -> Result<Progress, FetchFault>
        ensures query { self.new.query ≡ self.old.query }
        ensures limits { self.new.limits ≡ self.old.limits }
        // What came, this piece with it, and what is written for it.
        ensures ends { (heard written : Items ℕ) → StandsFor self.old heard written
            → FeedEnds self.new heard piece.now written (into S.sink out.old out.new) result }
        // Where more is wanted a body of stated length isn't whole.
        ensures short { (heard written : Items ℕ) → StandsFor self.old heard written → result ≡ Ok Progress.More
            → IsShortAt self.new.query self.new.limits self.new.stage (heard ++ piece.now) }
        // Which sections were kept.
        ensures kept { (heard written : Items ℕ) (before : Items Section) → StandsFor self.old heard written
            → StandIn self.old.query self.old.limits heard before
            → FeedKeeps self.new heard piece.now before written (into S.sink out.old out.new)
            (kept_in K.keeper keep.old keep.new) result }
        ensures cause { (heard written : Items ℕ) → StandsFor self.old heard written
            → HasFaultCause (into S.sink out.old out.new) (kept_in K.keeper keep.old keep.new) result }
        // What the path leads to in each sound DAG, refused or not; it never changes, and of a whole reply it is told.
        ensures tells { (heard written : Items ℕ) → StandsFor self.old heard written → Tells self.old heard
            → Tells self.new (heard ++ piece.now) }
        ensures told { IfSome (terminal_of self.old) (λ t. terminal_of self.new ≡ Some t) }
        ensures done { self.old.refused ≡ None → self.old.stage ≡ Stage.Done
            → (result ≡ Ok Progress.Done) × (self.new ≡ self.old) × (keep.new ≡ keep.old) × (out.new ≡ out.old) }
        ensures again { (fault : FetchFault) → self.old.refused ≡ Some fault
            → (result ≡ Err fault) × (self.new ≡ self.old) × (keep.new ≡ keep.old) × (out.new ≡ out.old) }
        ensures refused { MatchResult result (λ _. self.new.refused ≡ None) (λ fault. self.new.refused ≡ Some fault) }
    {
        if let Some(fault) = self.refused {
            return Err(fault);
        }
        let end = self.hear(piece, keep, out);
        self.refused = end.as_ref().err().copied();
        end
    }

    /// What the query's path leads to, as `Verifier::terminal` tells it: of a body that is the answer's CAR, and behind it.
    pub fn terminal(&self) -> Option<Terminal>
        ensures { result ≡ terminal_of self.now }
    {
        match &self.stage {
            Stage::Heads(_) => None,
            Stage::Content(content) => content.terminal(),
            Stage::Done => self.terminal,
        }
    }

    /// How far a body has come that is a CAR: nothing is told before the final head and of a raw block, and nothing is
    /// any more behind a whole reply.
    pub fn told(&self) -> Told
        ensures { result ≡ told_of self.now.stage }
    {
        match &self.stage {
            Stage::Content(content) => content.told(),
            Stage::Heads(_) | Stage::Done => Told {
                bytes: 0,
                blocks: 0,
            },
        }
    }

    /// Says that the link has ended. Ok says that the reply is the query's answer.
    ///
    /// Errors: `BadReplyHead` where the final head isn't whole; `BadFraming` where the body isn't, and its end is told by
    /// its length or by chunks; `Truncated` where a block is wanted; and others of `feed`. Each further call gives the
    /// same error and changes nothing. RFC 9112, section 8.
    pub fn end<S: Sink>(&mut self, out: &mut S) -> Result<(), FetchFault>
        ensures query { self.new.query ≡ self.old.query }
        ensures limits { self.new.limits ≡ self.old.limits }
        ensures ends { (heard written : Items ℕ) → StandsFor self.old heard written
            → EndEnds self.old.query self.old.limits heard written (into S.sink out.old out.new) result }
        // Which sections were kept before.
        ensures kept { (heard written : Items ℕ) (before : Items Section)
            → StandsFor self.old heard written → StandIn self.old.query self.old.limits heard before
            → EndKeeps self.old.query self.old.limits heard before written (into S.sink out.old out.new) unkept result }
        ensures cause { (heard written : Items ℕ) → StandsFor self.old heard written
            → QuietUnlessSink (into S.sink out.old out.new) result }
        // What the path leads to, which stays; and of a whole reply it is told.
        ensures tells { (heard written : Items ℕ) → StandsFor self.old heard written → Tells self.old heard
            → Tells self.new heard }
        ensures told { terminal_of self.new ≡ terminal_of self.old }
        ensures done { self.old.refused ≡ None → self.old.stage ≡ Stage.Done
            → (result ≡ Ok tt) × (self.new ≡ self.old) × (out.new ≡ out.old) }
        ensures again { (fault : FetchFault) → self.old.refused ≡ Some fault
            → (result ≡ Err fault) × (self.new ≡ self.old) × (out.new ≡ out.old) }
        // Behind Ok each further call gives it again.
        ensures whole { result ≡ Ok tt → (self.new.refused ≡ None) × (self.new.stage ≡ Stage.Done) }
        ensures refused { MatchResult result (λ _. self.new.refused ≡ None) (λ fault. self.new.refused ≡ Some fault) }
    {
        if let Some(fault) = self.refused {
            return Err(fault);
        }
        let end = self.finish(out);
        self.refused = end.as_ref().err().copied();
        end
    }

    /// Takes a piece, up to the byte where more came than may be received. Errors: those of `feed_keep`.
    fn hear<K: Keep, S: Sink>(
        &mut self,
        piece: &[u8],
        keep: &mut K,
        out: &mut S,
    ) -> Result<Progress, FetchFault>
        requires { self.old.refused ≡ None }
        ensures query { self.new.query ≡ self.old.query }
        ensures limits { self.new.limits ≡ self.old.limits }
        ensures unrefused { self.new.refused ≡ None }
        ensures ends { (heard written : Items ℕ) → IsOpen self.old heard written
            → FeedEnds self.new heard piece.now written (into S.sink out.old out.new) result }
        ensures short { (heard written : Items ℕ) → IsOpen self.old heard written → result ≡ Ok Progress.More
            → IsShortAt self.new.query self.new.limits self.new.stage (heard ++ piece.now) }
        ensures kept { (heard written : Items ℕ) (before : Items Section) → IsOpen self.old heard written
            → StandIn self.old.query self.old.limits heard before
            → FeedKeeps self.new heard piece.now before written (into S.sink out.old out.new)
            (kept_in K.keeper keep.old keep.new) result }
        ensures cause { (heard written : Items ℕ) → IsOpen self.old heard written
            → HasFaultCause (into S.sink out.old out.new) (kept_in K.keeper keep.old keep.new) result }
        // What the path leads to in each sound DAG, refused or not; it never changes, and of a whole reply it is told.
        ensures tells { (heard written : Items ℕ) → IsOpen self.old heard written → Tells self.old heard
            → Tells self.new (heard ++ piece.now) }
        ensures told { IfSome (terminal_of self.old) (λ t. terminal_of self.new ≡ Some t) }
        ensures done { self.old.stage ≡ Stage.Done
            → (result ≡ Ok Progress.Done) × (self.new ≡ self.old) × (keep.new ≡ keep.old) × (out.new ≡ out.old) }
    {
        tg_client::laws::standing_bodies();
        tg_client::laws::received_sections();
        tg_heard::heads_go_on();
        tg_heard::bodies_go_on();
        let most = self.limits.number(LimitKind::Received);
        let may = most - self.heard.min(most);
        let room = may.min(piece.len() as u64) as usize;
        let (front, past) = piece.split_at(room);
        if self.look(front, keep, out)? == Progress::Done {
            return Ok(Progress::Done);
        }
        if past.is_empty() {
            return Ok(Progress::More);
        }
        Err(FetchFault::Refused(Refusal::Limit {
            kind: LimitKind::Received,
            number: most,
        }))
    }

    /// Looks at bytes, of which no more come than may be received. Errors: those of `feed_keep`.
    fn look<K: Keep, S: Sink>(
        &mut self,
        bytes: &[u8],
        keep: &mut K,
        out: &mut S,
    ) -> Result<Progress, FetchFault>
        requires unrefused { self.old.refused ≡ None }
        requires most { self.old.limits.received < 2 ^ 64 }
        ensures query { self.new.query ≡ self.old.query }
        ensures limits { self.new.limits ≡ self.old.limits }
        ensures unrefused { self.new.refused ≡ None }
        ensures ends { (heard written : Items ℕ) → IsOpen self.old heard written
            → length heard + length bytes.now ≤ self.old.limits.received
            → FeedEnds self.new heard bytes.now written (into S.sink out.old out.new) result }
        // Where more is wanted a body of stated length isn't whole.
        ensures short { (heard written : Items ℕ) → IsOpen self.old heard written
            → length heard + length bytes.now ≤ self.old.limits.received → result ≡ Ok Progress.More
            → IsShortAt self.new.query self.new.limits self.new.stage (heard ++ bytes.now) }
        ensures kept { (heard written : Items ℕ) (before : Items Section) → IsOpen self.old heard written
            → length heard + length bytes.now ≤ self.old.limits.received
            → StandIn self.old.query self.old.limits heard before
            → FeedKeeps self.new heard bytes.now before written (into S.sink out.old out.new)
            (kept_in K.keeper keep.old keep.new) result }
        ensures cause { (heard written : Items ℕ) → IsOpen self.old heard written
            → length heard + length bytes.now ≤ self.old.limits.received
            → HasFaultCause (into S.sink out.old out.new) (kept_in K.keeper keep.old keep.new) result }
        ensures tells { (heard written : Items ℕ) → IsOpen self.old heard written
            → length heard + length bytes.now ≤ self.old.limits.received → Tells self.old heard
            → Tells self.new (heard ++ bytes.now) }
        ensures told { IfSome (terminal_of self.old) (λ t. terminal_of self.new ≡ Some t) }
        ensures done { self.old.stage ≡ Stage.Done
            → (result ≡ Ok Progress.Done) × (self.new ≡ self.old) × (keep.new ≡ keep.old) × (out.new ≡ out.old) }
    {
        tg_model_laws::kept_sections();
        tg_heard::heads_go_on();
        let mut rest = bytes;
        loop {
            let (taken, told) = self.step(rest, keep, out)?;
            match told {
                Move::On => rest = &rest[taken..],
                Move::Wait => return Ok(Progress::More),
                Move::Done => return Ok(Progress::Done),
            }
        }
    }

    /// Takes bytes up to the next end of a head, of a part of the body, or of the reply, and says how many, and how it
    /// goes on. Errors: those of `feed_keep`.
    fn step<K: Keep, S: Sink>(
        &mut self,
        bytes: &[u8],
        keep: &mut K,
        out: &mut S,
    ) -> Result<(usize, Move), FetchFault>
        requires unrefused { self.old.refused ≡ None }
        requires most { self.old.limits.received < 2 ^ 64 }
        ensures query { self.new.query ≡ self.old.query }
        ensures limits { self.new.limits ≡ self.old.limits }
        ensures unrefused { self.new.refused ≡ None }
        ensures within { IfOk result (λ told. told.0 ≤ length bytes.now) }
        ensures moves { IfOk result (λ told. told.1 ≡ Move.On → 0 < told.0) }
        ensures ends { (heard written : Items ℕ) → IsOpen self.old heard written
            → length heard + length bytes.now ≤ self.old.limits.received
            → StepEnds self.new heard bytes.now written (into S.sink out.old out.new) result }
        ensures short { (heard written : Items ℕ) → IsOpen self.old heard written → IfOk result (λ told. told.1 ≡ Move.Wait
            → IsShortAt self.new.query self.new.limits self.new.stage (heard ++ bytes.now)) }
        ensures kept { (heard written : Items ℕ) (before : Items Section) → IsOpen self.old heard written
            → length heard + length bytes.now ≤ self.old.limits.received
            → StandIn self.old.query self.old.limits heard before
            → StepKeeps self.old.query self.old.limits heard bytes.now before written (into S.sink out.old out.new)
            (kept_in K.keeper keep.old keep.new) result }
        ensures cause { (heard written : Items ℕ) → IsOpen self.old heard written
            → HasFaultCause (into S.sink out.old out.new) (kept_in K.keeper keep.old keep.new) result }
        ensures tells { (heard written : Items ℕ) → IsOpen self.old heard written → Tells self.old heard → MatchResult result
            (λ told. Tells self.new (heard ++ take told.0 bytes.now)) (λ _. Tells self.new (heard ++ bytes.now)) }
        ensures told { IfSome (terminal_of self.old) (λ t. terminal_of self.new ≡ Some t) }
        ensures done { self.old.stage ≡ Stage.Done
            → (result ≡ Ok (0, Move.Done)) × (self.new ≡ self.old) × (keep.new ≡ keep.old) × (out.new ≡ out.old) }
    {
        tg_heard::heads_go_on();
        tg_heard::bodies_go_on();
        match &mut self.stage {
            Stage::Heads(heads) => {
                let (taken, head) = heads.take(bytes)?;
                let told = behind_heads(taken);
                self.heard = self.heard.saturating_add(taken as u64);
                let Some(head) = head else {
                    return Ok((taken, told));
                };
                let content = Content::behind(self.alloc, &self.query, self.limits, &head)?;
                self.stage.enter(Stage::Content(content));
                Ok((taken, told))
            }
            Stage::Content(content) => {
                let (taken, told) = content.take(bytes, keep, out)?;
                self.heard = self.heard.saturating_add(taken as u64);
                if told != Move::Done {
                    return Ok((taken, told));
                }
                self.terminal = content.terminal();
                self.stage.enter(Stage::Done);
                Ok((taken, told))
            }
            Stage::Done => Ok((0, Move::Done)),
        }
    }

    /// Says that the link has ended. Errors: those of `end`.
    fn finish<S: Sink>(&mut self, out: &mut S) -> Result<(), FetchFault>
        requires { self.old.refused ≡ None }
        ensures query { self.new.query ≡ self.old.query }
        ensures limits { self.new.limits ≡ self.old.limits }
        ensures unrefused { self.new.refused ≡ None }
        ensures ends { (heard written : Items ℕ) → IsOpen self.old heard written
            → EndEnds self.old.query self.old.limits heard written (into S.sink out.old out.new) result }
        ensures kept { (heard written : Items ℕ) (before : Items Section)
            → IsOpen self.old heard written → StandIn self.old.query self.old.limits heard before
            → EndKeeps self.old.query self.old.limits heard before written (into S.sink out.old out.new) unkept result }
        ensures cause { (heard written : Items ℕ) → IsOpen self.old heard written
            → QuietUnlessSink (into S.sink out.old out.new) result }
        ensures tells { (heard written : Items ℕ) → IsOpen self.old heard written → Tells self.old heard
            → Tells self.new heard }
        ensures told { terminal_of self.new ≡ terminal_of self.old }
        ensures done { self.old.stage ≡ Stage.Done
            → (result ≡ Ok tt) × (self.new ≡ self.old) × (out.new ≡ out.old) }
        ensures whole { result ≡ Ok tt → self.new.stage ≡ Stage.Done }
    {
        tg_heard::heads_go_on();
        match &mut self.stage {
            Stage::Heads(_) => Err(FetchFault::BadReplyHead),
            Stage::Content(content) => {
                content.end(out)?;
                self.terminal = content.terminal();
                self.stage.enter(Stage::Done);
                Ok(())
            }
            Stage::Done => Ok(()),
        }
    }
}

/// How it goes on behind bytes of heads: where none were taken, none were there.
fn behind_heads(taken: usize) -> Move
    ensures on { result ≡ Move.On → 0 < taken }
    ensures wait { result ≡ Move.Wait → taken ≡ 0 }
    ensures done { result ≡ Move.Done → ⊥ }
{
    if taken == 0 { Move::Wait } else { Move::On }
}

/// A query again. The error is want of memory.
fn copied_query(alloc: Global, query: &Query) -> Result<Query, AllocError>
    ensures { IfOk result (λ copy. copy ≡ query.now) }
{
    well_formed(query);
    match query.form() {
        Form::Raw => Ok(Query::raw(alloc, query.root())),
        Form::Car => {
            let path = copied_path(alloc, query.path())?;
            Ok(Query::car(
                query.root(),
                path,
                query.scope(),
                query.span(),
                query.dups(),
            ))
        }
    }
}
