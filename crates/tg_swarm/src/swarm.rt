//! One file from several peers, of whom none is trusted.
ghost use Rattle.std.specs.List.{slice_get};
ghost use Rattle.std.specs.Prelude.{◌≡◌, ◌≤◌, ◌<◌, ◌++◌, ◌*◌, ◌^◌, ◌↔◌, [], ⊤, ℕ, List as Items, All, Err, IfOk, IsTrue, MatchOption, MatchResult, None, Ok, OnErr, OnOk, Some, length};
ghost use Rattle.tg_parts.specs.Connections.{Connection};
ghost use Rattle.tg_parts.specs.Parts.{part_count};
ghost use Rattle.tg_fetch.specs.declared.fault.FetchFault.TheVariants.{PeerFault};
ghost use Rattle.tg_streams.specs.Streams.{into};
ghost use Rattle.tg_swarm.specs.Jobs.{IsProgress, OthersStay};
ghost use Rattle.tg_swarm.specs.Peers.{refusal_of};
ghost use Rattle.tg_swarm.specs.Said.{AcceptedEnds, CallHeard, IsAccepting, IsBeginning, IsBlaming, IsPuttingRoot, IsRooting, RootedEnds, fault_of_block};
ghost use Rattle.tg_swarm.specs.Swarms.{AfterEvent, CallStands, EventEnds, HasAsked, IsAsBefore, NothingAsked, SettingsStay, StandsFor, TellsSome, bytes_of, left_to_do, limits_of, query_of, told_of};
ghost use Rattle.tg_swarm.specs.declared.peers.Peer.{Peer};
ghost use Rattle.tg_swarm.specs.declared.peers.Peer.TheVariants.{Busy, Idle, Refused};
ghost use Rattle.tg_swarm.specs.declared.fault.SwarmFault.{SwarmFault};
ghost use Rattle.tg_swarm.specs.declared.fault.SwarmFault.TheVariants.{NoPeerLeft};
ghost use Rattle.tg_swarm.specs.declared.swarm.PeerEvent.TheVariants.{Ended, Failed};
ghost use Rattle.tg_swarm.specs.declared.swarm.Plan.TheVariants.{Parts};
ghost use Rattle.tg_model.specs.declared.limits.LimitKind.{LimitKind};
ghost use Rattle.tg_verify.specs.declared.verifier.Progress.TheVariants.{More};

use crate::fault::SwarmFault;
use crate::jobs::Jobs;
use crate::peers::{Call, Peer};
use std::alloc::{AllocError, Global};
use std::marker::Model;
use std::mem::drop;
use tg_bytes::{Bytes, List};
use tg_cid::Cid;
use tg_faults::Calls;
use tg_fetch::{Client, FetchFault};
use tg_model::{BlockFault, LimitKind, Limits, PlacedKind, Query, Scope, Span, reads_in_place};
use tg_streams::{MemSink, Sink, put_all};
use tg_verify::{Progress, Refusal};

/// How many bytes one put moves at most into the text of a job.
const PIECE: usize = 1 << 30;

/// What happened at a peer.
#[derive(Clone, Copy, Drop)]
pub enum PeerEvent<'a> {
    /// It said this.
    Piece(&'a [u8]),
    /// It says no more.
    Ended,
    /// It couldn't be dialled, or its link failed.
    Failed,
}

/// What the peers are asked for.
#[derive(Clone, Copy, Debug, PartialEq, Eq)]
pub enum Plan {
    /// The root's block.
    Root,
    /// The parts of a file with so many bytes.
    Parts { total: u64 },
}

/// How far a swarm has come.
#[derive(Clone, Copy, Debug, PartialEq, Eq)]
pub struct SwarmTold {
    /// How many bytes of a file in parts were put.
    pub bytes: u64,
    /// How many it has, once its root's block was accepted.
    pub total: Option<u64>,
    /// Of how many peers something is asked.
    pub busy: usize,
}

/// One file from up to 16 peers, of whom none is trusted: first the root's block is asked of a peer, and then the file by parts of
/// `part` bytes, each of one peer. A peer whose reply isn't the answer, or whose link fails, is refused for good, and its job is
/// asked of another. A part is held until all lower ones were put; twice as many parts as there are peers may be asked before the
/// lowest one is finished, and so many are held at most.
///
/// Trustless Gateway specification, entity-bytes; UnixFS specification, File.
#[derive(Drop)]
pub struct Swarm {
    alloc: Global,
    root: Cid,
    part: u64,
    limits: Limits,
    plan: Plan,
    jobs: Jobs<Client>,
    ended: Option<SwarmFault>,
}

impl Model for Swarm {
    ghost use Rattle.std.specs.Prelude.{◌≤◌, ◌<◌, ◌^◌};
    ghost use Rattle.tg_swarm.specs.Said.{IsInRange};
    ghost use Rattle.tg_swarm.specs.Swarms.{SwarmState};

    ghost Value = { SwarmState };

    ghost view = { λ s. record { root = s.root; part = s.part; limits = s.limits; plan = s.plan; jobs = s.jobs; ended = s.ended } };

    ghost invariant = { λ s. IsInRange s.part s.plan s.jobs.count };
}

impl Swarm {
    /// A swarm for the file under a root, by parts of so many bytes, from so many peers: all are idle, and the root's block waits.
    /// The error is want of memory.
    pub fn new(
        alloc: Global,
        root: Cid,
        part: u64,
        peers: u32,
        limits: Limits,
    ) -> Result<Swarm, AllocError>
        requires part { (0 < part) × (part ≤ 2 ^ 24) }
        requires peers { (0 < peers) × (peers ≤ 16) }
        ensures stands { IfOk result (λ swarm. StandsFor swarm [] []) }
        ensures settings { IfOk result (λ swarm. (swarm.root ≡ root) × (swarm.part ≡ part) × (swarm.limits ≡ limits)) }
        ensures peers { IfOk result (λ swarm. length swarm.jobs.peers ≡ peers) }
        ensures idle { IfOk result (λ swarm. (i : ℕ) (peer : Peer Client) → slice_get swarm.jobs.peers i ≡ Some peer → peer ≡ Idle) }
        ensures window { IfOk result (λ swarm. length swarm.jobs.parts ≡ 2 * peers) }
    {
        Ok(Swarm {
            alloc,
            root,
            part,
            limits,
            plan: Plan::Root,
            jobs: Jobs::new(alloc, peers)?,
            ended: None,
        })
    }

    /// What is asked next of a peer: the query for the lowest job that waits, which is now this peer's. None where the peer is
    /// busy or was refused, none waits, or the swarm has ended. The error is want of memory, with which nothing changes.
    pub fn ask(&mut self, peer: usize) -> Result<Option<Query>, AllocError>
        requires { peer < length self.old.jobs.peers }
        ensures asked { IfOk result (λ asked. MatchOption asked (NothingAsked self.old self.new peer) (HasAsked self.old self.new peer)) }
        ensures err { OnErr result (self.new ≡ self.old) }
        ensures stands { (connections : Items Connection) (written : Items ℕ) → StandsFor self.old connections written
            → StandsFor self.new connections written }
        ensures shorter { IfOk result (λ asked. MatchOption asked ⊤ (λ _. left_to_do self.new < left_to_do self.old)) }
    {
        if self.ended.is_some() || !self.jobs.is_idle(peer) {
            return Ok(None);
        }
        let Some(job) = self.jobs.lowest() else {
            return Ok(None);
        };
        let query = self.query(job);
        let client = Client::new(self.alloc, &query, self.client_limits())?;
        let len = self.room_len(job);
        let room = self.jobs.room(self.alloc, len)?;
        let text = MemSink::onto(room, PIECE, Calls::new(List::new(self.alloc)));
        let call = Call { job, client, text };
        self.jobs.set(peer, Peer::Busy(call));
        Ok(Some(query))
    }

    /// Takes what happened at a peer, which is busy, and puts the texts that are finished and have no lower one to come: `Done`
    /// exactly where the whole file was put.
    ///
    /// Errors: `NoPeerLeft` where each peer was refused and a job isn't done with; `NotFile` where the root's block that was
    /// accepted is a directory, a shard or a symbolic link; `BadRoot` where it has no kind; a `Limit` of kind `Output` where it
    /// declares more bytes; `SinkFault` where out failed; and `OutOfMemory`. A fault of a reply, or of a link, refuses its peer
    /// alone. What was put before stays. Each further call gives the same error and changes nothing.
    pub fn event<S: Sink>(
        &mut self,
        peer: usize,
        event: PeerEvent<'_>,
        out: &mut S,
    ) -> Result<Progress, SwarmFault>
        requires { (call : Call Client) × (slice_get self.old.jobs.peers peer ≡ Some (Busy call)) }
        // What came in this peer's connection, and what is written of all.
        ensures ends { (connections : Items Connection) (written heard : Items ℕ) (call : Call Client)
            → StandsFor self.old connections written → slice_get self.old.jobs.peers peer ≡ Some (Busy call)
            → CallStands self.old call heard
            → EventEnds self.old self.new connections written call (heard ++ bytes_of event.entry) (into S.sink out.old out.new) result }
        // What this peer is then.
        ensures peer { (connections : Items Connection) (written heard : Items ℕ) (call : Call Client)
            → StandsFor self.old connections written → slice_get self.old.jobs.peers peer ≡ Some (Busy call)
            → CallStands self.old call heard → AfterEvent self.old self.new peer call heard event.entry result }
        // Where its job isn't finished nothing more was accepted or put; and where it couldn't be heard it is refused.
        ensures unfinished { (connections : Items Connection) (written : Items ℕ) → StandsFor self.old connections written
            → (slice_get self.new.jobs.peers peer ≡ Some Idle → ⊥)
            → OnOk result (IsAsBefore self.old self.new connections written (into S.sink out.old out.new)) }
        ensures failed { event.entry ≡ Failed → self.old.ended ≡ None
            → MatchResult result (λ _. slice_get self.new.jobs.peers peer ≡ Some (Refused PeerFault)) (λ fault. fault ≡ NoPeerLeft) }
        ensures others { OthersStay self.old.jobs.peers self.new.jobs.peers peer }
        ensures settings { SettingsStay self.old self.new }
        ensures count { OnErr result (self.new.jobs.count ≡ self.old.jobs.count) }
        ensures plan { (total : ℕ) → self.old.plan ≡ Parts total → self.new.plan ≡ Parts total }
        // Each that tells something leaves less to do.
        ensures shorter { (connections : Items Connection) (written heard : Items ℕ) (call : Call Client)
            → StandsFor self.old connections written → slice_get self.old.jobs.peers peer ≡ Some (Busy call)
            → CallStands self.old call heard → TellsSome event.entry → OnOk result (left_to_do self.new < left_to_do self.old) }
        ensures again { (fault : SwarmFault) → self.old.ended ≡ Some fault
            → (result ≡ Err fault) × (self.new ≡ self.old) × (out.new ≡ out.old) }
        ensures refused { MatchResult result (λ _. self.new.ended ≡ None) (λ fault. self.new.ended ≡ Some fault) }
    {
        if let Some(fault) = self.ended {
            return Err(fault);
        }
        match self.hear(peer, event, out) {
            Ok(progress) => Ok(progress),
            Err(fault) => {
                self.ended = Some(fault);
                Err(fault)
            }
        }
    }

    /// How many peers there are.
    pub fn peer_count(&self) -> usize
        ensures { result ≡ length self.now.jobs.peers }
    {
        self.jobs.peer_count()
    }

    /// How far it has come.
    pub fn told(&self) -> SwarmTold
        ensures { result ≡ told_of self.now }
    {
        let busy = self.jobs.busy_count();
        match self.plan {
            Plan::Root => SwarmTold {
                bytes: 0,
                total: None,
                busy,
            },
            Plan::Parts { total } => SwarmTold {
                bytes: self.jobs.written().saturating_mul(self.part).min(total),
                total: Some(total),
                busy,
            },
        }
    }

    /// Whether something is asked of a peer.
    pub fn is_busy(&self, peer: usize) -> bool
        ensures { IsTrue result ↔ ((call : Call Client) × (slice_get self.now.jobs.peers peer ≡ Some (Busy call))) }
    {
        self.jobs.is_busy(peer)
    }

    /// Why a peer was refused, where it was.
    pub fn refusal(&self, peer: usize) -> Option<FetchFault>
        requires { peer < length self.now.jobs.peers }
        ensures { (one : Peer Client) → slice_get self.now.jobs.peers peer ≡ Some one → result ≡ refusal_of one }
    {
        self.jobs.refusal(peer)
    }

    /// Whether the whole file was put.
    pub fn progress(&self) -> Progress
        ensures { self.now.jobs.written ≤ self.now.jobs.count → IsProgress self.now.jobs result }
    {
        self.jobs.progress()
    }

    /// The query for a job.
    fn query(&self, job: u64) -> Query
        requires { job < self.now.jobs.count }
        ensures { result ≡ query_of self.now job }
    {
        let Plan::Parts { total } = self.plan else {
            return Query::raw(self.alloc, self.root);
        };
        let start = job * self.part;
        let end = (start + self.part).min(total);
        let span = Span::from_start(start, Some(end - 1));
        let path = List::new(self.alloc);
        Query::car(self.root, path, Scope::Entity, Some(span), true)
    }

    /// How many bytes the text of a job has room for at once: those of a part, and none of the root's block.
    fn room_len(&self, job: u64) -> usize {
        match self.plan {
            Plan::Root => 0,
            Plan::Parts { total } => {
                let start = job.saturating_mul(self.part);
                total.saturating_sub(start).min(self.part) as usize
            }
        }
    }

    /// The limits of a client: of the root's block the swarm compares the total, and its client counts no output.
    fn client_limits(&self) -> Limits
        ensures { result ≡ limits_of self.now }
    {
        match self.plan {
            Plan::Root => self.limits.with(
                LimitKind::Output,
                Limits::standard().number(LimitKind::Output),
            ),
            Plan::Parts { .. } => self.limits,
        }
    }

    /// Takes what happened at a peer. Errors: those of `event`.
    fn hear<S: Sink>(
        &mut self,
        peer: usize,
        event: PeerEvent<'_>,
        out: &mut S,
    ) -> Result<Progress, SwarmFault>
        requires busy { (call : Call Client) × (slice_get self.old.jobs.peers peer ≡ Some (Busy call)) }
        ensures ends { (connections : Items Connection) (written heard : Items ℕ) (call : Call Client)
            → StandsFor self.old connections written → slice_get self.old.jobs.peers peer ≡ Some (Busy call)
            → CallStands self.old call heard
            → EventEnds self.old self.new connections written call (heard ++ bytes_of event.entry) (into S.sink out.old out.new) result }
        ensures peer { (connections : Items Connection) (written heard : Items ℕ) (call : Call Client)
            → StandsFor self.old connections written → slice_get self.old.jobs.peers peer ≡ Some (Busy call)
            → CallStands self.old call heard → AfterEvent self.old self.new peer call heard event.entry result }
        // Where its job isn't finished nothing more was accepted or put; and where it couldn't be heard it is refused.
        ensures unfinished { (connections : Items Connection) (written : Items ℕ) → StandsFor self.old connections written
            → (slice_get self.new.jobs.peers peer ≡ Some Idle → ⊥)
            → OnOk result (IsAsBefore self.old self.new connections written (into S.sink out.old out.new)) }
        ensures failed { event.entry ≡ Failed → self.old.ended ≡ None
            → MatchResult result (λ _. slice_get self.new.jobs.peers peer ≡ Some (Refused PeerFault)) (λ fault. fault ≡ NoPeerLeft) }
        ensures others { OthersStay self.old.jobs.peers self.new.jobs.peers peer }
        ensures settings { SettingsStay self.old self.new }
        ensures count { OnErr result (self.new.jobs.count ≡ self.old.jobs.count) }
        ensures plan { (total : ℕ) → self.old.plan ≡ Parts total → self.new.plan ≡ Parts total }
        ensures ended { self.new.ended ≡ self.old.ended }
        ensures shorter { (connections : Items Connection) (written heard : Items ℕ) (call : Call Client)
            → StandsFor self.old connections written → slice_get self.old.jobs.peers peer ≡ Some (Busy call)
            → CallStands self.old call heard → TellsSome event.entry → OnOk result (left_to_do self.new < left_to_do self.old) }
    {
        tg_parts::accepted_parts();
        tg_parts::accepted_roots();
        let Some(call) = self.jobs.take_busy(peer) else {
            return Ok(self.jobs.progress());
        };
        let mut call = call;
        match heard(&mut call, event) {
            Ok(Progress::More) => {
                self.jobs.set(peer, Peer::Busy(call));
                Ok(self.jobs.progress())
            }
            Ok(Progress::Done) => self.accept(call, out),
            Err(fault) => {
                drop(call);
                self.blame(peer, fault)
            }
        }
    }

    /// Refuses a peer for good for a fault that isn't ours: want of memory ends the swarm. Errors: `NoPeerLeft` and `OutOfMemory`.
    fn blame(&mut self, peer: usize, fault: FetchFault) -> Result<Progress, SwarmFault>
        requires { peer < length self.old.jobs.peers }
        ensures { IsBlaming self.old self.new peer fault result }
    {
        match fault {
            FetchFault::OutOfMemory
            | FetchFault::KeepFault
            | FetchFault::Refused(Refusal::SinkFault) => return Err(SwarmFault::OutOfMemory),
            _ => self.jobs.set(peer, Peer::Refused(fault)),
        }
        if self.jobs.none_left() {
            return Err(SwarmFault::NoPeerLeft);
        }
        Ok(Progress::More)
    }

    /// Takes a job that is finished, which no peer has any more. Errors: those of `event` but `NoPeerLeft`.
    fn accept<S: Sink>(&mut self, call: Call<Client>, out: &mut S) -> Result<Progress, SwarmFault>
        ensures ends { (connections : Items Connection) (written : Items ℕ) → IsAccepting self.old call connections written
            → AcceptedEnds self.old self.new connections written call (into S.sink out.old out.new) result }
        ensures peers { self.new.jobs.peers ≡ self.old.jobs.peers }
        ensures settings { SettingsStay self.old self.new }
        ensures count { OnErr result (self.new.jobs.count ≡ self.old.jobs.count) }
        ensures plan { (total : ℕ) → self.old.plan ≡ Parts total → self.new.plan ≡ Parts total }
        ensures ended { self.new.ended ≡ self.old.ended }
    {
        let Call { job, client, text } = call;
        drop(client);
        match self.plan {
            Plan::Root => self.begin(text.into_bytes(), out),
            Plan::Parts { .. } => {
                self.jobs.keep(job, text.into_bytes());
                self.jobs.put_ready(out)?;
                Ok(self.jobs.progress())
            }
        }
    }

    /// Takes the root's block: puts one that is raw, and of a file's begins with the parts. Errors: `NotFile`, `BadRoot`, `Limit`,
    /// `SinkFault` and `OutOfMemory`.
    fn begin<S: Sink>(&mut self, block: Bytes, out: &mut S) -> Result<Progress, SwarmFault>
        ensures ends { (connections : Items Connection) → IsRooting self.old block connections
            → RootedEnds self.old self.new connections block (into S.sink out.old out.new) result }
        ensures peers { self.new.jobs.peers ≡ self.old.jobs.peers }
        ensures settings { SettingsStay self.old self.new }
        ensures count { OnErr result (self.new.jobs.count ≡ self.old.jobs.count) }
        ensures ended { self.new.ended ≡ self.old.ended }
    {
        are_bytes(block.as_slice());
        match reads_in_place(self.alloc, &self.root, block.as_slice()) {
            Ok(PlacedKind::Raw) => self.put_root(block.as_slice(), out),
            Ok(PlacedKind::File(file)) => self.begin_parts(file.total),
            Ok(PlacedKind::Basic { .. }) => Err(SwarmFault::NotFile),
            Ok(PlacedKind::Shard { .. }) => Err(SwarmFault::NotFile),
            Ok(PlacedKind::Symlink { .. }) => Err(SwarmFault::NotFile),
            Err(fault) => Err(of_block(fault)),
        }
    }

    /// Begins with the parts of a file with so many bytes. The error is a `Limit`.
    fn begin_parts(&mut self, total: u64) -> Result<Progress, SwarmFault>
        requires { total < 2 ^ 63 }
        ensures { IsBeginning self.old self.new total result }
    {
        self.admits(total)?;
        self.plan = Plan::Parts { total };
        self.jobs.restart(count_of(total, self.part));
        Ok(self.jobs.progress())
    }

    /// Puts a raw root's block, with which all is done. Errors: a `Limit`, and `SinkFault`.
    fn put_root<S: Sink>(&mut self, block: &[u8], out: &mut S) -> Result<Progress, SwarmFault>
        ensures { IsPuttingRoot self.old self.new block.now (into S.sink out.old out.new) result }
    {
        self.admits(block.len() as u64)?;
        put_all(out, block)?;
        self.jobs.count_one();
        Ok(self.jobs.progress())
    }

    /// Whether a file may have so many bytes. The error is a `Limit`.
    fn admits(&self, total: u64) -> Result<(), SwarmFault>
        ensures { MatchResult result (λ _. total ≤ self.now.limits.output)
            (λ fault. (fault ≡ SwarmFault.Limit LimitKind.Output self.now.limits.output) × (self.now.limits.output < total)) }
    {
        let number = self.limits.number(LimitKind::Output);
        if total > number {
            return Err(SwarmFault::Limit {
                kind: LimitKind::Output,
                number,
            });
        }
        Ok(())
    }
}

/// Each element of a slice of bytes is a byte.
fn are_bytes(block: &[u8])
    ensures { All (λ b. b < 256) block.now }
{
    let _len = block.len();
}

/// Why the root's block that was accepted ends the swarm: it has no kind, or no memory was found.
fn of_block(fault: BlockFault) -> SwarmFault
    ensures { result ≡ fault_of_block fault }
{
    match fault {
        BlockFault::OutOfMemory => SwarmFault::OutOfMemory,
        fault => SwarmFault::BadRoot(fault),
    }
}

/// How many parts of so many bytes there are in a file.
fn count_of(total: u64, part: u64) -> u64
    requires part { (0 < part) × (part ≤ 2 ^ 24) }
    requires total { total < 2 ^ 63 }
    ensures { result ≡ part_count part total }
{
    (total + (part - 1)) / part
}

/// What happened at a busy peer, to its client: whether more is wanted. Errors: those of the client, and `PeerFault` where its link
/// failed.
fn heard(call: &mut Call<Client>, event: PeerEvent<'_>) -> Result<Progress, FetchFault>
    ensures heard { (heard : Items ℕ) → CallHeard call.old call.new heard event.entry result }
    ensures failed { event.entry ≡ Failed → result ≡ Err PeerFault }
    ensures ended { event.entry ≡ Ended → result ≡ Ok More → ⊥ }
    ensures job { call.new.job ≡ call.old.job }
{
    match event {
        PeerEvent::Piece(piece) => call.client.feed(piece, &mut call.text),
        PeerEvent::Ended => {
            call.client.end(&mut call.text)?;
            Ok(Progress::Done)
        }
        PeerEvent::Failed => Err(FetchFault::PeerFault),
    }
}
