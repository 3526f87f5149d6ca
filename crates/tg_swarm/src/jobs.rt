//! Jobs that are asked of peers one by one, and whose texts are put in order.
ghost use Rattle.std.specs.List.{slice_get};
ghost use Rattle.std.specs.Prelude.{◌≡◌, ◌≤◌, ◌<◌, ◌++◌, ◌+◌, ◌-◌, ◌*◌, ◌^◌, ◌∷◌, ◌↔◌, min, slice_set, [], ⊤, ℕ, List as Items, IfOk, IsTrue, MatchOption, OnErr, OnOk, None, Some, length, drop};
ghost use Rattle.tg_parts.specs.Connections.{AreAnswers};
ghost use Rattle.tg_streams.specs.Streams.{OutputQuiet, into};
ghost use Rattle.tg_swarm.specs.Jobs.{AreIdle, AreNone, HasFailed, HasOpened, HasPut, IsAlmost, IsLowest, IsProgress, IsWaiting, moved_up, with_part};
ghost use Rattle.tg_swarm.specs.Peers.{AreRefused, busy_count, refusal_of, slice_with};
ghost use Rattle.tg_swarm.specs.Swarms.{AnswersJob, Asked};
ghost use Rattle.tg_swarm.specs.declared.peers.Peer.TheVariants.{Busy, Idle};

use crate::peers::{Call, Peer, busy_count, is_asked, none_left, set_peer, take_call};
use std::alloc::{AllocError, Global};
use std::marker::Model;
use std::mem::{drop, replace};
use tg_bytes::Bytes;
use tg_faults::Failed;
use tg_fetch::FetchFault;
use tg_streams::{Sink, put_all};
use tg_verify::Progress;

/// Jobs in order, `count` in all, of which the first `written` are done with, and the peers that have some of the others. Of those
/// behind the first ones, as many as `parts` has places, the text of a finished one is kept until all lower ones are put. The room
/// of one that was put is there for another; contracts don't see it.
#[derive(Drop)]
pub struct Jobs<C> {
    count: u64,
    written: u64,
    parts: Vec<Option<Bytes>>,
    peers: Vec<Peer<C>>,
    rooms: Vec<Bytes>,
}

impl<C> Model for Jobs<C> {
    ghost use Rattle.tg_swarm.specs.Jobs.{JobsState};

    ghost Value = { JobsState C };

    ghost view = { λ s. record { count = s.count; written = s.written; parts = s.parts.items; peers = s.peers.items } };
}

impl<C: Drop> Jobs<C> {
    /// One job, from so many peers, none of which is asked yet; as many jobs as twice the peers may be ahead of those that are done
    /// with. The error is want of memory.
    pub(crate) fn new(alloc: Global, peers: u32) -> Result<Jobs<C>, AllocError>
        ensures count { IfOk result (λ jobs. (jobs.count ≡ 1) × (jobs.written ≡ 0)) }
        ensures none { IfOk result (λ jobs. AreNone jobs.parts × (length jobs.parts ≡ 2 * peers)) }
        ensures idle { IfOk result (λ jobs. AreIdle jobs.peers × (length jobs.peers ≡ peers)) }
    {
        Ok(Jobs {
            count: 1,
            written: 0,
            parts: no_parts(alloc, peers)?,
            peers: idle_peers(alloc, peers)?,
            rooms: Vec::new(alloc),
        })
    }

    /// An empty text with room for the next one: that of a text that was put, or else for so many bytes. The error is want of
    /// memory.
    pub(crate) fn room(&mut self, alloc: Global, len: usize) -> Result<Bytes, AllocError>
        ensures empty { IfOk result (λ room. room ≡ []) }
        ensures same { self.new ≡ self.old }
    {
        let Some(room) = self.rooms.pop() else {
            return Ok(Bytes::from(Vec::with_capacity(alloc, len)?));
        };
        let mut room = room;
        room.clear();
        Ok(room)
    }

    /// Keeps the room of a text that was put, or lets it go where memory is wanted for that.
    fn keep_room(&mut self, text: Bytes)
        ensures { self.new ≡ self.old }
    {
        let _ = self.rooms.push(text);
    }

    /// So many jobs in place of the ones there were, none of which is done with.
    pub(crate) fn restart(&mut self, count: u64)
        ensures { self.new ≡ record self.old { count = count; written = 0 } }
    {
        self.count = count;
        self.written = 0;
    }

    /// How many peers there are.
    pub fn peer_count(&self) -> usize
        ensures { result ≡ length self.now.peers }
    {
        self.peers.len()
    }

    /// Whether something is asked of a peer.
    pub fn is_busy(&self, peer: usize) -> bool
        ensures { IsTrue result ↔ ((call : Call C) × (slice_get self.now.peers peer ≡ Some (Busy call))) }
    {
        match self.peers.as_slice().get(peer) {
            Some(peer) => peer.is_busy(),
            None => false,
        }
    }

    /// Whether nothing is asked of a peer, and it wasn't refused.
    pub fn is_idle(&self, peer: usize) -> bool
        ensures { IsTrue result ↔ (slice_get self.now.peers peer ≡ Some Idle) }
    {
        match self.peers.as_slice().get(peer) {
            Some(peer) => peer.is_idle(),
            None => false,
        }
    }

    /// Why a peer was refused, where it was.
    pub fn refusal(&self, peer: usize) -> Option<FetchFault>
        requires { peer < length self.now.peers }
        ensures { (one : Peer C) → slice_get self.now.peers peer ≡ Some one → result ≡ refusal_of one }
    {
        self.peers[peer].refusal()
    }

    /// Whether each peer was refused.
    pub(crate) fn none_left(&self) -> bool
        ensures { IsTrue result ↔ AreRefused self.now.peers }
    {
        none_left(self.peers.as_slice())
    }

    /// How many jobs are done with.
    pub(crate) fn written(&self) -> u64
        ensures { result ≡ self.now.written }
    {
        self.written
    }

    /// Of how many peers something is asked.
    pub(crate) fn busy_count(&self) -> usize
        ensures { result ≡ busy_count self.now.peers }
    {
        busy_count(self.peers.as_slice())
    }

    /// Whether all jobs are done with.
    pub fn progress(&self) -> Progress
        ensures { self.now.written ≤ self.now.count → IsProgress self.now result }
    {
        if self.written >= self.count {
            Progress::Done
        } else {
            Progress::More
        }
    }

    /// The lowest job that waits.
    pub(crate) fn lowest(&self) -> Option<u64>
        ensures lowest { MatchOption result ((job : ℕ) → IsWaiting self.now job → ⊥) (IsLowest self.now) }
        ensures within { MatchOption result ⊤ (λ job. job < self.now.count) }
    {
        let parts = self.parts.as_slice();
        let peers = self.peers.as_slice();
        let left = self.count.saturating_sub(self.written);
        for (k, part) in parts.iter().enumerate() {
            if k as u64 >= left {
                return None;
            }
            let job = self.written + k as u64;
            if part.is_none() && !is_asked(peers, job) {
                return Some(job);
            }
        }
        None
    }

    /// Puts a peer in another's place.
    pub(crate) fn set(&mut self, at: usize, peer: Peer<C>)
        requires { at < length self.old.peers }
        ensures { self.new ≡ record self.old { peers = slice_with self.old.peers at peer } }
    {
        set_peer(self.peers.as_mut_slice(), at, peer);
    }

    /// Takes the call of a busy peer, which is idle then.
    pub(crate) fn take_busy(&mut self, at: usize) -> Option<Call<C>>
        requires { at < length self.old.peers }
        ensures { MatchOption result (((call : Call C) → slice_get self.old.peers at ≡ Some (Busy call) → ⊥) × (self.new ≡ self.old))
            (λ call. (slice_get self.old.peers at ≡ Some (Busy call)) × (self.new ≡ record self.old { peers = slice_with self.old.peers at Idle })) }
    {
        take_call(self.peers.as_mut_slice(), at)
    }

    /// Keeps the text of a job that is finished at its place, where there is one.
    pub(crate) fn keep(&mut self, job: u64, text: Bytes)
        ensures { self.new ≡ with_part self.old (job - self.old.written) text }
    {
        let place = job.saturating_sub(self.written);
        keep_at(self.parts.as_mut_slice(), place, text);
    }

    /// One more job is done with.
    pub(crate) fn count_one(&mut self)
        ensures { self.new ≡ record self.old { written = min (self.old.written + 1) (2 ^ 64 - 1) } }
    {
        self.written = self.written.saturating_add(1);
    }

    /// Takes the first text where it is there, and moves the others up.
    fn take_first(&mut self) -> Option<Bytes>
        ensures { MatchOption result ((0 < length self.old.parts → slice_get self.old.parts 0 ≡ Some None) × (self.new ≡ self.old))
            (λ text. (slice_get self.old.parts 0 ≡ Some (Some text)) × (self.new ≡ moved_up self.old)) }
    {
        first_of(self.parts.as_mut_slice())
    }

    /// Puts the finished texts that have no lower one to come. The error is a fault of out.
    pub(crate) fn put_ready<S: Sink>(&mut self, out: &mut S) -> Result<(), Failed>
        ensures put { OnOk result ((a : Asked) (written : Items ℕ) → IsAlmost (AnswersJob a) self.old
            → AreAnswers (AnswersJob a) self.old.written written
            → HasPut (AnswersJob a) self.new written (into S.sink out.old out.new)) }
        ensures quiet { OnOk result (OutputQuiet (into S.sink out.old out.new)) }
        ensures failed { OnErr result ((a : Asked) (written : Items ℕ) → IsAlmost (AnswersJob a) self.old
            → AreAnswers (AnswersJob a) self.old.written written
            → HasFailed (AnswersJob a) self.new written (into S.sink out.old out.new)) }
        ensures opened { OnOk result ((a : Asked) (written : Items ℕ) → IsAlmost (AnswersJob a) self.old
            → AreAnswers (AnswersJob a) self.old.written written → HasOpened self.old self.new) }
        ensures peers { self.new.peers ≡ self.old.peers }
        ensures count { self.new.count ≡ self.old.count }
        ensures window { length self.new.parts ≡ length self.old.parts }
    {
        while let Some(text) = self.take_first() {
            put_all(out, text.as_slice())?;
            self.keep_room(text);
            self.count_one();
        }
        Ok(())
    }
}

/// Keeps a text at a place, where there is one.
fn keep_at(parts: &mut [Option<Bytes>], at: u64, text: Bytes)
    ensures { parts.new ≡ slice_set parts.old at (Some text) }
{
    if at < parts.len() as u64 {
        drop(replace(&mut parts[at as usize], Some(text)));
    }
}

/// Takes the first text where it is there, and moves the others up.
fn first_of(parts: &mut [Option<Bytes>]) -> Option<Bytes>
    ensures { MatchOption result ((0 < length parts.old → slice_get parts.old 0 ≡ Some None) × (parts.new ≡ parts.old))
        (λ text. (slice_get parts.old 0 ≡ Some (Some text)) × (parts.new ≡ drop 1 parts.old ++ None ∷ [])) }
{
    if parts.is_empty() {
        return None;
    }
    let text = replace(&mut parts[0], None)?;
    parts.rotate_left(1);
    Some(text)
}

/// Places for the texts of twice as many jobs as there are peers, none of which is finished.
fn no_parts(alloc: Global, peers: u32) -> Result<Vec<Option<Bytes>>, AllocError>
    ensures { IfOk result (λ parts. AreNone parts.items × (length parts.items ≡ 2 * peers)) }
{
    let mut parts = Vec::new(alloc);
    for _ in 0..2 * peers as u64 {
        parts.push(None)?;
    }
    Ok(parts)
}

/// So many peers of which nothing is asked.
fn idle_peers<C: Drop>(alloc: Global, count: u32) -> Result<Vec<Peer<C>>, AllocError>
    ensures { IfOk result (λ peers. AreIdle peers.items × (length peers.items ≡ count)) }
{
    let mut peers = Vec::new(alloc);
    for _ in 0..count {
        peers.push(Peer::Idle)?;
    }
    Ok(peers)
}
