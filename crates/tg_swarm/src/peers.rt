//! Peers, each with the job that is asked of it.
ghost use Rattle.std.specs.List.{slice_get};
ghost use Rattle.std.specs.Prelude.{◌≡◌, ◌↔◌, ◌<◌, IsTrue, MatchOption, None, Some, length};
ghost use Rattle.tg_swarm.specs.Peers.{AreRefused, IsAsked, IsRefusedPeer, busy_count, job_of, refusal_of, slice_with};
ghost use Rattle.tg_swarm.specs.declared.peers.Peer.TheVariants.{Busy, Idle};

use std::mem::{drop, replace};
use tg_fetch::FetchFault;
use tg_streams::MemSink;

/// A job that is asked of a peer, the client that hears the reply, and the text so far.
#[derive(Drop)]
pub struct Call<C> {
    pub(crate) job: u64,
    pub(crate) client: C,
    pub(crate) text: MemSink,
}

/// A peer.
#[derive(Drop)]
pub enum Peer<C> {
    /// Nothing is asked of it.
    Idle,
    /// This is.
    Busy(Call<C>),
    /// It was refused for good.
    Refused(FetchFault),
}

impl<C> Peer<C> {
    /// Whether this job is asked of it.
    pub(crate) fn has_job(&self, job: u64) -> bool
        ensures { IsTrue result ↔ (job_of self.now ≡ Some job) }
    {
        match self {
            Peer::Busy(call) => call.job == job,
            Peer::Idle | Peer::Refused(_) => false,
        }
    }

    /// Whether nothing is asked of it, and it wasn't refused.
    pub(crate) fn is_idle(&self) -> bool
        ensures { IsTrue result ↔ (self.now ≡ Idle) }
    {
        match self {
            Peer::Idle => true,
            Peer::Busy(_) | Peer::Refused(_) => false,
        }
    }

    /// Whether something is asked of it.
    pub(crate) fn is_busy(&self) -> bool
        ensures { IsTrue result ↔ ((call : Call C) × (self.now ≡ Busy call)) }
    {
        match self {
            Peer::Busy(_) => true,
            Peer::Idle | Peer::Refused(_) => false,
        }
    }

    /// Why it was refused, where it was.
    pub(crate) fn refusal(&self) -> Option<FetchFault>
        ensures told { result ≡ refusal_of self.now }
        ensures some { MatchOption result (IsRefusedPeer self.now → ⊥) (λ _. IsRefusedPeer self.now) }
    {
        match self {
            Peer::Refused(fault) => Some(*fault),
            Peer::Idle | Peer::Busy(_) => None,
        }
    }
}

/// Whether a job is asked of one of the peers.
pub(crate) fn is_asked<C>(peers: &[Peer<C>], job: u64) -> bool
    ensures { IsTrue result ↔ IsAsked peers.now job }
{
    for peer in peers {
        if peer.has_job(job) {
            return true;
        }
    }
    false
}

/// Of how many of the peers something is asked.
pub(crate) fn busy_count<C>(peers: &[Peer<C>]) -> usize
    ensures { result ≡ busy_count peers.now }
{
    let mut busy = 0;
    for peer in peers {
        if peer.is_busy() {
            busy += 1;
        }
    }
    busy
}

/// Whether each peer was refused.
pub(crate) fn none_left<C>(peers: &[Peer<C>]) -> bool
    ensures { IsTrue result ↔ AreRefused peers.now }
{
    for peer in peers {
        if peer.refusal().is_none() {
            return false;
        }
    }
    true
}

/// Puts a peer in another's place. The other one is let go by `drop`: a client that goes where a peer is assigned takes the prover
/// minutes.
pub(crate) fn set_peer<C: Drop>(peers: &mut [Peer<C>], at: usize, peer: Peer<C>)
    requires { at < length peers.old }
    ensures { peers.new ≡ slice_with peers.old at peer }
{
    drop(replace(&mut peers[at], peer));
}

/// Takes the call of a busy peer, which is idle then.
pub(crate) fn take_call<C: Drop>(peers: &mut [Peer<C>], at: usize) -> Option<Call<C>>
    requires { at < length peers.old }
    ensures { MatchOption result (((call : Call C) → slice_get peers.old at ≡ Some (Busy call) → ⊥) × (peers.new ≡ peers.old))
        (λ call. (slice_get peers.old at ≡ Some (Busy call)) × (peers.new ≡ slice_with peers.old at Idle)) }
{
    match replace(&mut peers[at], Peer::Idle) {
        Peer::Busy(call) => Some(call),
        other => {
            set_peer(peers, at, other);
            None
        }
    }
}
