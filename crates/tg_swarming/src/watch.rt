//! What is told of a swarm while it runs.
use tg_fetch::{FetchFault, Unwatched};
use tg_swarm::SwarmTold;

/// Watches swarms while they run. What it does has no part in what they put, nor in how they end.
pub trait SwarmWatch {
    /// Each peer was gone through once more, and more is wanted: so far the swarm has come.
    fn went(&mut self, told: SwarmTold);

    /// The peer at this address was refused for good, for this.
    fn refused(&mut self, addr: &str, fault: FetchFault);
}

impl SwarmWatch for Unwatched {
    fn went(&mut self, _told: SwarmTold) {}

    fn refused(&mut self, _addr: &str, _fault: FetchFault) {}
}
