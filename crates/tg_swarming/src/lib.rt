//! A swarm that runs over a dial: one file from several gateways, none of which is trusted.
#![tactic(auto)]

mod rounds;
mod watch;

pub use rounds::run_swarm;
pub use watch::SwarmWatch;
