//! A swarm: one file from several peers, none of which is trusted, by parts that are asked of them one by one.
#![tactic(auto)]

mod fault;
mod jobs;
pub mod laws;
mod peers;
mod swarm;

pub use fault::SwarmFault;
pub use jobs::Jobs;
pub use peers::{Call, Peer};
pub use swarm::{PeerEvent, Plan, Swarm, SwarmTold};
