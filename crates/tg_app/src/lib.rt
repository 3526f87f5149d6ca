//! The program's commands, by the words that ask for them.
#![tactic(auto)]

mod audit;
mod fetching;
mod intos;
mod laws;
mod mirroring;
mod serve;
mod swarming;
mod top;

pub use laws::round_trip;
pub use swarming::fetch_word;
pub use tg_commands::CommandFault;
pub use tg_fetch::{FetchFault, Told, Watch};
pub use tg_swarm::SwarmTold;
pub use tg_swarming::SwarmWatch;
pub use top::{no_streams, out_of_memory, run};
