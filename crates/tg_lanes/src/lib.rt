//! Sessions of a gateway side by side, one in each lane, over one store with copies of the blocks that were looked up
//! last.
#![tactic(auto)]

mod cached;
mod callers;
mod hearing;
mod lanes;
pub mod laws;

pub use cached::Cached;
pub use hearing::hear;
pub use lanes::{LaneEvent, Lanes, LanesRefused};
