//! The DAG of a sharded directory.
#![tactic(auto)]

mod bits;
mod fault;
mod links;
mod order;
mod sharded;
mod shards;

pub use fault::HamtFault;
pub use sharded::build;
