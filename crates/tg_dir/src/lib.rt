//! The DAG of a directory, in one block or sharded.
#![tactic(auto)]

mod basic;
mod directory;

pub use directory::{build, weight};
pub use tg_hamt::HamtFault;
