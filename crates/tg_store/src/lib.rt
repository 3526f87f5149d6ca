//! Stores of blocks: in memory, and in a pack by offsets.
#![tactic(auto)]

mod attach;
mod fault;
mod key;
pub mod laws;
mod mem_store;
mod pack_store;
mod place;
mod reading;
mod writing;

pub use fault::{PackFault, PackRefused};
pub use mem_store::MemStore;
pub use pack_store::PackStore;
