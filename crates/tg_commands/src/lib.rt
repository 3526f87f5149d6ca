//! The commands over blocks, CARs, folders and packs, and why a command ends before it is done.
#![tactic(auto)]

mod blocks;
pub mod check;
pub mod cid;
pub mod export;
mod fault;
pub mod help;
pub mod import;
pub mod node;
pub mod verify;

pub use fault::CommandFault;
