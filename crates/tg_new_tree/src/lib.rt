//! Trees of files that are made anew, in memory and of the system.
#![tactic(auto)]

mod host_new_tree;
mod made;
mod mem_new_tree;
mod new_trees;
mod noted;

pub use host_new_tree::HostNewTree;
pub use made::Made;
pub use mem_new_tree::MemNewTree;
pub use new_trees::NewTree;
