//! Blocks as the importer writes them.
#![tactic(auto)]

mod keeping;
pub mod laws;
mod nodes;

pub use keeping::keep_block;
pub use nodes::node_block;
