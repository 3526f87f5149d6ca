//! The folder that an audit draws from a seed.
#![tactic(auto)]

mod drawing;
mod generator;
mod tree;

pub use drawing::{Drawn, draw};
pub use generator::Generator;
pub use tree::{file_name, tree_of};
