//! The text that the command `node` writes of a block: the fields of a DAG-PB node and of the UnixFS data in it.
#![tactic(auto)]

mod fault;
pub mod laws;
mod text;

pub use fault::{NodeFault, TextFault};
pub use text::node_text;
