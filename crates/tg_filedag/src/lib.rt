//! The DAG of a file: its bytes are cut into chunks, and the chunks are linked while they come.
#![tactic(auto)]

mod balanced;
mod chunker;
mod examples;
mod keeping;
pub mod laws;
mod linking;
mod subtree;

pub use balanced::Balanced;
pub use chunker::Chunker;
pub use examples::three_bytes;
