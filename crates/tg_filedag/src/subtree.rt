//! A part of a file that waits to be linked.
use tg_model::Made;

/// A DAG of a part of a file: how many links lie between its root and each of its leaves, and what was made.
#[derive(Clone, Copy)]
pub struct Subtree {
    pub height: u64,
    pub made: Made,
}
