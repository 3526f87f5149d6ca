//! A walk over the blocks of a store: the blocks that a query asks for, one by one; where a path leads; and the
//! block of a CID.
#![tactic(auto)]

mod fault;
mod known;
mod resolving;
mod walk;

pub use fault::{ResolveFault, WalkFault};
pub use resolving::resolve;
pub use walk::{MAX_DEPTH, Walk, fetch};
