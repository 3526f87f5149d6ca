//! What is left of a query's traversal, as frames of the blocks that were opened: which block is wanted next, what the
//! block at that place is read as, what it says itself, and what it leaves. It speaks of no store and of no peer.
#![tactic(auto)]

mod block;
mod frame;
mod frames;
mod opening;
mod position;
mod reading;
mod stack;
mod text;

pub use block::SharedBlock;
pub use frames::{Frames, Next, copied_path};
pub use position::{Miss, Role, Wanted};
pub use text::{PlaceText, SizeFault};
