//! The reply to one request, put over a store as its walk gives the blocks.
#![tactic(auto)]

mod body;
mod car;
mod fault;
mod part;
mod raw;
mod refusal;
mod reply;

pub use fault::ReplyFault;
pub use refusal::put_refusal;
pub use reply::{Replied, put_reply};
