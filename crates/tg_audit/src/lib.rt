//! An audit: a folder that a seed draws is imported into a pack in memory, which is attached as a store; it is served
//! through a door in memory to the request of each query, the reply is fetched over a dial in memory, and the answers are
//! compared with what was drawn.
#![tactic(auto)]

mod asking;
mod auditing;
mod fault;
pub mod laws;
mod packing;

pub use asking::ask;
pub use auditing::audit;
pub use fault::AuditFault;
pub use packing::{Packed, attach, import_tree};
