//! A folder as a DAG, and imported into a pack.
#![tactic(auto)]

mod fault;
mod folder;
mod importing;
mod names;
mod packing;
mod summary;

pub use fault::ImportFault;
pub use importing::import;
pub use packing::import_pack;
pub use summary::{Options, Summary};
