//! The mirror: a whole DAG is fetched from a gateway that isn't trusted into a pack that serves as its original.
#![tactic(auto)]

mod fault;
mod filling;
mod mirrored;
mod mirroring;

pub use fault::MirrorFault;
pub use mirrored::Mirrored;
pub use mirroring::mirror;
