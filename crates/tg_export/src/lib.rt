//! The answer to a query as a CAR, from a store or a pack.
#![tactic(auto)]

mod car;
mod fault;
mod packed;

pub use car::write_car;
pub use fault::ExportFault;
pub use packed::export;
