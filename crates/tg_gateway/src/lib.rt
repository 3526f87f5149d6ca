//! Sessions of a gateway over links.
#![tactic(auto)]

mod fault;
mod heads;
pub mod laws;
mod link;
mod session;

pub use fault::GatewayFault;
pub use link::serve_link;
pub use session::{Next, Served, Session};
