//! Dials, which make links to peers, those in memory and those over TCP.
#![tactic(auto)]

mod dial;
mod memory;
mod tcp;

pub use dial::{Dial, first_link};
pub use memory::MemDial;
pub use tcp::TcpDial;
