//! The client of a gateway, which trusts no server: a reply is read and verified while it comes.
#![tactic(auto)]

mod calls;
mod client;
mod content;
mod fault;
mod heads;
pub mod laws;
mod sections;
mod watch;

pub use calls::{fetch, fetch_keep, fetch_telling};
pub use client::Client;
pub use fault::FetchFault;
pub use watch::{Told, Unwatched, Watch};
