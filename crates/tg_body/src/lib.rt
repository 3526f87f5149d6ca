//! HTTP/1.1 bodies, read from bytes in pieces of any lengths.
#![tactic(auto)]

mod body;
pub mod laws;
mod reader;
mod stage;
mod text;

pub use body::Body;
pub use reader::BodyReader;
