//! Streams of bytes: sources and sinks, in memory and over std's readers and writers, and room in which small pieces are
//! gathered before they are put.
#![tactic(auto)]

mod dropping;
mod gathering;
mod memory;
mod sinks;
mod sources;
mod standard;
mod told;

pub use dropping::DropSink;
pub use gathering::{GATHERING_ROOM, Gathering};
pub use memory::{MemSink, MemSource};
pub use sinks::{Sink, put_all, put_pieces};
pub use sources::{Source, read_front, take_piece};
pub use standard::{StdSink, StdSource, read_on, write_on};
pub use told::{Holds, Tells, ToldSink, ToldSource};
