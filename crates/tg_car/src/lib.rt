//! CARs: their header and sections written, and read in pieces of any lengths.
#![tactic(auto)]

mod event;
mod fault;
mod head;
mod header_state;
pub mod laws;
mod part;
mod reader;
mod room;
mod section;
mod writing;

pub use event::Event;
pub use fault::CarFault;
pub use reader::CarReader;
pub use section::Section;
pub use writing::{header, section_head};
