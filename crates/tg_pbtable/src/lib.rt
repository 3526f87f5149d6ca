//! One scanner and one emitter for every protobuf message that a table of fields describes.
#![tactic(auto)]

mod computed;
mod copying;
mod cursor;
mod fault;
pub mod laws;
mod raw;
mod reading;
mod ruled;
mod table;
mod writing;

pub use copying::copied_bytes;
pub use cursor::FieldCursor;
pub use fault::PbFault;
pub use reading::scan;
pub use ruled::field_at;
pub use table::{Field, Fields, Order, Place, Rule, Times, Value, Wire};
pub use writing::{emit, put_bytes, put_head, put_number, size_of_bytes, size_of_number};
