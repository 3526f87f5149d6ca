//! Lists of bytes and of values, which contracts see as plain lists; room for bytes; the bytes of ASCII that have
//! names; and decimal numbers.
#![tactic(auto)]

mod ascii;
mod digits;
mod lists;
mod room;

pub use ascii::{LINE_FEED, SLASH, SPACE, named_bytes};
pub use digits::number_of;
pub use lists::{Bytes, List};
pub use room::{fill_both, fill_front, zeros};
