//! What a piece of a CAR completes.
use crate::section::Section;
use tg_bytes::Bytes;

/// What a reader answers to a piece. Each header and section comes once, in the call that brings its last byte.
#[derive(Drop)]
pub enum Event {
    /// The whole piece was taken, and neither the header nor a section was completed by it.
    Need,
    /// The header was completed: its bytes, at most 13,076.
    Header(Bytes),
    /// A section was completed. Its length begins at the offset `at`, which stands still at 2 ^ 64 - 1, and its length,
    /// CID and block have `size` bytes together.
    Section {
        at: u64,
        size: u64,
        section: Section,
    },
}
