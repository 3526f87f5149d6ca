//! Where the blocks of a pack lie.

/// Where a block lies in a pack: the offset of its first byte, and how many bytes it has.
#[derive(Clone, Copy)]
pub struct Place {
    pub offset: u64,
    pub size: u64,
}
