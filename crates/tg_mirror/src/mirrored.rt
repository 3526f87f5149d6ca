//! What was mirrored.

/// What was mirrored.
#[derive(Clone, Copy, Debug, PartialEq, Eq)]
pub struct Mirrored {
    /// Of how many CIDs the pack has a block: each of the DAG's with sha2-256, a CIDv0 being one with its CIDv1 form.
    pub blocks: u64,
    /// How many bytes these blocks have together.
    pub bytes: u64,
}
