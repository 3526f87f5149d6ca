//! The limits of blocks and CIDs. Clauses cite them as `max_block_len`, `max_cid_len` and `max_digest_len` of the
//! specification.

/// The most bytes of a block: 2 MiB.
pub const MAX_BLOCK_LEN: usize = 2_097_152;

/// The most bytes of a digest.
pub const MAX_DIGEST_LEN: usize = 128;

/// The most bytes of a CID: a CIDv1 with the longest digest, whose version, codec and hash are one byte each and whose
/// length is two.
pub const MAX_CID_LEN: usize = 133;
