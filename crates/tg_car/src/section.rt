//! A section of a CAR.
use tg_bytes::Bytes;
use tg_cid::Cid;

// How many bytes the length and the CID of a section have at most: nine, and 133 of a CIDv1 with a digest of 128 bytes.
pub(crate) const MAX_HEAD_LEN: usize = 142;

/// A section of a CAR: a CID and the block that is said to be its.
///
/// CARv1 specification, Data. Whether the CID names the block isn't looked at.
#[derive(Drop)]
pub struct Section {
    pub cid: Cid,
    pub block: Bytes,
}
