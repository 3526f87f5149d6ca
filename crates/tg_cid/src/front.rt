//! How many bytes the shortest CID has that begins with given bytes.
ghost use Rattle.std.specs.Prelude.{◌≡◌, ◌↔◌, IsTrue, MatchOption};
ghost use Rattle.tg_cid.specs.Fewest.{Agrees, IsFewest, IsFewestHead, IsFewestSize, IsNoHead, IsNoName, IsNoSize};
ghost use Rattle.tg_cid.specs.Fewest.{identity_front};
ghost use Rattle.tg_cid.specs.declared.cid.Codec.TheVariants.{DagPb, Raw};

use crate::cid::{Cid, SHA256_LEN};
use crate::limits::MAX_DIGEST_LEN;

// What stands before the digest of a CIDv0 and of the two CIDv1s with sha2-256, and before the digest's length in the
// two with an identity hash.
const VERSION_ZERO: [u8; 2] = [0x12, 0x20];

const RAW: [u8; 4] = [1, 0x55, 0x12, 0x20];

const DAG_PB: [u8; 4] = [1, 0x70, 0x12, 0x20];

const RAW_IDENTITY: [u8; 3] = [1, 0x55, 0x00];

const DAG_PB_IDENTITY: [u8; 3] = [1, 0x70, 0x00];

// The varint of the longest identity digest's length, 128; those of shorter ones are one byte.
const LONGEST: [u8; 2] = [0x80, 0x01];

impl Cid {
    /// How many bytes the shortest CID has that begins with these bytes, or none where no CID begins so. It takes no
    /// memory.
    ///
    /// CID specification; multihash.
    pub fn fewest(bytes: &[u8]) -> Option<usize>
        ensures { MatchOption result (IsNoName bytes.now) (λ count. IsFewest bytes.now count) }
    {
        tg_varint::laws::spelling_laws();
        let Some(count) = by_head(bytes) else {
            return None;
        };
        if bytes.len() > count {
            return None;
        }
        Some(count)
    }
}

/// The fewest bytes of a CID whose head agrees with these, or none where no head does.
fn by_head(bytes: &[u8]) -> Option<usize>
    ensures { MatchOption result (IsNoHead bytes.now) (λ count. IsFewestHead bytes.now count) }
{
    if agrees(bytes, &RAW_IDENTITY) {
        return by_size(&bytes[bytes.len().min(RAW_IDENTITY.len())..]);
    }
    if agrees(bytes, &DAG_PB_IDENTITY) {
        return by_size(&bytes[bytes.len().min(DAG_PB_IDENTITY.len())..]);
    }
    by_sha256_head(bytes)
}

/// The fewest bytes of a CID with sha2-256 whose head agrees with these, or none where no head does.
fn by_sha256_head(bytes: &[u8]) -> Option<usize>
    requires raw { ¬ Agrees bytes.now (identity_front Raw) }
    requires dag_pb { ¬ Agrees bytes.now (identity_front DagPb) }
    ensures { MatchOption result (IsNoHead bytes.now) (λ count. IsFewestHead bytes.now count) }
{
    if agrees(bytes, &VERSION_ZERO) {
        return Some(VERSION_ZERO.len() + SHA256_LEN);
    }
    if agrees(bytes, &RAW) {
        return Some(RAW.len() + SHA256_LEN);
    }
    if agrees(bytes, &DAG_PB) {
        return Some(DAG_PB.len() + SHA256_LEN);
    }
    None
}

/// The fewest bytes of a CID with an identity hash the length of whose digest agrees with these, or none where no
/// length does.
fn by_size(size: &[u8]) -> Option<usize>
    ensures { MatchOption result (IsNoSize size.now) (λ count. IsFewestSize size.now count) }
{
    let Some(first) = size.first() else {
        return Some(RAW_IDENTITY.len() + 1);
    };
    if *first < 0x80 {
        return Some(RAW_IDENTITY.len() + 1 + *first as usize);
    }
    if agrees(size, &LONGEST) {
        return Some(RAW_IDENTITY.len() + LONGEST.len() + MAX_DIGEST_LEN);
    }
    None
}

/// Whether the one begins with the other, or the other way round.
fn agrees(bytes: &[u8], head: &[u8]) -> bool
    ensures { IsTrue result ↔ Agrees bytes.now head.now }
{
    let count = bytes.len().min(head.len());
    bytes[..count] == head[..count]
}
