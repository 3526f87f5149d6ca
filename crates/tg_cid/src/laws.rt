//! The laws of CIDs, for proofs.
ghost use Rattle.std.specs.Prelude.{◌≡◌, ℕ, ◌≤◌, ◌↔◌, List, length, IsTrue};
ghost use Rattle.tg_cid.specs.Cid.{CidParts};
ghost use Rattle.tg_cid.specs.Laws.{LengthLaws, OneSpelling};
ghost use Rattle.tg_cid.specs.Limits.{max_digest_len};
ghost use Rattle.tg_cid.specs.Names.{Names};
ghost use Rattle.tg_cid.specs.Spelling.{CidBytes, IsDigestSize};

use crate::cid::Cid;
pub use crate::computed::computes;
use std::hash::Hash;

/// No CID's bytes begin another's, a CID is spelled by one list of bytes, and a CIDv1 has one text, which is that of no
/// other.
///
/// CID specification; multihash; multibase.
pub fn one_spelling()
    ensures { OneSpelling }
{
    tg_varint::laws::spelling_laws();
    tg_base32::laws::text_laws();
}

/// The bytes of a CID are bytes, there are 1 to 133 of them, and there is a CID.
///
/// CID specification; multihash.
pub fn length_laws()
    ensures { LengthLaws }
{
    tg_varint::laws::spelling_laws();
}

/// A CID that is spelled has a digest of the size that its hash gives, 32 bytes for sha2-256 and at most 128 for any;
/// and that a CID names a block has one proof.
///
/// CID specification; multihash; FIPS 180-4.
pub fn digest_laws()
    ensures size { (cid : CidParts) (bytes : List ℕ) → CidBytes cid bytes → IsDigestSize cid.hash (length cid.digest) }
    ensures most { (cid : CidParts) (bytes : List ℕ) → CidBytes cid bytes → length cid.digest ≤ max_digest_len }
    ensures one_name { (cid : CidParts) (block : List ℕ) (p q : Names cid block) → p ≡ q }
{}

/// Two CIDs are equal exactly where their four parts are. A map whose keys are CIDs looks them up so.
pub fn equality()
    ensures { (a b : CidParts) → IsTrue (⟦<Cid as PartialEq>⟧.eq a b) ↔ (a ≡ b) }
{}

/// Equal CIDs feed a hasher the same bytes.
pub fn hashing()
    ensures { (a b : CidParts) → IsTrue (⟦<Cid as PartialEq>⟧.eq a b)
        → ⟦<Cid as Hash>⟧.hash_input a ≡ ⟦<Cid as Hash>⟧.hash_input b }
{
    equality();
}
