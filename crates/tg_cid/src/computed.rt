//! The CID of bytes, and the bytes and the text of a CID, as functions in proofs.
ghost use Rattle.std.specs.Prelude.{◌≡◌, ℕ, ◌<◌, ◌↔◌, List, All, Some};
ghost use Rattle.tg_cid.specs.Cid.{CidParts};
ghost use Rattle.tg_cid.specs.Spelling.{CidBytes, CidV1Bytes, CidText};
ghost use Rattle.tg_cid.specs.Computed.{cid_of, v1_bytes, cid_text};

/// Bytes are a CID's where `cid_of` computes it; and a CID, read as a CIDv1, has the bytes and the text that `v1_bytes`
/// and `cid_text` compute.
pub fn computes()
    ensures cid { (cid : CidParts) (bytes : List ℕ) → All (λ b. b < 256) bytes
        → CidBytes cid bytes ↔ (cid_of bytes ≡ Some cid) }
    ensures bytes { (cid : CidParts) (bytes : List ℕ) → CidBytes cid bytes
        → CidV1Bytes (record cid { version = 1 }) (v1_bytes cid) }
    ensures text { (cid : CidParts) (bytes : List ℕ) → CidBytes cid bytes
        → CidText (record cid { version = 1 }) (cid_text cid) }
{
    tg_varint::laws::spelling_laws();
    tg_base32::laws::text_laws();
}
