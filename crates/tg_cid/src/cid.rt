//! The CID: read and written as bytes and as text, its parts, and whether it names a block.
ghost use Rattle.std.proofs.Common.{rules};
ghost use Rattle.std.specs.Cmp.Lexicographic.{pointwise};
ghost use Rattle.std.specs.Cmp.Rules.{comparing, hashing};
ghost use Rattle.std.specs.Hash as fed;
ghost use Rattle.std.specs.Prelude.{◌≡◌, ℕ, ◌+◌, ◌-◌, ◌<◌, ◌≤◌, ◌↔◌, ◌⊎◌, List, ◌∷◌, ◌++◌, ◌==◌, ◌&&◌, nat_eq, length};
ghost use Rattle.std.specs.Prelude.{take, drop, replicate, All, IsTrue, IfOk, IfErr, IsErrOf, MatchResult};
ghost use Rattle.sha2.specs.Sha256.{sha256};
ghost use Rattle.tg_cid.specs.Cid.{CidParts};
ghost use Rattle.tg_cid.specs.Faults.{HasPrefixCause, HasBytesCause, HasTextCause, IsCodec, IsHash};
ghost use Rattle.tg_cid.specs.Limits.{max_cid_len, max_digest_len};
ghost use Rattle.tg_cid.specs.Names.{Names};
ghost use Rattle.tg_cid.specs.Reading.{DigestThen, ReadsAsOne};
ghost use Rattle.tg_cid.specs.Spelling.{CidBytes, CidV1Bytes, CidText, IsDigestSize, MultibaseText};
ghost use Rattle.tg_cid.specs.Spelling.{codec_code, hash_code};
ghost use Rattle.tg_cid.specs.declared.fault.CidFault.{CidFault};

use crate::fault::CidFault;
use crate::limits::{MAX_CID_LEN, MAX_DIGEST_LEN};
use crate::numbers::number_at;
use crate::room::{in_longest, in_room};
use sha2::{Digest, Sha256};
use std::alloc::{AllocError, Global};
use std::hash::{Hash, Hasher};
use std::marker::Model;
use tg_bytes::Bytes;

// How many bytes a digest of sha2-256 has.
pub(crate) const SHA256_LEN: usize = 32;

/// How the blocks that a CID names are read.
#[derive(Clone, Copy, Debug, PartialEq, Eq, Hash)]
pub enum Codec {
    /// Plain bytes, code 0x55.
    Raw,
    /// A DAG-PB node, code 0x70.
    DagPb,
}

/// How a CID's digest is made from a block.
#[derive(Clone, Copy, Debug, PartialEq, Eq, Hash)]
pub enum HashKind {
    /// sha2-256, code 0x12: 32 bytes.
    Sha256,
    /// The block itself, code 0x00: at most 128 bytes.
    Identity,
}

/// A CID: a version (0 or 1), a codec, a kind of hash and a digest. Two are equal where these four are. A CIDv0 is a
/// dag-pb one with sha2-256. A digest of sha2-256 has 32 bytes, and an identity digest at most 128.
///
/// CID specification; multihash.
#[derive(Clone, Copy, Debug)]
pub struct Cid {
    version: u8,
    codec: Codec,
    hash: HashKind,
    size: u8,
    digest: [u8; MAX_DIGEST_LEN],
}

impl Model for Cid {
    ghost use Rattle.std.specs.Prelude.{◌≡◌, ℕ, ◌-◌, ◌≤◌, ◌++◌, length, take, drop, replicate};
    ghost use Rattle.tg_cid.specs.Cid.{CidParts};
    ghost use Rattle.tg_cid.specs.Digest.{size_again, room_again};
    ghost use Rattle.tg_cid.specs.Spelling.{IsDigestSize};
    ghost use Rattle.tg_cid.specs.declared.cid.HashKind.TheVariants.{Sha256};
    ghost use Rattle.tg_cid.specs.declared.cid.Codec.TheVariants.{DagPb};

    ghost Value = { CidParts };

    ghost view = { λ c. record { version = c.version; codec = c.codec; hash = c.hash; digest = take c.size c.digest } };

    ghost invariant = { λ c. (c.version ≤ 1) × (c.size ≤ 128) × (length c.digest ≡ 128)
        × (drop c.size c.digest ≡ replicate (128 - c.size) 0)
        × IsDigestSize c.hash c.size × (c.version ≡ 0 → (c.codec ≡ DagPb) × (c.hash ≡ Sha256)) };

    ghost inverse = { λ p. record {
      version = p.version;
      codec = p.codec;
      hash = p.hash;
      size = length p.digest;
      digest = p.digest ++ replicate (128 - length p.digest) 0;
    } };

    ghost inverse_ok = { λ c h i. record {
      version = c.version;
      codec = c.codec;
      hash = c.hash;
      size = size_again c.size c.digest h.1 h.2 i;
      digest = room_again c.size c.digest h.1 h.2 h.3 i;
    } };
}

impl PartialEq for Cid {
    ghost eq = { λ a b. a.version == b.version && (⟦<Codec as PartialEq>⟧.eq a.codec b.codec
        && (⟦<HashKind as PartialEq>⟧.eq a.hash b.hash && pointwise nat_eq a.digest b.digest)) };

    ghost laws = { Prim.search (comparing, rules) };

    fn eq(&self, other: &Cid) -> bool {
        self.version == other.version
            && self.codec == other.codec
            && self.hash == other.hash
            && self.digest() == other.digest()
    }
}

impl Eq for Cid {
    ghost laws = { Prim.search (comparing, rules) };
}

impl Hash for Cid {
    ghost hash_input = { λ a. fed.u8 a.version ++ (⟦<Codec as Hash>⟧.hash_input a.codec
        ++ (⟦<HashKind as Hash>⟧.hash_input a.hash ++ fed.slice fed.u8 a.digest)) };

    ghost respects_eq = { Prim.search (hashing, rules) };

    fn hash<H: Hasher>(&self, state: &mut H) {
        self.version.hash(state);
        self.codec.hash(state);
        self.hash.hash(state);
        self.digest().hash(state);
    }
}

impl Cid {
    /// The CID at the front of the bytes and its length. Bytes may follow it. It takes no memory.
    ///
    /// CID specification; multihash. Bytes that begin with 0x12 and 0x20 are read as a CIDv0, others as a CIDv1 with
    /// shortest varints. Errors, where the grammar is broken first: `BadVersion`, `BadCodec`, `BadHash`, `BadLength`,
    /// `BadVarint`, and `Short` with the length of the bytes where they end inside a CID.
    pub fn from_prefix(bytes: &[u8]) -> Result<(Cid, usize), CidFault>
        ensures found { IfOk result (λ found. (found.1 ≤ length bytes.now)
            × CidBytes found.0 (take found.1 bytes.now)) }
        ensures only { (cid : CidParts) (front rest : List ℕ) → CidBytes cid front → bytes.now ≡ front ++ rest
            → result ≡ Ok (cid, length front) }
        // Each refusal comes exactly where its cause holds.
        ensures cause { IfErr result (λ fault. HasPrefixCause bytes.now fault) }
        ensures given { (fault : CidFault) → HasPrefixCause bytes.now fault → result ≡ Err fault }
    {
        tg_varint::laws::spelling_laws();
        match bytes {
            [0x12] => Err(CidFault::Short { at: 1 }),
            [0x12, 0x20, ..] => with_digest(
                0,
                Codec::DagPb,
                HashKind::Sha256,
                SHA256_LEN,
                bytes,
                2,
            ),
            _ => version_one(bytes),
        }
    }

    /// The CID that the bytes are, with nothing behind it. It takes no memory.
    ///
    /// CID specification; multihash. Errors: those of `from_prefix`, and `Trailing` at the first byte behind a CID.
    pub fn from_bytes(bytes: &[u8]) -> Result<Cid, CidFault>
        ensures found { IfOk result (λ cid. CidBytes cid bytes.now) }
        ensures only { (cid : CidParts) → CidBytes cid bytes.now → result ≡ Ok cid }
        ensures cause { IfErr result (λ fault. HasBytesCause bytes.now fault) }
        ensures given { (fault : CidFault) → HasBytesCause bytes.now fault → result ≡ Err fault }
    {
        let (cid, length) = Cid::from_prefix(bytes)?;
        if length < bytes.len() {
            return Err(CidFault::Trailing { at: length as u64 });
        }
        Ok(cid)
    }

    /// The CIDv1 that a text spells: the letter `b` and the lower-case base 32 of its bytes.
    ///
    /// CID specification; multibase; RFC 4648, section 6. Errors: `BadText` where there is no leading `b` or the rest
    /// isn't base 32, `BadVersion` with 18 where the bytes begin with 0x12, those of `from_bytes`, and `OutOfMemory`
    /// for want of memory alone.
    pub fn from_text(alloc: Global, text: &[u8]) -> Result<Cid, CidFault>
        ensures found { IfOk result (λ cid. CidText cid text.now) }
        ensures only { (cid : CidParts) → CidText cid text.now
            → MatchResult result (λ found. found ≡ cid) (λ e. e ≡ CidFault.OutOfMemory) }
        // Each refusal comes only where its cause holds, and where a cause holds it comes or memory is wanted.
        ensures cause { IfErr result (λ e. (e ≡ CidFault.OutOfMemory) ⊎ HasTextCause text.now e) }
        ensures given { (fault : CidFault) → HasTextCause text.now fault
            → (result ≡ Err fault) ⊎ (result ≡ Err CidFault.OutOfMemory) }
        // Memory is wanted for the bytes of a good text of the base alone, whether or not they are a CID's.
        ensures memory { IsErrOf result CidFault.OutOfMemory → (bytes : List ℕ) × MultibaseText text.now bytes }
    {
        tg_varint::laws::spelling_laws();
        tg_base32::laws::text_laws();
        let [b'b', letters @ ..] = text else {
            return Err(CidFault::BadText);
        };
        let bytes = tg_base32::decode(alloc, letters)?;
        let bytes = bytes.as_slice();
        match bytes {
            [0x12, ..] => Err(CidFault::BadVersion { number: 18 }),
            _ => Cid::from_bytes(bytes),
        }
    }

    /// The CID's bytes. The error is want of memory.
    ///
    /// CID specification; multihash.
    pub fn to_bytes(&self, alloc: Global) -> Result<Bytes, AllocError>
        ensures { IfOk result (λ bytes. CidBytes self.now bytes) }
    {
        let (bytes, size) = self.spelling();
        Bytes::of(alloc, &bytes[..size])
    }

    /// The CID's bytes, in the front of an array whose other bytes are zero, and how many they are. It takes no memory.
    ///
    /// CID specification; multihash.
    pub fn spelling(&self) -> ([u8; MAX_CID_LEN], usize)
        ensures size { result.1 ≤ max_cid_len }
        ensures spelled { CidBytes self.now (take result.1 result.0) }
        ensures rest { drop result.1 result.0 ≡ replicate (133 - result.1) 0 }
    {
        if self.version == 0 {
            // A CIDv0 is the multihash of sha2-256 alone.
            return in_longest(&[0x12, 0x20], &[], self.digest());
        }
        self.version_one_spelling()
    }

    /// The text of the CID's version 1 form: the letter `b` and the lower-case base 32 of its bytes. The error is want
    /// of memory.
    ///
    /// CID specification; multibase; RFC 4648, section 6.
    pub fn to_text(&self, alloc: Global) -> Result<Bytes, AllocError>
        ensures { IfOk result (λ text. CidText (record self.now { version = 1 }) text) }
    {
        let (bytes, size) = self.version_one_spelling();
        let mut text = tg_base32::encode(alloc, &bytes[..size])?;
        text.insert(0, b'b')?;
        Ok(Bytes::from(text))
    }

    /// The CIDv1 with sha2-256 of a block. It takes no memory.
    ///
    /// CID specification; multihash; FIPS 180-4.
    pub fn of_block(codec: Codec, block: &[u8]) -> Cid
        ensures parts { result ≡ record
            { version = 1; codec = codec; hash = HashKind.Sha256; digest = sha256 block.now } }
        ensures names { Names result block.now }
    {
        let digest = Sha256::digest(block);
        cid_with(1, codec, HashKind::Sha256, digest.as_slice())
    }

    /// Whether the CID names the block: its digest is the block's SHA-256, or the block itself where the hash is
    /// identity. It takes no memory.
    ///
    /// CID specification; multihash; FIPS 180-4.
    pub fn holds(&self, block: &[u8]) -> bool
        ensures { IsTrue result ↔ Names self.now block.now }
    {
        match self.hash {
            HashKind::Sha256 => Sha256::digest(block).as_slice() == self.digest(),
            HashKind::Identity => self.digest() == block,
        }
    }

    /// The version, 0 or 1.
    pub fn version(&self) -> u8
        ensures { result ≡ self.now.version }
    {
        self.version
    }

    /// The codec, which says how the blocks that the CID names are read.
    pub fn codec(&self) -> Codec
        ensures { result ≡ self.now.codec }
    {
        self.codec
    }

    /// The kind of the hash.
    pub fn hash_kind(&self) -> HashKind
        ensures { result ≡ self.now.hash }
    {
        self.hash
    }

    /// The digest: 32 bytes for sha2-256, and at most 128 for any hash.
    pub fn digest(&self) -> &[u8]
        ensures digest { result.now ≡ self.now.digest }
        ensures size { IsDigestSize self.now.hash (length result.now) }
        ensures most { length result.now ≤ max_digest_len }
    {
        &self.digest[..self.size as usize]
    }

    /// The CID of version 1 with the same codec, hash and digest. It takes no memory.
    pub fn to_v1(&self) -> Cid
        ensures { result ≡ record self.now { version = 1 } }
    {
        Cid {
            version: 1,
            codec: self.codec,
            hash: self.hash,
            size: self.size,
            digest: self.digest,
        }
    }

    /// The bytes of the CIDv1 with the same codec, hash and digest, as `spelling` gives them.
    fn version_one_spelling(&self) -> ([u8; MAX_CID_LEN], usize)
        ensures size { result.1 ≤ max_cid_len }
        ensures spelled { CidV1Bytes (record self.now { version = 1 }) (take result.1 result.0) }
        ensures rest { drop result.1 result.0 ≡ replicate (133 - result.1) 0 }
    {
        tg_varint::laws::spelling_laws();
        let digest = self.digest();
        let (length, size) = tg_varint::write(digest.len() as u64);
        let codes = [1, code_of_codec(self.codec), code_of_hash(self.hash)];
        in_longest(&codes, &length[..size], digest)
    }
}

/// The codec's number, which is its varint too.
fn code_of_codec(codec: Codec) -> u8
    ensures { result ≡ codec_code codec }
{
    match codec {
        Codec::Raw => 0x55,
        Codec::DagPb => 0x70,
    }
}

/// The hash's number, which is its varint too.
fn code_of_hash(hash: HashKind) -> u8
    ensures { result ≡ hash_code hash }
{
    match hash {
        HashKind::Sha256 => 0x12,
        HashKind::Identity => 0x00,
    }
}

/// The CID of these parts.
fn cid_with(version: u8, codec: Codec, hash: HashKind, digest: &[u8]) -> Cid
    requires version { version ≤ 1 }
    requires zero { version ≡ 0 → (codec ≡ Codec.DagPb) × (hash ≡ HashKind.Sha256) }
    requires size { IsDigestSize hash (length digest.now) }
    ensures { result ≡ record { version = version; codec = codec; hash = hash; digest = digest.now } }
{
    Cid {
        version,
        codec,
        hash,
        size: digest.len() as u8,
        digest: in_room(digest),
    }
}

/// The CID whose digest begins at `at`, and where that ends.
fn with_digest(
    version: u8,
    codec: Codec,
    hash: HashKind,
    size: usize,
    bytes: &[u8],
    at: usize,
) -> Result<(Cid, usize), CidFault>
    requires version { version ≤ 1 }
    requires zero { version ≡ 0 → (codec ≡ Codec.DagPb) × (hash ≡ HashKind.Sha256) }
    requires size_is { IsDigestSize hash size }
    requires place { at ≤ length bytes.now }
    ensures { DigestThen version codec hash size bytes.now at result }
{
    let rest = &bytes[at..];
    if rest.len() < size {
        return Err(CidFault::Short {
            at: bytes.len() as u64,
        });
    }
    Ok((cid_with(version, codec, hash, &rest[..size]), at + size))
}

/// The CIDv1 at the front of the bytes and its length.
fn version_one(bytes: &[u8]) -> Result<(Cid, usize), CidFault>
    ensures { ReadsAsOne bytes.now result }
{
    let (version, at) = number_at(bytes, 0)?;
    if version != 1 {
        return Err(CidFault::BadVersion { number: version });
    }
    let (code, at) = number_at(bytes, at)?;
    let codec = codec_of(code)?;
    let (code, at) = number_at(bytes, at)?;
    let hash = hash_of(code)?;
    let (length, at) = number_at(bytes, at)?;
    let size = size_of(hash, length)?;
    with_digest(1, codec, hash, size, bytes, at)
}

/// The codec with this number.
fn codec_of(number: u64) -> Result<Codec, CidFault>
    ensures { MatchResult result (λ codec. number ≡ codec_code codec)
        (λ fault. (fault ≡ CidFault.BadCodec number) × ¬ IsCodec number) }
{
    match number {
        0x55 => Ok(Codec::Raw),
        0x70 => Ok(Codec::DagPb),
        _ => Err(CidFault::BadCodec { number }),
    }
}

/// The hash with this number.
fn hash_of(number: u64) -> Result<HashKind, CidFault>
    ensures { MatchResult result (λ hash. number ≡ hash_code hash)
        (λ fault. (fault ≡ CidFault.BadHash number) × ¬ IsHash number) }
{
    match number {
        0x12 => Ok(HashKind::Sha256),
        0x00 => Ok(HashKind::Identity),
        _ => Err(CidFault::BadHash { number }),
    }
}

/// The number, where a digest of the hash may have so many bytes.
fn size_of(hash: HashKind, number: u64) -> Result<usize, CidFault>
    ensures { MatchResult result (λ size. (size ≡ number) × IsDigestSize hash size)
        (λ fault. (fault ≡ CidFault.BadLength number) × ¬ IsDigestSize hash number) }
{
    match hash {
        HashKind::Sha256 if number == SHA256_LEN as u64 => Ok(SHA256_LEN),
        HashKind::Identity if number <= MAX_DIGEST_LEN as u64 => Ok(number as usize),
        HashKind::Sha256 | HashKind::Identity => Err(CidFault::BadLength { number }),
    }
}
