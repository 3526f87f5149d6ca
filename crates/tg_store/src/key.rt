//! The keys under which blocks are found.
ghost use Rattle.std.proofs.Common.{rules};
ghost use Rattle.std.specs.Cmp.{partial_equiv_from_equiv};
ghost use Rattle.std.specs.Cmp.Rules.{hashing};
ghost use Rattle.std.specs.Hash as fed;
ghost use Rattle.std.specs.Prelude.{◌≡◌, ◌+◌, ◌<◌, ◌++◌, None, Some, length};
ghost use Rattle.tg_store.specs.KeyLaws.{hashed_alike, same_key_equiv};
ghost use Rattle.tg_store.specs.Keys.{key_of, of_hash, same_key};

use std::hash::{Hash, Hasher};
use tg_cid::{Cid, Codec, HashKind};

/// What a CIDv1 with sha2-256 is known by: its codec and its digest.
#[derive(Clone, Copy)]
pub struct Key {
    codec: Codec,
    digest: [u8; 32],
}

impl Key {
    /// The key of the CID and of its version 1 form, or none where its hash isn't sha2-256.
    pub(crate) fn of(cid: &Cid) -> Option<Key>
        ensures { result ≡ of_hash cid.now.hash (Some (key_of cid.now)) }
    {
        match cid.hash_kind() {
            HashKind::Sha256 => Some(Key {
                codec: cid.codec(),
                digest: digest_of(cid.digest()),
            }),
            HashKind::Identity => None,
        }
    }

    /// The digest.
    pub(crate) fn digest(&self) -> [u8; 32]
        ensures { result ≡ self.now.digest }
    {
        self.digest
    }
}

impl PartialEq for Key {
    ghost eq = { same_key };

    ghost laws = { partial_equiv_from_equiv same_key_equiv };

    fn eq(&self, other: &Key) -> bool {
        self.codec == other.codec && self.digest == other.digest
    }
}

impl Eq for Key {
    ghost laws = { same_key_equiv };
}

impl Hash for Key {
    ghost hash_input = { λ key. fed.slice fed.u8 key.digest };

    ghost respects_eq = { hashed_alike };

    fn hash<H: Hasher>(&self, state: &mut H) {
        self.digest.as_slice().hash(state);
    }
}

/// The 32 bytes as an array.
fn digest_of(bytes: &[u8]) -> [u8; 32]
    requires { length bytes.now ≡ 32 }
    ensures { result ≡ bytes.now }
{
    let mut digest = [0; 32];
    fill(&mut digest, bytes);
    digest
}

/// Copies the bytes over as many.
fn fill(room: &mut [u8], bytes: &[u8])
    requires { length bytes.now ≡ length room.old }
    ensures { room.new ≡ bytes.now }
{
    room.copy_from_slice(bytes);
}
