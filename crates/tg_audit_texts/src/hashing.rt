//! Texts that are hashed as they come.
ghost use Rattle.std.specs.Prelude.{◌≡◌, ℕ, ◌++◌, [], List};
ghost use Rattle.tg_audit_texts.specs.Hashing.{IsHashOf, IsHashing, hashing_joins, hashing_rests, hashing_sink};

use sha2::{Digest, Sha256};
use tg_faults::Failed;
use tg_streams::Sink;

/// How many bytes a text has, a number that stands still at 2^64 - 1, and their SHA-256 (FIPS 180-4).
#[derive(Clone, Copy, Debug, PartialEq, Eq)]
pub struct Hashed {
    pub size: u64,
    pub digest: [u8; 32],
}

impl Hashed {
    /// A text, hashed.
    pub fn of(text: &[u8]) -> Hashed
        ensures { IsHashOf text.now result }
    {
        let mut hashing = Hashing::new();
        hashing.add(text);
        hashing.hashed()
    }
}

/// A sink that hashes what is put, holds nothing of it, and never fails.
#[derive(Drop)]
pub struct Hashing {
    hasher: Sha256,
    size: u64,
}

impl Hashing {
    /// One into which nothing was put.
    pub fn new() -> Hashing
        ensures { IsHashing result [] }
    {
        Hashing {
            hasher: Sha256::new(),
            size: 0,
        }
    }

    /// Puts all of the bytes.
    pub fn add(&mut self, bytes: &[u8])
        ensures { (text : List ℕ) → IsHashing self.old text → IsHashing self.new (text ++ bytes.now) }
    {
        self.hasher.update(bytes);
        self.size = self.size.saturating_add(bytes.len() as u64);
    }

    /// What was put, hashed.
    pub fn hashed(self) -> Hashed
        ensures { (text : List ℕ) → IsHashing self text → IsHashOf text result }
    {
        Hashed {
            size: self.size,
            digest: self.hasher.finalize(),
        }
    }
}

impl Sink for Hashing {
    ghost sink = { hashing_sink };

    ghost rests = { λ s. hashing_rests s };

    ghost joins = { λ a b c u v. hashing_joins a b c u v };

    /// It takes all, and never fails.
    fn put(&mut self, bytes: &[u8]) -> Result<usize, Failed> {
        self.add(bytes);
        Ok(bytes.len())
    }
}
