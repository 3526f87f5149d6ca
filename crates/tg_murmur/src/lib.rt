//! The hash of a name in a HAMT-sharded UnixFS directory, and the slots that it chooses.
#![tactic(auto)]

ghost use Rattle.std.specs.Prelude.{◌≡◌, ℕ, ◌-◌, ◌^◌, ◌<◌, List, ◌++◌, length, replicate, slice_index};
ghost use Rattle.std.specs.Int.{w64, to_be_bytes};
ghost use Rattle.tg_murmur.specs.NameHash.{name_hash, slot_of, scrambled1, scrambled2, first_word, second_word};
ghost use Rattle.tg_murmur.specs.NameHash.{with_block, with_rest, final_mix, finished};

mod examples;
pub mod laws;

pub use examples::empty_name;
use std::marker::Model;

const C1: u64 = 0x87c3_7b91_1142_53d5;

const C2: u64 = 0x4cf5_ad43_2745_937f;

/// The 64-bit hash of a name's bytes: the first word of MurmurHash3 x64 128 with the start value 0.
///
/// UnixFS specification, HAMTDirectory (hash function murmur3-x64-64). It takes no memory.
#[tactic(auto, unfolding(crate::specs::NameHash::name_hash))]
pub fn hash64(bytes: &[u8]) -> u64
    ensures { result ≡ name_hash bytes.now }
{
    let (blocks, rest) = bytes.as_chunks::<16>();
    let mut halves = Halves { h1: 0, h2: 0 };
    for block in blocks {
        halves = halves.mix_block(block);
    }
    halves.mix_rest(&filled(rest)).finish(bytes.len() as u64)
}

/// The slot, below 256, that a hash chooses at a level of a HAMT shard: byte `level` of the hash written as eight
/// big-endian bytes. `level` is at most 7.
///
/// UnixFS specification, HAMTDirectory, for a fanout of 256. It takes no memory.
pub fn slot(hash: u64, level: u8) -> u8
    requires { level < 8 }
    ensures { result ≡ slice_index (to_be_bytes w64 hash) level }
{
    hash.to_be_bytes()[level as usize]
}

// The two words that the hash carries along.
#[derive(Clone, Copy)]
struct Halves {
    h1: u64,
    h2: u64,
}

// Contracts see the halves of the definition.
impl Model for Halves {
    ghost use Rattle.tg_murmur.specs.NameHash.{Halves as HashHalves};

    ghost Value = { HashHalves };

    ghost view = { λ a. record { h1 = a.h1; h2 = a.h2 } };

    ghost inverse = { λ s. record { h1 = s.h1; h2 = s.h2 } };
}

impl Halves {
    // A whole block goes in.
    #[inline]
    #[tactic(auto, unfolding(crate::specs::NameHash::next_h1, crate::specs::NameHash::next_h2))]
    fn mix_block(self, block: &[u8; 16]) -> Halves
        ensures { result ≡ with_block self block.now }
    {
        let (first, second) = words(block);
        let h1 = (self.h1 ^ scramble1(first))
            .rotate_left(27)
            .wrapping_add(self.h2)
            .wrapping_mul(5)
            .wrapping_add(0x52dc_e729);
        let h2 = (self.h2 ^ scramble2(second))
            .rotate_left(31)
            .wrapping_add(h1)
            .wrapping_mul(5)
            .wrapping_add(0x3849_5ab5);
        Halves { h1, h2 }
    }

    // The filled rest goes in.
    #[tactic(auto, unfolding(crate::specs::NameHash::with_rest))]
    fn mix_rest(self, rest: &[u8; 16]) -> Halves
        ensures { result ≡ with_rest self rest.now }
    {
        let (first, second) = words(rest);
        Halves {
            h1: self.h1 ^ scramble1(first),
            h2: self.h2 ^ scramble2(second),
        }
    }

    // The hash of a text of `size` bytes, once all its bytes have gone in.
    #[tactic(auto, unfolding(crate::specs::NameHash::finished))]
    fn finish(self, size: u64) -> u64
        ensures { result ≡ finished self size }
    {
        let h1 = (self.h1 ^ size).wrapping_add(self.h2 ^ size);
        let h2 = (self.h2 ^ size).wrapping_add(h1);
        final_mix(h1).wrapping_add(final_mix(h2))
    }
}

// What the first word of a block is xored into `h1` as.
#[inline]
#[tactic(auto, unfolding(crate::specs::NameHash::scrambled1))]
fn scramble1(word: u64) -> u64
    ensures { result ≡ scrambled1 word }
{
    word.wrapping_mul(C1).rotate_left(31).wrapping_mul(C2)
}

// What the second word of a block is xored into `h2` as.
#[inline]
#[tactic(auto, unfolding(crate::specs::NameHash::scrambled2))]
fn scramble2(word: u64) -> u64
    ensures { result ≡ scrambled2 word }
{
    word.wrapping_mul(C2).rotate_left(33).wrapping_mul(C1)
}

#[tactic(auto, unfolding(crate::specs::NameHash::final_mix))]
fn final_mix(word: u64) -> u64
    ensures { result ≡ final_mix word }
{
    let mut k = word;
    k ^= k >> 33;
    k = k.wrapping_mul(0xff51_afd7_ed55_8ccd);
    k ^= k >> 33;
    k = k.wrapping_mul(0xc4ce_b9fe_1a85_ec53);
    k ^ (k >> 33)
}

// The two words of a block, read little-endian.
#[inline]
fn words(block: &[u8; 16]) -> (u64, u64)
    ensures first { result.0 ≡ first_word block.now }
    ensures second { result.1 ≡ second_word block.now }
{
    let (words, _) = block.as_chunks::<8>();
    (u64::from_le_bytes(words[0]), u64::from_le_bytes(words[1]))
}

// The rest of a text, filled with zero bytes to a block.
fn filled(rest: &[u8]) -> [u8; 16]
    requires { length rest.now < 16 }
    ensures { result ≡ rest.now ++ replicate (16 - length rest.now) 0 }
{
    let mut block = [0u8; 16];
    block[..rest.len()].copy_from_slice(rest);
    block
}
