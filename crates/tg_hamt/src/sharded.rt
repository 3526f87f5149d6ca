//! A sharded directory from its entries.
ghost use Rattle.std.specs.Prelude.{◌≡◌, ◌≢◌, ◌≤◌, List, ℕ, Contains, ⊤, IfOk, IfErr, MatchResult, OnErr, OnOk, map};
ghost use Rattle.std.specs.Prelude.{true};
ghost use Rattle.tg_hamt.specs.Directories.{AreGoodEntries, HaveSameHash, IsCause, IsCountedBy, IsNamePair};
ghost use Rattle.tg_hamt.specs.Directories.{IsPairFault, IsSameHashFault, MakesSharded};
ghost use Rattle.tg_model.specs.Stores.{KeepingQuiet, kept_in};

use crate::fault::HamtFault;
use crate::order::{ordered, same_hash};
use crate::shards::keep_shard;
use std::alloc::Global;
use tg_bytes::Bytes;
use tg_model::{Keep, KeepFault, Made, NewEntry};

/// Keeps the shards of the directory with these entries, each behind its child shards, and says what was made. The
/// names are good, differ and have at most 255 bytes, the CIDs are of sha2-256, there are fewer than 2^32 entries, and
/// their Tsizes sum to at most 2^62.
///
/// UnixFS specification, HAMTDirectory.
///
/// Errors: `SameHash` where two names have one hash, before anything is kept; those of the store; want of memory.
pub fn build<K: Keep>(alloc: Global, entries: &[NewEntry], keep: &mut K) -> Result<Made, HamtFault>
    requires { AreGoodEntries entries.now }
    ensures made { IfOk result (λ made. MakesSharded entries.now made (kept_in K.keeper keep.old keep.new)) }
    ensures quiet { OnOk result (KeepingQuiet (kept_in K.keeper keep.old keep.new)) }
    ensures cause { IfErr result (λ fault. IsCause entries.now fault (kept_in K.keeper keep.old keep.new)) }
    ensures counted { IfErr result (λ fault. IsCountedBy fault (K.keeper.faults keep.old) (K.keeper.faults keep.new)) }
    ensures err_counted { OnErr result (K.keeper.faults keep.old ≤ K.keeper.faults keep.new) }
    // Two names with one hash are never passed over.
    ensures same_hash { (first second : List ℕ) → HaveSameHash entries.now first second
        → MatchResult result (λ _. ⊥) IsSameHashFault }
{
    tg_murmur::laws::slots_are_bytes();
    let order = ordered(alloc, entries)?;
    if let Some(i) = same_hash(order.as_slice()) {
        return Err(same_hash_fault(
            alloc,
            &entries[order[i].index],
            &entries[order[i + 1].index],
        ));
    }
    match keep_shard(alloc, entries, order.as_slice(), 0, keep) {
        Ok(made) => Ok(made),
        Err(KeepFault::Failed) => Err(HamtFault::Keep(KeepFault::Failed)),
        Err(KeepFault::OutOfMemory) => Err(HamtFault::OutOfMemory),
    }
}

/// The fault for two entries whose names have one hash: the name that comes first by its bytes, and the other.
fn same_hash_fault(alloc: Global, one: &NewEntry, other: &NewEntry) -> HamtFault
    requires { one.now.name ≢ other.now.name }
    ensures { IsPairFault one.now.name other.now.name result }
{
    if one.name < other.name {
        name_pair(alloc, one.name.as_slice(), other.name.as_slice())
    } else {
        name_pair(alloc, other.name.as_slice(), one.name.as_slice())
    }
}

/// The fault for these two names, or for want of memory.
fn name_pair(alloc: Global, first: &[u8], second: &[u8]) -> HamtFault
    ensures { IsNamePair first.now second.now result }
{
    match (Bytes::of(alloc, first), Bytes::of(alloc, second)) {
        (Ok(first), Ok(second)) => HamtFault::SameHash { first, second },
        _ => HamtFault::OutOfMemory,
    }
}
