//! A directory from its entries.
ghost use Rattle.std.specs.Prelude.{◌≡◌, ◌<◌, ◌≤◌, List, ℕ, IfErr, IfOk, MatchResult, OnErr, OnOk};
ghost use Rattle.tg_dir.specs.Made.{IsDirectoryCause, MakesDirectory, StopsInOrder};
ghost use Rattle.tg_dir.specs.Weights.{weight_for};
ghost use Rattle.tg_hamt.specs.Directories.{AreGoodEntries, HaveSameHash, IsCountedBy, IsSameHashFault};
ghost use Rattle.tg_model.specs.Stores.{KeepingQuiet, kept_in};

use crate::basic::keep_basic;
use std::alloc::Global;
use tg_hamt::HamtFault;
use tg_model::{Keep, Made, NewEntry};

/// The weight of a directory with these entries in bytes: the lengths of their names and of their CIDs in version 1.
/// The entries are those of `build`. It takes no memory.
pub fn weight(entries: &[NewEntry]) -> u64
    requires { AreGoodEntries entries.now }
    ensures { result ≡ weight_for entries.now }
{
    tg_cid::laws::computes();
    tg_cid::laws::one_spelling();
    let mut weight = 0;
    for entry in entries {
        let (_, cid) = entry.cid.to_v1().spelling();
        weight += (entry.name.as_slice().len() + cid) as u64;
    }
    weight
}

/// Keeps the blocks of the directory with these entries, each behind those below it, and says what was made: sharded
/// exactly where the weight exceeds the threshold, which is at most 1,048,576, and else one block, its links sorted by
/// the names' bytes. The names are good, differ and have at most 255 bytes, the CIDs are of sha2-256, there are fewer
/// than 2^32 entries, and their Tsizes sum to at most 2^62.
///
/// UnixFS specification, Directory and HAMTDirectory. Errors: `SameHash` where the directory is sharded and two names
/// have one hash, before anything is kept; those of the store; want of memory.
pub fn build<K: Keep>(
    alloc: Global,
    entries: &[NewEntry],
    threshold: u64,
    keep: &mut K,
) -> Result<Made, HamtFault>
    requires entries { AreGoodEntries entries.now }
    requires threshold { threshold ≤ 1048576 }
    ensures made { IfOk result (λ made. MakesDirectory threshold entries.now made
        (kept_in K.keeper keep.old keep.new)) }
    ensures quiet { OnOk result (KeepingQuiet (kept_in K.keeper keep.old keep.new)) }
    ensures cause { IfErr result (λ fault. IsDirectoryCause threshold entries.now fault
        (kept_in K.keeper keep.old keep.new)) }
    // What was kept before a fault stands behind what it links to.
    ensures stops { IfErr result (λ fault. StopsInOrder entries.now fault (kept_in K.keeper keep.old keep.new)) }
    ensures counted { IfErr result (λ fault. IsCountedBy fault (K.keeper.faults keep.old) (K.keeper.faults keep.new)) }
    ensures err_counted { OnErr result (K.keeper.faults keep.old ≤ K.keeper.faults keep.new) }
    // Two names of a sharded directory with one hash are never passed over.
    ensures same_hash { (first second : List ℕ) → threshold < weight_for entries.now
        → HaveSameHash entries.now first second
        → MatchResult result (λ _. ⊥) IsSameHashFault }
{
    tg_node_writing::laws::written_nodes();
    tg_node_writing::laws::linked_nodes();
    if weight(entries) > threshold {
        tg_hamt::build(alloc, entries, keep)
    } else {
        keep_basic(alloc, entries, keep)
    }
}
