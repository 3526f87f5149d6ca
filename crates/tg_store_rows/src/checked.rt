//! Directories of entries that are tested first.
ghost use Rattle.std.specs.Prelude.{◌≡◌, ◌<◌, ◌≤◌, ◌^◌, ℕ, All, false, IsTrue, bytes_eq, length, map, slice_index_or};
ghost use Rattle.std.specs.List.{IsDistinct, sum_by};
ghost use Rattle.tg_hamt.specs.Directories.{AreGoodEntries};
ghost use Rattle.tg_hamt.specs.Order.{IsGoodEntry};
ghost use Rattle.tg_model.specs.declared.kinds.NewEntry.{NewEntry as Entries};

use std::alloc::Global;
use tg_bytes::Bytes;
use tg_cid::HashKind;
use tg_hamt::{HamtFault, build};
use tg_model::{Keep, Made, NewEntry, is_good_name};

/// Why a directory isn't made.
#[derive(Drop)]
pub enum CheckedFault {
    /// There are more than 65,536 entries, one can't stand in a directory, two have one name, or their Tsizes pass
    /// 2^62.
    BadEntries,
    /// The threshold passes 1,048,576.
    BadThreshold,
    /// The builder's own fault.
    Built(HamtFault),
}

/// The sharded directory of these entries, where they may stand in one.
pub fn checked_build<K: Keep>(
    alloc: Global,
    entries: &[NewEntry],
    keep: &mut K,
) -> Result<Made, CheckedFault> {
    if !may_stand(entries) {
        return Err(CheckedFault::BadEntries);
    }
    match build(alloc, entries, keep) {
        Ok(made) => Ok(made),
        Err(fault) => Err(CheckedFault::Built(fault)),
    }
}

/// The directory of these entries, sharded above this weight, where they may stand in one.
pub fn checked_directory<K: Keep>(
    alloc: Global,
    entries: &[NewEntry],
    threshold: u64,
    keep: &mut K,
) -> Result<Made, CheckedFault> {
    if !may_stand(entries) {
        return Err(CheckedFault::BadEntries);
    }
    if threshold > 1_048_576 {
        return Err(CheckedFault::BadThreshold);
    }
    match tg_dir::build(alloc, entries, threshold, keep) {
        Ok(made) => Ok(made),
        Err(fault) => Err(CheckedFault::Built(fault)),
    }
}

/// The weight of the directory of these entries, where they may stand in one.
pub fn checked_weight(entries: &[NewEntry]) -> Result<u64, CheckedFault> {
    if !may_stand(entries) {
        return Err(CheckedFault::BadEntries);
    }
    Ok(tg_dir::weight(entries))
}

/// Whether the entries may stand in a directory, of at most 65,536.
fn may_stand(entries: &[NewEntry]) -> bool
    ensures { IsTrue result → AreGoodEntries entries.now }
{
    entries.len() <= 65_536 && are_good(entries) && differ(entries) && are_light(entries)
}

/// Whether each entry may stand in a directory.
fn are_good(entries: &[NewEntry]) -> bool
    ensures { IsTrue result → All IsGoodEntry entries.now }
{
    for entry in entries {
        if !is_good(entry) {
            return false;
        }
    }
    true
}

/// Whether the entry may stand in a directory.
fn is_good(entry: &NewEntry) -> bool
    ensures { IsTrue result → IsGoodEntry entry.now }
{
    let name = entry.name.as_slice();
    is_good_name(name) && name.len() <= 255 && entry.cid.hash_kind() == HashKind::Sha256
}

/// Whether the entries' names differ.
fn differ(entries: &[NewEntry]) -> bool
    ensures { IsTrue result → IsDistinct bytes_eq (map (λ entry. entry.name) entries.now) }
{
    for i in 0..entries.len() {
        if has_name(&entries[..i], &entries[i].name) {
            return false;
        }
    }
    true
}

/// Whether an entry has this name.
fn has_name(entries: &[NewEntry], name: &Bytes) -> bool
    ensures { (k : ℕ) (d : Entries) → result ≡ false → k < length entries.now
        → bytes_eq (slice_index_or entries.now k d).name name.now ≡ false }
{
    for entry in entries {
        if entry.name == *name {
            return true;
        }
    }
    false
}

/// Whether the entries' Tsizes sum to at most 2^62.
fn are_light(entries: &[NewEntry]) -> bool
    requires { length entries.now ≤ 65536 }
    ensures { IsTrue result → sum_by (λ entry. entry.tsize) entries.now ≤ 2 ^ 62 }
{
    let mut sum: u64 = 0;
    for entry in entries {
        if entry.tsize > 1_099_511_627_776 {
            return false;
        }
        sum += entry.tsize;
    }
    sum <= 4_611_686_018_427_387_904
}
