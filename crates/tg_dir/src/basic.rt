//! A directory in one block.
ghost use Rattle.std.specs.List.Sorted.{IsPermutation, IsSortedByKey};
ghost use Rattle.std.specs.List.{sum_by};
ghost use Rattle.std.specs.Prelude.{◌≡◌, ◌≤◌, ◌^◌, [], All, IfErr, IfOk, OnErr, OnOk};
ghost use Rattle.tg_bytes.specs.Order.{bytes_cmp};
ghost use Rattle.tg_dir.specs.Basic.{IsKeptBlock, MakesBasic};
ghost use Rattle.tg_dir.specs.Made.{IsBasicCause};
ghost use Rattle.tg_dir.specs.Weights.{weight_for};
ghost use Rattle.tg_hamt.specs.Directories.{AreGoodEntries, IsCountedBy};
ghost use Rattle.tg_model.specs.ImportLayout.{basic_unix};
ghost use Rattle.tg_model.specs.Stores.{KeepingQuiet, kept_in};
ghost use Rattle.tg_node_writing.specs.Keeping.{StopsAfter};
ghost use Rattle.tg_node_writing.specs.Nodes.{IsNodeOf, IsOfSha256};

use std::alloc::{AllocError, Global};
use tg_bytes::{Bytes, List};
use tg_cid::Codec;
use tg_hamt::HamtFault;
use tg_model::{Keep, KeepFault, Made, NewEntry};
use tg_node_writing::{keep_block, node_block};
use tg_unixfs::Unix;

/// The UnixFS type of a directory in one block.
const DIRECTORY: u64 = 1;

/// Keeps the block of the directory with these entries, its links sorted by the names' bytes, and says what was made.
///
/// UnixFS specification, Directory. Errors: those of the store, and want of memory.
pub(crate) fn keep_basic<K: Keep>(
    alloc: Global,
    entries: &[NewEntry],
    keep: &mut K,
) -> Result<Made, HamtFault>
    requires entries { AreGoodEntries entries.now }
    requires light { weight_for entries.now ≤ 1048576 }
    ensures made { IfOk result (λ made. MakesBasic entries.now made (kept_in K.keeper keep.old keep.new)) }
    ensures quiet { OnOk result (KeepingQuiet (kept_in K.keeper keep.old keep.new)) }
    ensures cause { IfErr result (λ fault. IsBasicCause fault (kept_in K.keeper keep.old keep.new)) }
    ensures counted { IfErr result (λ fault. IsCountedBy fault (K.keeper.faults keep.old) (K.keeper.faults keep.new)) }
    ensures err_counted { OnErr result (K.keeper.faults keep.old ≤ K.keeper.faults keep.new) }
{
    let sorted = sorted_by_name(alloc, entries)?;
    match keep_sorted(alloc, sorted.as_slice(), keep) {
        Ok(made) => Ok(made),
        Err(KeepFault::Failed) => Err(HamtFault::Keep(KeepFault::Failed)),
        Err(KeepFault::OutOfMemory) => Err(HamtFault::OutOfMemory),
    }
}

/// A copy of the entries in the order of their names' bytes. The error is want of memory.
fn sorted_by_name(alloc: Global, entries: &[NewEntry]) -> Result<Vec<NewEntry>, AllocError>
    ensures permutation { IfOk result (λ sorted. IsPermutation entries.now sorted.items) }
    ensures rises { IfOk result (λ sorted. IsSortedByKey (λ entry. entry.name) bytes_cmp sorted.items) }
{
    let mut sorted = copied(alloc, entries)?;
    sorted.sort_unstable_by(|a, b| a.name.cmp(&b.name));
    Ok(sorted)
}

/// A copy of the entries. The error is want of memory.
fn copied(alloc: Global, entries: &[NewEntry]) -> Result<Vec<NewEntry>, AllocError>
    ensures { IfOk result (λ copy. copy.items ≡ entries.now) }
{
    let mut copy = Vec::with_capacity(alloc, entries.len())?;
    for entry in entries {
        copy.push(NewEntry {
            name: Bytes::of(alloc, entry.name.as_slice())?,
            cid: entry.cid,
            tsize: entry.tsize,
        })?;
    }
    Ok(copy)
}

/// Keeps the block of the directory with these entries, its links in their order. Errors: those of the store, and want
/// of memory.
///
/// UnixFS specification, Directory.
fn keep_sorted<K: Keep>(
    alloc: Global,
    entries: &[NewEntry],
    keep: &mut K,
) -> Result<Made, KeepFault>
    requires plain { All IsOfSha256 entries.now }
    requires light { weight_for entries.now ≤ 1048576 }
    requires tsizes { sum_by (λ entry. entry.tsize) entries.now ≤ 2 ^ 62 }
    ensures made { IfOk result (λ made. IsKeptBlock entries.now made (kept_in K.keeper keep.old keep.new)) }
    ensures stops { IfErr result (λ fault. StopsAfter [] fault (kept_in K.keeper keep.old keep.new)) }
    ensures err_counted { OnErr result (K.keeper.faults keep.old ≤ K.keeper.faults keep.new) }
{
    tg_node_writing::laws::written_nodes();
    tg_cid::laws::digest_laws();
    let Ok(block) = basic_block(alloc, entries) else {
        return Err(KeepFault::OutOfMemory);
    };
    keep_block(Codec::DagPb, block.as_slice(), 0, total(entries), keep)
}

/// The block of the directory with these entries, its links in their order. The error is want of memory.
fn basic_block(alloc: Global, entries: &[NewEntry]) -> Result<Bytes, AllocError>
    ensures { IfOk result (IsNodeOf entries.now basic_unix) }
{
    let unix = Unix {
        kind: DIRECTORY,
        inline: None,
        filesize: None,
        sizes: List::new(alloc),
        hash: None,
        fanout: None,
    };
    node_block(alloc, entries, &unix)
}

/// The sum of the entries' Tsizes.
fn total(entries: &[NewEntry]) -> u64
    requires { sum_by (λ entry. entry.tsize) entries.now ≤ 2 ^ 62 }
    ensures { result ≡ sum_by (λ entry. entry.tsize) entries.now }
{
    let mut tsizes = 0;
    for entry in entries {
        tsizes += entry.tsize;
    }
    tsizes
}
