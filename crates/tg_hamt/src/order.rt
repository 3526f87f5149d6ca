//! The entries of a sharded directory in the order of their names' hashes.
ghost use Rattle.std.specs.Prelude.{◌≡◌, ◌<◌, IfOk, MatchOption, length};
ghost use Rattle.std.specs.List.Sorted.{IsNonDecreasingBy};
ghost use Rattle.tg_hamt.specs.Order.{IsRun, IsSamePair, IsSortedOrder, Rises, hash_of, hashed_from};

use std::alloc::{AllocError, Global};
use tg_model::NewEntry;
use tg_murmur::{hash64, slot};

/// An entry by its index, with the hash of its name.
#[derive(Clone, Copy)]
pub(crate) struct Hashed {
    pub hash: u64,
    pub index: usize,
}

/// The entries in the order of their names' hashes. The error is want of memory.
pub(crate) fn ordered(alloc: Global, entries: &[NewEntry]) -> Result<Vec<Hashed>, AllocError>
    ensures { IfOk result (λ order. IsSortedOrder entries.now order.items) }
{
    let mut order = name_hashes(alloc, entries)?;
    order.sort_unstable_by_key(|item| item.hash);
    Ok(order)
}

/// The hash of each entry's name. The error is want of memory.
fn name_hashes(alloc: Global, entries: &[NewEntry]) -> Result<Vec<Hashed>, AllocError>
    ensures { IfOk result (λ items. items.items ≡ hashed_from 0 entries.now) }
{
    let mut items = Vec::with_capacity(alloc, entries.len())?;
    for (index, entry) in entries.iter().enumerate() {
        items.push(Hashed {
            hash: hash64(entry.name.as_slice()),
            index,
        })?;
    }
    Ok(items)
}

/// Where the first of two neighbours with one hash stands in sorted entries, if two have one.
pub(crate) fn same_hash(order: &[Hashed]) -> Option<usize>
    requires { IsNonDecreasingBy hash_of order.now }
    ensures { MatchOption result (Rises order.now) (IsSamePair order.now) }
{
    for i in 1..order.len() {
        if order[i - 1].hash == order[i].hash {
            return Some(i - 1);
        }
    }
    None
}

/// Where the run of entries with one slot at this level ends that begins at `start`.
///
/// UnixFS specification, HAMTDirectory.
pub(crate) fn run_end(order: &[Hashed], start: usize, level: u8) -> usize
    requires level { level < 8 }
    requires start { start < length order.now }
    ensures { IsRun order.now start result level }
{
    let first = slot(order[start].hash, level);
    for end in start + 1..order.len() {
        if slot(order[end].hash, level) != first {
            return end;
        }
    }
    order.len()
}
