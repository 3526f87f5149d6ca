//! The shards of a directory, made from the lowest level up.
ghost use Rattle.std.specs.Prelude.{◌≡◌, ◌≤◌, ◌<◌, ◌+◌, ◌*◌, ◌-◌, ◌^◌, List, ℕ, All, IfOk, IfErr, OnErr, length};
ghost use Rattle.tg_hamt.specs.Order.{IsGoodEntry, IsOrder, IsPassed, tsizes_in};
ghost use Rattle.tg_hamt.specs.Shards.{MakesShard, StopsShard, shard_room};
ghost use Rattle.tg_cid.specs.declared.cid.HashKind.TheVariants.{Sha256};
ghost use Rattle.tg_model.specs.Stores.{kept_in};

use crate::links::{add_child, add_entry, keep_links, no_link};
use crate::order::{Hashed, run_end};
use std::alloc::Global;
use tg_model::{Keep, KeepFault, Made, NewEntry};
use tg_murmur::slot;

/// Keeps the shard at this level of the entries in this order, each child shard before it. Errors: those of the store,
/// and want of memory.
///
/// UnixFS specification, HAMTDirectory.
pub(crate) fn keep_shard<K: Keep>(
    alloc: Global,
    entries: &[NewEntry],
    order: &[Hashed],
    level: u8,
    keep: &mut K,
) -> Result<Made, KeepFault>
    requires level { level < 8 }
    requires good { All IsGoodEntry entries.now }
    requires order { IsOrder entries.now order.now }
    requires passed { (above : List ℕ) × (length above ≡ level) × IsPassed above order.now }
    requires few { length order.now < 4294967296 }
    requires tsizes { tsizes_in entries.now order.now ≤ 4611686018427387904 }
    ensures made { IfOk result (λ made. MakesShard entries.now order.now level made
        (kept_in K.keeper keep.old keep.new)) }
    ensures light { IfOk result (λ made. made.tsize ≤ tsizes_in entries.now order.now + shard_room level
        (length order.now)) }
    ensures plain { IfOk result (λ made. made.cid.hash ≡ Sha256) }
    ensures stops { IfErr result (λ fault. StopsShard entries.now order.now level fault
        (kept_in K.keeper keep.old keep.new)) }
    ensures err_counted { OnErr result (K.keeper.faults keep.old ≤ K.keeper.faults keep.new) }
{
    tg_model_laws::kept_sections();
    tg_model_laws::placed_shards();
    tg_node_writing::laws::written_nodes();
    tg_node_writing::laws::linked_nodes();
    tg_murmur::laws::slots_are_bytes();
    let mut shard = no_link(alloc);
    let mut start = 0;
    while start < order.len() {
        let end = run_end(order, start, level);
        let number = slot(order[start].hash, level);
        if end - start == 1 {
            add_entry(alloc, &mut shard, number, &entries[order[start].index])?;
        } else {
            let child = keep_shard(alloc, entries, &order[start..end], level + 1, keep)?;
            add_child(alloc, &mut shard, number, &child)?;
        }
        start = end;
    }
    keep_links(alloc, &shard, keep)
}
