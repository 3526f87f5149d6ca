//! The links of a shard, and its block.
ghost use Rattle.std.specs.Prelude.{◌≡◌, ◌≤◌, ◌<◌, ◌+◌, ◌^◌, [], ◌∷◌, ◌++◌, All, IfOk, IfErr, None, OnErr, OnOk};
ghost use Rattle.std.specs.Prelude.{length};
ghost use Rattle.std.specs.List.{sum_by};
ghost use Rattle.std.specs.Fmt.{digit_glyph};
ghost use Rattle.std.specs.Prelude.{true};
ghost use Rattle.tg_model.specs.ImportLayout.{shard_unix};
ghost use Rattle.tg_node_writing.specs.Nodes.{IsNodeOf};
ghost use Rattle.tg_hamt.specs.Links.{IsShardLink, IsKeptShard, entry_link_of, child_link_of};
ghost use Rattle.tg_model.specs.Reading.{big_endian, slot_digits, used_slots};
ghost use Rattle.tg_model.specs.Stores.{kept_in};
ghost use Rattle.tg_node_writing.specs.Keeping.{StopsAfter};

use crate::bits::{set_slot, shortest};
use std::alloc::{AllocError, Global};
use tg_bytes::{Bytes, List};
use tg_cid::Codec;
use tg_model::{Keep, KeepFault, Made, NewEntry};
use tg_node_writing::{keep_block, node_block};
use tg_unixfs::Unix;

/// The UnixFS type of a shard.
const SHARD: u64 = 5;

/// The number of the hash function murmur3-x64-64 among multicodecs.
const MURMUR3: u64 = 0x22;

/// How many slots a shard has.
const FANOUT: u64 = 256;

/// A shard whose links come in ascending order of their slots: the links that came, and the bits of their slots.
#[derive(Drop)]
pub(crate) struct NewShard {
    pub links: Vec<NewEntry>,
    pub bits: [u8; 32],
}

/// A shard without a link.
pub(crate) fn no_link(alloc: Global) -> NewShard
    ensures links { result.links.items ≡ [] }
    ensures used { used_slots result.bits ≡ [] }
    ensures low { big_endian result.bits < 2 ^ 0 }
{
    NewShard {
        links: Vec::new(alloc),
        bits: [0; 32],
    }
}

/// Adds the link of a slot that holds this entry. The error is want of memory.
///
/// UnixFS specification, HAMTDirectory: the slot's digits and the entry's name.
pub(crate) fn add_entry(
    alloc: Global,
    shard: &mut NewShard,
    slot: u8,
    entry: &NewEntry,
) -> Result<(), KeepFault>
    requires { big_endian shard.old.bits < 2 ^ slot }
    ensures links { OnOk result (shard.new.links.items ≡ shard.old.links.items ++ entry_link_of slot entry.now ∷ []) }
    ensures used { OnOk result (used_slots shard.new.bits ≡ used_slots shard.old.bits ++ slot ∷ []) }
    ensures low { OnOk result (big_endian shard.new.bits < 2 ^ (slot + 1)) }
    ensures memory { IfErr result (λ fault. fault ≡ KeepFault.OutOfMemory) }
{
    let Ok(name) = link_name(alloc, slot, entry.name.as_slice()) else {
        return Err(KeepFault::OutOfMemory);
    };
    let link = NewEntry {
        name,
        cid: entry.cid,
        tsize: entry.tsize,
    };
    add_link(shard, slot, link)
}

/// Adds the link of a slot that holds this child shard. The error is want of memory.
///
/// UnixFS specification, HAMTDirectory: the slot's digits alone.
pub(crate) fn add_child(
    alloc: Global,
    shard: &mut NewShard,
    slot: u8,
    made: &Made,
) -> Result<(), KeepFault>
    requires { big_endian shard.old.bits < 2 ^ slot }
    ensures links { OnOk result (shard.new.links.items ≡ shard.old.links.items ++ child_link_of slot made.now ∷ []) }
    ensures used { OnOk result (used_slots shard.new.bits ≡ used_slots shard.old.bits ++ slot ∷ []) }
    ensures low { OnOk result (big_endian shard.new.bits < 2 ^ (slot + 1)) }
    ensures memory { IfErr result (λ fault. fault ≡ KeepFault.OutOfMemory) }
{
    let Ok(name) = link_name(alloc, slot, &[]) else {
        return Err(KeepFault::OutOfMemory);
    };
    let link = NewEntry {
        name,
        cid: made.cid,
        tsize: made.tsize,
    };
    add_link(shard, slot, link)
}

/// Adds the link of the slot behind the others. The error is want of memory.
fn add_link(shard: &mut NewShard, slot: u8, link: NewEntry) -> Result<(), KeepFault>
    requires { big_endian shard.old.bits < 2 ^ slot }
    ensures links { OnOk result (shard.new.links.items ≡ shard.old.links.items ++ link ∷ []) }
    ensures used { OnOk result (used_slots shard.new.bits ≡ used_slots shard.old.bits ++ slot ∷ []) }
    ensures low { OnOk result (big_endian shard.new.bits < 2 ^ (slot + 1)) }
    ensures memory { IfErr result (λ fault. fault ≡ KeepFault.OutOfMemory) }
{
    if shard.links.push(link).is_err() {
        return Err(KeepFault::OutOfMemory);
    }
    set_slot(&mut shard.bits, slot);
    Ok(())
}

/// The name of a slot's link: its two upper-case hexadecimal digits, and what follows. The error is want of memory.
///
/// UnixFS specification, HAMTDirectory.
fn link_name(alloc: Global, slot: u8, suffix: &[u8]) -> Result<Bytes, AllocError>
    ensures { IfOk result (λ name. name ≡ slot_digits slot ++ suffix.now) }
{
    let mut name = Bytes::of(alloc, &[upper_digit(slot / 16), upper_digit(slot % 16)])?;
    name.push_all(suffix)?;
    Ok(name)
}

/// The upper-case hexadecimal digit of a number below 16.
fn upper_digit(number: u8) -> u8
    requires { number < 16 }
    ensures { result ≡ digit_glyph true number }
{
    if number < 10 {
        b'0' + number
    } else {
        b'A' + (number - 10)
    }
}

/// Keeps the block of the shard with these links. Errors: those of the store, and want of memory.
///
/// UnixFS specification, HAMTDirectory.
pub(crate) fn keep_links<K: Keep>(
    alloc: Global,
    shard: &NewShard,
    keep: &mut K,
) -> Result<Made, KeepFault>
    requires few { length shard.now.links.items ≤ 256 }
    requires links { All IsShardLink shard.now.links.items }
    requires tsize { sum_by (λ link. link.tsize) shard.now.links.items ≤ 9223372036854775808 }
    ensures made { IfOk result (λ made. IsKeptShard shard.now.links.items shard.now.bits made
        (kept_in K.keeper keep.old keep.new)) }
    ensures stops { IfErr result (λ fault. StopsAfter [] fault (kept_in K.keeper keep.old keep.new)) }
    ensures err_counted { OnErr result (K.keeper.faults keep.old ≤ K.keeper.faults keep.new) }
{
    tg_node_writing::laws::written_nodes();
    let links = shard.links.as_slice();
    let Ok(block) = shard_block(alloc, links, shortest(&shard.bits)) else {
        return Err(KeepFault::OutOfMemory);
    };
    keep_block(Codec::DagPb, block.as_slice(), 0, total(links), keep)
}

/// The block of the shard with these links and this bit field. The error is want of memory.
fn shard_block(alloc: Global, links: &[NewEntry], bits: &[u8]) -> Result<Bytes, AllocError>
    ensures { IfOk result (IsNodeOf links.now (shard_unix bits.now)) }
{
    let unix = Unix {
        kind: SHARD,
        inline: Some(Bytes::of(alloc, bits)?),
        filesize: None,
        sizes: List::new(alloc),
        hash: Some(MURMUR3),
        fanout: Some(FANOUT),
    };
    node_block(alloc, links, &unix)
}

/// The sum of the links' Tsizes.
fn total(links: &[NewEntry]) -> u64
    requires { sum_by (λ link. link.tsize) links.now ≤ 9223372036854775808 }
    ensures { result ≡ sum_by (λ link. link.tsize) links.now }
{
    let mut tsizes = 0;
    for link in links {
        tsizes += link.tsize;
    }
    tsizes
}
