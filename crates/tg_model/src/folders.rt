//! Directories and shards read from their blocks.
ghost use Rattle.std.specs.Fmt.{digit_glyph};
ghost use Rattle.std.specs.Prelude.{true, [], ◌≡◌, ℕ, ◌+◌, ◌-◌, ◌*◌, ◌/◌, ◌%◌, ◌^◌, ◌<◌, ◌≤◌, ◌==◌, not, min, map};
ghost use Rattle.std.specs.Prelude.{length, IfOk};
ghost use Rattle.tg_dagpb.specs.Cursor.{link_of};
ghost use Rattle.tg_model.specs.Computed.{Gives, basic_kind, doubled_from, first_from, has_bad_suffix, has_digits};
ghost use Rattle.tg_model.specs.Computed.{is_good_name, shard_kind, slot_at, slots_from};
ghost use Rattle.tg_model.specs.Placed.{AreLinksAhead, GivesPlaced};
ghost use Rattle.tg_model.specs.PlacedSteps.{AllAhead, block_cids, block_links};
ghost use Rattle.tg_model.specs.Reading.{big_endian, entries_of, name_of, used_slots};

use crate::fault::BlockFault;
use crate::kinds::{Entry, Slot};
use crate::links::{name_of, next_link};
use crate::placed::PlacedKind;
use std::alloc::{AllocError, Global};
use std::collections::BTreeSet;
use tg_bytes::{Bytes, List};
use tg_cid::Cid;
use tg_dagpb::{LinkSpan, link_at};

/// UnixFS Directory.
pub(crate) fn basic_kind(alloc: Global, block: &[u8], links: u64) -> Result<PlacedKind, BlockFault>
    requires { AllAhead block.now }
    ensures { GivesPlaced block.now result (basic_kind (block_links block.now) (block_cids block.now)) }
{
    if let Some(at) = bad_name(block) {
        return Err(BlockFault::BadName { at });
    }
    if let Some(at) = doubled_name(alloc, block)? {
        return Err(BlockFault::DoubledName { at });
    }
    let entries = entries_of(alloc, block, links)?;
    Ok(PlacedKind::Basic { entries })
}

/// Whether a name may be an entry's in a directory, and a segment of a path: it isn't empty, `.` or `..`, and has no
/// `/` and no zero byte. It takes no memory.
///
/// UnixFS specification, Directory; Path Gateway specification, path segments.
pub fn is_good_name(name: &[u8]) -> bool
    ensures { result ≡ is_good_name name.now }
{
    if name.is_empty() || name == b".".as_slice() || name == b"..".as_slice() {
        return false;
    }
    name.iter().all(|b| *b != b'/' && *b != 0)
}

/// The index of the first link whose name is no name of an entry.
fn bad_name(block: &[u8]) -> Option<u64>
    requires { AreLinksAhead block.now 0 (block_links block.now) }
    ensures { result ≡ first_from (λ name. not (is_good_name name)) 0 (map name_of (block_links block.now)) }
{
    let mut index = 0;
    let mut at = 0;
    while let Some((link, next)) = link_at(block, at) {
        if !is_good_name(name_of(&link)) {
            return Some(index);
        }
        index += 1;
        at = next;
    }
    None
}

/// The index of the first link that has the name of an earlier one. The error is want of memory.
fn doubled_name(alloc: Global, block: &[u8]) -> Result<Option<u64>, AllocError>
    requires { AreLinksAhead block.now 0 (block_links block.now) }
    ensures { IfOk result (λ at. at ≡ doubled_from 0 [] (map name_of (block_links block.now))) }
{
    let mut seen = BTreeSet::new(alloc);
    let mut index = 0;
    let mut at = 0;
    while let Some((link, next)) = link_at(block, at) {
        if !seen.insert(name_of(&link))? {
            return Ok(Some(index));
        }
        index += 1;
        at = next;
    }
    Ok(None)
}

/// Each link's name with its CID; `links` is how many there are.
fn entries_of(alloc: Global, block: &[u8], links: u64) -> Result<List<Entry>, AllocError>
    requires { AllAhead block.now }
    ensures { IfOk result (λ entries. entries ≡ entries_of (block_links block.now) (block_cids block.now)) }
{
    let mut entries = List::from(Vec::with_capacity(alloc, links as usize)?);
    let mut at = 0;
    while let Some((link, cid, next)) = next_link(block, at) {
        let name = Bytes::of(alloc, name_of(&link))?;
        entries.push(Entry { name, cid })?;
        at = next;
    }
    Ok(entries)
}

/// UnixFS HAMTShard.
pub(crate) fn shard_kind(
    alloc: Global,
    block: &[u8],
    links: u64,
    bits: &[u8],
) -> Result<PlacedKind, BlockFault>
    requires ahead { AllAhead block.now }
    requires links { links ≡ length (block_links block.now) }
    ensures { GivesPlaced block.now result
        (shard_kind (block_links block.now) (block_cids block.now) bits.now) }
{
    if let Some(at) = bad_suffix(block) {
        return Err(BlockFault::BadName { at });
    }
    if bits.len() > 32 {
        return Err(BlockFault::BadBits {
            bits: count_used(bits),
            links,
        });
    }
    let used = used_numbers(alloc, bits)?;
    if used.len() as u64 != links {
        return Err(BlockFault::BadBits {
            bits: used.len() as u64,
            links,
        });
    }
    let slots = slots_of(alloc, used.as_slice(), block)?;
    Ok(PlacedKind::Shard { slots })
}

/// The index of the first link with something behind the two digits of its slot that is no name of an entry.
fn bad_suffix(block: &[u8]) -> Option<u64>
    requires { AreLinksAhead block.now 0 (block_links block.now) }
    ensures { result ≡ first_from has_bad_suffix 0 (block_links block.now) }
{
    let mut index = 0;
    let mut at = 0;
    while let Some((link, next)) = link_at(block, at) {
        if has_bad_suffix(&link) {
            return Some(index);
        }
        index += 1;
        at = next;
    }
    None
}

/// Whether something stands behind the first two bytes of the link's name that is no name of an entry.
fn has_bad_suffix(link: &LinkSpan<'_>) -> bool
    ensures { result ≡ has_bad_suffix (link_of link.now) }
{
    let name = name_of(link);
    name.len() > 2 && !is_good_name(&name[2..])
}

/// Whether the slot `8 * index + bit` is used.
fn is_used(bits: &[u8], index: usize, bit: u32) -> bool
    requires index { index < length bits.now }
    requires bit { bit < 8 }
    ensures { result ≡ ((big_endian bits.now / 2 ^ (8 * index + bit)) % 2 == 1) }
{
    let byte = bits[bits.len() - 1 - index];
    (byte >> bit) & 1 == 1
}

/// How many slots are used; it stands still at 2^64 - 1.
fn count_used(bits: &[u8]) -> u64
    ensures { result ≡ min (length (used_slots bits.now)) (2 ^ 64 - 1) }
{
    let mut count: u64 = 0;
    for index in 0..bits.len() {
        for bit in 0..8 {
            if is_used(bits, index, bit) {
                count = count.saturating_add(1);
            }
        }
    }
    count
}

/// The used slots in ascending order.
fn used_numbers(alloc: Global, bits: &[u8]) -> Result<Vec<u8>, AllocError>
    requires { length bits.now ≤ 32 }
    ensures { IfOk result (λ used. used.items ≡ used_slots bits.now) }
{
    let mut used = Vec::new(alloc);
    for number in 0..8 * bits.len() {
        if is_used(bits, number / 8, (number % 8) as u32) {
            used.push(number as u8)?;
        }
    }
    Ok(used)
}

/// Each link as the slot with its number.
fn slots_of(alloc: Global, numbers: &[u8], block: &[u8]) -> Result<List<Slot>, BlockFault>
    requires ahead { AllAhead block.now }
    requires many { length (block_links block.now) ≡ length numbers.now }
    ensures { Gives (slots_from 0 numbers.now (block_links block.now) (block_cids block.now)) result }
{
    let mut slots = List::from(Vec::with_capacity(alloc, numbers.len())?);
    let mut at = 0;
    while let Some((link, cid, next)) = next_link(block, at) {
        let index = slots.as_slice().len();
        let number = numbers[index];
        if !has_digits(number, &link) {
            return Err(BlockFault::BadSlot { at: index as u64 });
        }
        slots.push(slot_at(alloc, number, &link, cid)?)?;
        at = next;
    }
    Ok(slots)
}

/// Whether the link's name begins with the digits of the slot.
fn has_digits(number: u8, link: &LinkSpan<'_>) -> bool
    ensures { result ≡ has_digits number (link_of link.now) }
{
    let digits = [digit(number / 16), digit(number % 16)];
    name_of(link).starts_with(&digits)
}

/// The upper-case hexadecimal digit of a number below 16.
fn digit(number: u8) -> u8
    requires { number < 16 }
    ensures { result ≡ digit_glyph true number }
{
    b"0123456789ABCDEF"[number as usize]
}

/// The link as the slot with this number.
fn slot_at(alloc: Global, number: u8, link: &LinkSpan<'_>, cid: Cid) -> Result<Slot, AllocError>
    ensures { IfOk result (λ slot. slot ≡ slot_at number (link_of link.now) cid) }
{
    let name = name_of(link);
    let name = if name.len() > 2 {
        Some(Bytes::of(alloc, &name[2..])?)
    } else {
        None
    };
    Ok(Slot {
        slot: number,
        name,
        cid,
    })
}
