//! Sections added to a pack.
ghost use Rattle.std.specs.Prelude.{◌≡◌, ◌+◌, ◌≤◌, ◌<◌, ◌++◌, ◌∷◌, [], None, length, MatchResult};
ghost use Rattle.indexmap.specs.IndexMap.{spare};
ghost use Rattle.std.specs.Map.{lookup};
ghost use Rattle.tg_cid.specs.Limits.{max_block_len};
ghost use Rattle.tg_files.specs.Packs.{PackQuiet, PackRose, pack_step};
ghost use Rattle.tg_store.specs.Keys.{key_of, same_key};
ghost use Rattle.tg_store.specs.PackWrites.{AddsSection, Appended, LeavesOut, Torn};

use crate::key::Key;
use crate::place::Place;
use indexmap::IndexMap;
use tg_bytes::fill_both;
use tg_car::section_head;
use tg_cid::Cid;
use tg_faults::Failed;
use tg_files::Pack;
use tg_model::KeepFault;

/// How many bytes a section has at most that is added by one write.
const SHORT_LEN: usize = 4_096;

/// Adds the section at the end of the pack, which is at `end`, and its block's place under the key, where nothing
/// stands.
pub(crate) fn add_section<P: Pack>(
    pack: &mut P,
    places: &mut IndexMap<Key, Place>,
    end: &mut u64,
    key: Key,
    cid: &Cid,
    block: &[u8],
) -> Result<(), KeepFault>
    requires new { lookup (same_key key) places.old.entries ≡ None }
    requires small { length block.now ≤ max_block_len }
    ensures { MatchResult result
        (λ _. AddsSection (pack_step P.pack pack.old pack.new) places.old.entries places.new.entries end.old end.new key
        (record { cid = cid.now; block = block.now }))
        (λ fault. LeavesOut (pack_step P.pack pack.old pack.new) places.old.entries places.new.entries end.old end.new
        fault) }
{
    let (head, size) = section_head(cid, block.len() as u64);
    let Some(offset) = end.checked_add(size as u64) else {
        return Err(KeepFault::OutOfMemory);
    };
    let Some(behind) = offset.checked_add(block.len() as u64) else {
        return Err(KeepFault::OutOfMemory);
    };
    let Ok(()) = places.reserve(1) else {
        return Err(KeepFault::OutOfMemory);
    };
    let Ok(()) = append_both(pack, &head[..size], block) else {
        return Err(KeepFault::Failed);
    };
    let place = Place {
        offset,
        size: block.len() as u64,
    };
    add_place(places, key, place);
    *end = behind;
    Ok(())
}

/// Adds a place under a key that has none. There is room for it.
fn add_place(places: &mut IndexMap<Key, Place>, key: Key, place: Place)
    requires new { lookup (same_key key) places.old.entries ≡ None }
    requires room { 0 < spare places.old }
    ensures { places.new.entries ≡ places.old.entries ++ (key, place) ∷ [] }
{
    places.insert(key, place).unwrap();
}

/// Adds the one bytes and then the others at the end of the pack: by one write where they are few, since to copy a few
/// bytes costs less than a second write.
fn append_both<P: Pack>(pack: &mut P, first: &[u8], second: &[u8]) -> Result<(), Failed>
    ensures { MatchResult result
        (λ _. Appended (first.now ++ second.now) (pack_step P.pack pack.old pack.new)
        × PackQuiet (pack_step P.pack pack.old pack.new))
        (λ _. Torn (pack_step P.pack pack.old pack.new) × PackRose (pack_step P.pack pack.old pack.new)) }
{
    if first.len().saturating_add(second.len()) <= SHORT_LEN {
        return append_short(pack, first, second);
    }
    pack.append(first)?;
    pack.append(second)?;
    Ok(())
}

/// Adds the one bytes and then the others, which are few, at the end of the pack by one write.
fn append_short<P: Pack>(pack: &mut P, first: &[u8], second: &[u8]) -> Result<(), Failed>
    requires { length first.now + length second.now ≤ 4096 }
    ensures { MatchResult result
        (λ _. Appended (first.now ++ second.now) (pack_step P.pack pack.old pack.new)
        × PackQuiet (pack_step P.pack pack.old pack.new))
        (λ _. Torn (pack_step P.pack pack.old pack.new) × PackRose (pack_step P.pack pack.old pack.new)) }
{
    let mut room = [0; SHORT_LEN];
    fill_both(&mut room, first, second);
    pack.append(&room[..first.len() + second.len()])?;
    Ok(())
}
