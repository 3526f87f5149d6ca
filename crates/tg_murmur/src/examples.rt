//! Worked examples of the hashes of names.
ghost use Rattle.std.specs.Prelude.{◌≡◌, ◌<◌, ℕ, List, []};
ghost use Rattle.tg_murmur.specs.NameHash.{name_hash, slot_of};

use crate::laws::same_slots;

/// The name without a byte has the hash 0, and so has each name whose eight slots are 0.
///
/// UnixFS specification, HAMTDirectory.
pub fn empty_name()
    ensures hash { name_hash [] ≡ 0 }
    ensures slots { (name : List ℕ) → ((level : ℕ) → level < 8 → slot_of name level ≡ 0) → name_hash name ≡ 0 }
{
    same_slots();
}
