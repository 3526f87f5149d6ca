//! The laws of name hashes, each the contract of a function that does nothing.
ghost use Rattle.std.specs.Prelude.{◌^◌, ◌<◌, ℕ, List};
ghost use Rattle.tg_murmur.specs.Laws.{SameSlots};
ghost use Rattle.tg_murmur.specs.NameHash.{name_hash, slot_of};
/// A slot is below 256, and a name's hash is below 2 ^ 64.
#[tactic(auto, unfolding(crate::specs::NameHash::name_hash, crate::specs::NameHash::finished))]
pub fn slots_are_bytes()
    ensures hash { (name : List ℕ) → name_hash name < 2 ^ 64 }
    ensures slot { (name : List ℕ) (level : ℕ) → level < 8 → slot_of name level < 256 }
{}

/// Names whose slots are equal at all eight levels have one hash.
///
/// UnixFS specification, HAMTDirectory.
pub fn same_slots()
    ensures { SameSlots }
{}
