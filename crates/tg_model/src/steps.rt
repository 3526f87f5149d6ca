//! One step of a path walk.
ghost use Rattle.std.specs.Prelude.{◌≡◌, ℕ, ◌<◌, Some, slice_get, List as Items};
ghost use Rattle.tg_cid.specs.Cid.{CidParts};
ghost use Rattle.tg_model.specs.PathWalk.{entry_step, slot_step, slots_step, step_of};
ghost use Rattle.tg_model.specs.StepAnswers.{IsStep, IsStepOver, entry_cids, slot_cids};

use crate::kinds::{Entry, Kind, Slot, Step};
use tg_murmur::{hash64, slot};

/// Where one step from a block with a name leads, at a level of shards (0 for a block that is no shard's child).
/// `level` is at most 7. It takes no memory.
///
/// Path Gateway specification, Path Resolution; UnixFS specification, Directory and HAMTDirectory.
pub fn step(kind: &Kind, level: u8, name: &[u8]) -> Step
    requires { level < 8 }
    ensures { IsStep kind.now (step_of kind.now level name.now) result }
{
    match kind {
        Kind::Raw | Kind::File { .. } | Kind::Symlink { .. } => Step::NotFolder,
        Kind::Basic { entries } => entry_step(entries.as_slice(), name),
        Kind::Shard { slots } => slots_step(slots.as_slice(), slot(hash64(name), level), name),
    }
}

/// The step to the first entry of that name.
fn entry_step(entries: &[Entry], name: &[u8]) -> Step
    ensures { IsStepOver (entry_cids entries.now) (entry_step 0 name.now entries.now) result }
{
    for entry in entries {
        if name == entry.name.as_slice() {
            return Step::Found(entry.cid);
        }
    }
    Step::Absent
}

/// The step into the slot with this number, or nowhere where it isn't used.
fn slots_step(slots: &[Slot], number: u8, name: &[u8]) -> Step
    ensures { IsStepOver (slot_cids slots.now) (slots_step 0 number name.now slots.now) result }
{
    for held in slots {
        if held.slot == number {
            return slot_step(held, name);
        }
    }
    Step::Absent
}

/// The step into a slot: to an entry, if it has the name, or down to a child shard.
fn slot_step(held: &Slot, name: &[u8]) -> Step
    ensures { (cids : Items CidParts) (k : ℕ) → slice_get cids k ≡ Some held.now.cid
        → IsStepOver cids (slot_step k name.now held.now.name) result }
{
    match &held.name {
        Some(other) if name == other.as_slice() => Step::Found(held.cid),
        Some(_) => Step::Absent,
        None => Step::Down(held.cid),
    }
}
