//! Whether a shard may stand behind the slots that were passed.
ghost use Rattle.std.specs.Prelude.{◌≡◌, ℕ, ◌<◌, ◌++◌, ◌∷◌, [], length};
ghost use Rattle.tg_model.specs.Sound.{has_slots, is_misplaced, misplaced_from};
ghost use Rattle.tg_model.specs.StepAnswers.{IsFaultOf, shard_fault_of};

use crate::fault::BlockFault;
use crate::kinds::{Kind, Slot};
use tg_murmur::{hash64, slot};

/// Whether a shard that is reached through these slots may stand there. A block that is no shard may. It takes no
/// memory.
///
/// UnixFS specification, HAMTDirectory. Errors: `BelowEight` behind more than 7 slots, and then `Misplaced` at the
/// first slot that is an entry whose name hasn't the slots that were passed and then its own.
pub fn check_shard(kind: &Kind, above: &[u8]) -> Result<(), BlockFault>
    ensures { IsFaultOf (shard_fault_of kind.now above.now) result }
{
    let Kind::Shard { slots } = kind else {
        return Ok(());
    };
    if above.len() > 7 {
        return Err(BlockFault::BelowEight);
    }
    check_slots(slots.as_slice(), above)
}

/// Whether each entry in the slots stands behind its own.
fn check_slots(slots: &[Slot], above: &[u8]) -> Result<(), BlockFault>
    requires { length above.now < 8 }
    ensures { IsFaultOf (misplaced_from 0 above.now slots.now) result }
{
    for (at, held) in slots.iter().enumerate() {
        if is_misplaced(above, held) {
            return Err(BlockFault::Misplaced { at: at as u64 });
        }
    }
    Ok(())
}

/// Whether the slot is an entry whose name has other slots.
fn is_misplaced(above: &[u8], held: &Slot) -> bool
    requires { length above.now < 8 }
    ensures { result ≡ is_misplaced above.now held.now }
{
    match &held.name {
        Some(name) => !has_slots(name.as_slice(), above, held.slot),
        None => false,
    }
}

/// Whether the name has the slots that were passed and then this one.
fn has_slots(name: &[u8], above: &[u8], last: u8) -> bool
    requires { length above.now < 8 }
    ensures { result ≡ has_slots name.now 0 (above.now ++ last ∷ []) }
{
    let hash = hash64(name);
    for (level, passed) in above.iter().enumerate() {
        if slot(hash, level as u8) != *passed {
            return false;
        }
    }
    slot(hash, above.len() as u8) == last
}
