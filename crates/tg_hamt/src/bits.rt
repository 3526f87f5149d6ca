//! The bit field of a shard.
ghost use Rattle.std.specs.Prelude.{◌≡◌, ◌<◌, ◌≤◌, ◌+◌, ◌^◌, ◌∷◌, ◌++◌, [], length};
ghost use Rattle.tg_model.specs.ImportLayout.{HasNoLeadingZero};
ghost use Rattle.tg_model.specs.Reading.{big_endian, used_slots};

/// Sets the bit of the slot, above those that are set.
///
/// UnixFS specification, HAMTDirectory: the bytes are one big-endian number.
pub(crate) fn set_slot(bits: &mut [u8; 32], slot: u8)
    requires { big_endian bits.old < 2 ^ slot }
    ensures used { used_slots bits.new ≡ used_slots bits.old ++ slot ∷ [] }
    ensures below { big_endian bits.new < 2 ^ (slot + 1) }
{
    tg_model::laws::big_endians();
    bits[31 - (slot / 8) as usize] += 1 << (slot % 8);
}

/// The bit field without its leading zero bytes.
pub(crate) fn shortest(bits: &[u8]) -> &[u8]
    requires { length bits.now ≤ 32 }
    ensures used { used_slots result.now ≡ used_slots bits.now }
    ensures shortest { HasNoLeadingZero result.now }
    ensures few { length result.now ≤ 32 }
{
    tg_model::laws::big_endians();
    for (i, byte) in bits.iter().enumerate() {
        if *byte != 0 {
            return &bits[i..];
        }
    }
    &[]
}
