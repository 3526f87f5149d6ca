//! The unsigned varints of multiformats, read and written.
#![tactic(auto)]

ghost use Rattle.std.specs.Prelude.{◌≡◌, ℕ, ◌-◌, ◌^◌, ◌<◌, ◌≤◌, ◌↔◌, List, ◌++◌, length, take, drop, replicate, IfOk};
ghost use Rattle.std.specs.Prelude.{IsErrOf};
ghost use Rattle.tg_varint.specs.Varint.{VarintSpelling, EndsInside, PassesNine, EndsInZero};

pub mod laws;

use thiserror::Error;

// The place of the last byte of the longest spelling.
const LAST: usize = 8;

/// Why bytes don't begin with an unsigned varint.
#[derive(Clone, Copy, Debug, PartialEq, Eq, Error)]
pub enum VarintFault {
    /// The bytes end inside a spelling.
    #[error("Short")]
    Short,
    /// Nine bytes stand with the high bit set in each.
    #[error("TooLong")]
    TooLong,
    /// A spelling of at least two bytes ends in a zero byte.
    #[error("NotShortest")]
    NotShortest,
}

/// The number at the front of the bytes, below 2 ^ 63, and how many bytes spell it. Bytes may follow it.
///
/// Multiformats, unsigned-varint. Errors: `Short` where the bytes end inside a spelling of at most nine bytes,
/// `TooLong` where nine bytes stand with the high bit set in each, `NotShortest` where a spelling of at least two bytes
/// ends in a zero byte. It takes no memory.
pub fn read(bytes: &[u8]) -> Result<(u64, usize), VarintFault>
    ensures found { IfOk result (λ found. (found.1 ≤ length bytes.now)
        × VarintSpelling found.0 (take found.1 bytes.now)) }
    ensures only { (number : ℕ) (spelling rest : List ℕ) → VarintSpelling number spelling → bytes.now ≡ spelling ++ rest
        → result ≡ Ok (number, length spelling) }
    ensures short { IsErrOf result VarintFault.Short ↔ EndsInside bytes.now }
    ensures too_long { IsErrOf result VarintFault.TooLong ↔ PassesNine bytes.now }
    ensures not_shortest { IsErrOf result VarintFault.NotShortest ↔ EndsInZero bytes.now }
{
    let mut number: u64 = 0;
    let mut weight: u64 = 1;
    for (at, byte) in bytes.iter().enumerate() {
        number += u64::from(*byte % 128) * weight;
        if *byte < 128 {
            if *byte == 0 && at > 0 {
                return Err(VarintFault::NotShortest);
            }
            return Ok((number, at + 1));
        }
        if at == LAST {
            return Err(VarintFault::TooLong);
        }
        weight *= 128;
    }
    Err(VarintFault::Short)
}

/// The spelling of a number below 2 ^ 63, in the front of an array whose other bytes are zero, and its length.
///
/// Multiformats, unsigned-varint. It takes no memory.
pub fn write(number: u64) -> ([u8; 9], usize)
    requires { number < 2 ^ 63 }
    ensures length { result.1 ≤ 9 }
    ensures spelling { VarintSpelling number (take result.1 result.0) }
    ensures rest { drop result.1 result.0 ≡ replicate (9 - result.1) 0 }
{
    let mut spelling = [0; 9];
    let mut rest = number;
    let mut at = 0;
    while rest >= 128 {
        spelling[at] = (rest % 128) as u8 + 128;
        rest /= 128;
        at += 1;
    }
    spelling[at] = rest as u8;
    (spelling, at + 1)
}
