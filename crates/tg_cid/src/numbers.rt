//! The numbers of a CIDv1.
ghost use Rattle.std.specs.Prelude.{◌≤◌, length, MatchResult};
ghost use Rattle.tg_cid.specs.Reading.{NumberAt, NoNumberAt};

use crate::fault::CidFault;
use tg_varint::VarintFault;

/// The number whose varint begins at `at`, and where that ends.
pub fn number_at(bytes: &[u8], at: usize) -> Result<(u64, usize), CidFault>
    requires { at ≤ length bytes.now }
    ensures { MatchResult result (λ found. NumberAt bytes.now at found.0 found.1)
        (λ fault. NoNumberAt bytes.now at fault) }
{
    match tg_varint::read(&bytes[at..]) {
        Ok((number, length)) => Ok((number, at + length)),
        Err(VarintFault::Short) => Err(CidFault::Short {
            at: bytes.len() as u64,
        }),
        Err(VarintFault::TooLong | VarintFault::NotShortest) => {
            Err(CidFault::BadVarint { at: at as u64 })
        }
    }
}
