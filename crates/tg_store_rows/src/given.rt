//! What the fields of a row give.
ghost use Rattle.std.specs.Prelude.{◌≤◌};

use std::alloc::Global;
use tg_bytes::{Bytes, List, number_of};
use tg_cid::Cid;

/// The bytes of the field at a place, or none.
pub fn bytes_at(given: &[Bytes], at: usize) -> &[u8] {
    match given.get(at) {
        Some(field) => field.as_slice(),
        None => b"",
    }
}

/// The number that the field at a place spells, or none.
pub fn number_at(given: &[Bytes], at: usize) -> Option<u64> {
    number_of(bytes_at(given, at))
}

/// The number that a field spells, which is at most this one; or else this one.
pub fn number_up_to(field: &Bytes, most: u64) -> u64
    ensures { result ≤ most }
{
    number_of(field.as_slice()).unwrap_or(most).min(most)
}

/// The CID of a field, which is its text in base 32 or its bytes.
pub fn cid_of(alloc: Global, field: &[u8]) -> Option<Cid> {
    match Cid::from_text(alloc, field) {
        Ok(cid) => Some(cid),
        Err(_) => Cid::from_bytes(field).ok(),
    }
}

/// The numbers of the calls that fail: this one, or none.
pub fn fails_at(alloc: Global, call: Option<u64>) -> List<u64> {
    let mut fails = List::new(alloc);
    match call {
        Some(number) if fails.push(number).is_err() => List::new(alloc),
        _ => fails,
    }
}
