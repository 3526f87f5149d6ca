//! Packs in memory that change behind one of their reads.
use crate::fields::number_up_to;
use std::alloc::Global;
use tg_bytes::Bytes;
use tg_test_packs::ChangingPack;

/// A pack of these bytes, of which the one at a place is changed from the read with a number on, and never where that field
/// spells no number; none where memory is wanted.
pub fn pack_of(alloc: Global, bytes: &Bytes, from: &Bytes, place: &Bytes) -> Option<ChangingPack> {
    let Ok(bytes) = Bytes::of(alloc, bytes.as_slice()) else {
        return None;
    };
    let from = number_up_to(from, 1_000_000).unwrap_or(u64::MAX);
    let place = number_up_to(place, 1_000_000).unwrap_or(u64::MAX);
    Some(ChangingPack::from_read(alloc, bytes, place, from))
}
