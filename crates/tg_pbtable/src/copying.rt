//! Bytes at a place of a text, copied.
ghost use Rattle.std.specs.Prelude.{◌≡◌, IfOk, IsSome, OnErr};
ghost use Rattle.tg_pbtable.specs.Place.{AreInside, placed_bytes};

use crate::table::Place;
use std::alloc::{AllocError, Global};
use tg_bytes::Bytes;

/// The bytes at a place, where there is one. The error is want of memory, which is taken only where there is a place.
pub fn copied_bytes(
    alloc: Global,
    bytes: &[u8],
    place: Option<Place>,
) -> Result<Option<Bytes>, AllocError>
    requires { AreInside bytes.now place }
    ensures copy { IfOk result (λ copy. copy ≡ placed_bytes bytes.now place) }
    ensures memory { OnErr result (IsSome place) }
{
    match place {
        Some(place) => Ok(Some(Bytes::of(alloc, place.bytes_in(bytes))?)),
        None => Ok(None),
    }
}
