//! Worked examples of the laws.
ghost use Rattle.tg_model_laws.specs.Places.{LiesInBoth};

use crate::places::met_parts;

/// The range from 2 up to 4 meets a part of three bytes that begins at 3, and doesn't meet one that begins at 4.
///
/// Trustless Gateway specification, entity-bytes.
pub fn parts_at_a_range()
    ensures met { LiesInBoth 2 4 3 3 }
    ensures unmet { LiesInBoth 2 4 4 3 → ⊥ }
{
    met_parts();
}
