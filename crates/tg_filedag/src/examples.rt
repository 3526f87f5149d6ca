//! Worked examples of chunks.
ghost use Rattle.std.specs.Prelude.{◌≡◌, ◌++◌, ◌∷◌, []};
ghost use Rattle.tg_bytes.specs.Lists.{joined};
ghost use Rattle.tg_filedag.specs.Chunks.{ChunkerState, chunks_after, clears, feeds, state_after};

use crate::laws::kept_bytes;

/// A chunker of two bytes takes two of three bytes; cleared, it takes the third: the chunk and the byte at hand are the
/// three.
pub fn three_bytes()
    ensures { (state : ChunkerState) → state ≡ record { size = 2; bytes = [] }
        → joined (chunks_after state (feeds (1 ∷ 2 ∷ 3 ∷ []) ∷ clears ∷ feeds (3 ∷ []) ∷ []))
        ++ (state_after state (feeds (1 ∷ 2 ∷ 3 ∷ []) ∷ clears ∷ feeds (3 ∷ []) ∷ [])).bytes ≡ 1 ∷ 2 ∷ 3 ∷ [] }
{
    kept_bytes();
}
