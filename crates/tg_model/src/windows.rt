//! Byte ranges over the parts of a file.
ghost use Rattle.std.specs.Prelude.{◌≡◌, ℕ, ◌+◌, ◌^◌, ◌<◌, map, sum};
ghost use Rattle.tg_model.specs.ByteRanges.{low_of, high_of};
ghost use Rattle.tg_model.specs.Traversal.{is_met};
ghost use Rattle.tg_model.specs.Window.{IsWindow};

use crate::kinds::Part;
use crate::queries::{Span, SpanFrom};

/// The run of a file's parts that a range of its content meets: the index of the first part, and the one past the last;
/// `(0, 0)` where none is met. The range goes from the byte `low` up to and without `high`; a part without length isn't
/// met, though it may stand inside the run. It takes no memory.
///
/// The inline length and the sizes of the parts come to less than 2^63. Trustless Gateway specification, entity-bytes.
pub fn window(inline: u64, parts: &[Part], low: u64, high: u64) -> (usize, usize)
    requires { inline + sum (map (λ p. p.size) parts.now) < 2 ^ 63 }
    ensures { IsWindow inline parts.now low high result.0 result.1 }
{
    let mut from = inline;
    let mut first = 0;
    let mut end = 0;
    for (at, part) in parts.iter().enumerate() {
        if is_met(low, high, from, part.size) {
            if end == 0 {
                first = at;
            }
            end = at + 1;
        }
        from += part.size;
    }
    (first, end)
}

/// Whether the range meets a part of this size that begins at `from`.
fn is_met(low: u64, high: u64, from: u64, size: u64) -> bool
    requires { from + size < 2 ^ 63 }
    ensures { result ≡ is_met low high from size }
{
    size > 0 && low < high && from < high && low < from + size
}

/// The first byte of the range in a file of `total` bytes, and the byte behind its last. The range is empty where the
/// first isn't below the other. It takes no memory.
///
/// Trustless Gateway specification, entity-bytes.
pub fn resolve_span(span: &Span, total: u64) -> (u64, u64)
    ensures low { result.0 ≡ low_of span.now.from total }
    ensures high { result.1 ≡ high_of span.now.to total }
{
    let low = match span.from() {
        SpanFrom::Start(start) => start,
        SpanFrom::Last(count) => total.saturating_sub(count),
    };
    let high = match span.to() {
        Some(to) => (to + 1).min(total),
        None => total,
    };
    (low, high)
}
