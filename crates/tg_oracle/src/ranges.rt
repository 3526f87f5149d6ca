//! Byte ranges of a file.
use tg_model::{Span, SpanFrom};

/// The first byte of a range in a file of `total` bytes, and the byte behind its last one. The range is empty where the
/// first isn't before the other.
///
/// Trustless Gateway specification, entity-bytes.
pub fn bounds(span: &Span, total: u64) -> (u64, u64) {
    let low = match span.from() {
        SpanFrom::Start(start) => start,
        SpanFrom::Last(count) => total.saturating_sub(count),
    };
    let high = match span.to() {
        Some(last) => total.min(last.saturating_add(1)),
        None => total,
    };
    (low, high)
}

/// Whether a part of `size` bytes that begins at `from` has a byte of the range from `low` up to and without `high`.
///
/// Trustless Gateway specification, entity-bytes.
pub fn is_met(from: u64, size: u64, low: u64, high: u64) -> bool {
    low.max(from) < high.min(from.saturating_add(size))
}
