//! Ranges of a file's bytes.
ghost use Rattle.std.specs.Prelude.{◌≡◌, ◌<◌, ◌^◌, ◌∷◌, [], IfSome, option_copied};
ghost use Rattle.tg_model.specs.Queries.{IsFrom};
ghost use Rattle.tg_query.specs.Cuts.{behind_front};
ghost use Rattle.tg_query.specs.Spans.{from_of, number_of, span_of, span_with, to_of};

use crate::cuts::cut_first;
use crate::fault::QueryFault;
use tg_model::{Span, SpanFrom};

/// The range that a text FROM:TO writes. FROM is 1 to 19 digits, or `-` and 1 to 19 digits; TO is 1 to 19 digits or
/// `*`; numbers are below 2^63, and FROM isn't above TO where it has no `-`. It takes no memory.
///
/// Trustless Gateway specification, entity-bytes. The error is `BadRange`.
pub fn parse_span(text: &[u8]) -> Result<Span, QueryFault>
    ensures { result ≡ span_of text.now }
{
    let (from, to) = cut_first(text, b':');
    match to {
        Some(to) => span_with(from_of(from), to_of(to)),
        None => Err(QueryFault::BadRange),
    }
}

/// The range of these ends.
fn span_with(from: Option<SpanFrom>, to: Option<Option<u64>>) -> Result<Span, QueryFault>
    requires from { IfSome from IsFrom }
    requires to { IfSome to (λ end. IfSome end (λ last. last < 2 ^ 63)) }
    ensures { result ≡ span_with from to }
{
    let (Some(from), Some(to)) = (from, to) else {
        return Err(QueryFault::BadRange);
    };
    match (from, to) {
        (SpanFrom::Start(start), Some(last)) if last < start => Err(QueryFault::BadRange),
        (SpanFrom::Start(start), to) => Ok(Span::from_start(start, to)),
        (SpanFrom::Last(count), to) => Ok(Span::last(count, to)),
    }
}

/// Where a range begins: digits, or `-` and digits.
fn from_of(text: &[u8]) -> Option<SpanFrom>
    ensures from { result ≡ from_of text.now }
    ensures small { IfSome result IsFrom }
{
    match behind_minus(text) {
        Some(digits) => Some(SpanFrom::Last(number_of(digits)?)),
        None => Some(SpanFrom::Start(number_of(text)?)),
    }
}

/// What stands behind a `-`, where the text begins with one.
fn behind_minus(text: &[u8]) -> Option<&[u8]>
    ensures { option_copied result ≡ behind_front (45 ∷ []) text.now }
{
    text.strip_prefix(b"-".as_slice())
}

/// Where a range ends: digits, or `*` for the file's end.
fn to_of(text: &[u8]) -> Option<Option<u64>>
    ensures to { result ≡ to_of text.now }
    ensures small { IfSome result (λ end. IfSome end (λ last. last < 2 ^ 63)) }
{
    match text {
        b"*" => Some(None),
        _ => Some(Some(number_of(text)?)),
    }
}

/// The number below 2^63 that 1 to 19 digits write.
fn number_of(text: &[u8]) -> Option<u64>
    ensures number { result ≡ number_of text.now }
    ensures small { IfSome result (λ number. number < 2 ^ 63) }
{
    let number = tg_bytes::number_of(text)?;
    (number < 1 << 63).then_some(number)
}
