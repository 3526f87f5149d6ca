//! How a body is framed.
ghost use Rattle.std.specs.Prelude.{◌≡◌, ◌↔◌, ℕ, List, [], ◌∷◌, map, length, All, IsFalse};
ghost use Rattle.httparse.specs.Spans.{IsHeaderWithin, header_bytes};
ghost use Rattle.tg_http.specs.Fields.{values, AreValues};
ghost use Rattle.tg_http.specs.Framing.{codings, lengths, IsFramingOf, HasNoBody};

use crate::fields::{FieldValue, value_of};
use httparse::spans::HeaderSpan;
use tg_bytes::number_of;

/// How a body is framed.
///
/// RFC 9112, section 6.3.
#[derive(Clone, Copy, Debug, PartialEq, Eq)]
pub enum Framing {
    /// The body has so many bytes, fewer than 2 ^ 63.
    Length(u64),
    /// The body comes in chunks.
    Chunked,
    /// The body goes on until the link closes.
    UntilClose,
    /// The fields state no framing of these.
    Broken,
}

/// The framing that the fields of a reply state.
pub(crate) fn framing_of(text: &[u8], fields: &[HeaderSpan]) -> Framing
    requires { All (IsHeaderWithin (length text.now)) fields.now }
    ensures { IsFramingOf (map (header_bytes text.now) fields.now) result }
{
    stated_framing(
        value_of(text, fields, b"transfer-encoding"),
        value_of(text, fields, b"content-length"),
    )
}

/// The framing that the values of `Transfer-Encoding` and `Content-Length` state.
fn stated_framing(coding: FieldValue<'_>, length: FieldValue<'_>) -> Framing
    ensures { (fields : List (List ℕ × List ℕ)) → AreValues (codings fields) coding.entry
        → AreValues (lengths fields) length.entry
        → IsFramingOf fields result }
{
    match (coding, length) {
        (FieldValue::Absent, FieldValue::Absent) => Framing::UntilClose,
        (FieldValue::Absent, FieldValue::Single(value)) => stated_length(value),
        (FieldValue::Single(value), FieldValue::Absent) if value.eq_ignore_ascii_case(b"chunked") =>
            { Framing::Chunked }
        _ => Framing::Broken,
    }
}

/// The framing that the one value of `Content-Length` states.
fn stated_length(value: &[u8]) -> Framing
    ensures { (fields : List (List ℕ × List ℕ)) → codings fields ≡ [] → lengths fields ≡ value.now ∷ []
        → IsFramingOf fields result }
{
    match number_of(value) {
        Some(number) if number < 1 << 63 => Framing::Length(number),
        _ => Framing::Broken,
    }
}

/// Whether the fields of a request announce a body.
pub(crate) fn announces_body(text: &[u8], fields: &[HeaderSpan]) -> bool
    requires { All (IsHeaderWithin (length text.now)) fields.now }
    ensures { IsFalse result ↔ HasNoBody (map (header_bytes text.now) fields.now) }
{
    match value_of(text, fields, b"transfer-encoding") {
        FieldValue::Absent => has_length(value_of(text, fields, b"content-length")),
        _ => true,
    }
}

/// Whether the value of `Content-Length` is anything but one of 1 to 19 digits of value 0.
fn has_length(length: FieldValue<'_>) -> bool
    ensures { (fields : List (List ℕ × List ℕ)) → codings fields ≡ [] → AreValues (lengths fields) length.entry
        → IsFalse result ↔ HasNoBody fields }
{
    match length {
        FieldValue::Absent => false,
        FieldValue::Single(value) => number_of(value) != Some(0),
        FieldValue::Repeated => true,
    }
}
