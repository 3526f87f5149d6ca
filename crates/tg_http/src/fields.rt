//! The fields of a head by their names.
ghost use Rattle.std.specs.Prelude.{◌≡◌, ◌↔◌, ℕ, ◌⊎◌, ◌<◌, ◌≤◌, List as Items, [], ◌∷◌, ◌++◌, map, length, All, IfOk};
ghost use Rattle.std.specs.Prelude.{codes, option_copied};
ghost use Rattle.std.specs.List.{list_any};
ghost use Rattle.std.specs.Str.{str_eq_ignore_ascii_case};
ghost use Rattle.httparse.specs.Grammar.{trim_ows};
ghost use Rattle.httparse.specs.Spans.{IsHeaderWithin, header_bytes};
ghost use Rattle.tg_http.specs.Fields.{value_under, values, lists_token, closes, first, coding_of, is_identity};
ghost use Rattle.tg_http.specs.Fields.{AreValues};

use httparse::is_space_or_tab;
use httparse::spans::HeaderSpan;
use std::alloc::{AllocError, Global};
use tg_bytes::{Bytes, List};

/// The value of the fields of one name.
#[derive(Clone, Copy)]
pub(crate) enum FieldValue<'a> {
    /// No field has the name.
    Absent,
    /// One field has the name.
    Single(&'a [u8]),
    /// Several fields have the name.
    Repeated,
}

impl<'a> FieldValue<'a> {
    /// The same with one more field, which has this value.
    fn and(self, value: &'a [u8]) -> FieldValue<'a>
        ensures { (found : Items (Items ℕ)) → AreValues found self.entry → AreValues (found ++ value.now ∷ []) result }
    {
        match self {
            FieldValue::Absent => FieldValue::Single(value),
            _ => FieldValue::Repeated,
        }
    }
}

/// Whether two texts are equal without regard to ASCII case.
fn is_same(text: &[u8], other: &[u8]) -> bool
    ensures { result ≡ str_eq_ignore_ascii_case text.now other.now }
{
    text.eq_ignore_ascii_case(other)
}

/// The value of a field where it has this name.
fn value_under<'a>(text: &'a [u8], field: HeaderSpan, name: &[u8]) -> Option<&'a [u8]>
    requires { IsHeaderWithin (length text.now) field }
    ensures { option_copied result ≡ value_under name.now (header_bytes text.now field) }
{
    if is_same(field.name.of(text), name) {
        Some(field.value.of(text))
    } else {
        None
    }
}

/// The value of the fields of this name.
pub(crate) fn value_of<'a>(text: &'a [u8], fields: &[HeaderSpan], name: &[u8]) -> FieldValue<'a>
    requires { All (IsHeaderWithin (length text.now)) fields.now }
    ensures { AreValues (values name.now (map (header_bytes text.now) fields.now)) result }
{
    let mut found = FieldValue::Absent;
    for field in fields {
        if let Some(value) = value_under(text, *field, name) {
            found = found.and(value);
        }
    }
    found
}

/// The value of the first field of this name.
pub(crate) fn first_value<'a>(
    text: &'a [u8],
    fields: &[HeaderSpan],
    name: &[u8],
) -> Option<&'a [u8]>
    requires { All (IsHeaderWithin (length text.now)) fields.now }
    ensures { option_copied result ≡ first (values name.now (map (header_bytes text.now) fields.now)) }
{
    for field in fields {
        if let Some(value) = value_under(text, *field, name) {
            return Some(value);
        }
    }
    None
}

/// The first coding that isn't `identity`, else the first.
pub(crate) fn coding<'a>(text: &'a [u8], fields: &[HeaderSpan]) -> Option<&'a [u8]>
    requires { All (IsHeaderWithin (length text.now)) fields.now }
    ensures { option_copied result ≡ coding_of (values (codes "content-encoding")
        (map (header_bytes text.now) fields.now)) }
{
    for field in fields {
        if let Some(value) = value_under(text, *field, b"content-encoding") {
            if !is_same(value, b"identity") {
                return Some(value);
            }
        }
    }
    first_value(text, fields, b"content-encoding")
}

/// The values of the `Accept` fields, in order. The error is want of memory.
pub(crate) fn accepted(
    alloc: Global,
    text: &[u8],
    fields: &[HeaderSpan],
) -> Result<List<Bytes>, AllocError>
    requires { All (IsHeaderWithin (length text.now)) fields.now }
    ensures { IfOk result (λ list. list ≡ values (codes "accept") (map (header_bytes text.now) fields.now)) }
{
    let mut list = List::new(alloc);
    for field in fields {
        if let Some(value) = value_under(text, *field, b"accept") {
            list.push(Bytes::of(alloc, value)?)?;
        }
    }
    Ok(list)
}

/// Whether a `Connection` field has the token `close`.
pub(crate) fn has_close(text: &[u8], fields: &[HeaderSpan]) -> bool
    requires { All (IsHeaderWithin (length text.now)) fields.now }
    ensures { result ≡ closes (map (header_bytes text.now) fields.now) }
{
    for field in fields {
        if let Some(value) = value_under(text, *field, b"connection") {
            if lists_token(value, b"close") {
                return true;
            }
        }
    }
    false
}

/// Whether a list with commas between its elements has this token.
fn lists_token(value: &[u8], token: &[u8]) -> bool
    ensures { result ≡ lists_token token.now value.now }
{
    value
        .split(|byte| *byte == b',')
        .any(|part| is_same(without_spaces(part), token))
}

/// The bytes without the spaces and tabs at both ends.
///
/// RFC 9110, section 5.6.3.
pub fn without_spaces(bytes: &[u8]) -> &[u8]
    ensures { result.now ≡ trim_ows bytes.now }
{
    let mut start = 0;
    let mut end = bytes.len();
    while start < end && is_space_or_tab(bytes[start]) {
        start += 1;
    }
    while start < end && is_space_or_tab(bytes[end - 1]) {
        end -= 1;
    }
    &bytes[start..end]
}
