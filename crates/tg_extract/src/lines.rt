//! The first lines of a bundle's records.
ghost use Rattle.std.specs.Prelude.{◌≡◌, ◌≢◌, ◌<◌, ◌↔◌, ◌⊎◌, ◌^◌, ◌++◌, ◌∷◌, [], Err, IfErr, IfOk, IsTrue, List as Items, MatchOption, decimal, ℕ};
ghost use Rattle.tg_bundles.specs.Reading.{AreNames};
ghost use Rattle.tg_bundles.specs.Records.{path_text};
ghost use Rattle.tg_bytes.specs.Ascii.{line_feed, space};
ghost use Rattle.tg_extract.specs.Lines.{IsGoodLine, IsGoodPath, line_text};
ghost use Rattle.tg_extract.specs.declared.lines.Line.{Line};

use crate::fault::ExtractFault;
use itoa::Buffer;
use std::alloc::{AllocError, Global};
use tg_bytes::{Bytes, List, SPACE, number_of};
use tg_escape::push_escaped;
use tg_query::{cut_first, parse_path};

/// The first line of a record: of a folder, of a file of so many bytes, or of a symbolic link whose target has so many, each at a path of
/// names below what the bundle is of.
#[derive(Drop)]
pub(crate) enum Line {
    Folder(List<Bytes>),
    File(u64, List<Bytes>),
    Link(u64, List<Bytes>),
}

/// The line that a text without its line feed is. A text is taken where it is just what a record's first line is: a path that is escaped
/// otherwise, or a number with a zero before it, isn't one.
///
/// Errors: `BadText` where it isn't the first line of a record whose path has at most 128 names of entries, and whose size has at most 19
/// digits; `OutOfMemory`.
pub(crate) fn parse_line(alloc: Global, text: &[u8]) -> Result<Line, ExtractFault>
    ensures line { IfOk result (λ line. line_text line ≡ text.now ++ line_feed ∷ []) }
    ensures good { IfOk result IsGoodLine }
    ensures bad { result ≡ Err ExtractFault.BadText → (line : Line) → IsGoodLine line
        → line_text line ≢ text.now ++ line_feed ∷ [] }
    ensures others { IfErr result (λ fault. (fault ≡ ExtractFault.BadText) ⊎ (fault ≡ ExtractFault.OutOfMemory)) }
{
    if let Some(path) = behind(text, b"dir ") {
        return Ok(Line::Folder(path_in(alloc, path)?));
    }
    if let Some(rest) = behind(text, b"file ") {
        let (size, path) = sized_in(alloc, rest)?;
        return Ok(Line::File(size, path));
    }
    if let Some(rest) = behind(text, b"link ") {
        let (size, path) = sized_in(alloc, rest)?;
        return Ok(Line::Link(size, path));
    }
    Err(ExtractFault::BadText)
}

/// What stands behind a front of a text, where it begins so.
fn behind<'a>(text: &'a [u8], front: &[u8]) -> Option<&'a [u8]>
    ensures { MatchOption result ((rest : Items ℕ) → text.now ≢ front.now ++ rest) (λ rest. text.now ≡ front.now ++ rest.now) }
{
    text.strip_prefix(front)
}

/// The size and the path that a text writes, a space between them. Errors: `BadText` where it isn't just that; `OutOfMemory`.
fn sized_in(alloc: Global, text: &[u8]) -> Result<(u64, List<Bytes>), ExtractFault>
    ensures text { IfOk result (λ both. decimal both.0 ++ space ∷ path_text both.1 ≡ text.now) }
    ensures good { IfOk result (λ both. IsGoodPath both.1 × (both.0 < 10 ^ 19)) }
    ensures bad { result ≡ Err ExtractFault.BadText → (size : ℕ) (path : Items (Items ℕ)) → IsGoodPath path → size < 10 ^ 19
        → decimal size ++ space ∷ path_text path ≢ text.now }
    ensures others { IfErr result (λ fault. (fault ≡ ExtractFault.BadText) ⊎ (fault ≡ ExtractFault.OutOfMemory)) }
{
    tg_query::path_laws::cuts_read();
    let (digits, rest) = cut_first(text, SPACE);
    let Some(rest) = rest else {
        return Err(ExtractFault::BadText);
    };
    let Some(size) = number_of(digits) else {
        return Err(ExtractFault::BadText);
    };
    if !is_decimal(size, digits) {
        return Err(ExtractFault::BadText);
    }
    let path = path_in(alloc, rest)?;
    Ok((size, path))
}

/// Whether a text is just the decimal digits of a number.
fn is_decimal(number: u64, text: &[u8]) -> bool
    ensures { IsTrue result ↔ (decimal number ≡ text.now) }
{
    let mut digits = Buffer::new();
    digits.format(number).as_bytes() == text
}

/// The path that a text writes. Errors: `BadText` where it isn't just the text of a path of at most 128 names of entries; `OutOfMemory`.
fn path_in(alloc: Global, text: &[u8]) -> Result<List<Bytes>, ExtractFault>
    ensures text { IfOk result (λ path. path_text path ≡ text.now) }
    ensures good { IfOk result IsGoodPath }
    ensures bad { result ≡ Err ExtractFault.BadText → (path : Items (Items ℕ)) → IsGoodPath path → path_text path ≢ text.now }
    ensures others { IfErr result (λ fault. (fault ≡ ExtractFault.BadText) ⊎ (fault ≡ ExtractFault.OutOfMemory)) }
{
    tg_query::path_laws::paths_read();
    tg_bundles::decoded();
    let path = parse_path(alloc, text)?;
    let whole = is_shown(alloc, path.as_slice(), text)?;
    if !whole {
        return Err(ExtractFault::BadText);
    }
    Ok(path)
}

/// Whether a bundle writes a path of names that aren't empty as this text. The error is want of memory.
fn is_shown(alloc: Global, path: &[Bytes], text: &[u8]) -> Result<bool, AllocError>
    requires { AreNames path.now }
    ensures { IfOk result (λ is. IsTrue is ↔ (path_text path.now ≡ text.now)) }
{
    let shown = shown_path(alloc, path)?;
    Ok(shown.as_slice() == text)
}

/// A path of names that aren't empty as a bundle writes it. The error is want of memory.
fn shown_path(alloc: Global, path: &[Bytes]) -> Result<Bytes, AllocError>
    requires { AreNames path.now }
    ensures { IfOk result (λ text. text ≡ path_text path.now) }
{
    let mut text = Bytes::new(alloc);
    for name in path {
        text.push_all(b"/")?;
        push_escaped(&mut text, alloc, name.as_slice())?;
    }
    if path.is_empty() {
        text.push_all(b"/")?;
    }
    Ok(text)
}
