//! The text of a head, found before it is read.
ghost use Rattle.std.specs.Prelude.{◌≡◌, ◌≢◌, ℕ, ◌+◌, ◌<◌, ◌≤◌, ◌⊎◌, ◌↔◌, List, ◌++◌, length, take, All, Some, IsTrue};
ghost use Rattle.std.specs.Prelude.{IfSome, IfNone, IfOk, OnSome, MatchOption, MatchResult};
ghost use Rattle.tg_http.specs.HeadText.{IsLine, IsEmptyLine, HeadText, BeginsHead};
ghost use Rattle.tg_http.specs.Heads.{IsWaiting, PassesLimit};
ghost use Rattle.tg_http.specs.Sought.{IsSought};
ghost use Rattle.tg_http.specs.declared.fault.HttpFault.{HttpFault};
ghost use Rattle.tg_http.specs.declared.head_text.Extent.{Extent};

use crate::cursor::HeadCursor;
use crate::fault::HttpFault;

/// How many bytes a head text, a chunk line and a trailer have at most.
pub const MAX_TEXT: usize = 16_384;

/// How many fields a head and a trailer have at most.
pub const MAX_FIELDS: usize = 64;

/// The length of a head text, and how many lines stand between its start line and the empty line.
#[derive(Clone, Copy)]
struct Extent {
    bytes: usize,
    fields: usize,
}

/// The length of the first line, with its line feed, or none where no line is whole.
///
/// RFC 9112, section 2.2.
pub fn line_length(bytes: &[u8]) -> Option<usize>
    ensures { MatchOption result (All (λ b. b ≢ 10) bytes.now) (λ n. (n ≤ length bytes.now) × (0 < n)
        × IsLine (take n bytes.now)) }
{
    let at = bytes.iter().position(|byte| *byte == b'\n')?;
    Some(at + 1)
}

/// Whether a line is empty: a line feed alone, or CR and a line feed.
///
/// RFC 9112, section 2.2.
pub fn is_empty_line(line: &[u8]) -> bool
    ensures { IsTrue result ↔ IsEmptyLine line.now }
{
    matches!(line, b"\n" | b"\r\n")
}

/// Where the head text at the front ends, sought from where the cursor stands. Where it ends nowhere the cursor stands
/// behind the bytes.
fn find_extent(bytes: &[u8], cursor: &mut HeadCursor) -> Option<Extent>
    requires sought { IsSought cursor.old bytes.now }
    requires short { length bytes.now ≤ 16384 }
    ensures found { IfSome result (λ told. (told.bytes ≤ length bytes.now)
        × HeadText (take told.bytes bytes.now) told.fields) }
    ensures only { (text rest : List ℕ) (count : ℕ) → HeadText text count → bytes.now ≡ text ++ rest
        → result ≡ Some (record { bytes = length text; fields = count }) }
    ensures sought { IfNone result (IsSought cursor.new bytes.now) }
    ensures seen { IfNone result (cursor.new.seen ≡ length bytes.now) }
{
    while let Some(size) = line_length(&bytes[cursor.seen..]) {
        let end = cursor.seen + size;
        if !is_empty_line(&bytes[cursor.line..end]) {
            cursor.lines += 1;
        } else if cursor.lines > 0 {
            return Some(Extent {
                bytes: end,
                fields: cursor.lines - 1,
            });
        }
        cursor.line = end;
        cursor.seen = end;
    }
    cursor.seen = bytes.len();
    None
}

/// The head text at the front, or none where it isn't whole yet, sought from where the cursor stands. The cursor moves
/// only where it isn't whole.
///
/// RFC 9112, section 2.2. Errors: `HeadLimit` where the first 16,384 bytes hold none or it has more than 64 fields.
pub(crate) fn head_text<'a>(
    bytes: &'a [u8],
    cursor: &mut HeadCursor,
) -> Result<Option<&'a [u8]>, HttpFault>
    requires { IsSought cursor.old bytes.now }
    ensures told { MatchResult result
        (λ told. MatchOption told (IsWaiting bytes.now) (λ text. (count : ℕ) × BeginsHead bytes.now text.now count
        × (count ≤ 64)))
        (λ fault. (fault ≡ HttpFault.HeadLimit) × PassesLimit bytes.now) }
    ensures sought { IfOk result (λ told. IfNone told (IsSought cursor.new bytes.now)) }
    ensures seen { IfOk result (λ told. IfNone told (cursor.new.seen ≡ length bytes.now)) }
    ensures kept { MatchResult result (λ told. OnSome told (cursor.new ≡ cursor.old)) (λ _. cursor.new ≡ cursor.old) }
{
    let front = &bytes[..bytes.len().min(MAX_TEXT)];
    let mut next = *cursor;
    match find_extent(front, &mut next) {
        Some(told) if told.fields <= MAX_FIELDS => Ok(Some(&bytes[..told.bytes])),
        None if bytes.len() < MAX_TEXT => {
            *cursor = next;
            Ok(None)
        }
        _ => Err(HttpFault::HeadLimit),
    }
}
