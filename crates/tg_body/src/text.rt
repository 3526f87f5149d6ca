//! Chunk lines and trailers.
ghost use Rattle.std.specs.Prelude.{◌≡◌, ℕ, ◌<◌, ◌≤◌, ◌⊎◌, ◌↔◌, List, ◌++◌, length, All, IsTrue, MatchOption};
ghost use Rattle.std.specs.Prelude.{MatchResult};
ghost use Rattle.httparse.specs.Grammar.{LineEnd, print_end};
ghost use Rattle.tg_bytes.specs.Lists.{joined};
ghost use Rattle.tg_http.specs.HeadText.{IsLine, IsFullLine};
ghost use Rattle.tg_http.specs.declared.fault.HttpFault.{HttpFault};
ghost use Rattle.tg_body.specs.Bodies.{SizeLine, TrailerText};
ghost use Rattle.tg_body.specs.Steps.{EndsLine, InsideLine, IsTooLong};

use httparse::spans::{EMPTY_HEADER_SPAN, parse_headers};
use httparse::{Status, parse_chunk_size};
use tg_bytes::Bytes;
use tg_http::{HttpFault, MAX_FIELDS, MAX_TEXT, line_length};

/// Keeps bytes of the piece up to the end of a line, and says how many where the line is whole.
///
/// Errors: `BadFraming` where 16,384 bytes are there and none of them ends the line, and `OutOfMemory`, which an
/// empty piece never gives.
pub(crate) fn keep_line(came: &mut Bytes, piece: &[u8]) -> Result<Option<usize>, HttpFault>
    ensures { MatchResult result
        (λ told. MatchOption told (InsideLine came.old piece.now came.new)
        (λ size. EndsLine came.old piece.now size came.new))
        (λ fault. ((fault ≡ HttpFault.OutOfMemory) × (0 < length piece.now))
        ⊎ ((fault ≡ HttpFault.BadFraming) × IsTooLong came.old piece.now)) }
{
    let room = MAX_TEXT.saturating_sub(came.as_slice().len());
    match line_length(piece) {
        Some(size) if size <= room => {
            came.push_all(&piece[..size])?;
            Ok(Some(size))
        }
        None if piece.len() < room => {
            if !piece.is_empty() {
                came.push_all(piece)?;
            }
            Ok(None)
        }
        _ => Err(HttpFault::BadFraming),
    }
}

/// The size that a chunk line states.
pub(crate) fn stated_size(line: &[u8]) -> Option<u64>
    ensures { IsLine line.now → length line.now ≤ 16384
        → MatchOption result ((size : ℕ) → SizeLine size line.now → ⊥) (λ size. SizeLine size line.now) }
{
    tg_http::laws::line_laws();
    match parse_chunk_size(line) {
        Ok(Status::Complete((_, size))) => { if size < 1 << 63 { Some(size) } else { None } }
        Ok(Status::Partial) => None,
        Err(_) => None,
    }
}

/// Whether lines up to and with the first empty one are a trailer.
pub(crate) fn is_trailer(block: &[u8]) -> bool
    ensures { (lines : List (List ℕ)) (last : LineEnd) → All IsFullLine lines → block.now ≡ joined lines
        ++ print_end last
        → length block.now ≤ 16384 → IsTrue result ↔ TrailerText block.now }
{
    let mut room = [EMPTY_HEADER_SPAN; MAX_FIELDS];
    match parse_headers(block, &mut room) {
        Ok(Status::Complete((size, _))) => size == block.len(),
        Ok(Status::Partial) => false,
        Err(_) => false,
    }
}
