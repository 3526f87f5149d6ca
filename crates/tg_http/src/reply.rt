//! The head of a reply.
ghost use Rattle.std.specs.Prelude.{◌≡◌, ℕ, ◌≤◌, ◌⊎◌, List, [], map, length, All, Ok, Err, None, IfOk, IfErr};
ghost use Rattle.std.specs.Prelude.{IsSomeAnd, MatchResult, option_copied};
ghost use Rattle.httparse.specs.Grammar.{ResponseHead as ReplyTree, ReadsResponse};
ghost use Rattle.httparse.specs.Spans.{IsHeaderWithin, header_bytes};
ghost use Rattle.tg_http.specs.HeadText.{HeadText};
ghost use Rattle.tg_http.specs.Heads.{IsWaiting, IsReply, IsNoReply, TellsReplyParts, TellsReply, FindsReply};
ghost use Rattle.tg_http.specs.Heads.{HasHeadCause};
ghost use Rattle.tg_http.specs.declared.fault.HttpFault.{HttpFault};

use crate::cursor::{HeadCursor, next_reply};
use crate::fault::HttpFault;
use crate::fields::{coding, first_value};
use crate::framing::{Framing, framing_of};
use crate::head_text::MAX_FIELDS;
use httparse::Status;
use httparse::spans::{EMPTY_HEADER_SPAN, HeaderSpan, parse_response};
use std::alloc::{AllocError, Global};
use tg_bytes::Bytes;

/// What the head of a reply says.
#[derive(Drop)]
pub struct ReplyHead {
    /// How many bytes the head has.
    pub used: usize,
    /// The status: the number that its three digits write.
    pub status: u16,
    /// The value of the first `Content-Type` field.
    pub kind: Option<Bytes>,
    /// The value of the first `Content-Encoding` field that isn't `identity`, else of the first.
    pub coding: Option<Bytes>,
    /// How the body is framed.
    pub framing: Framing,
}

/// The head of the reply at the front, or none while no head text is whole.
///
/// RFC 9112, sections 2 to 6. Errors: `HeadLimit` where the first 16,384 bytes hold no whole head text or it has more
/// than 64 fields, then `BadHead` where the head text is no head of a reply, and `OutOfMemory`.
pub fn read_reply(alloc: Global, bytes: &[u8]) -> Result<Option<ReplyHead>, HttpFault>
    ensures found { IfOk result (FindsReply bytes.now) }
    ensures only { (text : List ℕ) (tree : ReplyTree) → IsReply bytes.now text tree
        → MatchResult result (λ told. IsSomeAnd told (TellsReply tree (length text)))
        (λ fault. fault ≡ HttpFault.OutOfMemory) }
    ensures waiting { IsWaiting bytes.now → result ≡ Ok None }
    ensures cause { IfErr result (λ fault. (fault ≡ HttpFault.OutOfMemory) ⊎ HasHeadCause IsNoReply bytes.now fault) }
    ensures given { (fault : HttpFault) → HasHeadCause IsNoReply bytes.now fault → result ≡ Err fault }
{
    next_reply(alloc, bytes, &mut HeadCursor::new())
}

/// The head of a reply that the whole text is.
pub(crate) fn whole_reply(alloc: Global, text: &[u8]) -> Result<ReplyHead, HttpFault>
    requires { (count : ℕ) × HeadText text.now count × (count ≤ 64) }
    ensures { MatchResult result
        (λ head. (tree : ReplyTree) × ReadsResponse text.now tree [] × TellsReply tree (length text.now) head)
        (λ fault. ((fault ≡ HttpFault.OutOfMemory) × ((tree : ReplyTree) × ReadsResponse text.now tree []))
        ⊎ ((fault ≡ HttpFault.BadHead) × IsNoReply text.now)) }
{
    let mut room = [EMPTY_HEADER_SPAN; MAX_FIELDS];
    match parse_response(text, &mut room) {
        Ok(Status::Complete(spans)) => Ok(told(alloc, text, spans.code, &room[..spans.headers])?),
        Ok(Status::Partial) => Err(HttpFault::BadHead),
        Err(_) => Err(HttpFault::BadHead),
    }
}

/// What is told of a head with these parts. The error is want of memory.
fn told(
    alloc: Global,
    text: &[u8],
    status: u16,
    fields: &[HeaderSpan],
) -> Result<ReplyHead, AllocError>
    requires { All (IsHeaderWithin (length text.now)) fields.now }
    ensures { IfOk result (TellsReplyParts (length text.now) status (map (header_bytes text.now) fields.now)) }
{
    Ok(ReplyHead {
        used: text.len(),
        status,
        kind: copied(alloc, first_value(text, fields, b"content-type"))?,
        coding: copied(alloc, coding(text, fields))?,
        framing: framing_of(text, fields),
    })
}

/// A copy of the bytes, if there are any. The error is want of memory.
fn copied(alloc: Global, bytes: Option<&[u8]>) -> Result<Option<Bytes>, AllocError>
    ensures { IfOk result (λ copy. copy ≡ option_copied bytes.entry) }
{
    match bytes {
        Some(bytes) => Ok(Some(Bytes::of(alloc, bytes)?)),
        None => Ok(None),
    }
}
