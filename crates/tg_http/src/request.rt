//! The head of a request.
ghost use Rattle.std.specs.Prelude.{◌≡◌, ℕ, ◌≤◌, ◌⊎◌, List as Items, [], map, length, All, Ok, Err, None, IfOk, IfErr};
ghost use Rattle.std.specs.Prelude.{IsSomeAnd, MatchResult};
ghost use Rattle.httparse.specs.Grammar.{RequestHead as RequestTree, ReadsRequest};
ghost use Rattle.httparse.specs.Spans.{IsWithin, IsHeaderWithin, header_bytes, span_bytes};
ghost use Rattle.tg_http.specs.HeadText.{HeadText};
ghost use Rattle.tg_http.specs.Heads.{IsWaiting, IsRequest, IsNoRequest, TellsParts, TellsRequest, FindsRequest};
ghost use Rattle.tg_http.specs.Heads.{HasHeadCause};
ghost use Rattle.tg_http.specs.declared.fault.HttpFault.{HttpFault};

use crate::cursor::{HeadCursor, next_request};
use crate::fault::HttpFault;
use crate::fields::{accepted, has_close};
use crate::framing::announces_body;
use crate::head_text::MAX_FIELDS;
use httparse::Status;
use httparse::spans::{EMPTY_HEADER_SPAN, HeaderSpan, RequestSpans, parse_request};
use std::alloc::{AllocError, Global};
use tg_bytes::{Bytes, List};

/// What the head of a request says.
#[derive(Drop)]
pub struct RequestHead {
    /// How many bytes the head has.
    pub used: usize,
    /// The method, as it is written.
    pub method: Bytes,
    /// The request target.
    pub target: Bytes,
    /// The minor version: 0 for HTTP/1.0, 1 for HTTP/1.1.
    pub minor: u8,
    /// The values of the `Accept` fields, in order.
    pub accept: List<Bytes>,
    /// Whether a `Connection` field has the token `close`.
    pub close: bool,
    /// Whether a body is announced: by a `Transfer-Encoding`, or by a `Content-Length` other than one of 1 to 19 digits
    /// of value 0.
    pub framed: bool,
}

/// The head of the request at the front, or none while no head text is whole.
///
/// RFC 9112, sections 2 to 6. Errors: `HeadLimit` where the first 16,384 bytes hold no whole head text or it has more
/// than 64 fields, then `BadHead` where the head text is no head of a request, and `OutOfMemory`.
pub fn read_request(alloc: Global, bytes: &[u8]) -> Result<Option<RequestHead>, HttpFault>
    ensures found { IfOk result (FindsRequest bytes.now) }
    ensures only { (text : Items ℕ) (tree : RequestTree) → IsRequest bytes.now text tree
        → MatchResult result (λ told. IsSomeAnd told (TellsRequest tree (length text)))
        (λ fault. fault ≡ HttpFault.OutOfMemory) }
    ensures waiting { IsWaiting bytes.now → result ≡ Ok None }
    ensures cause { IfErr result (λ fault. (fault ≡ HttpFault.OutOfMemory) ⊎ HasHeadCause IsNoRequest bytes.now fault) }
    ensures given { (fault : HttpFault) → HasHeadCause IsNoRequest bytes.now fault → result ≡ Err fault }
{
    next_request(alloc, bytes, &mut HeadCursor::new())
}

/// The head of a request that the whole text is.
pub(crate) fn whole_request(alloc: Global, text: &[u8]) -> Result<RequestHead, HttpFault>
    requires { (count : ℕ) × HeadText text.now count × (count ≤ 64) }
    ensures { MatchResult result
        (λ head. (tree : RequestTree) × ReadsRequest text.now tree [] × TellsRequest tree (length text.now) head)
        (λ fault. ((fault ≡ HttpFault.OutOfMemory) × ((tree : RequestTree) × ReadsRequest text.now tree []))
        ⊎ ((fault ≡ HttpFault.BadHead) × IsNoRequest text.now)) }
{
    let mut room = [EMPTY_HEADER_SPAN; MAX_FIELDS];
    match parse_request(text, &mut room) {
        Ok(Status::Complete(spans)) => Ok(told(alloc, text, &spans, &room[..spans.headers])?),
        Ok(Status::Partial) => Err(HttpFault::BadHead),
        Err(_) => Err(HttpFault::BadHead),
    }
}

/// What is told of a head with these parts. The error is want of memory.
fn told(
    alloc: Global,
    text: &[u8],
    spans: &RequestSpans,
    fields: &[HeaderSpan],
) -> Result<RequestHead, AllocError>
    requires method { IsWithin (length text.now) spans.now.method }
    requires path { IsWithin (length text.now) spans.now.path }
    requires fields { All (IsHeaderWithin (length text.now)) fields.now }
    ensures { IfOk result (TellsParts (length text.now) (span_bytes text.now spans.now.method)
        (span_bytes text.now spans.now.path)
        spans.now.version (map (header_bytes text.now) fields.now)) }
{
    Ok(RequestHead {
        used: text.len(),
        method: Bytes::of(alloc, spans.method.of(text))?,
        target: Bytes::of(alloc, spans.path.of(text))?,
        minor: spans.version,
        accept: accepted(alloc, text, fields)?,
        close: has_close(text, fields),
        framed: announces_body(text, fields),
    })
}
