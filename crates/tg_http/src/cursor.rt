//! Heads in bytes that come piece by piece.
ghost use Rattle.std.specs.Prelude.{◌≡◌, ℕ, ◌⊎◌, List as Items, length, Ok, Err, None, IfOk, IfErr, IfSome, OnErr};
ghost use Rattle.std.specs.Prelude.{IsSomeAnd, MatchResult};
ghost use Rattle.httparse.specs.Grammar.{RequestHead as RequestTree, ResponseHead as ReplyTree};
ghost use Rattle.tg_http.specs.Heads.{IsWaiting, HasHeadCause};
ghost use Rattle.tg_http.specs.Heads.{IsRequest, IsNoRequest, TellsRequest, FindsRequest};
ghost use Rattle.tg_http.specs.Heads.{IsReply, IsNoReply, TellsReply, FindsReply};
ghost use Rattle.tg_http.specs.Sought.{IsSought};
ghost use Rattle.tg_http.specs.declared.fault.HttpFault.{HttpFault};

use crate::fault::HttpFault;
use crate::head_text::head_text;
use crate::reply::{ReplyHead, whole_reply};
use crate::request::{RequestHead, whole_request};
use std::alloc::Global;

/// How far the end of a head was sought in bytes that come piece by piece.
///
/// RFC 9112, section 2.2.
#[derive(Clone, Copy, Debug)]
pub struct HeadCursor {
    /// Where the line that isn't whole begins.
    pub(crate) line: usize,
    /// How many bytes were looked at. No line feed is among those from `line` on.
    pub(crate) seen: usize,
    /// How many lines stand before that line, from the first one on that isn't empty.
    pub(crate) lines: usize,
}

impl HeadCursor {
    /// The cursor before the first byte.
    ///
    /// RFC 9112, section 2.2.
    pub fn new() -> HeadCursor
        ensures { (bytes : Items ℕ) → IsSought result bytes }
    {
        HeadCursor {
            line: 0,
            seen: 0,
            lines: 0,
        }
    }
}

/// The head of the request at the front, or none while no head text is whole: that of `read_request`, but sought from
/// where the cursor stands, which was sought in a front of these bytes. Where none is whole the cursor stands behind
/// what was looked at; where a head is given it stands before the first byte again, for what follows the head; and at
/// an error it doesn't change.
///
/// RFC 9112, section 2.2. Errors: `HeadLimit` where the first 16,384 bytes hold no whole head text or it has more than
/// 64 fields, then `BadHead` where the head text is no head of a request, and `OutOfMemory`.
pub fn next_request(
    alloc: Global,
    bytes: &[u8],
    cursor: &mut HeadCursor,
) -> Result<Option<RequestHead>, HttpFault>
    requires sought { IsSought cursor.old bytes.now }
    ensures found { IfOk result (FindsRequest bytes.now) }
    ensures only { (text : Items ℕ) (tree : RequestTree) → IsRequest bytes.now text tree
        → MatchResult result (λ told. IsSomeAnd told (TellsRequest tree (length text)))
        (λ fault. fault ≡ HttpFault.OutOfMemory) }
    ensures waiting { IsWaiting bytes.now → result ≡ Ok None }
    ensures cause { IfErr result (λ fault. (fault ≡ HttpFault.OutOfMemory) ⊎ HasHeadCause IsNoRequest bytes.now fault) }
    ensures given { (fault : HttpFault) → HasHeadCause IsNoRequest bytes.now fault → result ≡ Err fault }
    ensures sought { result ≡ Ok None → IsSought cursor.new bytes.now }
    ensures seen { result ≡ Ok None → cursor.new.seen ≡ length bytes.now }
    ensures fresh { IfOk result (λ told. IfSome told (λ _. (bytes : Items ℕ) → IsSought cursor.new bytes)) }
    ensures err { OnErr result (cursor.new ≡ cursor.old) }
{
    let Some(text) = head_text(bytes, cursor)? else {
        return Ok(None);
    };
    let head = whole_request(alloc, text)?;
    *cursor = HeadCursor::new();
    Ok(Some(head))
}

/// The head of the reply at the front, or none while no head text is whole: that of `read_reply`, but sought from where
/// the cursor stands, which was sought in a front of these bytes. Where none is whole the cursor stands behind what was
/// looked at; where a head is given it stands before the first byte again, for what follows the head; and at an error
/// it doesn't change.
///
/// RFC 9112, section 2.2. Errors: `HeadLimit` where the first 16,384 bytes hold no whole head text or it has more than
/// 64 fields, then `BadHead` where the head text is no head of a reply, and `OutOfMemory`.
pub fn next_reply(
    alloc: Global,
    bytes: &[u8],
    cursor: &mut HeadCursor,
) -> Result<Option<ReplyHead>, HttpFault>
    requires sought { IsSought cursor.old bytes.now }
    ensures found { IfOk result (FindsReply bytes.now) }
    ensures only { (text : Items ℕ) (tree : ReplyTree) → IsReply bytes.now text tree
        → MatchResult result (λ told. IsSomeAnd told (TellsReply tree (length text)))
        (λ fault. fault ≡ HttpFault.OutOfMemory) }
    ensures waiting { IsWaiting bytes.now → result ≡ Ok None }
    ensures cause { IfErr result (λ fault. (fault ≡ HttpFault.OutOfMemory) ⊎ HasHeadCause IsNoReply bytes.now fault) }
    ensures given { (fault : HttpFault) → HasHeadCause IsNoReply bytes.now fault → result ≡ Err fault }
    ensures sought { result ≡ Ok None → IsSought cursor.new bytes.now }
    ensures seen { result ≡ Ok None → cursor.new.seen ≡ length bytes.now }
    ensures fresh { IfOk result (λ told. IfSome told (λ _. (bytes : Items ℕ) → IsSought cursor.new bytes)) }
    ensures err { OnErr result (cursor.new ≡ cursor.old) }
{
    let Some(text) = head_text(bytes, cursor)? else {
        return Ok(None);
    };
    let head = whole_reply(alloc, text)?;
    *cursor = HeadCursor::new();
    Ok(Some(head))
}
